// What is told of the speed of workers.

ghost use Rattle.std.specs.Prelude.{◌<◌, ◌≤◌};

use crate::pool::speeds::{most_steps_a_second, put_looks};
use crate::pool::wakes::{put_wakes, sleep_idle};
use crate::report::Text;
use std::rt::Clock;
use std::sync::Wait;
use std::thread::Threads;

/// Puts how many steps a second workers do over accounts.
fn put_steps<R: Threads + Wait + Clock + Sync>(
    rt: &R,
    out: &mut Text,
    accounts: usize,
    workers: usize,
)
    requires some { (0 < accounts) × (accounts ≤ 16) }
    requires few { workers ≤ 16 }
{
    let steps = most_steps_a_second(rt, out.alloc, accounts, workers);
    out.put_number(accounts as u64);
    out.put(b" accounts that run, ");
    out.put_number(workers as u64);
    out.put(b" workers: ");
    match steps {
        Ok(steps) => out.put_number(steps),
        Err(_) => out.fail(),
    }
    out.put(b" steps a second\n");
}

/// Puts how many steps a second one, two and four workers do over accounts.
fn put_all_steps<R: Threads + Wait + Clock + Sync>(rt: &R, out: &mut Text, accounts: usize)
    requires { (0 < accounts) × (accounts ≤ 16) }
{
    put_steps(rt, out, accounts, 1);
    put_steps(rt, out, accounts, 2);
    put_steps(rt, out, accounts, 4);
}

/// Puts how many steps a second one, two and four workers do over one, four and 16 accounts that run; how many nanoseconds it takes
/// to ask whether an account is quiet, half of the times and all but a hundredth; and as much from a start to a worker's turn.
pub fn put_times<R: Threads + Wait + Clock + Sync>(rt: &R, out: &mut Text) {
    put_all_steps(rt, out, 1);
    put_all_steps(rt, out, 4);
    put_all_steps(rt, out, 16);
    out.put(b"quiet, of an account without work, nothing runs:");
    put_looks(rt, out, 0, 15);
    out.put(b"\nquiet, of an account without work, 15 run by four workers:");
    put_looks(rt, out, 15, 15);
    out.put(b"\nquiet, of an account that runs, 15 run by four workers:");
    put_looks(rt, out, 15, 7);
    out.put(b"\nfrom a start to the turn of a worker that slept:");
    put_wakes(rt, out);
    out.put(b"\n");
}

/// Lets four workers be without work for ten seconds.
pub fn put_idle<R: Threads + Wait + Clock + Sync>(rt: &R, out: &mut Text) {
    sleep_idle(rt, out, 10);
    out.put(b"four workers were without work for ten seconds\n");
}
