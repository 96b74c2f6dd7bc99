// The checks by their names.

use crate::pool::starts::eight_threads_start;
use crate::report::{Text, put_check};
use std::rt::Clock;
use std::sync::Wait;
use std::thread::Threads;

/// Puts a line on each check after a report.
pub fn put_checks<R: Threads + Wait + Clock + Sync>(rt: &R, out: &mut Text) {
    let done = eight_threads_start(rt, out.alloc);
    put_check(
        out,
        b"pool eight_threads_start_50_goals_each_of_one_account",
        done,
    );
}
