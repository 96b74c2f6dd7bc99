// The program, from its words to its status.

use crate::server::serve_all;
use crate::startup::{Startup, ready_by};
use crate::startup_error::StartupError;
use crate::told::put_served;
use kl1_lines::{Sink, finish};
use kl1_pool::Totals;
use std::alloc::Global;
use std::fs::Files;
use std::net::{Net, TcpListener, TcpStream};
use std::sync::Wait;
use std::thread::Threads;

/// The status if what was served can't be told.
const NOT_TOLD: u8 = 1;

/// The sum of the numbers of all accounts.
fn sum_of(numbers: &[u64]) -> u128 {
    let mut sum = 0u128;
    for number in numbers {
        sum = sum.saturating_add(u128::from(*number));
    }
    sum
}

/// Serves as the words ask for, to the end; and answers how many connections were accepted, and what was done to the accounts.
fn served_by<R>(rt: &R, alloc: Global, words: &[String]) -> Result<(u16, Totals), StartupError>
where
    R: Net<Listener = TcpListener, Stream = TcpStream> + Files + Threads + Wait + Sync,
{
    let Startup {
        words,
        keys,
        listener,
    } = ready_by(rt, alloc, words)?;
    let totals = serve_all(
        rt,
        alloc,
        &listener,
        keys.as_slice(),
        words.workers,
        words.accept,
    )?;
    Ok((words.accept, totals))
}

/// Serves as the words ask for, of which the first is the program's name: looks at the words, then at the file of accounts, and then
/// at the address. When all connections have ended it tells `out` what was served; else `err` is told why not. Answers the
/// program's status.
pub fn run_server<R, O: Sink, E: Sink>(
    rt: &R,
    alloc: Global,
    words: &[String],
    out: &mut O,
    err: &mut E,
) -> u8
where
    R: Net<Listener = TcpListener, Stream = TcpStream> + Files + Threads + Wait + Sync,
{
    match served_by(rt, alloc, words) {
        Ok((accepted, totals)) => tell(alloc, accepted, &totals, out, err),
        Err(error) => stop(error, err),
    }
}

/// Tells what was served, and answers the program's status.
fn tell<O: Sink, E: Sink>(
    alloc: Global,
    accepted: u16,
    totals: &Totals,
    out: &mut O,
    err: &mut E,
) -> u8 {
    let mut line = Vec::new(alloc);
    let events = sum_of(&totals.events);
    let steps = sum_of(&totals.steps);
    if put_served(&mut line, u64::from(accepted), events, steps).is_err() {
        return stop(StartupError::Memory, err);
    }
    match finish(out, line.as_slice()) {
        Ok(()) => 0,
        Err(_) => NOT_TOLD,
    }
}

/// Tells why the server doesn't serve, and answers the program's status.
pub fn stop<E: Sink>(error: StartupError, err: &mut E) -> u8 {
    let _ = finish(err, error.line());
    error.status()
}
