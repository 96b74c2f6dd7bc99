// What is told of counting.

use crate::measures::{Times, put_ratio, put_whether};
use crate::report::Text;
use crate::tally::times::{times_of_sum, times_of_tally};
use std::alloc::{AllocError, Global};
use std::rt::Clock;
use std::thread::Threads;

/// How many runs are made to measure, of which the least times are told.
const RUNS: usize = 20;

/// How many events each thread counts in a run.
const EVENTS: usize = 1_000_000;

/// The least times of `runs` runs and one more, of the tally and of the sum.
fn least<R: Threads + Clock + Sync>(
    rt: &R,
    alloc: Global,
    runs: usize,
    events: usize,
) -> Result<(Times, Times), AllocError> {
    let mut sum = times_of_sum(rt, alloc, events)?;
    let mut tally = times_of_tally(rt, alloc, events)?;
    for _run in 0..runs {
        sum = sum.least(times_of_sum(rt, alloc, events)?);
        tally = tally.least(times_of_tally(rt, alloc, events)?);
    }
    Ok((tally, sum))
}

/// Puts whether all that was counted is there, after a text.
fn put_counted(out: &mut Text, before: &[u8], tally: Times, sum: Times) {
    out.put(before);
    put_whether(out, b": tally ", tally.is_right, b", ");
    put_whether(out, b"sum ", sum.is_right, b"\n");
}

/// Whether all is there that one, two and four threads count in one short run, in the tally and in the sum.
pub fn threads_count_all<R: Threads + Clock + Sync>(
    rt: &R,
    alloc: Global,
) -> Result<bool, AllocError> {
    let (tally, sum) = least(rt, alloc, 0, 1000)?;
    Ok(tally.is_right & sum.is_right)
}

/// Makes many runs, and puts the ratios of the least times.
pub fn put_times<R: Threads + Clock + Sync>(rt: &R, out: &mut Text) {
    match least(rt, out.alloc, RUNS - 1, EVENTS) {
        Ok((tally, sum)) => put_least(out, tally, sum),
        Err(_refused) => out.fail(),
    }
}

/// Puts the ratios of times.
fn put_least(out: &mut Text, tally: Times, sum: Times) {
    put_counted(out, b"all is counted", tally, sum);
    out.put(
        b"the time of one event, where 1.00 is that of an addition to one number by one thread:",
    );
    out.put(b"\nby one thread");
    put_ratios(out, tally.one, sum.one, sum.one);
    out.put(b"\nby each of two threads at once");
    put_ratios(out, tally.two, sum.two, sum.one);
    out.put(b"\nby each of four threads at once");
    put_ratios(out, tally.four, sum.four, sum.one);
    out.put(b"\n");
}

/// Puts two times as ratios to a third.
fn put_ratios(out: &mut Text, tally: u128, sum: u128, one: u128) {
    put_ratio(out, b": tally ", tally, one);
    put_ratio(out, b", sum ", sum, one);
}
