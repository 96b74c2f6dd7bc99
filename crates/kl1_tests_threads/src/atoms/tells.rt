// What is told of look-ups.

use crate::atoms::names::names;
use crate::atoms::times::{Looks, times_of_run};
use crate::measures::{put_ratio, put_whether};
use crate::report::Text;
use std::alloc::{AllocError, Global};
use std::rt::Clock;
use std::thread::Threads;

/// How many runs are made to measure, of which the least times are told.
const RUNS: usize = 40;

/// How many times each name is looked up in a run by each thread.
const ROUNDS: usize = 100;

/// The least times of `runs` runs and one more.
fn least<R: Threads + Clock + Sync>(
    rt: &R,
    alloc: Global,
    runs: usize,
    rounds: usize,
) -> Result<Looks, AllocError> {
    let texts = names(alloc, 500)?;
    let mut least = times_of_run(rt, alloc, texts.as_slice(), rounds)?;
    for _run in 0..runs {
        least = least.least(times_of_run(rt, alloc, texts.as_slice(), rounds)?);
    }
    Ok(least)
}

/// Whether one, two and four threads find each of 500 names by one number, in one short run.
pub fn threads_find_the_same<R: Threads + Clock + Sync>(
    rt: &R,
    alloc: Global,
) -> Result<bool, AllocError> {
    let looks = least(rt, alloc, 0, 1)?;
    Ok(looks.times.is_right)
}

/// Makes many runs, and puts the ratios of the least times.
pub fn put_times<R: Threads + Clock + Sync>(rt: &R, out: &mut Text) {
    match least(rt, out.alloc, RUNS - 1, ROUNDS) {
        Ok(looks) => put_least(out, looks),
        Err(_refused) => out.fail(),
    }
}

/// Puts the ratios of times.
fn put_least(out: &mut Text, looks: Looks) {
    let times = looks.times;
    put_whether(out, b"all find the same numbers: ", times.is_right, b"\n");
    out.put(b"the time of a look-up, where 1.00 is that of a map on one thread:");
    put_ratio(out, b"\nby one thread ", times.one, looks.map);
    put_ratio(
        out,
        b"\nby each of two threads at once ",
        times.two,
        looks.map,
    );
    put_ratio(
        out,
        b"\nby each of four threads at once ",
        times.four,
        looks.map,
    );
    out.put(b"\n");
}
