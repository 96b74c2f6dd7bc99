// How long counting takes: in one atomic number, and in the tally, by each of one, two and four threads at once.

ghost use Rattle.std.specs.Prelude.{◌≤◌, ◌≡◌, All, vec_len};

use crate::measures::Times;
use crate::tally::raising::{added_by, raised_by};
use kl1_tally::{BookSeat, ShareSeat, Tally};
use std::alloc::{AllocError, Global};
use std::rt::Clock;
use std::sync::atomic::{AtomicU64, Ordering};
use std::thread::Threads;

/// The times of `times` additions to one number by each thread.
pub fn times_of_sum<R: Threads + Clock + Sync>(
    rt: &R,
    alloc: Global,
    times: usize,
) -> Result<Times, AllocError> {
    let sum = AtomicU64::new(0);
    let one = added_by(rt, alloc, &sum, times, 1)?;
    let two = added_by(rt, alloc, &sum, times, 2)?;
    let four = added_by(rt, alloc, &sum, times, 4)?;
    Ok(Times {
        one,
        two,
        four,
        is_right: sum.load(Ordering::SeqCst) == (times as u64).wrapping_mul(7),
    })
}

/// The times of `events` events counted by each thread in a new tally.
pub fn times_of_tally<R: Threads + Clock + Sync>(
    rt: &R,
    alloc: Global,
    events: usize,
) -> Result<Times, AllocError> {
    let (tally, mut books, mut shares) = Tally::new(alloc, 7, 7)?;
    times_in(rt, &tally, &mut books, &mut shares, events)
}

/// The times of `events` events counted by each thread, each with its own account.
fn times_in<R: Threads + Clock + Sync>(
    rt: &R,
    tally: &Tally,
    books: &mut Vec<BookSeat>,
    shares: &mut Vec<ShareSeat>,
    events: usize,
) -> Result<Times, AllocError>
    requires books_of { All (λ book. book.tally ≡ tally.now.id) books.old.items }
    requires shares_of { All (λ share. share.tally ≡ tally.now.id) shares.old.items }
    requires seven { (7 ≤ vec_len books.old) × (7 ≤ vec_len shares.old) }
{
    let (first, one) = raised_by(rt, tally, books, shares, events, 1)?;
    let (second, two) = raised_by(rt, tally, books, shares, events, 2)?;
    let (third, four) = raised_by(rt, tally, books, shares, events, 4)?;
    Ok(Times {
        one,
        two,
        four,
        is_right: first & second & third,
    })
}
