// Counting that is measured, from one thread and from several at once: in the tally, and in one atomic number.

ghost use Rattle.std.specs.Prelude.{◌≡◌, ◌+◌, ◌<◌, ◌≤◌, All, IfOk, OnOk, vec_len};

use crate::measures::{are_all, moment, nanoseconds_since};
use crate::tally::counting::{next_book, next_share};
use kl1_tally::{BookSeat, ShareSeat, Tally};
use std::alloc::{AllocError, Global};
use std::rt::Clock;
use std::sync::atomic::{AtomicU64, Ordering};
use std::thread::{Threads, map_indices, map_vec};

/// `count` pairs of the last books and shares of a tally.
fn next_pairs(
    tally: &Tally,
    books: &mut Vec<BookSeat>,
    shares: &mut Vec<ShareSeat>,
    count: usize,
) -> Result<Vec<(BookSeat, ShareSeat)>, AllocError>
    requires books_of { All (λ book. book.tally ≡ tally.now.id) books.old.items }
    requires shares_of { All (λ share. share.tally ≡ tally.now.id) shares.old.items }
    requires more { (count ≤ vec_len books.old) × (count ≤ vec_len shares.old) }
    ensures books_of { OnOk result (All (λ book. book.tally ≡ tally.now.id) books.new.items) }
    ensures shares_of { OnOk result (All (λ share. share.tally ≡ tally.now.id) shares.new.items) }
    ensures fewer { OnOk result ((vec_len books.new + count ≡ vec_len books.old) × (vec_len shares.new + count ≡ vec_len shares.old)) }
    ensures of { IfOk result (λ pairs. All (λ pair. (pair.0.tally ≡ tally.now.id) × (pair.1.tally ≡ tally.now.id)) pairs.items) }
{
    let mut pairs = Vec::new(*books.allocator());
    for _pair in 0..count {
        pairs.push((next_book(tally, books), next_share(tally, shares)))?;
    }
    Ok(pairs)
}

/// Counts `events` events in a book and a share, and answers what the book then tells.
fn raised(tally: &Tally, seats: (BookSeat, ShareSeat), events: usize) -> u64
    requires book { seats.0.tally ≡ tally.now.id }
    requires share { seats.1.tally ≡ tally.now.id }
{
    let (mut book, mut share) = seats;
    for _event in 0..events {
        if book.events() < 1 << 63 {
            tally.raise(&mut book, &mut share, true);
        }
    }
    book.events()
}

/// Whether each of `count` threads counts `events` events, all at once, and the nanoseconds that they take.
pub fn raised_by<R: Threads + Clock + Sync>(
    rt: &R,
    tally: &Tally,
    books: &mut Vec<BookSeat>,
    shares: &mut Vec<ShareSeat>,
    events: usize,
    count: usize,
) -> Result<(bool, u128), AllocError>
    requires books_of { All (λ book. book.tally ≡ tally.now.id) books.old.items }
    requires shares_of { All (λ share. share.tally ≡ tally.now.id) shares.old.items }
    requires more { (count ≤ vec_len books.old) × (count ≤ vec_len shares.old) }
    ensures books_of { OnOk result (All (λ book. book.tally ≡ tally.now.id) books.new.items) }
    ensures shares_of { OnOk result (All (λ share. share.tally ≡ tally.now.id) shares.new.items) }
    ensures fewer { OnOk result ((vec_len books.new + count ≡ vec_len books.old) × (vec_len shares.new + count ≡ vec_len shares.old)) }
{
    let pairs = next_pairs(tally, books, shares, count)?;
    let start = moment(rt);
    let told = map_vec(rt, pairs, &|pair| raised(tally, pair, events))?;
    let time = nanoseconds_since(rt, start);
    Ok((are_all(told.as_slice(), events as u64), time))
}

/// Adds 1 to `sum`, `times` times.
fn add(sum: &AtomicU64, times: usize) {
    for _time in 0..times {
        sum.fetch_add(1, Ordering::SeqCst);
    }
}

/// The nanoseconds that `count` threads take which all add 1 to `sum` at once, `times` times each.
pub fn added_by<R: Threads + Clock + Sync>(
    rt: &R,
    alloc: Global,
    sum: &AtomicU64,
    times: usize,
    count: usize,
) -> Result<u128, AllocError> {
    let start = moment(rt);
    map_indices(rt, alloc, count, &|_thread| add(sum, times))?;
    Ok(nanoseconds_since(rt, start))
}
