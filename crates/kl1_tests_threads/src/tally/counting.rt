// Counting events in books and shares.

ghost use Rattle.std.specs.Prelude.{◌≡◌, ◌+◌, ◌<◌, All, OnOk, vec_len};

use kl1_tally::{BookSeat, ShareSeat, Tally};
use std::alloc::AllocError;

/// The last of some books of a tally.
pub fn next_book(tally: &Tally, books: &mut Vec<BookSeat>) -> BookSeat
    requires of { All (λ book. book.tally ≡ tally.now.id) books.old.items }
    requires more { 0 < vec_len books.old }
    ensures rest { All (λ book. book.tally ≡ tally.now.id) books.new.items }
    ensures fewer { vec_len books.new + 1 ≡ vec_len books.old }
    ensures of { result.tally ≡ tally.now.id }
{
    // Only contracts speak of the tally.
    let _ = tally;
    let Some(book) = books.pop() else {
        unreachable!()
    };
    book
}

/// The last of some shares of a tally.
pub fn next_share(tally: &Tally, shares: &mut Vec<ShareSeat>) -> ShareSeat
    requires of { All (λ share. share.tally ≡ tally.now.id) shares.old.items }
    requires more { 0 < vec_len shares.old }
    ensures rest { All (λ share. share.tally ≡ tally.now.id) shares.new.items }
    ensures fewer { vec_len shares.new + 1 ≡ vec_len shares.old }
    ensures of { result.tally ≡ tally.now.id }
{
    // Only contracts speak of the tally.
    let _ = tally;
    let Some(share) = shares.pop() else {
        unreachable!()
    };
    share
}

/// Puts a book of a tally after others.
pub fn give_book(tally: &Tally, books: &mut Vec<BookSeat>, book: BookSeat) -> Result<(), AllocError>
    requires all { All (λ book. book.tally ≡ tally.now.id) books.old.items }
    requires of { book.tally ≡ tally.now.id }
    ensures all { OnOk result (All (λ book. book.tally ≡ tally.now.id) books.new.items) }
    ensures more { OnOk result (vec_len books.new ≡ vec_len books.old + 1) }
{
    // Only contracts speak of the tally.
    let _ = tally;
    books.push(book)?;
    Ok(())
}

/// Puts a share of a tally after others.
pub fn give_share(
    tally: &Tally,
    shares: &mut Vec<ShareSeat>,
    share: ShareSeat,
) -> Result<(), AllocError>
    requires all { All (λ share. share.tally ≡ tally.now.id) shares.old.items }
    requires of { share.tally ≡ tally.now.id }
    ensures all { OnOk result (All (λ share. share.tally ≡ tally.now.id) shares.new.items) }
    ensures more { OnOk result (vec_len shares.new ≡ vec_len shares.old + 1) }
{
    // Only contracts speak of the tally.
    let _ = tally;
    shares.push(share)?;
    Ok(())
}

/// Counts `events` events of a book's account; every second is a step, from the first on.
pub fn count(tally: &Tally, book: &mut BookSeat, share: &mut ShareSeat, events: u32)
    requires book { book.old.tally ≡ tally.now.id }
    requires share { share.old.tally ≡ tally.now.id }
    ensures book { book.new.tally ≡ tally.now.id }
    ensures share { share.new.tally ≡ tally.now.id }
{
    for event in 0..events {
        if book.events() < 1 << 63 {
            tally.raise(book, share, event % 2 == 0);
        }
    }
}
