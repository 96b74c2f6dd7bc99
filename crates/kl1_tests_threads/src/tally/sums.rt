// That what shares counted adds up to the books, also when two threads count at once.

ghost use Rattle.std.specs.Prelude.{◌≡◌, ◌+◌, ◌<◌, ◌≤◌, All, OnOk, vec_len};
ghost use Rattle.kl1_tally.specs.declared.amounts.TheConstants.{MOST_ACCOUNTS};

use crate::tally::counting::{count, give_book, give_share, next_book, next_share};
use kl1_tally::{Amounts, BookSeat, MOST_ACCOUNTS, ShareSeat, Tally};
use std::alloc::{AllocError, Global};
use std::thread::{Threads, join};

/// A thread's part if it has two books: it counts in each.
fn count_two(
    tally: &Tally,
    seats: (BookSeat, BookSeat, ShareSeat),
    events: (u32, u32),
) -> (BookSeat, BookSeat, ShareSeat)
    requires of { (seats.0.tally ≡ tally.now.id) × (seats.1.tally ≡ tally.now.id) × (seats.2.tally ≡ tally.now.id) }
    ensures of { (result.0.tally ≡ tally.now.id) × (result.1.tally ≡ tally.now.id) × (result.2.tally ≡ tally.now.id) }
{
    let (mut first, mut second, mut share) = seats;
    count(tally, &mut first, &mut share, events.0);
    count(tally, &mut second, &mut share, events.1);
    (first, second, share)
}

/// A thread's part if it has one book.
fn count_one(tally: &Tally, seats: (BookSeat, ShareSeat), events: u32) -> (BookSeat, ShareSeat)
    requires of { (seats.0.tally ≡ tally.now.id) × (seats.1.tally ≡ tally.now.id) }
    ensures of { (result.0.tally ≡ tally.now.id) × (result.1.tally ≡ tally.now.id) }
{
    let (mut book, mut share) = seats;
    count(tally, &mut book, &mut share, events);
    (book, share)
}

/// Two threads count 5,000 events each at once, one in two books and the other in one.
fn count_by_two<R: Threads + Sync>(
    rt: &R,
    tally: &Tally,
    two: (BookSeat, BookSeat, ShareSeat),
    events: (u32, u32),
    one: (BookSeat, ShareSeat),
) -> ((BookSeat, BookSeat, ShareSeat), (BookSeat, ShareSeat))
    requires two { (two.0.tally ≡ tally.now.id) × (two.1.tally ≡ tally.now.id) × (two.2.tally ≡ tally.now.id) }
    requires one { (one.0.tally ≡ tally.now.id) × (one.1.tally ≡ tally.now.id) }
    ensures two { (result.0.0.tally ≡ tally.now.id) × (result.0.1.tally ≡ tally.now.id) × (result.0.2.tally ≡ tally.now.id) }
    ensures one { (result.1.0.tally ≡ tally.now.id) × (result.1.1.tally ≡ tally.now.id) }
{
    join(
        rt,
        || count_two(tally, two, events),
        || count_one(tally, one, 5_000),
    )
}

/// Puts three books and two shares after others.
fn give_all(
    tally: &Tally,
    books: &mut Vec<BookSeat>,
    shares: &mut Vec<ShareSeat>,
    two: (BookSeat, BookSeat, ShareSeat),
    one: (BookSeat, ShareSeat),
) -> Result<(), AllocError>
    requires books_of { All (λ book. book.tally ≡ tally.now.id) books.old.items }
    requires shares_of { All (λ share. share.tally ≡ tally.now.id) shares.old.items }
    requires two { (two.0.tally ≡ tally.now.id) × (two.1.tally ≡ tally.now.id) × (two.2.tally ≡ tally.now.id) }
    requires one { (one.0.tally ≡ tally.now.id) × (one.1.tally ≡ tally.now.id) }
    ensures books_of { OnOk result (All (λ book. book.tally ≡ tally.now.id) books.new.items) }
    ensures shares_of { OnOk result (All (λ share. share.tally ≡ tally.now.id) shares.new.items) }
    ensures counts { OnOk result ((vec_len books.new ≡ vec_len books.old + 3) × (vec_len shares.new ≡ vec_len shares.old + 2)) }
{
    let (first, second, other) = two;
    let (third, one) = one;
    give_book(tally, books, third)?;
    give_book(tally, books, first)?;
    give_book(tally, books, second)?;
    give_share(tally, shares, other)?;
    give_share(tally, shares, one)
}

/// Two threads count 10,000 events each in the books of three accounts: at first one has two books and the other the third, and
/// then the other way round. All seats come back.
fn count_at_once<R: Threads + Sync>(
    rt: &R,
    tally: &Tally,
    books: &mut Vec<BookSeat>,
    shares: &mut Vec<ShareSeat>,
) -> Result<(), AllocError>
    requires books_of { All (λ book. book.tally ≡ tally.now.id) books.old.items }
    requires shares_of { All (λ share. share.tally ≡ tally.now.id) shares.old.items }
    requires three { vec_len books.old ≡ 3 }
    requires two { 1 < vec_len shares.old }
    ensures books_of { OnOk result (All (λ book. book.tally ≡ tally.now.id) books.new.items) }
    ensures shares_of { OnOk result (All (λ share. share.tally ≡ tally.now.id) shares.new.items) }
    ensures counts { OnOk result ((vec_len books.new ≡ vec_len books.old) × (vec_len shares.new ≡ vec_len shares.old)) }
{
    let third = next_book(tally, books);
    let second = next_book(tally, books);
    let first = next_book(tally, books);
    let one = next_share(tally, shares);
    let other = next_share(tally, shares);
    let (two, last) = count_by_two(
        rt,
        tally,
        (first, second, one),
        (3_000, 2_000),
        (third, other),
    );
    let (first, second, one) = two;
    let (third, other) = last;
    let (two, last) = count_by_two(
        rt,
        tally,
        (first, second, other),
        (2_000, 3_000),
        (third, one),
    );
    give_all(tally, books, shares, two, last)
}

/// Whether amounts are these of the first three accounts, and nothing of all others.
fn are(amounts: Amounts, events: [u64; 3], steps: [u64; 3]) -> bool {
    for account in 0..MOST_ACCOUNTS {
        let right = if account < 3 {
            (events[account], steps[account])
        } else {
            (0, 0)
        };
        if (amounts.events[account], amounts.steps[account]) != right {
            return false;
        }
    }
    true
}

/// Whether a tally of three shares, of which two threads used one each, comes to the sums of what they counted.
pub fn threads_come_to_the_sums<R: Threads + Sync>(
    rt: &R,
    alloc: Global,
) -> Result<bool, AllocError> {
    let (tally, mut books, mut shares) = Tally::new(alloc, 3, 3)?;
    count_at_once(rt, &tally, &mut books, &mut shares)?;
    let one = shares[2].amounts();
    let other = shares[1].amounts();
    let unused = shares[0].amounts();
    let sums = tally.settle(books, shares);
    let is_one = are(one, [3_000, 2_000, 5_000], [1_500, 1_000, 2_500]);
    let is_other = are(other, [2_000, 3_000, 5_000], [1_000, 1_500, 2_500]);
    let is_unused = are(unused, [0, 0, 0], [0, 0, 0]);
    let is_sum = are(sums, [5_000, 5_000, 10_000], [2_500, 2_500, 5_000]);
    Ok(is_one & is_other & is_unused & is_sum)
}

/// Counts in each book its account's number and one more, and gives the books back.
fn count_each(
    tally: &Tally,
    books: &mut Vec<BookSeat>,
    share: &mut ShareSeat,
    counted: &mut Vec<BookSeat>,
) -> Result<(), AllocError>
    requires books_of { All (λ book. book.tally ≡ tally.now.id) books.old.items }
    requires share_of { share.old.tally ≡ tally.now.id }
    requires counted_of { All (λ book. book.tally ≡ tally.now.id) counted.old.items }
    requires none { vec_len counted.old ≡ 0 }
    ensures share_of { share.new.tally ≡ tally.now.id }
    ensures counted_of { OnOk result (All (λ book. book.tally ≡ tally.now.id) counted.new.items) }
    ensures count { OnOk result (vec_len counted.new ≡ vec_len books.old) }
{
    for _book in 0..books.len() {
        let mut book = next_book(tally, books);
        let events = book.account() as u32 + 1;
        count(tally, &mut book, share, events);
        give_book(tally, counted, book)?;
    }
    Ok(())
}

/// Whether amounts are, for each of `accounts` accounts, its number and one more, with every second a step, and nothing of others.
fn are_numbers(amounts: Amounts, accounts: usize) -> bool {
    for account in 0..MOST_ACCOUNTS {
        let number = account as u64;
        let right = if account < accounts {
            (number + 1, (number + 2) / 2)
        } else {
            (0, 0)
        };
        if (amounts.events[account], amounts.steps[account]) != right {
            return false;
        }
    }
    true
}

/// Whether a tally of `accounts` accounts comes to what one share counted beside another that counted nothing.
pub fn come_to_the_numbers(alloc: Global, accounts: usize) -> Result<bool, AllocError>
    requires { accounts ≤ MOST_ACCOUNTS }
{
    let (tally, mut books, mut shares) = Tally::new(alloc, accounts, 2)?;
    let mut counted = Vec::new(alloc);
    let mut share = next_share(&tally, &mut shares);
    count_each(&tally, &mut books, &mut share, &mut counted)?;
    let is_share = are_numbers(share.amounts(), accounts);
    give_share(&tally, &mut shares, share)?;
    let sums = tally.settle(counted, shares);
    Ok(is_share & are_numbers(sums, accounts))
}
