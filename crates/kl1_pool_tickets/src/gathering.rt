// Adding up what all shares counted, put and took.

ghost use Rattle.std.specs.Prelude.{◌≡◌, ℕ, ◌+◌, ◌*◌, ◌<◌, ◌≤◌, ◌^◌, [], slice_index, vec_len, vec_capacity, All};
ghost use Rattle.atomic_table.specs.Seated.{TableId};
ghost use Rattle.crossbeam_queue.specs.Passes.{view};
ghost use Rattle.kl1_tally.specs.declared.amounts.TheConstants.{MOST_ACCOUNTS};
ghost use Rattle.kl1_tally.specs.Numbers.{times};
ghost use Rattle.kl1_pool_tickets.specs.Histories.{all_parts};
ghost use Rattle.kl1_pool_tickets.specs.Totals.{TookIn, Gathered};

use crate::pool_shared::PoolShared;
use crate::reserve::Reserve;
use crate::share::Share;
use crate::ticket_history::{Cut, Queue, Takes, TicketHistory};
use crate::ticket_ids::TicketIds;
use crate::totals::Totals;
use crossbeam_queue::Pass;
use kl1_tally::{Amounts, BookSeat, MOST_ACCOUNTS, ShareSeat};
use std::sync::{Mutex, Wait};

/// What has an account's book.
pub trait Booked: Drop {
    /// Which tally the book is of.
    ghost tally: { TableId };

    /// The book.
    fn into_book(self) -> BookSeat
        ensures { result.tally ≡ tally };
}

/// How many tickets of each account were put and taken, at the account's number.
#[derive(Clone, Copy)]
struct Sums {
    puts: [u128; MOST_ACCOUNTS],
    takes: [u128; MOST_ACCOUNTS],
}

/// Adds numbers to others, place by place.
fn add(sums: &mut [u128; MOST_ACCOUNTS], more: &[u64; MOST_ACCOUNTS])
    requires few { (k : ℕ) → k < MOST_ACCOUNTS → slice_index sums.old k < 2 ^ 127 }
    ensures { (k : ℕ) → k < MOST_ACCOUNTS → slice_index sums.new k ≡ slice_index sums.old k + slice_index more.now k }
{
    for account in 0..MOST_ACCOUNTS {
        sums[account] += u128::from(more[account]);
    }
}

/// Takes all shares apart: `joint` takes in their passes, their seats are put at the end of `seats`, and their tickets are added up.
fn take_in<K: TicketIds>(
    queue: &Queue,
    joint: &mut Pass<u64, TicketHistory>,
    mut shares: Vec<Share<K>>,
    seats: &mut Vec<ShareSeat>,
) -> Sums
    requires queue { queue.now.table.shared.table_id ≡ K.queue }
    requires of { (joint.old.table_id ≡ K.queue) × (joint.old.me.1 ≡ []) }
    requires rest { (0 < (view joint.old).parts) × ((view joint.old).put ≡ []) × ((view joint.old).taken ≡ []) }
    requires none { seats.old.items ≡ [] }
    requires room { vec_len shares ≤ vec_capacity seats.old }
    ensures of { (joint.new.table_id ≡ K.queue) × (joint.new.me.1 ≡ []) }
    ensures seats_of { All (λ seat. seat.tally ≡ K.tally) seats.new.items }
    ensures took { TookIn shares.items [] seats.new.items (view joint.old) (view joint.new) result.puts result.takes }
{
    let mut sums = Sums {
        puts: [0; MOST_ACCOUNTS],
        takes: [0; MOST_ACCOUNTS],
    };
    while let Some(share) = shares.pop() {
        let Share {
            seat,
            pass,
            puts,
            takes,
            of: _,
        } = share;
        queue.absorb::<Cut>(joint, pass);
        add(&mut sums.puts, &puts);
        add(&mut sums.takes, &takes);
        seats.push_reserved(seat);
    }
    sums
}

/// Takes all tickets that are left, and counts them.
fn drain<R: Wait>(
    rt: &R,
    queue: &Queue,
    joint: &mut Pass<u64, TicketHistory>,
) -> [u128; MOST_ACCOUNTS]
    requires of { (joint.old.table_id ≡ queue.now.table.shared.table_id) × (joint.old.me.1 ≡ []) }
    requires all { (view joint.old).parts ≡ all_parts }
    requires few { (k : ℕ) → k < MOST_ACCOUNTS → times k (view joint.old).put < 2 ^ 127 }
    ensures { (k : ℕ) → k < MOST_ACCOUNTS → times k (view joint.old).put ≡ times k (view joint.old).taken + slice_index result k }
{
    let mut left = [0u128; MOST_ACCOUNTS];
    for _ in rt.forever() {
        match queue.pop_as::<Takes, R>(rt, joint) {
            Some(account) => left[account as usize] += 1,
            None => return left,
        }
    }
    unreachable!()
}

/// The books of what has them, put at the end of `books`.
fn take_books<C: Booked>(mut booked: Vec<Mutex<C>>, books: &mut Vec<BookSeat>)
    requires none { books.old.items ≡ [] }
    requires room { vec_len booked ≤ vec_capacity books.old }
    ensures of { All (λ book. book.tally ≡ C.tally) books.new.items }
    ensures count { vec_len books.new ≡ vec_len booked }
{
    while let Some(one) = booked.pop() {
        books.push_reserved(one.into_inner().into_book());
    }
}

/// What all shares counted, put and took, and the tickets that are left in the queue. `booked` has the books of all accounts, in any
/// order.
pub fn gather<R: Wait, K: TicketIds, C: Booked>(
    rt: &R,
    common: PoolShared<K>,
    booked: Vec<Mutex<C>>,
    shares: Vec<Share<K>>,
) -> Totals
    requires of { C.tally ≡ K.tally }
    requires all_books { vec_len booked ≡ K.accounts }
    requires all_shares { vec_len shares ≡ K.shares }
    ensures { Gathered shares.items result }
{
    let PoolShared {
        tally,
        queue,
        event_count: _,
        is_closed: _,
        reserve,
    } = common;
    let Reserve {
        mut pass,
        mut books,
        mut seats,
        of: _,
    } = reserve.into_inner();
    take_books(booked, &mut books);
    let Sums { puts, takes } = take_in(&queue, &mut pass, shares, &mut seats);
    let left = drain(rt, &queue, &mut pass);
    let Amounts { events, steps } = tally.settle(books, seats);
    Totals {
        events,
        steps,
        puts,
        takes,
        left,
    }
}
