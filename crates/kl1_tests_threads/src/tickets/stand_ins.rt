// Accounts that stand in: all that they do is steps that are counted.

ghost use Rattle.std.specs.Prelude.{◌≡◌, ◌+◌, ◌<◌, ◌≤◌, All, IfOk, cond, ℕ, vec_len};
ghost use Rattle.kl1_tally.specs.declared.amounts.TheConstants.{MOST_ACCOUNTS};
ghost use Rattle.kl1_pool_tickets.specs.Counts.{Moved, Acts};
ghost use Rattle.kl1_pool_tickets.specs.Parts.{IsNewBook};

use crate::gate::Counter;
use kl1_pool_tickets::{Accounts, Booked, PoolShared, Share, TicketIds, TimeSlice};
use kl1_tally::{BookSeat, Tally};
use std::alloc::{AllocError, Global};
use std::marker::PhantomData;
use std::sync::{Mutex, Wait};

/// An account's book, and how many steps it still has to do.
#[derive(Drop)]
pub struct StandIn<K: TicketIds> {
    book: BookSeat,
    left: u64,
    of: PhantomData<K>,
    ghost of_tally: { book.tally ≡ K.tally },
    ghost within: { book.account < MOST_ACCOUNTS },
}

impl<K: TicketIds> Booked for StandIn<K> {
    ghost tally = { K.tally };

    fn into_book(self) -> BookSeat {
        let StandIn {
            book,
            left: _,
            of: _,
        } = self;
        book
    }
}

impl<K: TicketIds> StandIn<K> {
    /// An account that has nothing to do.
    fn quiet(book: BookSeat) -> StandIn<K>
        requires { IsNewBook K.tally book }
    {
        StandIn {
            book,
            left: 0,
            of: PhantomData,
        }
    }

    /// Does a step and counts it, if one is left; whether it did.
    fn step(&mut self, tally: &Tally, share: &mut Share<K>) -> bool
        requires of { tally.now.id ≡ K.tally }
        ensures account { self.new.book.account ≡ self.old.book.account }
        ensures counted { Moved self.old.book.account (cond result 1 0) (cond result 1 0) 0 0 share.old share.new }
    {
        if self.left == 0 || self.book.events() >= 1 << 63 {
            return false;
        }
        self.left -= 1;
        share.raise(tally, &mut self.book, true);
        true
    }

    /// Enters the gate and does a step, if this is the account of the number.
    fn turn(
        &mut self,
        gate: &Counter,
        tally: &Tally,
        account: usize,
        share: &mut Share<K>,
    ) -> TimeSlice
        requires of { tally.now.id ≡ K.tally }
        ensures few { result.steps ≤ 1 }
        ensures counted { Moved account result.steps result.steps 0 0 share.old share.new }
    {
        if self.book.account() != account {
            return TimeSlice {
                steps: 0,
                again: false,
            };
        }
        gate.come();
        let done = self.step(tally, share);
        TimeSlice {
            steps: u64::from(done),
            again: self.left > 0,
        }
    }
}

/// Accounts that stand in, each under its lock, with what threads share, and a gate that each turn enters under the lock.
#[derive(Drop)]
pub struct Pool<K: TicketIds> {
    pub common: PoolShared<K>,
    pub accounts: Vec<Mutex<StandIn<K>>>,
    pub gate: Counter,
}

impl<K: TicketIds> Accounts<K> for Pool<K> {
    /// A turn is one step.
    fn turn<R: Wait>(&self, rt: &R, account: usize, share: &mut Share<K>) -> TimeSlice {
        match self.accounts.get(account) {
            None => TimeSlice {
                steps: 0,
                again: false,
            },
            Some(place) => place
                .lock(rt)
                .turn(&self.gate, self.common.tally(), account, share),
        }
    }

    /// Nothing is noted, since only accounts that are quiet are started.
    fn clear_ticket<R: Wait>(&self, _rt: &R, _account: usize) {}
}

impl<K: TicketIds> Pool<K> {
    /// Gives an account that is quiet steps to do, and puts its ticket.
    pub fn start<R: Wait>(&self, rt: &R, account: usize, steps: u64, share: &mut Share<K>)
        requires within { account < MOST_ACCOUNTS }
        ensures { Acts account 0 0 share.old share.new }
    {
        let Some(place) = self.accounts.get(account) else {
            return;
        };
        place.lock(rt).left = steps;
        let _put = self.common.offer(rt, account, share);
    }

    /// Whether an account has nothing to do.
    pub fn is_quiet<R: Wait>(&self, rt: &R, account: usize) -> bool {
        match self.accounts.get(account) {
            Some(place) => place.lock(rt).left == 0,
            None => true,
        }
    }
}

/// The last of some new books.
fn next_new<K: TicketIds>(books: &mut Vec<BookSeat>) -> BookSeat
    requires new { All (IsNewBook K.tally) books.old.items }
    requires some { 0 < vec_len books.old }
    ensures rest { All (IsNewBook K.tally) books.new.items }
    ensures fewer { vec_len books.new + 1 ≡ vec_len books.old }
    ensures of { IsNewBook K.tally result }
{
    let Some(book) = books.pop() else {
        unreachable!()
    };
    book
}

/// An account that has nothing to do for each book, in the order of the books.
pub fn stand_ins<K: TicketIds>(
    alloc: Global,
    mut books: Vec<BookSeat>,
) -> Result<Vec<Mutex<StandIn<K>>>, AllocError>
    requires { All (IsNewBook K.tally) books.items }
    ensures { IfOk result (λ made. vec_len made ≡ vec_len books) }
{
    let mut made = Vec::with_capacity(alloc, books.len())?;
    for _book in 0..books.len() {
        made.push_reserved(Mutex::new(StandIn::quiet(next_new::<K>(&mut books))));
    }
    made.as_mut_slice().reverse();
    Ok(made)
}
