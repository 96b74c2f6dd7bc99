// What one thread counted, put and took.

ghost use Rattle.std.specs.Prelude.{◌≡◌, ℕ, ◌+◌, ◌<◌, ◌^◌, ◌↔◌, slice_index, cond, MatchOption, IsTrue};
ghost use Rattle.kl1_tally.specs.declared.amounts.TheConstants.{MOST_ACCOUNTS};
ghost use Rattle.kl1_tally.specs.Seats.{raised_book};
ghost use Rattle.kl1_pool_tickets.specs.Counts.{Moved, CanTake};

use crate::pool_shared::PoolShared;
use crate::ticket_history::{Puts, Takes, TicketHistory};
use crate::ticket_ids::TicketIds;
use crossbeam_queue::Pass;
use kl1_tally::{BookSeat, MOST_ACCOUNTS, ShareSeat, Tally};
use std::marker::{Model, PhantomData};
use std::sync::Wait;

/// The most tickets of one account that a share puts, and the most that it takes.
pub const MOST_TICKETS: u64 = 1 << 63;

/// What a thread counted of each account, and how many of its tickets the thread put and took. Contracts see four lists of numbers,
/// at the accounts' numbers.
#[derive(Drop)]
pub struct Share<K: TicketIds> {
    pub(crate) seat: ShareSeat,
    pub(crate) pass: Pass<u64, TicketHistory>,
    pub(crate) puts: [u64; MOST_ACCOUNTS],
    pub(crate) takes: [u64; MOST_ACCOUNTS],
    pub(crate) of: PhantomData<K>,
}

impl<K: TicketIds> Model for Share<K> {
    ghost use Rattle.std.specs.Prelude.{◌≡◌, ℕ, List, [], length};
    ghost use Rattle.crossbeam_queue.specs.Passes.{view as knows};
    ghost use Rattle.kl1_pool_tickets.specs.Counts.{Counts, Keeps};

    ghost Value = { Counts };

    ghost view = { λ s. record { events = s.seat.events; steps = s.seat.steps; puts = s.puts; takes = s.takes } };

    ghost invariant = { λ s. (s.seat.tally ≡ K.tally) × (s.pass.table_id ≡ K.queue) × (s.pass.me.1 ≡ []) × ((knows s.pass).parts ≡ 1) × Keeps s.puts s.takes (knows s.pass) };
}

impl<K: TicketIds> Share<K> {
    /// Counts one event, which is a step or not, in an account's book and in the share.
    pub fn raise(&mut self, tally: &Tally, book: &mut BookSeat, step: bool)
        requires of { tally.now.id ≡ K.tally }
        requires book { book.old.tally ≡ K.tally }
        requires within { book.old.account < MOST_ACCOUNTS }
        requires room { book.old.events < 2 ^ 63 }
        ensures book { book.new ≡ raised_book book.old step }
        ensures share { Moved book.old.account 1 (cond step 1 0) 0 0 self.old self.new }
    {
        // For the lengths of its lists.
        self.seat.has_places();
        tally.raise(book, &mut self.seat, step);
    }

    /// Puts an account's ticket into the queue, and wakes nobody; false tells that the queue is full, or that the share has put
    /// `MOST_TICKETS` of this account.
    pub fn put<R: Wait>(&mut self, rt: &R, common: &PoolShared<K>, account: usize) -> bool
        requires within { account < MOST_ACCOUNTS }
        ensures { Moved account 0 0 (cond result 1 0) 0 self.old self.new }
    {
        if self.puts[account] >= MOST_TICKETS {
            return false;
        }
        match common
            .queue
            .push_as::<Puts, R>(rt, &mut self.pass, account as u64)
        {
            Ok(()) => {
                self.puts[account] += 1;
                true
            }
            Err(_full) => false,
        }
    }

    /// Whether the share has taken fewer than `MOST_TICKETS` of each account.
    pub fn can_take(&self) -> bool
        ensures { IsTrue result ↔ CanTake self.now }
    {
        for account in 0..MOST_ACCOUNTS {
            if self.takes[account] >= MOST_TICKETS {
                return false;
            }
        }
        true
    }

    /// Takes the first ticket in the queue, if there is one: the number of its account.
    pub fn take<R: Wait>(&mut self, rt: &R, common: &PoolShared<K>) -> Option<usize>
        requires can { CanTake self.old }
        ensures { MatchOption result (self.new ≡ self.old) (λ account. (account < MOST_ACCOUNTS) × Moved account 0 0 0 1 self.old self.new) }
    {
        let account = common.queue.pop_as::<Takes, R>(rt, &mut self.pass)? as usize;
        self.takes[account] += 1;
        Some(account)
    }
}
