// What the threads of a pool share, besides the accounts.

ghost use Rattle.std.specs.Prelude.{◌≡◌, ◌<◌, ◌≤◌, cond};
ghost use Rattle.kl1_tally.specs.declared.amounts.TheConstants.{MOST_ACCOUNTS};
ghost use Rattle.kl1_pool_tickets.specs.Counts.{Moved};

use crate::event_count::EventCount;
use crate::reserve::Reserve;
use crate::share::Share;
use crate::ticket_history::Queue;
use crate::ticket_ids::TicketIds;
use crossbeam_utils::CachePadded;
use kl1_tally::Tally;
use std::sync::atomic::{AtomicBool, Ordering};
use std::sync::{Mutex, Wait};

/// What the threads of a pool share, besides the accounts: the tally, the queue of tickets, what wakes workers and ends them, and
/// what is kept for the end.
#[derive(Drop)]
pub struct PoolShared<K: TicketIds> {
    pub(crate) tally: Tally,
    pub(crate) queue: Queue,
    /// Padded, since the words beside it are read in each step and it is written when workers fall asleep.
    pub(crate) event_count: CachePadded<EventCount>,
    pub(crate) is_closed: AtomicBool,
    pub(crate) reserve: Mutex<Reserve<K>>,
    pub ghost of_tally: { tally.id ≡ K.tally },
    pub ghost of_queue: { queue.table.shared.table_id ≡ K.queue },
    pub ghost books: { tally.accounts ≡ K.accounts },
    pub ghost shares: { tally.shares ≡ K.shares },
    pub ghost few: { K.accounts ≤ MOST_ACCOUNTS },
}

impl<K: TicketIds> PoolShared<K> {
    /// The tally.
    pub fn tally(&self) -> &Tally
        ensures { result.now.id ≡ K.tally }
    {
        &self.tally
    }

    /// The queue of tickets. Whoever has it can do what keeps its rule, of which `passes_add_up` speaks, and nothing else.
    pub fn queue(&self) -> &Queue
        ensures { result.now.table.shared.table_id ≡ K.queue }
    {
        &self.queue
    }

    /// Puts an account's ticket, and wakes a worker if one sleeps; false tells that the ticket wasn't put.
    pub fn offer<R: Wait>(&self, rt: &R, account: usize, share: &mut Share<K>) -> bool
        requires within { account < MOST_ACCOUNTS }
        ensures { Moved account 0 0 (cond result 1 0) 0 share.old share.new }
    {
        let put = share.put(rt, self, account);
        if put {
            self.event_count.ring();
        }
        put
    }

    /// Ends each worker before its next ticket.
    pub fn close(&self) {
        self.is_closed.store(true, Ordering::SeqCst);
        self.event_count.ring_all();
    }

    /// Whether workers are to end.
    pub(crate) fn is_closed(&self) -> bool {
        self.is_closed.load(Ordering::SeqCst)
    }
}
