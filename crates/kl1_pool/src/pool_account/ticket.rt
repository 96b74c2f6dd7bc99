// Tickets of accounts on their way from an account's lock to the queue.

ghost use Rattle.std.specs.Prelude.{◌≡◌, ◌<◌, ◌&&◌, if◌then◌else◌, MatchOption, is_some, not, true, false};
ghost use Rattle.kl1_model.specs.Choice.{quiet};
ghost use Rattle.kl1_journal.specs.Keeping.{Reading, Fits, kept_of};
ghost use Rattle.kl1_pool_tickets.specs.Counts.{Moved};
ghost use Rattle.kl1_tally.specs.declared.amounts.TheConstants.{MOST_ACCOUNTS};

use crate::locked_slot::EmptyPlace;
use crate::pool_account::PoolAccount;
use crate::pool_ids::PoolIds;
use kl1_pool_tickets::{PoolShared, Share};
use std::marker::PhantomData;
use std::sync::Wait;

/// A ticket that an account counts as out and that isn't in the queue. It can't be dropped: it is used up by `put`.
pub(crate) struct DueTicket<K: PoolIds> {
    of: PhantomData<K>,
}

/// A ticket that couldn't be put. It can't be dropped either: it is used up by `take_back`, or `forget` if its account has left.
pub(crate) struct UnputTicket<K: PoolIds> {
    of: PhantomData<K>,
}

impl<K: PoolIds> DueTicket<K> {
    /// Puts it into the queue as the ticket of an account, and wakes a worker if one sleeps; or answers that it couldn't be put.
    pub(crate) fn put<W: Wait>(
        self,
        rt: &W,
        common: &PoolShared<K>,
        account: usize,
        share: &mut Share<K>,
    ) -> Option<UnputTicket<K>>
        requires within { account < MOST_ACCOUNTS }
        ensures { MatchOption result (Moved account 0 0 1 0 share.old share.new) (λ _. Moved account 0 0 0 0 share.old share.new) }
    {
        let DueTicket { of } = self;
        if common.offer(rt, account, share) {
            None
        } else {
            Some(UnputTicket { of })
        }
    }
}

impl<K: PoolIds> UnputTicket<K> {
    /// Forgets it, since its account has left this place.
    pub(crate) fn forget(self, _place: &EmptyPlace<K>) {
        let UnputTicket { of: _ } = self;
    }
}

impl<'t, R: Wait, K: PoolIds> PoolAccount<'t, R, K> {
    /// The ticket of the account that is to be put, which from then on counts as out: there is one just if a goal can step and no ticket was
    /// out.
    pub(crate) fn due_ticket(&mut self) -> Option<DueTicket<K>>
        ensures due { (f : Reading) → Fits self.new.held.0.names f → is_some result ≡ (not self.old.is_out && not (quiet (kept_of f self.new.held).state)) }
        ensures new { self.new ≡ record self.old { is_out = (if is_some result then true else self.old.is_out) } }
    {
        if self.is_out || self.kept.quiet() {
            return None;
        }
        self.is_out = true;
        Some(DueTicket { of: PhantomData })
    }

    /// Notes that no ticket of the account is out, since it couldn't be put.
    pub(crate) fn take_back(&mut self, unput: UnputTicket<K>)
        ensures { self.new ≡ record self.old { is_out = false } }
    {
        let UnputTicket { of: _ } = unput;
        self.clear_ticket();
    }
}
