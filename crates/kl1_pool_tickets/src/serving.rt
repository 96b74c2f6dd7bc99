// Workers, which take tickets and serve them.

ghost use Rattle.std.specs.Prelude.{◌≡◌, ℕ, ◌<◌, ◌≤◌, ⊤};
ghost use Rattle.kl1_tally.specs.declared.amounts.TheConstants.{MOST_ACCOUNTS};
ghost use Rattle.kl1_pool_tickets.specs.declared.serving.TheConstants.{MOST_STEPS};
ghost use Rattle.kl1_pool_tickets.specs.declared.serving.TimeSlice.{TimeSlice};
ghost use Rattle.kl1_pool_tickets.specs.Counts.{Counts, Moved, Acts, CanTake, Serves, ServesTickets, Worked};

use crate::pool_shared::PoolShared;
use crate::share::Share;
use crate::ticket_ids::TicketIds;
use std::sync::Wait;

/// The most steps of a turn.
pub const MOST_STEPS: u64 = 64;

/// What a turn of an account did: how many steps, and whether its ticket is to be put back.
#[derive(Clone, Copy)]
pub struct TimeSlice {
    pub steps: u64,
    pub again: bool,
}

/// The accounts of a pool, each under its lock, with a note whether its ticket is out.
pub trait Accounts<K: TicketIds> {
    /// What a turn of an account may tell, by the counts of the share before and after it. It ties what a worker does with a ticket
    /// to what the turn told; an implementation that needs no more than the clauses of `turn` leaves it out.
    ghost turned: { ℕ → TimeSlice → Counts → Counts → Type 0 } = { λ _ _ _ _. ⊤ };

    /// Does steps of an account and counts them in `share`. Unless the ticket is to be put back, it notes that none is out.
    fn turn<R: Wait>(&self, rt: &R, account: usize, share: &mut Share<K>) -> TimeSlice
        requires within { account < MOST_ACCOUNTS }
        ensures few { result.steps ≤ MOST_STEPS }
        ensures counted { Moved account result.steps result.steps 0 0 share.old share.new }
        ensures turned { turned account result share.old share.new };

    /// Notes that no ticket of an account is out.
    fn clear_ticket<R: Wait>(&self, rt: &R, account: usize)
        requires within { account < MOST_ACCOUNTS };
}

/// Puts the ticket of an account back; if it can't be put, none is out.
fn put_back<R: Wait, K: TicketIds, A: Accounts<K>>(
    rt: &R,
    common: &PoolShared<K>,
    accounts: &A,
    account: usize,
    share: &mut Share<K>,
)
    requires within { account < MOST_ACCOUNTS }
    ensures { Acts account 0 0 share.old share.new }
{
    if !share.put(rt, common, account) {
        accounts.clear_ticket(rt, account);
    }
}

/// Serves the ticket of an account.
fn serve<R: Wait, K: TicketIds, A: Accounts<K>>(
    rt: &R,
    common: &PoolShared<K>,
    accounts: &A,
    account: usize,
    share: &mut Share<K>,
)
    requires within { account < MOST_ACCOUNTS }
    ensures { (slice : TimeSlice) × Serves A.turned account slice share.old share.new }
{
    let slice = accounts.turn(rt, account, share);
    if slice.again {
        put_back(rt, common, accounts, account, share);
    }
}

/// Takes a ticket and serves it; false tells that there was none.
fn serve_next<R: Wait, K: TicketIds, A: Accounts<K>>(
    rt: &R,
    common: &PoolShared<K>,
    accounts: &A,
    share: &mut Share<K>,
) -> bool
    requires can { CanTake share.old }
    ensures { ServesTickets A.turned share.old share.new }
{
    match share.take(rt, common) {
        Some(account) => {
            serve(rt, common, accounts, account, share);
            true
        }
        None => false,
    }
}

/// Looks for a ticket once more, and sleeps if there is none, until there may be one.
fn serve_or_sleep<R: Wait, K: TicketIds, A: Accounts<K>>(
    rt: &R,
    common: &PoolShared<K>,
    accounts: &A,
    share: &mut Share<K>,
)
    requires can { CanTake share.old }
    ensures { ServesTickets A.turned share.old share.new }
{
    let heard = common.event_count.listen();
    let served = serve_next(rt, common, accounts, share);
    if !served && !common.is_closed() {
        common.event_count.sleep(rt, heard);
    }
    common.event_count.rise();
}

/// Takes tickets and serves them until `close` was called, or the share can take no more.
pub fn worker<R: Wait, K: TicketIds, A: Accounts<K>>(
    rt: &R,
    common: &PoolShared<K>,
    accounts: &A,
    share: &mut Share<K>,
)
    ensures tickets { ServesTickets A.turned share.old share.new }
    ensures worked { Worked share.old share.new }
{
    for _ in rt.forever() {
        if common.is_closed() || !share.can_take() {
            return;
        }
        if !serve_next(rt, common, accounts, share) && share.can_take() {
            serve_or_sleep(rt, common, accounts, share);
        }
    }
    unreachable!()
}
