// Workers, which go on with accounts.

ghost use Rattle.std.specs.Prelude.{◌≡◌, ◌<◌, ◌≤◌};
ghost use Rattle.kl1_tally.specs.declared.amounts.TheConstants.{MOST_ACCOUNTS};
ghost use Rattle.kl1_pool_tickets.specs.Counts.{Moved, ServesTickets, Worked};
ghost use Rattle.kl1_pool_tickets.specs.declared.serving.TheConstants.{MOST_STEPS};
ghost use Rattle.kl1_pool.specs.Names.{called_at};
ghost use Rattle.kl1_pool.specs.Stepping.{IsTurn};

use crate::gate::Gate;
use crate::pool::Pool;
use crate::pool_ids::PoolIds;
use kl1_pool_tickets::{Accounts, Share, TimeSlice};
use std::sync::Wait;

/// A worker with its gate and its number, in a pool.
#[derive(Drop)]
struct AtWork<'p, 't, G: Gate, R: Wait, K: PoolIds> {
    pool: &'p Pool<'t, R, K>,
    gate: &'p G,
    number: u64,
}

impl<'p, 't, G: Gate, R: Wait, K: PoolIds> Accounts<K> for AtWork<'p, 't, G, R, K> {
    ghost use Rattle.kl1_pool.specs.Names.{called_at};
    ghost use Rattle.kl1_pool.specs.Stepping.{IsTurn};

    ghost turned = { λ account slice _ _. IsTurn K.rules (called_at K.names account) K.most_bytes slice };

    fn turn<W: Wait>(&self, rt: &W, account: usize, share: &mut Share<K>) -> TimeSlice {
        self.pool.turn(rt, self.gate, self.number, account, share)
    }

    fn clear_ticket<W: Wait>(&self, rt: &W, account: usize) {
        self.pool.clear_ticket(rt, account);
    }
}

/// Takes tickets, and does a turn of each ticket's account, between `enter` and `leave` of `gate` with the worker's `number`; the
/// ticket is put back if the account goes on, and only then. Ends when `close` was called, or if the share can take no more.
pub fn worker<'t, G: Gate, R: Wait, K: PoolIds, W: Wait>(
    rt: &W,
    pool: &Pool<'t, R, K>,
    gate: &G,
    number: u64,
    share: &mut Share<K>,
)
    ensures tickets { ServesTickets (λ account slice _ _. IsTurn K.rules (called_at K.names account) K.most_bytes slice) share.old share.new }
    ensures worked { Worked share.old share.new }
{
    kl1_pool_tickets::worker(rt, &pool.common, &AtWork { pool, gate, number }, share)
}
