// Tickets that nobody takes.

ghost use Rattle.std.specs.Prelude.{◌≡◌, ◌<◌, vec_len};

use crate::tickets::stand_ins::StandIn;
use kl1_pool_tickets::{PoolShared, Share, TicketIds, Totals, gather};
use std::sync::{Mutex, Wait};

/// Puts a ticket of each of two accounts, and then one more of the first; whether the first two were put and the last wasn't.
fn are_two_put<K: TicketIds, R: Wait>(
    rt: &R,
    common: &PoolShared<K>,
    share: &mut Share<K>,
) -> bool {
    let first = common.offer(rt, 0, share);
    let second = common.offer(rt, 1, share);
    let third = common.offer(rt, 0, share);
    first & second & !third
}

/// What comes of three tickets in a queue for two accounts, if nobody takes one, and whether the first two were put and the last
/// wasn't.
pub fn left_over<K: TicketIds, R: Wait>(
    rt: &R,
    common: PoolShared<K>,
    accounts: Vec<Mutex<StandIn<K>>>,
    mut shares: Vec<Share<K>>,
) -> (Totals, bool)
    requires accounts { vec_len accounts ≡ K.accounts }
    requires shares { vec_len shares ≡ K.shares }
    requires some { 0 < vec_len shares }
{
    let put = are_two_put(rt, &common, &mut shares[0]);
    (gather(rt, common, accounts, shares), put)
}
