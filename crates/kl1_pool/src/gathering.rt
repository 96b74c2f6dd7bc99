// Adding up what all shares of a pool counted, put and took.

ghost use Rattle.std.specs.Prelude.{◌≡◌, vec_len};
ghost use Rattle.kl1_pool_tickets.specs.Totals.{Gathered};

use crate::pool::Pool;
use crate::pool_ids::PoolIds;
use kl1_pool_tickets::{Share, Totals};
use std::sync::Wait;

/// What all shares of a pool counted, put and took, and the tickets that are left in its queue.
pub fn gather<'t, R: Wait, K: PoolIds, W: Wait>(
    rt: &W,
    pool: Pool<'t, R, K>,
    shares: Vec<Share<K>>,
) -> Totals
    requires { vec_len shares ≡ K.shares }
    ensures { Gathered shares.items result }
{
    let Pool {
        rt: _,
        tables: _,
        common,
        places,
        named: _,
        most_bytes: _,
        rules: _,
    } = pool;
    kl1_pool_tickets::gather(rt, common, places, shares)
}
