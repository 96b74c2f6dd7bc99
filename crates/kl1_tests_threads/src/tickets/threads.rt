// Workers in threads, beside one who starts accounts.

ghost use Rattle.std.specs.Prelude.{◌≡◌, ◌<◌, vec_len};

use crate::gate::{Counter, Held};
use crate::tickets::left::left_over;
use crate::tickets::stand_ins::{Pool, StandIn, stand_ins};
use kl1_pool_tickets::{Opened, Parts, PoolShared, Share, TicketIds, Totals, gather, worker};
use std::alloc::{AllocError, Global};
use std::marker::Brand;
use std::rt::Clock;
use std::sync::atomic::{AtomicU64, Ordering};
use std::sync::{Mutex, Wait};
use std::thread;
use std::thread::{Threads, map_vec};
use std::time::Duration;

/// Waits until an account has nothing to do, but looks at most 10,000,000 times.
fn wait_until_quiet<R: Wait, K: TicketIds>(rt: &R, pool: &Pool<K>, account: usize) {
    for _look in 0..10_000_000u32 {
        if pool.is_quiet(rt, account) {
            return;
        }
        thread::yield_now();
    }
}

/// Twice gives two accounts 100 steps each, waits until they are done, and lets the workers fall asleep; then ends them.
fn lead<R: Wait + Clock, K: TicketIds>(rt: &R, pool: &Pool<K>, share: &mut Share<K>) {
    for _round in 0..2u8 {
        pool.start(rt, 0, 100, share);
        pool.start(rt, 1, 100, share);
        wait_until_quiet(rt, pool, 0);
        wait_until_quiet(rt, pool, 1);
        thread::sleep(rt, Duration::from_millis(5));
    }
    pool.common.close();
}

/// A thread's part: the first that comes leads, and the others are workers.
fn take_part<R: Wait + Clock, K: TicketIds>(
    rt: &R,
    pool: &Pool<K>,
    come: &AtomicU64,
    share: Share<K>,
) -> Share<K> {
    let mut share = share;
    if come.fetch_add(1, Ordering::SeqCst) == 0 {
        lead(rt, pool, &mut share);
    } else {
        worker(rt, &pool.common, pool, &mut share);
    }
    share
}

/// What one who leads and workers come to, a thread for each share, and whether two workers met at the gate.
fn worked_over<K: TicketIds + Send + Sync, R: Threads + Wait + Clock + Sync>(
    rt: &R,
    common: PoolShared<K>,
    accounts: Vec<Mutex<StandIn<K>>>,
    shares: Vec<Share<K>>,
) -> Result<(Totals, bool), AllocError>
    requires accounts { vec_len accounts ≡ K.accounts }
    requires shares { vec_len shares ≡ K.shares }
{
    let pool = Pool {
        common,
        accounts,
        gate: Counter::new(Held::First),
    };
    let come = AtomicU64::new(0);
    let shares = map_vec(rt, shares, &|share| take_part(rt, &pool, &come, share))?;
    let Pool {
        common,
        accounts,
        gate,
    } = pool;
    Ok((gather(rt, common, accounts, shares), gate.has_met()))
}

/// What comes of some parts: of tickets that nobody takes, or of what threads do.
fn gathered<K: TicketIds + Send + Sync, R: Threads + Wait + Clock + Sync>(
    rt: &R,
    alloc: Global,
    parts: Parts,
    are_left: bool,
) -> Result<(Totals, bool), AllocError>
    requires names { (parts.tally ≡ K.tally) × (parts.queue ≡ K.queue) × (parts.accounts ≡ K.accounts) × (parts.shares ≡ K.shares) }
    requires some { 0 < parts.shares }
{
    let Opened {
        common,
        books,
        shares,
    } = parts.open::<K>(alloc)?;
    let accounts = stand_ins::<K>(alloc, books)?;
    if are_left {
        return Ok(left_over(rt, common, accounts, shares));
    }
    worked_over(rt, common, accounts, shares)
}

/// `gathered` of parts that no type names yet.
fn gathered_of<R: Threads + Wait + Clock + Sync>(
    rt: &R,
    alloc: Global,
    parts: Parts,
    are_left: bool,
) -> Result<(Totals, bool), AllocError>
    requires { 0 < parts.shares }
{
    gathered::<Brand, R>(rt, alloc, parts, are_left)
}

/// What two workers did over two accounts with 200 steps each, and whether they were at work at once.
pub fn worked<R: Threads + Wait + Clock + Sync>(
    rt: &R,
    alloc: Global,
) -> Result<(Totals, bool), AllocError> {
    let parts = Parts::new(alloc, 2, 3)?;
    gathered_of(rt, alloc, parts, false)
}

/// What comes of three tickets in a queue for two accounts, if nobody takes one, and whether the first two were put
/// and the last wasn't.
pub fn left<R: Threads + Wait + Clock + Sync>(
    rt: &R,
    alloc: Global,
) -> Result<(Totals, bool), AllocError> {
    let parts = Parts::new(alloc, 2, 1)?;
    gathered_of(rt, alloc, parts, true)
}
