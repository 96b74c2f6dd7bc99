// A pool in which a job is done.

ghost use Rattle.std.specs.Prelude.{◌≡◌, ◌<◌, ◌≤◌, IfOk, vec_len};

use crate::pool::job::Job;
use crate::pool::setup::Setup;
use crate::pool::threads::work;
use crate::report::Text;
use kl1_atoms::AtomTable;
use kl1_codes::CodeTable;
use kl1_pool::{AccountName, Pool, PoolIds, PoolParts, Totals, gather};
use std::alloc::{AllocError, Global};
use std::marker::Brand;
use std::rt::Clock;
use std::sync::Wait;
use std::thread::Threads;

/// What accounts and threads come to when a job is done.
fn done<'t, J: Job + Sync, R: Threads + Wait + Clock + Sync, K: PoolIds + Send + Sync>(
    rt: &'t R,
    alloc: Global,
    parts: PoolParts<'t>,
    job: &J,
    out: &mut Text,
) -> Result<Totals, AllocError>
    requires tables { (parts.table ≡ K.table) × (parts.seats ≡ K.seats) × (parts.codes ≡ K.codes) }
    requires names { (parts.rules ≡ K.rules) × (parts.names ≡ K.names) }
    requires bound { parts.most_bytes ≡ K.most_bytes }
    requires tickets { (parts.tally ≡ K.tally) × (parts.queue ≡ K.queue) × (parts.accounts ≡ K.accounts) × (parts.shares ≡ K.shares) }
    requires shown { parts.histories ≡ K.histories }
    requires some { 0 < parts.shares }
{
    let (pool, mut shares) = Pool::<R, K>::new(rt, alloc, parts)?;
    job.begin(rt, &pool, &mut shares[0], out);
    match work(rt, alloc, &pool, job, shares, out) {
        Ok(mut shares) => {
            job.end(rt, &pool, &mut shares[0], out);
            Ok(gather(rt, pool, shares))
        }
        Err(refused) => {
            pool.discard();
            Err(refused)
        }
    }
}

/// `done` of parts that no type names yet.
fn done_of<'t, J: Job + Sync, R: Threads + Wait + Clock + Sync>(
    rt: &'t R,
    alloc: Global,
    parts: PoolParts<'t>,
    job: &J,
    out: &mut Text,
) -> Result<Totals, AllocError>
    requires some { 0 < parts.shares }
{
    done::<J, R, Brand>(rt, alloc, parts, job, out)
}

/// The names `a`, `b` and so on.
fn names_of(alloc: Global, count: usize) -> Result<Vec<AccountName>, AllocError>
    requires { count ≤ 16 }
    ensures { IfOk result (λ names. vec_len names ≡ count) }
{
    let mut names = Vec::with_capacity(alloc, count)?;
    for number in 0..count {
        let Some(name) = AccountName::read(&[b'a' + number as u8]) else {
            return Err(AllocError);
        };
        names.push_reserved(name);
    }
    Ok(names)
}

/// What accounts `a`, `b` and so on and threads come to when a job is done in a new pool. Accounts beyond `setup.named` are still to come.
pub fn tried<J: Job + Sync, R: Threads + Wait + Clock + Sync>(
    rt: &R,
    accounts: usize,
    threads: usize,
    setup: Setup,
    job: &J,
    out: &mut Text,
) -> Result<Totals, AllocError>
    requires some { (0 < accounts) × (0 < threads) }
    requires few { accounts ≤ 16 }
{
    let alloc = out.alloc;
    let names = names_of(alloc, accounts.min(setup.named))?;
    let room = setup.rules.limits().names;
    let (table, seats) = AtomTable::with_room(alloc, accounts, room)?;
    let codes = CodeTable::new(alloc)?;
    let parts = PoolParts::new(
        alloc,
        &table,
        &codes,
        names.as_slice(),
        setup.rules,
        seats,
        threads,
    )?
    .bounded(setup.most_bytes);
    done_of(rt, alloc, parts, job, out)
}
