// What threads do in a pool.

use crate::report::Text;
use kl1_pool::{Pool, PoolIds, Share};
use std::rt::Clock;
use std::sync::Wait;

/// What threads do in a pool, each with a share of its own, and what they have to say of it.
pub trait Job {
    /// Before there are other threads.
    fn begin<'t, R: Wait + Clock, K: PoolIds>(
        &self,
        rt: &R,
        pool: &Pool<'t, R, K>,
        share: &mut Share<K>,
        out: &mut Text,
    );

    /// What the thread numbered `number`, from 0, does.
    fn go_on<'t, R: Wait + Clock, K: PoolIds>(
        &self,
        rt: &R,
        pool: &Pool<'t, R, K>,
        number: u64,
        share: &mut Share<K>,
        out: &mut Text,
    );

    /// After all other threads have ended.
    fn end<'t, R: Wait + Clock, K: PoolIds>(
        &self,
        rt: &R,
        pool: &Pool<'t, R, K>,
        share: &mut Share<K>,
        out: &mut Text,
    );
}
