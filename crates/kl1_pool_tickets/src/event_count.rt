// What workers without a ticket sleep on.

use std::sync::Wait;
use std::sync::atomic::{AtomicU64, Ordering};

/// What wakes workers that sleep. A worker without a ticket calls `listen`, looks for a ticket once more, sleeps if there is none,
/// and calls `rise`. Who puts a ticket rings afterwards. No contract speaks of it.
#[derive(Drop)]
pub(crate) struct EventCount {
    /// How often it was rung while a worker listened.
    rings: AtomicU64,
    /// How many workers look for a ticket a last time, or sleep.
    sleepers: AtomicU64,
}

impl EventCount {
    /// An event count that was never rung.
    pub(crate) fn new() -> EventCount {
        EventCount {
            rings: AtomicU64::new(0),
            sleepers: AtomicU64::new(0),
        }
    }

    /// The number of rings, for `sleep`. From now on each ring counts, until `rise`.
    pub(crate) fn listen(&self) -> u64 {
        self.sleepers.fetch_add(1, Ordering::SeqCst);
        self.rings.load(Ordering::SeqCst)
    }

    /// Sleeps unless the event count was rung since `listen` answered `heard`.
    pub(crate) fn sleep<R: Wait>(&self, rt: &R, heard: u64) {
        // A sleep compares the low half of the word.
        self.rings.park(rt, (heard & 0xffff_ffff) as u32);
    }

    /// Ends what `listen` began.
    pub(crate) fn rise(&self) {
        self.sleepers.fetch_sub(1, Ordering::SeqCst);
    }

    /// Wakes one worker that sleeps, if any listens.
    pub(crate) fn ring(&self) {
        if self.sleepers.load(Ordering::SeqCst) > 0 {
            self.rings.fetch_add(1, Ordering::SeqCst);
            self.rings.wake_one();
        }
    }

    /// Wakes all workers that sleep.
    pub(crate) fn ring_all(&self) {
        self.rings.fetch_add(1, Ordering::SeqCst);
        self.rings.wake_all();
    }
}
