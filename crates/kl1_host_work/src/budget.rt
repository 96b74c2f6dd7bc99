// How many bytes of sources an account may still load.

use std::sync::atomic::{AtomicU64, Ordering};

/// How many bytes of sources an account may still load until the next start: codes are never given back.
#[derive(Drop)]
pub struct Budget {
    left: AtomicU64,
}

impl Budget {
    /// This many bytes.
    pub fn new(bytes: u64) -> Self {
        Budget {
            left: AtomicU64::new(bytes),
        }
    }

    /// How many bytes may still be loaded.
    pub(crate) fn left(&self) -> u64 {
        self.left.load(Ordering::SeqCst)
    }

    /// Takes in that so many bytes may be loaded in all, and not so many as before.
    pub(crate) fn change(&self, before: u64, after: u64) {
        for _ in 0..u64::MAX {
            let left = self.left.load(Ordering::SeqCst);
            let next = after.saturating_sub(before.saturating_sub(left));
            if self
                .left
                .compare_exchange(left, next, Ordering::SeqCst, Ordering::SeqCst)
                .is_ok()
            {
                return;
            }
        }
    }

    /// Counts a source that was loaded. Of loads at the same time some may go over the budget.
    pub(crate) fn spend(&self, bytes: usize) {
        let bytes = bytes as u64;
        for _ in 0..u64::MAX {
            let left = self.left.load(Ordering::SeqCst);
            let next = left.saturating_sub(bytes);
            if self
                .left
                .compare_exchange(left, next, Ordering::SeqCst, Ordering::SeqCst)
                .is_ok()
            {
                return;
            }
        }
    }
}
