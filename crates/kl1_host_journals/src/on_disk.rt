// How far the journal of an account is on disk.

ghost use Rattle.std.specs.Prelude.{◌≡◌, true, IfSome};
ghost use Rattle.kl1_log.specs.Receipts.{Covers};
ghost use Rattle.kl1_host_journals.specs.StoredPlaces.{receipt_of};
ghost use Rattle.kl1_host_journals.specs.HeldLeaves.{unsent_of};
ghost use Rattle.kl1_host_journals.specs.Tellings.{receipt_told, is_last};

use crate::held::Held;
use crate::history::Naming;
use crate::leave::Connecting;
use crate::stored::Stored;
use crate::written::{Told, Written};
use std::sync::atomic::{AtomicBool, Ordering};
use std::sync::{Condvar, Mutex, Wait};

/// How far the journal of an account is on disk, for those who wait for it.
#[derive(Drop)]
pub struct OnDisk<J: Naming> {
    written: Mutex<Written<J>>,
    changed: Condvar,
    /// The same as under the lock, for a look without it.
    is_stopped: AtomicBool,
}

impl<J: Naming> OnDisk<J> {
    /// As far as this tells.
    pub fn new(written: Written<J>) -> Self {
        let is_stopped = written.is_stopped;
        OnDisk {
            written: Mutex::new(written),
            changed: Condvar::new(),
            is_stopped: AtomicBool::new(is_stopped),
        }
    }

    /// Tells those who wait that more is on disk.
    pub fn publish<W: Wait>(&self, rt: &W, stored: Stored<J>) -> Told
        ensures { receipt_told result ≡ receipt_of stored }
    {
        let mut guard = self.written.lock(rt);
        let told = guard.tell(stored);
        drop(guard);
        self.changed.notify_all();
        told
    }

    /// Tells those who wait that no more will be on disk.
    pub fn stop<W: Wait>(&self, rt: &W) -> Told
        ensures { is_last result ≡ true }
    {
        self.is_stopped.store(true, Ordering::SeqCst);
        let mut guard = self.written.lock(rt);
        let told = guard.stop();
        drop(guard);
        self.changed.notify_all();
        told
    }

    /// Whether no more will be on disk.
    pub fn is_stopped(&self) -> bool {
        self.is_stopped.load(Ordering::SeqCst)
    }

    /// Waits until all is on disk for which a leave waits. `None` if that won't be.
    pub fn wait_for<W: Wait, C: Connecting>(&self, rt: &W, held: &Held<J, C>) -> Option<Stored<J>>
        ensures { IfSome result (λ stored. Covers (receipt_of stored) (unsent_of held.now)) }
    {
        let written = self
            .changed
            .wait_while(rt, self.written.lock(rt), |written| {
                !written.is_stopped && !held.is_covered(&written.stored)
            });
        let stored = written.stored.again();
        if held.is_covered(&stored) {
            Some(stored)
        } else {
            None
        }
    }

    /// Whether there is nothing to wait for: all is on disk for which a leave waits, or no more will be.
    pub fn is_done<W: Wait, C: Connecting>(&self, rt: &W, held: &Held<J, C>) -> bool {
        let written = self.written.lock(rt);
        written.is_stopped || held.is_covered(&written.stored)
    }
}
