// Why a host that has started ends.

use crate::start_fault::StartFault;
use std::sync::atomic::{AtomicBool, AtomicUsize, Ordering};
use std::sync::{Mutex, Wait};

/// A fault, and the number of the account of which it is.
#[derive(Drop)]
struct First {
    account: usize,
    fault: Option<StartFault>,
}

/// What is waited for until all accounts of a start are there, and why a host ends if one of them can't be restored.
#[derive(Drop)]
pub(crate) struct Failing {
    first: Mutex<First>,
    has_failed: AtomicBool,
    /// How many accounts of the start aren't there yet.
    to_come: AtomicUsize,
}

impl Failing {
    /// So many accounts are to come.
    pub(crate) fn new(to_come: usize) -> Self {
        Failing {
            first: Mutex::new(First {
                account: usize::MAX,
                fault: None,
            }),
            has_failed: AtomicBool::new(false),
            to_come: AtomicUsize::new(to_come),
        }
    }

    /// Takes in that one of them is there; whether it was the last.
    pub(crate) fn count_in(&self) -> bool {
        self.to_come.fetch_sub(1, Ordering::SeqCst) == 1
    }

    /// Takes in that one of them can't be restored. That of the least number is told.
    pub(crate) fn fail<W: Wait>(&self, rt: &W, account: usize, fault: StartFault) {
        let mut guard = self.first.lock(rt);
        let first = &mut *guard;
        if account < first.account {
            first.account = account;
            first.fault = Some(fault);
        }
        self.has_failed.store(true, Ordering::SeqCst);
    }

    /// Whether one couldn't be restored.
    pub(crate) fn has_failed(&self) -> bool {
        self.has_failed.load(Ordering::SeqCst)
    }

    /// The fault of the first that couldn't be restored.
    pub(crate) fn take<W: Wait>(&self, rt: &W) -> Option<StartFault> {
        let mut guard = self.first.lock(rt);
        guard.fault.take()
    }
}
