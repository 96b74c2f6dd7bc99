// What wakes a scribe.

use std::sync::{Condvar, Mutex, Wait};
use std::time::{Clock, Duration};

/// Whether the scribe is called, and whether it is to end.
#[derive(Clone, Copy)]
struct Calls {
    is_called: bool,
    is_ending: bool,
}

/// What wakes a scribe: a call of those whose replies wait, or that it is to end.
#[derive(Drop)]
pub struct Bell {
    calls: Mutex<Calls>,
    changed: Condvar,
}

impl Bell {
    /// Nobody has called.
    pub fn new() -> Self {
        Bell {
            calls: Mutex::new(Calls {
                is_called: false,
                is_ending: false,
            }),
            changed: Condvar::new(),
        }
    }

    /// Calls the scribe.
    pub fn ring<W: Wait>(&self, rt: &W) {
        let mut calls = self.calls.lock(rt);
        calls.is_called = true;
        drop(calls);
        self.changed.notify_all();
    }

    /// Tells it to end.
    pub fn end<W: Wait>(&self, rt: &W) {
        let mut calls = self.calls.lock(rt);
        calls.is_ending = true;
        drop(calls);
        self.changed.notify_all();
    }

    /// Waits for a call, at most for `period`; and whether it is to end.
    pub fn wait<W: Wait + Clock>(&self, rt: &W, period: Duration) -> bool {
        let (mut calls, _) = self
            .changed
            .wait_timeout_while(rt, self.calls.lock(rt), period, |calls| {
                !calls.is_called && !calls.is_ending
            });
        calls.is_called = false;
        calls.is_ending
    }
}
