// Room on the disk for the file of an account.

use std::sync::atomic::{AtomicBool, AtomicU64, Ordering};

/// How it stands with the room for the file of an account, for those who command it.
#[derive(Drop)]
pub struct Room {
    /// How many bytes the file has, about.
    bytes: AtomicU64,
    /// Whether something can't be written until there is room.
    is_short: AtomicBool,
    /// Whether no new file could be made beside the file, in which there is room for what a reset writes.
    lacks_reserve: AtomicBool,
    /// Whether a reset waits, for which a part of that room may go.
    is_urgent: AtomicBool,
    /// Whether nothing waits for room any more.
    is_closed: AtomicBool,
}

impl Room {
    /// That of a file without bytes.
    pub(crate) fn new() -> Self {
        Room {
            bytes: AtomicU64::new(0),
            is_short: AtomicBool::new(false),
            lacks_reserve: AtomicBool::new(false),
            is_urgent: AtomicBool::new(false),
            is_closed: AtomicBool::new(false),
        }
    }

    /// How many bytes the file has, about.
    pub fn bytes(&self) -> u64 {
        self.bytes.load(Ordering::SeqCst)
    }

    /// Whether something can't be written until there is room.
    pub fn is_short(&self) -> bool {
        self.is_short.load(Ordering::SeqCst)
    }

    /// Whether there is no room for what a reset writes, as far as is known.
    pub fn lacks_reserve(&self) -> bool {
        self.lacks_reserve.load(Ordering::SeqCst)
    }

    /// Lets what waits be written from the room for resets, so that a reset comes to its turn.
    pub fn hurry(&self) {
        self.is_urgent.store(true, Ordering::SeqCst);
    }

    /// Lets nothing wait for room any more: what can't be written fails.
    pub fn close(&self) {
        self.is_closed.store(true, Ordering::SeqCst);
    }

    /// The file has this many bytes.
    pub(crate) fn set_bytes(&self, bytes: u64) {
        self.bytes.store(bytes, Ordering::SeqCst);
    }

    /// The file gets more bytes.
    pub(crate) fn grow(&self, bytes: u64) {
        self.set_bytes(self.bytes().saturating_add(bytes));
    }

    /// Whether it is to be waited for room.
    pub(crate) fn may_wait(&self) -> bool {
        !self.is_closed.load(Ordering::SeqCst)
    }

    /// Whether something waits for room.
    pub(crate) fn set_short(&self, is_short: bool) {
        if self.is_short() != is_short {
            self.is_short.store(is_short, Ordering::SeqCst);
        }
    }

    /// Whether there is room for what a reset writes.
    pub(crate) fn set_reserve(&self, is_there: bool) {
        self.lacks_reserve.store(!is_there, Ordering::SeqCst);
    }

    /// Whether a reset waits; it isn't asked again then.
    pub(crate) fn is_hurried(&self) -> bool {
        self.is_urgent.load(Ordering::SeqCst) && self.is_urgent.swap(false, Ordering::SeqCst)
    }
}
