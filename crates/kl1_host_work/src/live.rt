// What is set of a host, and may be set anew while it runs.

use crate::lobby::Limits;
use std::sync::atomic::{AtomicU64, AtomicUsize, Ordering};
use std::time::Duration;

/// What may be set anew while a host runs.
#[derive(Clone, Copy)]
pub struct Amounts {
    /// For connections that come in from then on.
    pub limits: Limits,
    /// How many bytes of sources each account may load.
    pub codes_each: u64,
    /// How many bytes the file of each account may have.
    pub disk_each: u64,
}

/// These, as all threads of a host read them; and which edition of keys connections have that come in now.
#[derive(Drop)]
pub struct Live {
    each: AtomicUsize,
    waiting_each: AtomicUsize,
    idle: AtomicU64,
    idle_login: AtomicU64,
    codes_each: AtomicU64,
    disk_each: AtomicU64,
    edition: AtomicU64,
}

/// A time in milliseconds.
fn milliseconds(time: Duration) -> u64 {
    u64::try_from(time.as_millis()).unwrap_or(u64::MAX)
}

impl Live {
    /// These.
    pub(crate) fn new(amounts: Amounts) -> Self {
        let limits = amounts.limits;
        Live {
            each: AtomicUsize::new(limits.each),
            waiting_each: AtomicUsize::new(limits.waiting_each),
            idle: AtomicU64::new(milliseconds(limits.idle)),
            idle_login: AtomicU64::new(milliseconds(limits.idle_login)),
            codes_each: AtomicU64::new(amounts.codes_each),
            disk_each: AtomicU64::new(amounts.disk_each),
            edition: AtomicU64::new(0),
        }
    }

    /// Sets them anew.
    pub(crate) fn set(&self, amounts: Amounts) {
        let limits = amounts.limits;
        self.each.store(limits.each, Ordering::SeqCst);
        self.waiting_each
            .store(limits.waiting_each, Ordering::SeqCst);
        self.idle.store(milliseconds(limits.idle), Ordering::SeqCst);
        self.idle_login
            .store(milliseconds(limits.idle_login), Ordering::SeqCst);
        self.codes_each.store(amounts.codes_each, Ordering::SeqCst);
        self.disk_each.store(amounts.disk_each, Ordering::SeqCst);
    }

    /// The limits of a connection that comes in now.
    pub(crate) fn limits(&self) -> Limits {
        Limits {
            each: self.each.load(Ordering::SeqCst),
            waiting_each: self.waiting_each.load(Ordering::SeqCst),
            idle: Duration::from_millis(self.idle.load(Ordering::SeqCst)),
            idle_login: Duration::from_millis(self.idle_login.load(Ordering::SeqCst)),
        }
    }

    /// How many bytes of sources each account may load.
    pub(crate) fn codes_each(&self) -> u64 {
        self.codes_each.load(Ordering::SeqCst)
    }

    /// How many bytes the file of each account may have.
    pub(crate) fn disk_each(&self) -> u64 {
        self.disk_each.load(Ordering::SeqCst)
    }

    /// The edition of keys of a connection that comes in now, or an older one.
    pub(crate) fn edition(&self) -> u64 {
        self.edition.load(Ordering::SeqCst)
    }

    /// Connections that come in have this edition of keys from now on.
    pub(crate) fn renew(&self, edition: u64) {
        self.edition.store(edition, Ordering::SeqCst);
    }
}
