// A place of a host for an account, and how far it is with that.

ghost use Rattle.std.specs.Prelude.{◌≡◌};
ghost use Rattle.kl1_host_work.specs.Refusals.{lets_in};

use kl1_pool::Meter;
use std::sync::atomic::{AtomicBool, AtomicU64, Ordering};
use std::sync::{Condvar, Mutex, Wait};

/// How far it is with the account of a place.
#[derive(Clone, Copy)]
pub enum PlaceState {
    /// There is none: one may come.
    Free,
    /// It is restored: so many of its events are done.
    Restores { done: u64, all: u64 },
    /// It is there.
    Open,
    /// It couldn't be restored.
    Fails,
    /// It is leaving the host.
    Leaving,
    /// It has left the host, and no other may come before the next start.
    Left,
}

/// The same, for the threads of the place.
#[derive(Clone, Copy)]
enum Stage {
    Free,
    Ordered,
    Restores,
    Open,
    Fails,
    Leaving,
    Left,
}

/// What the threads of a place have under its lock.
#[derive(Clone, Copy)]
struct Orders {
    stage: Stage,
    /// Whether the host ends.
    is_ending: bool,
    /// Whether something may have happened in the pool's account, so that no other may come to it.
    is_used: bool,
}

/// Whether who was let in by keys of an edition may do something to an account that is there or isn't, and has its key since an edition.
fn lets_in(is_open: bool, since: u64, edition: u64) -> bool
    ensures { result ≡ lets_in is_open since edition }
{
    is_open && since <= edition
}

/// A place of a host for an account.
#[derive(Drop)]
pub struct AccountPlace {
    orders: Mutex<Orders>,
    changed: Condvar,
    /// The same as under the lock, for a look without it.
    is_open: AtomicBool,
    /// Whether a restore is to end.
    is_ended: AtomicBool,
    /// The edition of keys since which the account has the key that it has: a connection that has an older one does nothing to it.
    since: AtomicU64,
    done: AtomicU64,
    all: AtomicU64,
}

impl AccountPlace {
    /// One to which an account may come.
    pub(crate) fn new() -> Self {
        AccountPlace {
            orders: Mutex::new(Orders {
                stage: Stage::Free,
                is_ending: false,
                is_used: false,
            }),
            changed: Condvar::new(),
            is_open: AtomicBool::new(false),
            is_ended: AtomicBool::new(false),
            since: AtomicU64::new(0),
            done: AtomicU64::new(0),
            all: AtomicU64::new(0),
        }
    }

    /// Whether a connection with this edition of keys may do something to the account.
    pub(crate) fn lets_in(&self, edition: u64) -> bool {
        // Whether it is there is looked at first: it is open only since it has this key or an older one.
        let is_open = self.is_open.load(Ordering::SeqCst);
        lets_in(is_open, self.since.load(Ordering::SeqCst), edition)
    }

    /// Whether the account is there.
    pub(crate) fn is_open(&self) -> bool {
        self.is_open.load(Ordering::SeqCst)
    }

    /// The account has another key since this edition.
    pub(crate) fn renew(&self, edition: u64) {
        self.since.store(edition, Ordering::SeqCst);
    }

    /// Orders that the account comes; whether it does.
    pub(crate) fn order<W: Wait>(&self, rt: &W) -> bool {
        let mut guard = self.orders.lock(rt);
        let orders = &mut *guard;
        let is_free = match orders.stage {
            Stage::Free | Stage::Fails => !orders.is_used,
            _ => false,
        };
        if is_free {
            orders.stage = Stage::Ordered;
            self.is_ended.store(false, Ordering::SeqCst);
        }
        drop(guard);
        self.changed.notify_all();
        is_free
    }

    /// Waits until the account is to come; not if the host ends first. One that is to come is still opened, so that a fault of its file is found.
    pub(crate) fn await_order<W: Wait>(&self, rt: &W) -> bool {
        let mut guard = self.changed.wait_while(rt, self.orders.lock(rt), |orders| {
            !orders.is_ending && !matches!(orders.stage, Stage::Ordered)
        });
        let orders = &mut *guard;
        let is_ordered = matches!(orders.stage, Stage::Ordered);
        if is_ordered {
            orders.stage = Stage::Restores;
        }
        is_ordered
    }

    /// Takes in how many events are to be done to the account, in which something may happen from now on.
    pub(crate) fn begin<W: Wait>(&self, rt: &W, all: u64) {
        self.done.store(0, Ordering::SeqCst);
        self.all.store(all, Ordering::SeqCst);
        let mut guard = self.orders.lock(rt);
        let orders = &mut *guard;
        orders.is_used = true;
    }

    /// Takes in that the account is there; not if it is to leave, or if the host ends.
    pub(crate) fn open<W: Wait>(&self, rt: &W) -> bool {
        let mut guard = self.orders.lock(rt);
        let orders = &mut *guard;
        let is_wanted = !orders.is_ending && matches!(orders.stage, Stage::Restores);
        if is_wanted {
            orders.stage = Stage::Open;
            self.is_open.store(true, Ordering::SeqCst);
        }
        is_wanted
    }

    /// Takes in that the account can't be restored, or that it has left, if it was to.
    pub(crate) fn fail<W: Wait>(&self, rt: &W) {
        let mut guard = self.orders.lock(rt);
        let orders = &mut *guard;
        orders.stage = match orders.stage {
            Stage::Leaving => Stage::Left,
            _ => Stage::Fails,
        };
    }

    /// Lets the account leave, if there is one.
    pub(crate) fn leave<W: Wait>(&self, rt: &W) {
        let mut guard = self.orders.lock(rt);
        let orders = &mut *guard;
        orders.stage = match orders.stage {
            Stage::Ordered | Stage::Restores | Stage::Open => Stage::Leaving,
            Stage::Fails if orders.is_used => Stage::Left,
            Stage::Fails => Stage::Free,
            stage => stage,
        };
        self.is_open.store(false, Ordering::SeqCst);
        if matches!(orders.stage, Stage::Leaving) {
            self.is_ended.store(true, Ordering::SeqCst);
        }
        drop(guard);
        self.changed.notify_all();
    }

    /// Takes in that the account has left, if it was to; whether it was.
    pub(crate) fn end_leave<W: Wait>(&self, rt: &W) -> bool {
        let mut guard = self.orders.lock(rt);
        let orders = &mut *guard;
        let is_leaving = matches!(orders.stage, Stage::Leaving);
        if is_leaving {
            orders.stage = Stage::Left;
        }
        is_leaving
    }

    /// Whether the account is leaving.
    pub(crate) fn is_leaving<W: Wait>(&self, rt: &W) -> bool {
        matches!(self.orders.lock(rt).stage, Stage::Leaving)
    }

    /// Ends what is waited for or restored here: the host ends.
    pub(crate) fn end<W: Wait>(&self, rt: &W) {
        let mut guard = self.orders.lock(rt);
        let orders = &mut *guard;
        orders.is_ending = true;
        self.is_ended.store(true, Ordering::SeqCst);
        drop(guard);
        self.changed.notify_all();
    }

    /// Whether a restore was told to end.
    pub(crate) fn is_ended(&self) -> bool {
        self.is_ended.load(Ordering::SeqCst)
    }

    /// How far it is with the account.
    pub(crate) fn standing<W: Wait>(&self, rt: &W) -> PlaceState {
        match self.orders.lock(rt).stage {
            Stage::Free => PlaceState::Free,
            Stage::Ordered => PlaceState::Restores { done: 0, all: 0 },
            Stage::Restores => PlaceState::Restores {
                done: self.done.load(Ordering::SeqCst),
                all: self.all.load(Ordering::SeqCst),
            },
            Stage::Open => PlaceState::Open,
            Stage::Fails => PlaceState::Fails,
            Stage::Leaving => PlaceState::Leaving,
            Stage::Left => PlaceState::Left,
        }
    }
}

impl Meter for AccountPlace {
    fn goes_on(&self, events: u64) -> bool {
        self.done.fetch_add(events, Ordering::SeqCst);
        !self.is_ended()
    }
}
