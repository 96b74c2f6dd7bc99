// Who is connected, and shares for those who come.

use crate::visit::Visit;
use crate::visitors::Visitors;
use kl1_pool::{PoolIds, Share};
use std::alloc::{AllocError, Global};
use std::net::SocketAddr;
use std::sync::{Arc, Condvar, Mutex, Wait};
use std::time::{Clock, Duration};

/// How many connections may be open at once from one address, and how long they last. How many in all is how many shares there are for them.
/// Addresses of version 6 of one network, so with the same first 64 bits, count as one.
#[derive(Clone, Copy)]
pub struct Limits {
    /// How many from one address.
    pub each: usize,
    /// How many of them that have shown no key.
    pub waiting_each: usize,
    /// How long one may be silent.
    pub idle: Duration,
    /// How long one may be open that has shown no key.
    pub idle_login: Duration,
}

/// After how many milliseconds another connection is told to end for one that came in, if the first hasn't ended.
const NEXT_GIVES_WAY_AFTER: u64 = 50;

/// After how many milliseconds one that waits for a place looks again whether somebody could give way.
const LOOKED_AGAIN_AFTER: u64 = 500;

/// What becomes of a connection that came in.
#[derive(Clone, Copy)]
pub(crate) enum Admission {
    /// It is open, and has this place.
    Open(usize),
    /// Too many are open from its address.
    TurnedAway,
    /// The host is closing.
    Closing,
    /// There is no place for it yet: the connection from this address was told to end for it.
    Awaits(SocketAddr),
    /// There is no place for it yet, and no connection that could give way.
    Waits,
}

/// Who is connected to a host, and the shares of a pool for those who come.
#[derive(Drop)]
pub(crate) struct Lobby<K: PoolIds> {
    visitors: Mutex<Visitors<Share<K>>>,
    changed: Condvar,
}

impl<K: PoolIds> Lobby<K> {
    /// A lobby in which as many may be as there are shares.
    pub(crate) fn new(alloc: Global, shares: Vec<Share<K>>) -> Result<Self, AllocError> {
        Ok(Lobby {
            visitors: Mutex::new(Visitors::new(alloc, shares)?),
            changed: Condvar::new(),
        })
    }

    /// Lets a connection in, if a place is free for it; not if the host is closing, or if too many are open from its address. If no place is
    /// free, the oldest connection is told to end that has shown no key.
    pub(crate) fn admit<W: Wait>(
        &self,
        rt: &W,
        visit: &Arc<Visit, Global>,
        address: SocketAddr,
        limits: Limits,
    ) -> Admission {
        let Ok(visit) = Arc::try_clone(visit) else {
            return Admission::TurnedAway;
        };
        let mut guard = self.visitors.lock(rt);
        let visitors = &mut *guard;
        visitors.admit(visit, address, limits)
    }

    /// Waits until a place is free or the host is closing, for a short time at most: for one that was told to end, or until somebody has come
    /// at another door who could give way.
    pub(crate) fn wait_for_place<W: Wait + Clock>(&self, rt: &W, one_goes: bool) {
        let pause = Duration::from_millis(if one_goes {
            NEXT_GIVES_WAY_AFTER
        } else {
            LOOKED_AGAIN_AFTER
        });
        let (guard, _) = self
            .changed
            .wait_timeout_while(rt, self.visitors.lock(rt), pause, |visitors| {
                visitors.are_full()
            });
        drop(guard);
    }

    /// Tells the oldest connection to end that has shown no key and came before the one of this place; answers its address.
    pub(crate) fn make_room<W: Wait>(&self, rt: &W, place: usize) -> Option<SocketAddr> {
        let mut guard = self.visitors.lock(rt);
        let visitors = &mut *guard;
        visitors.make_room(place)
    }

    /// Waits until a connection has ended that was told to, for a short time at most.
    pub(crate) fn wait_for_leave<W: Wait + Clock>(&self, rt: &W) {
        let pause = Duration::from_millis(NEXT_GIVES_WAY_AFTER);
        let (guard, _) = self
            .changed
            .wait_timeout_while(rt, self.visitors.lock(rt), pause, |visitors| {
                visitors.are_leaving()
            });
        drop(guard);
    }

    /// Lends the share of a connection that has this place.
    pub(crate) fn lend<W: Wait>(&self, rt: &W, place: usize) -> Option<Share<K>> {
        let mut guard = self.visitors.lock(rt);
        let visitors = &mut *guard;
        visitors.lend(place)
    }

    /// Notes that the connection of this place has ended, and takes its share back; `None` if it wasn't lent.
    pub(crate) fn leave<W: Wait>(&self, rt: &W, place: usize, share: Option<Share<K>>) {
        let mut guard = self.visitors.lock(rt);
        let visitors = &mut *guard;
        visitors.leave(place, share);
        drop(guard);
        self.changed.notify_all();
    }

    /// Waits until no connection is open.
    pub(crate) fn wait_until_empty<W: Wait>(&self, rt: &W) {
        let guard = self.changed.wait_while(
            rt,
            self.visitors.lock(rt),
            |visitors| visitors.count() > 0,
        );
        drop(guard);
    }

    /// Whether the host lets nobody in any more.
    pub(crate) fn is_closing<W: Wait>(&self, rt: &W) -> bool {
        self.visitors.lock(rt).is_closing()
    }

    /// How many connections are open.
    pub(crate) fn count<W: Wait>(&self, rt: &W) -> usize {
        self.visitors.lock(rt).count()
    }

    /// Ends those connections, once they are answered, of which a key has let in to one of these accounts last; and, if `others`, those of
    /// browsers and of who has shown no key.
    pub(crate) fn end_those<W: Wait>(&self, rt: &W, accounts: &[usize], others: bool) {
        self.visitors.lock(rt).end_those(accounts, others);
    }

    /// Lets nobody in from now on, and ends the connections that are open.
    pub(crate) fn close<W: Wait>(&self, rt: &W) {
        let mut guard = self.visitors.lock(rt);
        let visitors = &mut *guard;
        visitors.close();
        drop(guard);
        self.changed.notify_all();
    }
}
