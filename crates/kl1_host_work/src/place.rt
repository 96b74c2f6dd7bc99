// A place of a lobby.

ghost use Rattle.std.specs.Prelude.{◌≡◌, Some, IsSome, IsNone};
ghost use Rattle.kl1_host_work.specs.Places.{free, is_free, is_from, is_stranger_from, is_leaving, rank_of, number_of, address_of, told, left, lent, IsLooked, IsGiven};

use crate::visit::Visit;
use std::alloc::Global;
use std::net::SocketAddr;
use std::sync::Arc;

/// A connection that has a place.
#[derive(Drop)]
pub(crate) struct Visitor {
    visit: Arc<Visit, Global>,
    address: SocketAddr,
    /// The number by which connections from its address are counted.
    network: u128,
    /// From 1, in the order in which they came.
    number: u64,
    /// Whether it had shown a key when it was looked at last.
    is_in: bool,
    /// Whether a key was looked at then.
    is_trying: bool,
    /// Whether it was told to end.
    is_leaving: bool,
}

impl Visitor {
    /// The rank by which it gives way to one that comes, the least first: by its number, and if its key is looked at after all others, since
    /// its thread may be in a pause, and who has it may be an owner. `None` if it doesn't: it came no sooner than the one of the number
    /// `before`, it has shown a key, or it was told to end.
    fn rank(&self, before: u64) -> Option<u128>
        ensures { result ≡ rank_of before (Some self.now) }
    {
        if self.number >= before || self.is_in || self.is_leaving {
            return None;
        }
        let rank = u128::from(self.number);
        Some(if self.is_trying {
            rank + (1 << 64)
        } else {
            rank
        })
    }
}

/// A place for a connection, with a share for it.
#[derive(Drop)]
pub(crate) struct Place<S: Drop> {
    visitor: Option<Visitor>,
    /// Away while the thread that serves the connection has it.
    share: Option<S>,
}

impl<S: Drop> Place<S> {
    /// A place that nobody has.
    pub(crate) fn free(share: S) -> Self
        ensures { result ≡ free share }
    {
        Place {
            visitor: None,
            share: Some(share),
        }
    }

    /// Whether nobody has it.
    pub(crate) fn is_free(&self) -> bool
        ensures { result ≡ is_free self.now }
    {
        self.visitor.is_none()
    }

    /// Whether who has it came from this network, and wasn't told to end.
    pub(crate) fn is_from(&self, network: u128) -> bool
        ensures { result ≡ is_from network self.now.visitor }
    {
        match &self.visitor {
            Some(visitor) => visitor.network == network && !visitor.is_leaving,
            None => false,
        }
    }

    /// Whether it is so and has shown no key.
    pub(crate) fn is_stranger_from(&self, network: u128) -> bool
        ensures { result ≡ is_stranger_from network self.now.visitor }
    {
        match &self.visitor {
            Some(visitor) => visitor.network == network && !visitor.is_leaving && !visitor.is_in,
            None => false,
        }
    }

    /// Whether who has it was told to end.
    pub(crate) fn is_leaving(&self) -> bool
        ensures { result ≡ is_leaving self.now.visitor }
    {
        match &self.visitor {
            Some(visitor) => visitor.is_leaving,
            None => false,
        }
    }

    /// Ends who has it, once they are answered, as `Visitors::end_those`.
    pub(crate) fn end_if(&self, accounts: &[usize], others: bool) {
        if let Some(visitor) = &self.visitor {
            let visit = &*visitor.visit;
            if visit.is_of(accounts) || (others && visit.is_open_to_all()) {
                visit.end_reading();
            }
        }
    }

    /// The rank by which who has it gives way to one that comes; `None` if it doesn't.
    pub(crate) fn rank(&self, before: u64) -> Option<u128>
        ensures { result ≡ rank_of before self.now.visitor }
    {
        match &self.visitor {
            Some(visitor) => visitor.rank(before),
            None => None,
        }
    }

    /// The number of who has it.
    pub(crate) fn number(&self) -> Option<u64>
        ensures { result ≡ number_of self.now.visitor }
    {
        match &self.visitor {
            Some(visitor) => Some(visitor.number),
            None => None,
        }
    }

    /// Gives it to a connection that has shown no key.
    pub(crate) fn take_in(
        &mut self,
        visit: Arc<Visit, Global>,
        address: SocketAddr,
        network: u128,
        number: u64,
    )
        ensures { IsGiven network number self.old self.new }
    {
        self.visitor = Some(Visitor {
            visit,
            address,
            network,
            number,
            is_in: false,
            is_trying: false,
            is_leaving: false,
        });
    }

    /// Takes in how far who has it has come.
    pub(crate) fn look(&mut self)
        ensures { IsLooked self.old self.new }
    {
        if let Some(visitor) = &mut self.visitor {
            visitor.is_in = visitor.visit.is_in();
            visitor.is_trying = visitor.visit.is_trying();
        }
    }

    /// Tells who has it to end, and answers from where that came.
    pub(crate) fn end(&mut self) -> Option<SocketAddr>
        ensures who { result ≡ address_of self.old.visitor }
        ensures told { self.new ≡ told self.old }
    {
        let visitor = self.visitor.as_mut()?;
        visitor.is_leaving = true;
        visitor.visit.end();
        Some(visitor.address)
    }

    /// Lends the share of who has it.
    pub(crate) fn lend(&mut self) -> Option<S>
        ensures { (result ≡ lent self.old) × (IsSome self.old.visitor → IsNone self.new.share) }
    {
        if self.visitor.is_none() {
            return None;
        }
        self.share.take()
    }

    /// Frees it with the share that comes back, or with the one that wasn't lent.
    pub(crate) fn leave(&mut self, share: Option<S>)
        ensures { self.new ≡ left share self.old }
    {
        if let Some(share) = share {
            *self = Place::free(share);
        } else if self.share.is_some() {
            self.visitor = None;
        }
    }
}
