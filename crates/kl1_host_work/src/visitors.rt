// The places of a lobby, and who has them.

ghost use Rattle.std.specs.Prelude.{◌≡◌, ◌<◌, map, length, slice_index_or, slice_set, count_by, position, not, true, MatchOption, IfOk};
ghost use Rattle.std.specs.Net.Socket.{socket_ip};
ghost use Rattle.std.specs.declared.net.ip_addr.IpAddr.{IpAddr};
ghost use Rattle.kl1_host_work.specs.Strangers.{IsCanonical, network_in};
ghost use Rattle.kl1_host_work.specs.Places.{free, is_free, is_from, is_stranger_from, left, lent};
ghost use Rattle.kl1_host_work.specs.Visitors.{are_too_many, first_of, IsFirstToGo, IsLookedAt, AreTold, NobodyGoes, OneGoes, IsTakenIn, IsAdmitted};
ghost use Rattle.kl1_host_work.specs.declared.place.Place.{Place};

use crate::lobby::{Admission, Limits};
use crate::place::Place;
use crate::visit::Visit;
use std::alloc::{AllocError, Global};
use std::net::{IpAddr, SocketAddr};
use std::sync::Arc;

/// Places for connections, and who has them.
#[derive(Drop)]
pub(crate) struct Visitors<S: Drop> {
    places: Vec<Place<S>>,
    /// The number of the last connection.
    last: u64,
    is_closing: bool,
}

impl<S: Drop> Visitors<S> {
    /// As many free places as there are shares.
    pub(crate) fn new(alloc: Global, shares: Vec<S>) -> Result<Self, AllocError>
        ensures { IfOk result (λ v. v.places.items ≡ map free shares.items) }
    {
        let mut places = Vec::with_capacity(alloc, shares.len())?;
        for share in shares {
            places.push(Place::free(share))?;
        }
        Ok(Visitors {
            places,
            last: 0,
            is_closing: false,
        })
    }

    /// Lets a connection in, if a place is free; not if the host is closing, or if too many are open from its network. If no place is free,
    /// the first that gives way is told to end.
    pub(crate) fn admit(
        &mut self,
        visit: Arc<Visit, Global>,
        address: SocketAddr,
        limits: Limits,
    ) -> Admission
        ensures { (seen : Visitors S) × IsLookedAt self.old seen × (canonical : IpAddr) × IsCanonical (socket_ip address) canonical × IsAdmitted (network_in canonical) limits.each limits.waiting_each seen self.new result }
    {
        self.look();
        self.admit_from(visit, address, network_of(address.ip()), limits)
    }

    /// Takes in how far all have come.
    fn look(&mut self)
        ensures { IsLookedAt self.old self.new }
    {
        for place in self.places.iter_mut() {
            place.look();
        }
    }

    /// `admit`, of one that came from this network, by what was seen of the others.
    fn admit_from(
        &mut self,
        visit: Arc<Visit, Global>,
        address: SocketAddr,
        network: u128,
        limits: Limits,
    ) -> Admission
        ensures { IsAdmitted network limits.each limits.waiting_each self.old self.new result }
    {
        if self.is_closing {
            return Admission::Closing;
        }
        if are_too_many(self.places.as_slice(), network, limits) {
            return Admission::TurnedAway;
        }
        if let Some(place) = free_of(self.places.as_slice()) {
            self.take_in(place, visit, address, network);
            return Admission::Open(place);
        }
        match self.end_first(u64::MAX) {
            Some(address) => Admission::Awaits(address),
            None => Admission::Waits,
        }
    }

    /// Gives a free place to a connection.
    fn take_in(
        &mut self,
        place: usize,
        visit: Arc<Visit, Global>,
        address: SocketAddr,
        network: u128,
    )
        requires { place < length self.old.places.items }
        ensures { IsTakenIn network place self.old self.new }
    {
        self.last = self.last.saturating_add(1);
        self.places[place].take_in(visit, address, network, self.last);
    }

    /// Tells the first to end that gives way to the one of this number, and answers its address.
    fn end_first(&mut self, before: u64) -> Option<SocketAddr>
        ensures { MatchOption result (NobodyGoes before self.old.places.items self.new.places.items) (λ _. OneGoes before self.old.places.items self.new.places.items) }
    {
        let first = first_to_go(self.places.as_slice(), before)?;
        self.places[first.0].end()
    }

    /// `end_first` of those that came before who has this place.
    pub(crate) fn make_room(&mut self, place: usize) -> Option<SocketAddr> {
        self.look();
        let before = self.places.get(place)?.number()?;
        self.end_first(before)
    }

    /// Lends the share of who has a place.
    pub(crate) fn lend(&mut self, place: usize) -> Option<S>
        ensures { (d : Place S) → place < length self.old.places.items → result ≡ lent (slice_index_or self.old.places.items place d) }
    {
        if place >= self.places.len() {
            return None;
        }
        self.places[place].lend()
    }

    /// Frees a place with the share that comes back, or with the one that wasn't lent.
    pub(crate) fn leave(&mut self, place: usize, share: Option<S>)
        ensures { (d : Place S) → place < length self.old.places.items → self.new.places.items ≡ slice_set self.old.places.items place (left share (slice_index_or self.old.places.items place d)) }
    {
        if place < self.places.len() {
            self.places[place].leave(share);
        }
    }

    /// Lets nobody in from now on, and tells all to end.
    pub(crate) fn close(&mut self)
        ensures { (self.new.is_closing ≡ true) × AreTold self.old.places.items self.new.places.items (length self.old.places.items) }
    {
        self.is_closing = true;
        for place in self.places.iter_mut() {
            let _ = place.end();
        }
    }

    /// Ends those, once they are answered, that `Visit::is_of` tells of these accounts; and, if `others`, that `is_open_to_all` tells.
    pub(crate) fn end_those(&self, accounts: &[usize], others: bool) {
        for place in self.places.iter() {
            place.end_if(accounts, others);
        }
    }

    /// Whether nobody is let in any more.
    pub(crate) fn is_closing(&self) -> bool
        ensures { result ≡ self.now.is_closing }
    {
        self.is_closing
    }

    /// Whether one that comes has to wait: no place is free, and nobody is turned away yet.
    pub(crate) fn are_full(&self) -> bool {
        !self.is_closing && free_of(self.places.as_slice()).is_none()
    }

    /// Whether some were told to end and haven't yet.
    pub(crate) fn are_leaving(&self) -> bool {
        self.places.iter().any(|place| place.is_leaving())
    }

    /// How many connections are open.
    pub(crate) fn count(&self) -> usize
        ensures { result ≡ count_by (λ p. not (is_free p)) self.now.places.items }
    {
        self.places.iter().filter(|place| !place.is_free()).count()
    }
}

/// The number of an address by which connections are counted.
fn network_of(address: IpAddr) -> u128
    ensures { (canonical : IpAddr) × IsCanonical address canonical × (result ≡ network_in canonical) }
{
    match address.to_canonical() {
        IpAddr::V4(short) => u128::from(short.to_bits()),
        // Who has one address of such a network has all.
        IpAddr::V6(long) => (1 << 64) + (long.to_bits() >> 64),
    }
}

/// How many connections are open from a network.
fn count_from<S: Drop>(places: &[Place<S>], network: u128) -> usize
    ensures { result ≡ count_by (λ p. is_from network p.visitor) places.now }
{
    places.iter().filter(|place| place.is_from(network)).count()
}

/// How many connections are open from a network that have shown no key.
fn count_strangers<S: Drop>(places: &[Place<S>], network: u128) -> usize
    ensures { result ≡ count_by (λ p. is_stranger_from network p.visitor) places.now }
{
    places
        .iter()
        .filter(|place| place.is_stranger_from(network))
        .count()
}

/// Whether as many connections are open from a network as may be, or as many that have shown no key.
fn are_too_many<S: Drop>(places: &[Place<S>], network: u128, limits: Limits) -> bool
    ensures { result ≡ are_too_many network limits.each limits.waiting_each places.now }
{
    count_from(places, network) >= limits.each
        || count_strangers(places, network) >= limits.waiting_each
}

/// The first free place.
fn free_of<S: Drop>(places: &[Place<S>]) -> Option<usize>
    ensures { result ≡ position is_free places.now }
{
    places.iter().position(|place| place.is_free())
}

/// Of two places with ranks, the one of the least rank; one without doesn't count.
fn first_of(found: Option<(usize, u128)>, place: usize, rank: Option<u128>) -> Option<(usize, u128)>
    ensures { result ≡ first_of found place rank }
{
    let Some(rank) = rank else {
        return found;
    };
    let Some((first, least)) = found else {
        return Some((place, rank));
    };
    if rank < least {
        Some((place, rank))
    } else {
        Some((first, least))
    }
}

/// The place of the first that gives way to the one of this number, and its rank.
fn first_to_go<S: Drop>(places: &[Place<S>], before: u64) -> Option<(usize, u128)>
    ensures { IsFirstToGo before places.now (length places.now) result }
{
    let mut found = None;
    for (at, place) in places.iter().enumerate() {
        found = first_of(found, at, place.rank(before));
    }
    found
}
