// A set of places, in four levels of words.

ghost use Rattle.std.specs.Prelude.{◌≡◌, ◌*◌, ◌<◌, ◌≤◌, ℕ, true, List, [], length, MatchOption, OnOk, OnErr};
ghost use Rattle.kl1_queue.specs.Bits.{bit_of, IsSetAt, IsClearedAt, IsLeast, IsEmpty};

use crate::word::{clear_bit, has_bit, lowest, pad, set_bit};
use std::alloc::{AllocError, Global};
use std::marker::Model;

/// Places from 0, each in the set or not.
///
/// There is a bit for each place, and in each level above a bit for each word of the level below, set if that word isn't 0.
#[derive(Drop)]
pub(crate) struct BitSet {
    low: Vec<u64>,
    middle: Vec<u64>,
    high: Vec<u64>,
    top: u64,
}

impl Model for BitSet {
    ghost use Rattle.std.specs.Prelude.{ℕ, List};
    ghost use Rattle.kl1_queue.specs.Bits.{AreLevels};

    ghost Value = { List ℕ };

    ghost view = { λ b. b.low.items };

    ghost invariant = { λ b. AreLevels b.low.items b.middle.items b.high.items b.top };
}

impl BitSet {
    /// An empty set without places.
    pub(crate) fn new(alloc: Global) -> BitSet
        ensures { result ≡ [] }
    {
        BitSet {
            low: Vec::new(alloc),
            middle: Vec::new(alloc),
            high: Vec::new(alloc),
            top: 0,
        }
    }

    /// Puts a place into the set.
    #[inline]
    pub(crate) fn insert(&mut self, place: usize)
        requires { place < 64 * length self.old }
        ensures { IsSetAt self.old self.new place }
    {
        let middle = place / 64;
        let high = middle / 64;
        set_bit(&mut self.low, place);
        set_bit(&mut self.middle, middle);
        set_bit(&mut self.high, high);
        self.top |= 1 << (high / 64);
    }

    /// Takes a place out of the set, and tells whether it was in it.
    #[inline]
    pub(crate) fn remove(&mut self, place: usize) -> bool
        requires { place < 64 * length self.old }
        ensures cleared { IsClearedAt self.old self.new place }
        ensures was { result ≡ true → bit_of self.old place ≡ 1 }
    {
        if !has_bit(&self.low, place) {
            return false;
        }
        self.clear(place);
        true
    }

    /// Takes a place out of the set: up from its bit, as far as no other bit of a word is set.
    #[inline]
    fn clear(&mut self, place: usize)
        requires { place < 64 * length self.old }
        ensures { IsClearedAt self.old self.new place }
    {
        if clear_bit(&mut self.low, place) > 0 {
            return;
        }
        let middle = place / 64;
        if clear_bit(&mut self.middle, middle) > 0 {
            return;
        }
        let high = middle / 64;
        if clear_bit(&mut self.high, high) > 0 {
            return;
        }
        self.top &= !(1 << (high / 64));
    }

    /// Whether the set is empty.
    #[inline]
    pub(crate) fn is_empty(&self) -> bool
        ensures { result ≡ true → IsEmpty self.now }
    {
        self.top == 0
    }

    /// The least place of the set, `None` if it is empty.
    #[inline]
    pub(crate) fn first(&self) -> Option<usize>
        ensures { MatchOption result (IsEmpty self.now) (λ k. IsLeast self.now k) }
    {
        if self.top == 0 {
            return None;
        }
        let top = self.top.trailing_zeros() as usize;
        let high = lowest(&self.high, top);
        let middle = lowest(&self.middle, high);
        Some(lowest(&self.low, middle))
    }

    /// Gives the set bits for the places of at least `words` words; those that are added aren't in it.
    pub(crate) fn grow(&mut self, words: usize) -> Result<(), AllocError>
        requires { words ≤ 262144 }
        ensures ok { OnOk result (words ≤ length self.new) }
        ensures more { length self.old ≤ length self.new }
        ensures same { (k : ℕ) → bit_of self.new k ≡ bit_of self.old k }
        ensures err { OnErr result (self.new ≡ self.old) }
    {
        let middle = (words + 63) / 64;
        pad(&mut self.high, (middle + 63) / 64)?;
        pad(&mut self.middle, middle)?;
        pad(&mut self.low, words)
    }
}
