// The queue of places that are ready.

ghost use Rattle.std.specs.Prelude.{◌≡◌, ◌+◌, ◌-◌, ◌<◌, ◌≤◌, [], ◌∷◌, ◌++◌, length, set, take, MatchOption, IfSome, IfNone, OnOk, OnErr};
ghost use Rattle.kl1_model.specs.declared.limits.TheConstants.{MONITOR_PRIORITY};
ghost use Rattle.kl1_queue.specs.Ranks.{rank_of, AreNone, IsFirst, IsPriority};

use crate::bit_set::BitSet;
use crate::rank_tree::RankTree;
use std::alloc::{AllocError, Global};
use std::marker::Model;

/// Places from 0 in order, each not ready, or ready with a priority, from 0 to a monitor's.
///
/// The places of one rank are a set beside the tree of the others, in which the places of the set aren't ready: if all places that
/// are ready have one priority, none costs a walk through the tree.
#[derive(Drop)]
pub struct ReadyQueue {
    tree: RankTree,
    bits: BitSet,
    bits_rank: u16,
}

impl Model for ReadyQueue {
    ghost use Rattle.kl1_queue.specs.Ranks.{Queued};

    ghost Value = { Queued };

    ghost use Rattle.kl1_queue.specs.Over.{overlay, IsWide};

    ghost view = { λ q. record { ranks = overlay q.bits_rank q.bits 0 q.tree.ranks; room = q.tree.room } };

    ghost invariant = { λ q. IsWide q.bits_rank q.bits q.tree.ranks q.tree.room };
}

impl ReadyQueue {
    /// A queue without places.
    pub fn new(alloc: Global) -> ReadyQueue
        ensures ranks { result.ranks ≡ [] }
    {
        ReadyQueue {
            tree: RankTree::new(alloc),
            bits: BitSet::new(alloc),
            bits_rank: 0,
        }
    }

    /// How many places there are.
    #[inline]
    pub fn len(&self) -> usize
        ensures { result ≡ length self.now.ranks }
    {
        self.tree.len()
    }

    /// Makes room for `more` places more: to extend by these can't be refused then.
    ///
    /// There are at most 16,777,216 places; more are refused as for want of memory.
    #[inline]
    pub fn reserve(&mut self, more: usize) -> Result<(), AllocError>
        ensures ok { OnOk result (more ≤ self.new.room) }
        ensures ranks { self.new.ranks ≡ self.old.ranks }
        ensures room { self.old.room ≤ self.new.room }
        ensures err { OnErr result (self.new ≡ self.old) }
    {
        if more <= self.tree.room() {
            return Ok(());
        }
        self.grow(more)
    }

    /// Makes room for `more` places more, if there is too little.
    #[inline(never)]
    fn grow(&mut self, more: usize) -> Result<(), AllocError>
        requires little { self.old.room < more }
        ensures ok { OnOk result (more ≤ self.new.room) }
        ensures ranks { self.new.ranks ≡ self.old.ranks }
        ensures room { self.old.room ≤ self.new.room }
        ensures err { OnErr result (self.new ≡ self.old) }
    {
        let grown = self.tree.grown(more)?;
        self.bits.grow((grown.places() + 63) / 64)?;
        self.tree = grown;
        Ok(())
    }

    /// Gives a place this rank: by a bit if it is the rank of the set, and in the tree if not.
    #[inline]
    fn hold(&mut self, place: usize, rank: u16)
        requires place { place < length self.old.ranks }
        requires rank { 0 < rank }
        ensures { self.new ≡ record self.old { ranks = set self.old.ranks place rank } }
    {
        if rank == self.bits_rank {
            self.bits.insert(place);
            self.tree.set_rank(place, 0);
            return;
        }
        self.hold_other(place, rank);
    }

    /// Gives a place a rank that isn't the set's: if the set is empty its rank is this one from then on.
    fn hold_other(&mut self, place: usize, rank: u16)
        requires place { place < length self.old.ranks }
        requires rank { 0 < rank }
        ensures { self.new ≡ record self.old { ranks = set self.old.ranks place rank } }
    {
        if self.bits.is_empty() {
            self.bits_rank = rank;
            self.bits.insert(place);
            self.tree.set_rank(place, 0);
            return;
        }
        self.bits.remove(place);
        self.tree.set_rank(place, rank);
    }

    /// One more place at the end, ready with a priority or not ready.
    #[inline]
    pub fn extend(&mut self, priority: Option<u16>)
        requires room { 0 < self.old.room }
        requires priority { IsPriority priority }
        ensures ranks { self.new.ranks ≡ self.old.ranks ++ rank_of priority ∷ [] }
        ensures room { self.new.room + 1 ≡ self.old.room }
    {
        let place = self.tree.len();
        self.tree.extend_unready();
        match priority {
            None => {}
            Some(priority) => self.hold(place, priority + 1),
        }
    }

    /// A place is ready with a priority from now on.
    #[inline]
    pub fn put(&mut self, place: usize, priority: u16)
        requires place { place < length self.old.ranks }
        requires priority { priority ≤ MONITOR_PRIORITY }
        ensures { self.new ≡ record self.old { ranks = set self.old.ranks place (priority + 1) } }
    {
        self.hold(place, priority + 1);
    }

    /// A place isn't ready from now on.
    #[inline]
    pub fn remove(&mut self, place: usize)
        requires { place < length self.old.ranks }
        ensures { self.new ≡ record self.old { ranks = set self.old.ranks place 0 } }
    {
        if !self.bits.remove(place) {
            self.tree.set_rank(place, 0);
        }
    }

    /// The last place is gone, and what it took is room.
    #[inline]
    pub fn drop_last(&mut self)
        requires { 0 < length self.old.ranks }
        ensures ranks { self.new.ranks ≡ take (length self.old.ranks - 1) self.old.ranks }
        ensures room { self.new.room ≡ self.old.room + 1 }
    {
        let last = self.tree.len() - 1;
        self.bits.remove(last);
        self.tree.drop_last();
    }

    /// The first of the places that are ready.
    #[inline]
    pub fn first(&self) -> Option<usize>
        ensures { MatchOption result (AreNone self.now.ranks) (λ k. IsFirst self.now.ranks k) }
    {
        match self.bits.first() {
            None => self.tree.first(),
            Some(place) => {
                if self.tree.greatest() < self.bits_rank {
                    return Some(place);
                }
                match self.tree.first() {
                    None => Some(place),
                    Some(other) => {
                        let rank = self.tree.rank_at(other);
                        if rank < self.bits_rank {
                            return Some(place);
                        }
                        if rank == self.bits_rank && place < other {
                            return Some(place);
                        }
                        Some(other)
                    }
                }
            }
        }
    }

    /// The first of the places that are ready, which isn't ready from now on.
    #[inline]
    pub fn take_first(&mut self) -> Option<usize>
        ensures first { MatchOption result (AreNone self.old.ranks) (λ k. IsFirst self.old.ranks k) }
        ensures none { IfNone result (self.new ≡ self.old) }
        ensures taken { IfSome result (λ k. self.new ≡ record self.old { ranks = set self.old.ranks k 0 }) }
    {
        let place = self.first()?;
        self.remove(place);
        Some(place)
    }

    /// No places from now on; what they took is room.
    pub fn clear(&mut self)
        ensures ranks { self.new.ranks ≡ [] }
        ensures room { self.new.room ≡ self.old.room + length self.old.ranks }
    {
        while self.len() > 0 {
            self.drop_last();
        }
    }
}
