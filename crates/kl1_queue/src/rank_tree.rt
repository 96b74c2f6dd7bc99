// Ranks of places in order, as leaves of a tree.

ghost use Rattle.std.specs.Prelude.{◌≡◌, ◌+◌, ◌-◌, ◌<◌, ◌≤◌, ℕ, List, [], ◌∷◌, ◌++◌, length, get_or, set, take, drop, MatchOption, IfOk, OnOk, OnErr};
ghost use Rattle.kl1_queue.specs.Ranks.{Queued, AreNone, IsFirst};

use crate::tree::{first_leaf, set_leaf};
use std::alloc::{AllocError, Global};
use std::marker::Model;

/// How many places a tree can have: as many as four levels of words of 64 bits have bits.
const MOST_PLACES: usize = 0x100_0000;

/// Ranks of places from 0 in order, 0 if a place isn't ready.
///
/// They are the leaves of a tree, in whose inner nodes stands the greater of two ranks: a change costs a walk up from a leaf as
/// far as something changes, and the first is found by a walk down.
#[derive(Drop)]
pub(crate) struct RankTree {
    best: Vec<u16>,
    half: usize,
    depth: usize,
    len: usize,
    alloc: Global,
}

impl Model for RankTree {
    ghost use Rattle.std.specs.Prelude.{◌-◌, take, drop};
    ghost use Rattle.kl1_queue.specs.Ranks.{Queued};

    ghost Value = { Queued };

    ghost use Rattle.kl1_queue.specs.Trees.{IsKept};

    ghost view = { λ q. record { ranks = take q.len (drop q.half q.best.items); room = q.half - q.len } };

    ghost invariant = { λ q. IsKept q.half q.depth q.len q.best.items };
}

impl RankTree {
    /// A tree without places.
    pub(crate) fn new(alloc: Global) -> RankTree
        ensures ranks { result.ranks ≡ [] }
        ensures room { result.room ≡ 0 }
    {
        RankTree {
            best: Vec::new(alloc),
            half: 0,
            depth: 0,
            len: 0,
            alloc,
        }
    }

    /// How many places there are.
    #[inline]
    pub(crate) fn len(&self) -> usize
        ensures { result ≡ length self.now.ranks }
    {
        self.len
    }

    /// How many places there are and can be without more memory.
    pub(crate) fn places(&self) -> usize
        ensures { result ≡ length self.now.ranks + self.now.room }
    {
        self.half
    }

    /// How many places more there can be without more memory.
    #[inline]
    pub(crate) fn room(&self) -> usize
        ensures { result ≡ self.now.room }
    {
        self.half - self.len
    }

    /// A tree of the same ranks with room for `more` places more.
    ///
    /// There are at most 16,777,216 places; more are refused as for want of memory.
    pub(crate) fn grown(&self, more: usize) -> Result<RankTree, AllocError>
        requires { self.now.room < more }
        ensures ranks { IfOk result (λ t. t.ranks ≡ self.now.ranks) }
        ensures room { IfOk result (λ t. more ≤ t.room) }
        ensures most { IfOk result (λ t. length t.ranks + t.room ≤ 16777216) }
    {
        if more > MOST_PLACES || self.len > MOST_PLACES - more {
            return Err(AllocError);
        }
        let mut grown = Self::with_room(self.alloc, self.len + more)?;
        grown.append_ranks(&self.best, self.half, self.len);
        Ok(grown)
    }

    /// A tree without places, with room for `room`.
    fn with_room(alloc: Global, room: usize) -> Result<RankTree, AllocError>
        requires some { 0 < room }
        requires most { room ≤ 16777216 }
        ensures ranks { IfOk result (λ q. q.ranks ≡ []) }
        ensures room { IfOk result (λ q. room ≤ q.room) }
        ensures most { IfOk result (λ q. q.room ≤ 16777216) }
    {
        let mut half = 1;
        let mut depth = 0;
        while half < room {
            half *= 2;
            depth += 1;
        }
        let best = vec![in alloc; 0; 2 * half]?;
        Ok(RankTree {
            best,
            half,
            depth,
            len: 0,
            alloc,
        })
    }

    /// Appends the ranks that stand in `best` from `half` on, `count` of them.
    fn append_ranks(&mut self, best: &Vec<u16>, half: usize, count: usize)
        requires within { half + count ≤ length best.now.items }
        requires room { count ≤ self.old.room }
        ensures ranks { self.new.ranks ≡ self.old.ranks ++ take count (drop half best.now.items) }
        ensures room { self.new.room + count ≡ self.old.room }
    {
        for place in 0..count {
            self.extend_rank(best[half + place]);
        }
    }

    /// One more place, of this rank.
    pub(crate) fn extend_rank(&mut self, rank: u16)
        requires { 0 < self.old.room }
        ensures ranks { self.new.ranks ≡ self.old.ranks ++ rank ∷ [] }
        ensures room { self.new.room + 1 ≡ self.old.room }
    {
        set_leaf(&mut self.best, self.half, self.len, rank);
        self.len += 1;
    }

    /// One more place, which isn't ready.
    #[inline]
    pub(crate) fn extend_unready(&mut self)
        requires { 0 < self.old.room }
        ensures ranks { self.new.ranks ≡ self.old.ranks ++ 0 ∷ [] }
        ensures room { self.new.room + 1 ≡ self.old.room }
    {
        self.len += 1;
    }

    /// Gives a place this rank.
    #[inline]
    pub(crate) fn set_rank(&mut self, place: usize, rank: u16)
        requires { place < length self.old.ranks }
        ensures { self.new ≡ record self.old { ranks = set self.old.ranks place rank } }
    {
        set_leaf(&mut self.best, self.half, place, rank);
    }

    /// The rank of a place.
    #[inline]
    pub(crate) fn rank_at(&self, place: usize) -> u16
        requires { place < length self.now.ranks }
        ensures { result ≡ get_or self.now.ranks place 0 }
    {
        self.best[self.half + place]
    }

    /// The last place is gone, and what it took is room.
    #[inline]
    pub(crate) fn drop_last(&mut self)
        requires { 0 < length self.old.ranks }
        ensures ranks { self.new.ranks ≡ take (length self.old.ranks - 1) self.old.ranks }
        ensures room { self.new.room ≡ self.old.room + 1 }
    {
        self.len -= 1;
        set_leaf(&mut self.best, self.half, self.len, 0);
    }

    /// The rank at the top of the tree, 0 without one: no place has a greater rank.
    #[inline]
    pub(crate) fn greatest(&self) -> u16
        ensures { (j : ℕ) → get_or self.now.ranks j 0 ≤ result }
    {
        if self.half == 0 {
            return 0;
        }
        self.best[1]
    }

    /// The first of the places that are ready.
    pub(crate) fn first(&self) -> Option<usize>
        ensures { MatchOption result (AreNone self.now.ranks) (λ k. IsFirst self.now.ranks k) }
    {
        if self.half == 0 {
            return None;
        }
        if self.best[1] == 0 {
            return None;
        }
        let leaf = first_leaf(&self.best, self.depth);
        Some(leaf - self.half)
    }
}
