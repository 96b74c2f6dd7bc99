// Pauses after wrong keys.

ghost use Rattle.std.specs.Prelude.{◌≡◌, ◌≤◌, ℕ, length, slice_get, IfOk, IfSome};
ghost use Rattle.kl1_host_front.specs.Pauses.{wrongs_in, count_of, one_more, pause_after, OthersStay, OthersMayBeFewer};

use crate::wrong_keys::{
    FORGOTTEN_AFTER, LONGEST_PAUSE, MOST_COUNTED, MOST_REMEMBERED, Pauses, Wrong,
};
use std::alloc::{AllocError, Global};

/// The pause after this many wrong keys in a row, in milliseconds.
fn pause_after(count: u8) -> u64
    ensures { result ≡ pause_after count }
{
    if count == 0 {
        0
    } else if count == 1 {
        100
    } else if count == 2 {
        200
    } else if count == 3 {
        400
    } else if count == 4 {
        800
    } else if count == 5 {
        1_600
    } else if count == 6 {
        3_200
    } else if count == 7 {
        6_400
    } else {
        LONGEST_PAUSE
    }
}

/// One wrong key more.
fn one_more(count: u8) -> u8
    ensures { result ≡ one_more count }
{
    if count < MOST_COUNTED {
        count + 1
    } else {
        MOST_COUNTED
    }
}

impl Pauses {
    /// No wrong key was tried. There is room for all that may be remembered, so that none that is tried later asks for memory.
    pub fn new(alloc: Global) -> Result<Self, AllocError>
        ensures { IfOk result (λ p. (who : ℕ) → (now : ℕ) → count_of (wrongs_in p) who now ≡ 0) }
    {
        let wrongs = Vec::with_capacity(alloc, MOST_REMEMBERED)?;
        Ok(Pauses { wrongs })
    }

    /// How many wrong keys were tried in a row for `who`, who may try one more at `now`.
    fn count_of(&self, who: u128, now: u64) -> u8
        ensures { result ≡ count_of (wrongs_in self.now) who now }
    {
        let mut rest = self.wrongs.as_slice();
        while let [first, others @ ..] = rest {
            if first.who == who {
                return if now.saturating_sub(first.last) < FORGOTTEN_AFTER {
                    first.count
                } else {
                    0
                };
            }
            rest = others;
        }
        0
    }

    /// How long `who` has to wait at `now` until a key is looked at, in milliseconds.
    pub fn pause_of(&self, who: u128, now: u64) -> u64
        ensures { result ≡ pause_after (count_of (wrongs_in self.now) who now) }
    {
        pause_after(self.count_of(who, now))
    }

    /// The place of `who`, or how many there are.
    fn place_of(&self, who: u128) -> usize
        ensures absent { result ≡ length (wrongs_in self.now) → (now : ℕ) → count_of (wrongs_in self.now) who now ≡ 0 }
        ensures there { IfSome (slice_get (wrongs_in self.now) result) (λ wrong. wrong.who ≡ who) }
        ensures within { result ≤ length (wrongs_in self.now) }
    {
        let mut place = 0;
        let mut rest = self.wrongs.as_slice();
        while let [first, others @ ..] = rest {
            if first.who == who {
                return place;
            }
            place += 1;
            rest = others;
        }
        place
    }

    /// A wrong key was tried for `who` at `now`. If too many are remembered, the one whose last wrong key is the oldest is forgotten.
    #[tactic(auto, using(crate::proofs::WrongKeys::newest_counts))]
    pub fn note_wrong(&mut self, who: u128, now: u64)
        ensures counted { count_of (wrongs_in self.new) who now ≡ one_more (count_of (wrongs_in self.old) who now) }
        ensures others { OthersMayBeFewer who (wrongs_in self.old) (wrongs_in self.new) }
    {
        let count = one_more(self.count_of(who, now));
        let place = self.place_of(who);
        if place < self.wrongs.len() {
            self.wrongs.remove(place);
        } else if self.wrongs.len() >= MOST_REMEMBERED {
            self.wrongs.pop();
        }
        let wrong = Wrong {
            who,
            count,
            last: now,
        };
        if self.wrongs.insert(0, wrong).is_err() {
            // There is room for one more.
            unreachable!()
        }
    }

    /// The wrong keys of `who` are forgotten, since a good one came.
    #[tactic(auto, using(crate::proofs::WrongKeys::removed_others))]
    pub fn forget(&mut self, who: u128)
        ensures forgotten { (now : ℕ) → count_of (wrongs_in self.new) who now ≡ 0 }
        ensures others { OthersStay who (wrongs_in self.old) (wrongs_in self.new) }
    {
        let mut place = self.place_of(who);
        while place < self.wrongs.len() {
            self.wrongs.remove(place);
            place = self.place_of(who);
        }
    }
}
