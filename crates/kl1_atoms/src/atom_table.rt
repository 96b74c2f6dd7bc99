// The table of names that threads share.

ghost use Rattle.std.specs.Prelude.{◌≡◌, ℕ, suc, ◌+◌, ◌*◌, ◌<◌, ◌≤◌, List, [], IsTrue, length};
ghost use Rattle.kl1_model.specs.declared.limits.TheConstants.{MOST_ACCOUNTS, MOST_NAMES};
ghost use Rattle.kl1_atoms.specs.Rule.{words_each};
ghost use Rattle.kl1_text.specs.Words.{name_words};
ghost use Rattle.kl1_atoms.specs.declared.face.Heard.{Heard};
ghost use Rattle.kl1_atoms.specs.Rule.{word_place, own_entry};
ghost use Rattle.kl1_atoms.specs.Seats.{own_part, other_part, joint_view};
ghost use Rattle.kl1_atoms.specs.Plays.{own, others_of, has_first, Steps, In, Looks, Meets, Reads, drafted_more, IsReady, Publishes, Learns};

use crate::face::{Size, View};
use crate::law::{Draft, Joined, Law, Learn, Look, Parted, Publish, Read};
use atomic_table::{Seat, Table};
use kl1_text::WORDS;
use std::alloc::Global;

/// The buckets of the table for each entry.
pub(crate) const BUCKETS_EACH: u64 = 2;

/// The words of an entry, as table places are counted.
const ENTRY_WORDS: u64 = WORDS as u64;

/// The words of the table for each entry: its buckets, and its own words.
pub(crate) const WORDS_EACH: usize = BUCKETS_EACH as usize + WORDS;

/// A table of names for several accounts, in which many threads look names up at once, each with a seat of its own.
#[derive(Drop)]
pub struct AtomTable {
    pub(crate) table: Table<(), View, Size, Law, Global>,
    pub(crate) accounts: u64,
    pub(crate) room: u64,
    pub(crate) entries: u64,
    pub ghost key: { table.shared.key.entries ≡ entries },
    pub ghost size: { table.shared.table_id.words ≡ words_each * entries },
    pub ghost some: { 1 < entries },
    pub ghost few: { entries ≤ (MOST_ACCOUNTS * MOST_NAMES) },
    pub ghost counted: { accounts ≤ MOST_ACCOUNTS },
}

impl AtomTable {
    /// Looks at a bucket.
    pub(crate) fn look(&self, seat: &mut Seat<(), View>, bucket: u64) -> u64
        requires of { seat.old.table_id ≡ self.now.table.shared.table_id }
        requires first { IsTrue (has_first seat.old.me.0.faces) }
        requires bucket { bucket < 2 * self.now.entries }
        ensures of { seat.new.table_id ≡ seat.old.table_id }
        ensures tells { Steps seat.old.me seat.new.me (λ f g. Looks f g bucket result) }
        ensures meets { Meets (own seat.old.me.0) (others_of seat.old.me.0.faces) bucket result }
    {
        self.table.shared.load::<Look>(seat, bucket as usize)
    }

    /// Reads a word of an entry.
    pub(crate) fn read(&self, seat: &mut Seat<(), View>, entry: u64, word: u64) -> u64
        requires of { seat.old.table_id ≡ self.now.table.shared.table_id }
        requires first { IsTrue (has_first seat.old.me.0.faces) }
        requires entry { entry < self.now.entries }
        requires word { word < name_words }
        ensures of { seat.new.table_id ≡ seat.old.table_id }
        ensures same { seat.new.me ≡ seat.old.me }
        ensures tells { Reads (own seat.old.me.0) (word_place self.now.entries entry word) result }
    {
        let place = BUCKETS_EACH * self.entries + ENTRY_WORDS * entry + word;
        self.table.shared.load::<Read>(seat, place as usize)
    }

    /// Stores a word of the seat's own entry.
    pub(crate) fn draft(&self, seat: &mut Seat<(), View>, entry: u64, word: u64, value: u64)
        requires of { seat.old.table_id ≡ self.now.table.shared.table_id }
        requires first { IsTrue (has_first seat.old.me.0.faces) }
        requires room { (own seat.old.me.0).used < (own seat.old.me.0).room }
        requires next { word ≡ length (own seat.old.me.0).draft }
        requires entry { entry ≡ own_entry (own seat.old.me.0) }
        requires bound { entry < self.now.entries }
        requires word { word < name_words }
        requires entries { (own seat.old.me.0).entries ≡ self.now.entries }
        ensures of { seat.new.table_id ≡ seat.old.table_id }
        ensures tells { Steps seat.old.me seat.new.me (λ f g. g ≡ drafted_more f value) }
    {
        let place = BUCKETS_EACH * self.entries + ENTRY_WORDS * entry + word;
        self.table
            .shared
            .store::<Draft>(seat, place as usize, value);
    }

    /// Publishes the seat's own entry in a free bucket, or finds who was first.
    pub(crate) fn publish(&self, seat: &mut Seat<(), View>, bucket: u64, entry: u64) -> u64
        requires of { seat.old.table_id ≡ self.now.table.shared.table_id }
        requires first { IsTrue (has_first seat.old.me.0.faces) }
        requires bucket { bucket < 2 * self.now.entries }
        requires entry { entry ≡ own_entry (own seat.old.me.0) }
        requires bound { entry < self.now.entries }
        requires ready { (t : List ℕ) × (d : ℕ) × IsReady (own seat.old.me.0) t d bucket }
        ensures of { seat.new.table_id ≡ seat.old.table_id }
        ensures tells { Steps seat.old.me seat.new.me (λ f g. Publishes f g bucket result) }
    {
        self.table
            .shared
            .compare_exchange::<Publish>(seat, bucket as usize, 0, entry + 1)
    }

    /// Looks at a bucket that was seen, so that its text is known.
    pub(crate) fn learn(&self, seat: &mut Seat<(), View>, bucket: u64)
        requires of { seat.old.table_id ≡ self.now.table.shared.table_id }
        requires first { IsTrue (has_first seat.old.me.0.faces) }
        requires bucket { bucket < 2 * self.now.entries }
        requires seen { (h : Heard) × In (own seat.old.me.0).heard h × (h.bucket ≡ bucket) }
        ensures of { seat.new.table_id ≡ seat.old.table_id }
        ensures tells { Steps seat.old.me seat.new.me (λ f g. Learns f g bucket) }
    {
        let _ = self.table.shared.load::<Learn>(seat, bucket as usize);
    }

    /// Makes two seats one, which speaks for the accounts of both.
    pub(crate) fn join(&self, seat: &mut Seat<(), View>, other: Seat<(), View>)
        requires of { seat.old.table_id ≡ self.now.table.shared.table_id }
        requires other { other.table_id ≡ self.now.table.shared.table_id }
        requires free { other.me.1 ≡ [] }
        ensures of { seat.new.table_id ≡ seat.old.table_id }
        ensures both { seat.new.me ≡ (joint_view seat.old.me.0 other.me.0, seat.old.me.1) }
    {
        self.table.shared.join_seat::<Joined>(seat, other);
    }

    /// Cuts a seat's own account off: the new seat has the others.
    pub(crate) fn part(&self, seat: &mut Seat<(), View>) -> Seat<(), View>
        requires of { seat.old.table_id ≡ self.now.table.shared.table_id }
        ensures of { seat.new.table_id ≡ seat.old.table_id }
        ensures own { seat.new.me ≡ (own_part seat.old.me.0, seat.old.me.1) }
        ensures other { result.me ≡ (other_part seat.old.me.0, []) }
        ensures table { result.table_id ≡ seat.old.table_id }
    {
        self.table.shared.split_seat::<Parted>(seat)
    }
}
