// A look-up in the shared table, bucket by bucket.

ghost use Rattle.std.specs.Prelude.{◌≡◌, ◌≢◌, ℕ, suc, ◌+◌, ◌*◌, ◌%◌, ◌<◌, ◌≤◌, ◌↔◌, Bool, true, false, List, [], IsTrue, length};
ghost use Rattle.kl1_model.specs.declared.limits.TheConstants.{FIRST_NUMBER, MOST_ACCOUNTS, MOST_NAMES};
ghost use Rattle.kl1_model.specs.Text.{is_text};
ghost use Rattle.kl1_text.specs.Words.{words_to_end};
ghost use Rattle.kl1_atoms.specs.declared.face.Face.{Face};
ghost use Rattle.kl1_atoms.specs.declared.face.Heard.{Heard};
ghost use Rattle.kl1_atoms.specs.Way.{further, mixed, start};
ghost use Rattle.kl1_atoms.specs.Rule.{own_entry};
ghost use Rattle.kl1_atoms.specs.Plays.{own, has_first, with_first, Steps, In, Passed};
ghost use Rattle.kl1_atoms.specs.Rounds.{Starts, Walks, Gives, SameAccount, Drafts, draft_of, Compares, Ends};

use crate::atom_table::{AtomTable, BUCKETS_EACH};
use crate::face::View;
use crate::round::{Ended, Round};
use crate::sought::Sought;
use crate::turns::Turns;
use atomic_table::Seat;
use kl1_model::limits::FIRST_NUMBER;
use kl1_text::{AtomNo, AtomText, NameValue};

/// What each sum is multiplied by in a mix: 2 ^ 64 over the golden ratio, by which names that differ in a few bytes are spread out.
const MIX: u64 = 11_400_714_819_323_198_485;

/// How many values half the bits of a word have.
const HALF: u64 = 4_294_967_296;

impl AtomTable {
    /// Whether an entry that was seen has a text.
    pub(crate) fn has_text(&self, seat: &mut Seat<(), View>, entry: u64, text: &AtomText) -> bool
        requires of { seat.old.table_id ≡ self.now.table.shared.table_id }
        requires first { IsTrue (has_first seat.old.me.0.faces) }
        requires entries { (own seat.old.me.0).entries ≡ self.now.entries }
        requires entry { entry < self.now.entries }
        requires name { IsTrue (is_text text.now) }
        ensures of { seat.new.table_id ≡ seat.old.table_id }
        ensures same { seat.new.me ≡ seat.old.me }
        ensures is { (h : Heard) → In (own seat.old.me.0).heard h → h.entry ≡ entry → IsTrue (is_text h.text) → IsTrue result ↔ (h.text ≡ text.now) }
    {
        let words = text.words();
        for word in 0..words.len() {
            if self.read(seat, entry, word as u64) != words[word] {
                return false;
            }
        }
        true
    }

    /// Knows the text of a bucket that was seen, if it is the one that is looked up.
    fn compare(
        &self,
        seat: &mut Seat<(), View>,
        text: &AtomText,
        bucket: u64,
        entry: u64,
        passed: u64,
        drafted: bool,
    ) -> Round
        requires of { seat.old.table_id ≡ self.now.table.shared.table_id }
        requires first { IsTrue (has_first seat.old.me.0.faces) }
        requires entries { (own seat.old.me.0).entries ≡ self.now.entries }
        requires way { bucket ≡ further self.now.entries text.now passed }
        requires within { bucket < 2 * self.now.entries }
        requires entry { entry < self.now.entries }
        requires walks { Walks (own seat.old.me.0) text.now passed drafted }
        requires small { passed ≤ self.now.entries }
        requires seen { (h : Heard) × In (own seat.old.me.0).heard h × (h.bucket ≡ bucket) × (h.entry ≡ entry) × IsTrue (is_text h.text) }
        ensures of { seat.new.table_id ≡ seat.old.table_id }
        ensures gives { Steps seat.old.me seat.new.me (λ f g. Compares f g text.now passed drafted result) }
    {
        if self.has_text(seat, entry, text) {
            self.learn(seat, bucket);
            Round::Found(entry)
        } else {
            Round::Other(drafted)
        }
    }

    /// Drafts a text in the seat's own entry, if that isn't done.
    fn have_draft(&self, seat: &mut Seat<(), View>, entry: u64, text: &AtomText, drafted: bool)
        requires of { seat.old.table_id ≡ self.now.table.shared.table_id }
        requires first { IsTrue (has_first seat.old.me.0.faces) }
        requires entries { (own seat.old.me.0).entries ≡ self.now.entries }
        requires room { (own seat.old.me.0).used < (own seat.old.me.0).room }
        requires draft { (own seat.old.me.0).draft ≡ draft_of drafted text.now }
        requires entry { entry ≡ own_entry (own seat.old.me.0) }
        requires bound { entry < self.now.entries }
        ensures of { seat.new.table_id ≡ seat.old.table_id }
        ensures tells { Steps seat.old.me seat.new.me (λ f g. Drafts f g (words_to_end text.now)) }
    {
        if drafted {
            return;
        }
        let words = text.words();
        for word in 0..words.len() {
            self.draft(seat, entry, word as u64, words[word]);
        }
    }

    /// Looks at one bucket of a text's way, and publishes the text if the bucket is free.
    fn round(
        &self,
        seat: &mut Seat<(), View>,
        text: &AtomText,
        bucket: u64,
        entry: u64,
        passed: u64,
        drafted: bool,
    ) -> Round
        requires of { seat.old.table_id ≡ self.now.table.shared.table_id }
        requires first { IsTrue (has_first seat.old.me.0.faces) }
        requires entries { (own seat.old.me.0).entries ≡ self.now.entries }
        requires way { bucket ≡ further self.now.entries text.now passed }
        requires within { bucket < 2 * self.now.entries }
        requires entry { entry ≡ own_entry (own seat.old.me.0) }
        requires range { (own seat.old.me.0).first + (own seat.old.me.0).room ≤ self.now.entries }
        requires walks { Walks (own seat.old.me.0) text.now passed drafted }
        requires few { passed + 1 ≤ 2 * self.now.entries }
        ensures of { seat.new.table_id ≡ seat.old.table_id }
        ensures gives { Steps seat.old.me seat.new.me (λ f g. Gives f g text.now passed result) }
    {
        let value = self.look(seat, bucket);
        if value > 0 {
            return self.compare(seat, text, bucket, value - 1, passed, drafted);
        }
        self.have_draft(seat, entry, text, drafted);
        let value = self.publish(seat, bucket, entry);
        if value == 0 {
            return Round::Made;
        }
        self.compare(seat, text, bucket, value - 1, passed, true)
    }

    /// The bucket where a look-up of a text starts.
    pub fn first_bucket(&self, text: &AtomText) -> u64
        ensures value { result ≡ start self.now.entries text.now }
        ensures within { result < 2 * self.now.entries }
    {
        mixed(text.words()) / HALF * (BUCKETS_EACH * self.entries) / HALF
    }

    /// The bucket that is `passed` after `start`, round the end.
    pub(crate) fn bucket_at(&self, start: u64, passed: u64) -> u64
        requires start { start < 2 * self.now.entries }
        requires passed { passed < 2 * self.now.entries }
        ensures { result ≡ (start + passed) % (2 * self.now.entries) }
    {
        let bucket = start + passed;
        let buckets = BUCKETS_EACH * self.entries;
        if bucket < buckets {
            bucket
        } else {
            bucket - buckets
        }
    }

    /// Goes on with the look-up of a text that is neither built in nor in the buckets passed: it is found, or published.
    fn search(
        &self,
        seat: &mut Seat<(), View>,
        text: &AtomText,
        from: u64,
        entry: u64,
        used: u64,
        turns: &mut Turns,
    ) -> Ended
        requires of { seat.old.table_id ≡ self.now.table.shared.table_id }
        requires first { IsTrue (has_first seat.old.me.0.faces) }
        requires entries { (own seat.old.me.0).entries ≡ self.now.entries }
        requires range { (own seat.old.me.0).first + (own seat.old.me.0).room ≤ self.now.entries }
        requires entry { entry ≡ own_entry (own seat.old.me.0) }
        requires used { used ≡ (own seat.old.me.0).used }
        requires bound { used ≤ (own seat.old.me.0).room }
        requires walks { Walks (own seat.old.me.0) text.now from false }
        requires from { from ≤ self.now.entries }
        ensures of { seat.new.table_id ≡ seat.old.table_id }
        ensures ends { Steps seat.old.me seat.new.me (λ f g. Ends f g text.now result.number.number × (g.used ≡ f.used + result.more)) }
        ensures more { used + result.more ≤ (own seat.old.me.0).room }
        ensures turns { turns.new + from ≤ turns.old + self.now.entries + 1 }
        ensures grow { turns.old ≤ turns.new }
    {
        let start = self.first_bucket(text);
        let mut drafted = false;
        for passed in from..BUCKETS_EACH * self.entries {
            turns.tick();
            let bucket = self.bucket_at(start, passed);
            match self.round(seat, text, bucket, entry, passed, drafted) {
                Round::Found(found) => return ended(found, 0),
                Round::Made => return ended(entry, 1),
                Round::Other(still) => drafted = still,
            }
        }
        unreachable!()
    }

    /// Looks a text up: along its way, and if that ends without it, among the built-in names. Any other text is published.
    pub(crate) fn look_up(
        &self,
        seat: &mut Seat<(), View>,
        text: &AtomText,
        entry: u64,
        used: u64,
        turns: &mut Turns,
    ) -> Ended
        requires of { seat.old.table_id ≡ self.now.table.shared.table_id }
        requires first { IsTrue (has_first seat.old.me.0.faces) }
        requires entries { (own seat.old.me.0).entries ≡ self.now.entries }
        requires range { (own seat.old.me.0).first + (own seat.old.me.0).room ≤ self.now.entries }
        requires entry { entry ≡ own_entry (own seat.old.me.0) }
        requires used { used ≡ (own seat.old.me.0).used }
        requires bound { used ≤ (own seat.old.me.0).room }
        requires starts { Starts (own seat.old.me.0) text.now }
        ensures of { seat.new.table_id ≡ seat.old.table_id }
        ensures ends { Steps seat.old.me seat.new.me (λ f g. Ends f g text.now result.number.number × (g.used ≡ f.used + result.more)) }
        ensures more { used + result.more ≤ (own seat.old.me.0).room }
        ensures turns { (turns.old < turns.new) × (turns.new ≤ turns.old + 2 * self.now.entries) }
    {
        match self.seek(seat, text, turns) {
            Sought::Found(bucket, found) => {
                self.learn(seat, bucket);
                ended(found, 0)
            }
            Sought::Free(passed) => {
                if let Some(built_in) = text.built_in() {
                    return Ended {
                        number: AtomNo::of(built_in),
                        more: 0,
                    };
                }
                self.search(seat, text, passed, entry, used, turns)
            }
        }
    }
}

/// The end of a look-up at an entry.
fn ended(entry: u64, more: u64) -> Ended
    requires { entry < (MOST_ACCOUNTS * MOST_NAMES) }
    ensures number { result.number.number ≡ FIRST_NUMBER + entry }
    ensures more { result.more ≡ more }
{
    Ended {
        number: AtomNo {
            number: FIRST_NUMBER + entry as u32,
        },
        more,
    }
}

/// Words mixed into one, one after another.
fn mixed(words: &[u64]) -> u64
    ensures value { result ≡ mixed 0 words.now }
    ensures below { result < 18446744073709551616 }
{
    let mut number = 0u64;
    for word in words {
        number = number.wrapping_add(*word).wrapping_mul(MIX);
    }
    number
}
