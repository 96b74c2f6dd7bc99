// A look-up in the shared table that publishes nothing.

ghost use Rattle.std.specs.Prelude.{◌≡◌, ℕ, ◌+◌, ◌*◌, ◌<◌, ◌≤◌, List, IsTrue};
ghost use Rattle.kl1_model.specs.Text.{is_text};
ghost use Rattle.kl1_atoms.specs.declared.face.Face.{Face};
ghost use Rattle.kl1_atoms.specs.Way.{further};
ghost use Rattle.kl1_atoms.specs.Plays.{own, others_of, has_first, Steps, Passed};
ghost use Rattle.kl1_atoms.specs.Seeking.{Glances, GlancesOthers, Finds, FindsOthers, Ticks};

use crate::atom_table::{AtomTable, BUCKETS_EACH};
use crate::face::View;
use crate::sought::{Glance, Sought};
use crate::turns::Turns;
use atomic_table::Seat;
use kl1_text::AtomText;

impl AtomTable {
    /// Looks at one bucket of a text's way.
    fn glance(&self, seat: &mut Seat<(), View>, text: &AtomText, bucket: u64, passed: u64) -> Glance
        requires of { seat.old.table_id ≡ self.now.table.shared.table_id }
        requires first { IsTrue (has_first seat.old.me.0.faces) }
        requires entries { (own seat.old.me.0).entries ≡ self.now.entries }
        requires way { bucket ≡ further self.now.entries text.now passed }
        requires within { bucket < 2 * self.now.entries }
        requires name { IsTrue (is_text text.now) }
        requires passed { Passed (own seat.old.me.0) text.now passed }
        requires few { passed ≤ 2 * self.now.entries }
        ensures of { seat.new.table_id ≡ seat.old.table_id }
        ensures tells { Steps seat.old.me seat.new.me (λ f g. Glances f g text.now bucket passed result) }
        ensures others { GlancesOthers (own seat.old.me.0) (others_of seat.old.me.0.faces) text.now result }
    {
        let value = self.look(seat, bucket);
        if value == 0 {
            return Glance::Free;
        }
        if self.has_text(seat, value - 1, text) {
            return Glance::Holds(value - 1);
        }
        Glance::Other
    }

    /// Goes along a text's way, to the bucket that points to the text or to a free one.
    pub(crate) fn seek(
        &self,
        seat: &mut Seat<(), View>,
        text: &AtomText,
        turns: &mut Turns,
    ) -> Sought
        requires of { seat.old.table_id ≡ self.now.table.shared.table_id }
        requires first { IsTrue (has_first seat.old.me.0.faces) }
        requires entries { (own seat.old.me.0).entries ≡ self.now.entries }
        requires name { IsTrue (is_text text.now) }
        ensures of { seat.new.table_id ≡ seat.old.table_id }
        ensures tells { Steps seat.old.me seat.new.me (λ f g. Finds f g text.now result) }
        ensures others { FindsOthers (own seat.old.me.0) (others_of seat.old.me.0.faces) text.now result }
        ensures turns { Ticks turns.old turns.new self.now.entries result }
    {
        let start = self.first_bucket(text);
        for passed in 0..BUCKETS_EACH * self.entries {
            turns.tick();
            let bucket = self.bucket_at(start, passed);
            match self.glance(seat, text, bucket, passed) {
                Glance::Free => return Sought::Free(passed),
                Glance::Holds(entry) => return Sought::Found(bucket, entry),
                Glance::Other => {}
            }
        }
        unreachable!()
    }
}
