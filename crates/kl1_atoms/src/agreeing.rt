// Whether two seats of the shared table know a text by one number.

ghost use Rattle.std.specs.Prelude.{◌≡◌, ℕ, List, None, Some, IsTrue, IsSome, ◌⊎◌};
ghost use Rattle.kl1_text.specs.BuiltIns.{built_in_of};
ghost use Rattle.kl1_atoms.specs.Names.{number_by};
ghost use Rattle.kl1_atoms.specs.Seats.{face_in, IsSharedSeat};
ghost use Rattle.kl1_atoms.specs.Seeking.{HasNoted};

use crate::atom_seat::AtomSeat;
use crate::atom_table::AtomTable;
use crate::sought::Sought;
use crate::turns::Turns;
use atomic_table::Badge;
use kl1_text::AtomText;
use std::mem;

impl AtomTable {
    /// Whether one look-up, by a seat that speaks for both accounts, finds a text in the table. It does wherever one of the two
    /// seats knows the text, and what both know it by is one number.
    pub fn agree(&self, a: &mut AtomSeat, b: &mut AtomSeat, text: AtomText) -> bool
        requires a { IsSharedSeat self.now.table.shared.table_id a.old.badge.table_id self.now.accounts (face_in a.old.badge.views) a.old.account }
        requires b { IsSharedSeat self.now.table.shared.table_id b.old.badge.table_id self.now.accounts (face_in b.old.badge.views) b.old.account }
        ensures known { IsSome (number_by (face_in a.old.badge.views).knows text) ⊎ IsSome (number_by (face_in b.old.badge.views).knows text) → IsTrue result }
        ensures one { (m n : ℕ) → number_by (face_in a.old.badge.views).knows text ≡ Some m → number_by (face_in b.old.badge.views).knows text ≡ Some n → m ≡ n }
        ensures found { IsTrue result → built_in_of text ≡ None → HasNoted (face_in a.new.badge.views) text }
        ensures a { IsSharedSeat self.now.table.shared.table_id a.new.badge.table_id self.now.accounts (face_in a.new.badge.views) a.new.account }
        ensures b { IsSharedSeat self.now.table.shared.table_id b.new.badge.table_id self.now.accounts (face_in b.new.badge.views) b.new.account }
        ensures accounts { (a.new.account ≡ a.old.account) × (b.new.account ≡ b.old.account) }
        ensures same { ((face_in a.new.badge.views).knows ≡ (face_in a.old.badge.views).knows) × ((face_in b.new.badge.views).knows ≡ (face_in b.old.badge.views).knows) }
        ensures nothing { (a.new.used ≡ a.old.used) × (b.new.used ≡ b.old.used) }
    {
        text.shows_text();
        let mut joint = mem::replace(&mut a.badge, Badge::blank()).into_seat();
        let other = mem::replace(&mut b.badge, Badge::blank()).into_seat();
        self.join(&mut joint, other);
        let sought = self.seek(&mut joint, &text, &mut Turns::new());
        let parted = self.part(&mut joint);
        a.badge = joint.into_badge();
        b.badge = parted.into_badge();
        match sought {
            Sought::Found(_, _) => true,
            Sought::Free(_) => text.built_in().is_some(),
        }
    }
}
