// What one account knows of the shared table.

ghost use Rattle.std.specs.Prelude.{◌≡◌, ◌+◌, ◌≤◌, [], length};
ghost use Rattle.kl1_atoms.specs.Rule.{Listed};
ghost use Rattle.kl1_atoms.specs.Seats.{face_in, resting};

use crate::face::View;
use atomic_table::Badge;

/// What one account knows of the shared table, the first of its own entries, and how many of these it has used.
pub struct AtomSeat {
    pub(crate) badge: Badge<View>,
    pub(crate) account: u64,
    pub(crate) first: u64,
    pub(crate) used: u64,
    pub ghost rests: { badge.views ≡ resting (face_in badge.views) },
    pub ghost first_is: { (face_in badge.views).first ≡ first },
    pub ghost range: { first + (face_in badge.views).room ≤ (face_in badge.views).entries },
    pub ghost used_is: { (face_in badge.views).used ≡ used },
    pub ghost used_up: { used ≤ length (face_in badge.views).knows },
    pub ghost bound: { used ≤ (face_in badge.views).room },
    pub ghost draft: { (face_in badge.views).draft ≡ [] },
    pub ghost names: { Listed (face_in badge.views).entries (face_in badge.views).knows },
}

/// Not derived, so that crates above don't prove the drop of each part again.
impl Drop for AtomSeat {
    fn drop(self) {
        let AtomSeat {
            badge,
            account: _,
            first: _,
            used: _,
        } = self;
        let _ = badge;
    }
}
