// The shared table as a source of names.

ghost use Rattle.std.specs.Prelude.{◌≡◌, ℕ};
ghost use Rattle.kl1_atoms.specs.Seats.{face_in, IsSharedSeat};

use crate::atom_seat::AtomSeat;
use crate::atom_source::AtomSource;
use crate::atom_table::AtomTable;
use crate::turns::Turns;
use kl1_text::{AtomNo, AtomText};

/// The shared table, lent: a source of names for code that takes any.
#[derive(Clone, Copy)]
pub struct SharedAtoms<'t> {
    pub table: &'t AtomTable,
}

impl<'t> AtomSource for SharedAtoms<'t> {
    type Seat = AtomSeat;

    ghost is_of = { λ atoms seat. IsSharedSeat atoms.table.now.table.shared.table_id seat.badge.table_id atoms.table.now.accounts (face_in seat.badge.views) seat.account };

    ghost place = { λ seat. ((seat.badge.table_id.views_name, (face_in seat.badge.views).room), seat.account) };

    ghost knows = { λ seat. (face_in seat.badge.views).knows };

    ghost published = { λ seat. seat.used };

    ghost one_to_one = { λ atoms seat of. seat.names.names };

    fn intern(&mut self, seat: &mut AtomSeat, text: AtomText) -> AtomNo {
        self.table.intern(seat, text, &mut Turns::new())
    }

    fn text_of(&mut self, seat: &mut AtomSeat, number: AtomNo) -> AtomText {
        self.table.text_of(seat, number)
    }
}
