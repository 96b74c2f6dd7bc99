// A table of names that a type names.

ghost use Rattle.std.specs.Prelude.{◌≡◌};
ghost use Rattle.kl1_atoms.specs.Seats.{face_in};
ghost use Rattle.kl1_pool.specs.Parts.{IsSeatOf};

use crate::pool_ids::PoolIds;
use kl1_atoms::{AtomSeat, AtomSource, AtomTable, Turns};
use kl1_text::{AtomNo, AtomText};
use std::marker::PhantomData;

/// The table of names that a type names, lent. Whether a seat is of it is read from the type alone, so that an account which is kept
/// under a lock, without the table, is known to have a seat of it.
#[derive(Drop)]
pub struct NamedAtoms<'t, K: PoolIds> {
    pub table: &'t AtomTable,
    pub of: PhantomData<K>,
    pub ghost named: { table.now.table.shared.table_id ≡ K.table },
    pub ghost sized: { table.now.accounts ≡ K.seats },
}

impl<'t, K: PoolIds> AtomSource for NamedAtoms<'t, K> {
    type Seat = AtomSeat;

    ghost is_of = { λ atoms seat. IsSeatOf K.table K.seats K.rules seat };

    ghost place = { λ seat. ((seat.badge.table_id.views_name, (face_in seat.badge.views).room), seat.account) };

    ghost knows = { λ seat. (face_in seat.badge.views).knows };

    ghost published = { λ seat. seat.used };

    ghost one_to_one = { λ atoms seat of. seat.names.names };

    fn intern(&mut self, seat: &mut AtomSeat, text: AtomText) -> AtomNo {
        self.table.intern(seat, text, &mut Turns::new())
    }

    fn text_of(&mut self, seat: &mut AtomSeat, number: AtomNo) -> AtomText {
        self.table.text_of(seat, number)
    }
}
