// A name's number in an account's cells.

ghost use Rattle.std.specs.Prelude.{◌≡◌, ◌+◌, ◌^◌};
ghost use Rattle.kl1_model.specs.declared.built_in.BuiltIn.{BuiltIn};
ghost use Rattle.kl1_text.specs.BuiltIns.{place_of};

use crate::atom_no::AtomNo;
use crate::name_value::NameValue;
use kl1_model::BuiltIn;

/// The first of the numbers that stand for names that are not published yet: no `AtomNo` is so great.
const FIRST_SPARE: u64 = 4_294_967_296;

/// A name's number as it stands in the cells of an account: that of an `AtomNo`, below 2^32, or, while an event is drafted,
/// a spare number from 2^32 on, which stands for a name that isn't published yet.
#[derive(Clone, Copy)]
pub struct CellName {
    pub number: u64,
}

impl CellName {
    /// A published name.
    pub fn of_number(no: AtomNo) -> Self
        ensures { result.number ≡ no.number }
    {
        CellName {
            number: u64::from(no.number),
        }
    }

    /// The spare number of a place, from 0.
    pub fn spare(place: u32) -> Self
        ensures { result.number ≡ 2 ^ 32 + place }
    {
        CellName {
            number: FIRST_SPARE + u64::from(place),
        }
    }
}

impl NameValue for CellName {
    ghost built = { λ b. record { number = place_of b } };

    fn of(built_in: BuiltIn) -> Self {
        CellName {
            number: built_in as u64,
        }
    }

    fn same(&self, other: &Self) -> bool {
        self.number == other.number
    }
}
