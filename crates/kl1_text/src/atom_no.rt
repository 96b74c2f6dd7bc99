// A name by its number.

ghost use Rattle.std.specs.Prelude.{◌≡◌};
ghost use Rattle.kl1_model.specs.declared.built_in.BuiltIn.{BuiltIn};
ghost use Rattle.kl1_text.specs.BuiltIns.{place_of};

use crate::name_value::NameValue;
use kl1_model::BuiltIn;

/// The number of a name in a table of names. The built-in names have the numbers of their places, below 64; others have
/// numbers from 64.
#[derive(Clone, Copy)]
pub struct AtomNo {
    pub number: u32,
}

impl NameValue for AtomNo {
    ghost built = { λ b. record { number = place_of b } };

    fn of(built_in: BuiltIn) -> Self {
        AtomNo {
            number: built_in as u32,
        }
    }

    fn same(&self, other: &Self) -> bool {
        self.number == other.number
    }
}
