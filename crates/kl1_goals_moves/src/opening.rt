// What comes of goals that spell names, and of goals that open shoens.

ghost use Rattle.std.specs.Prelude.{◌≡◌};
ghost use Rattle.kl1_goals_moves.specs.Opening.{naming, opening};

use crate::look::Look;
use crate::moves::Move;
use crate::spelling::Spelling;
use kl1_model::BuiltIn;
use kl1_store::Cell;

/// What comes of a cell that becomes the name that codes spell, or nothing while they wait.
pub(crate) fn naming<N: Copy>(target: Cell<N>, spelling: Spelling) -> Option<Move<N>>
    ensures { result ≡ naming target spelling }
{
    match spelling {
        Spelling::Spelled => Some(Move::Names(target)),
        Spelling::Waits(_) => None,
        Spelling::Misspelled => Some(Move::Raises(BuiltIn::IllegalInput)),
    }
}

/// What comes of an order for a new shoen by the look at it, or nothing while that waits.
pub(crate) fn opening<N: Copy>(structure: u32, look: Look) -> Option<Move<N>>
    ensures { result ≡ opening structure look }
{
    match look {
        Look::Right => Some(Move::Opens(structure)),
        Look::Waits(_) => None,
        Look::Wrong => Some(Move::Raises(BuiltIn::IllegalInput)),
    }
}
