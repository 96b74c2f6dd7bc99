// What comes of goals that make a term what an expression comes to.

ghost use Rattle.std.specs.Prelude.{◌≡◌};
ghost use Rattle.kl1_goals_moves.specs.Assigning.{becomes, assigned};

use crate::moves::Move;
use kl1_match_guard::Evaluated;
use kl1_model::{BuiltIn, Number};
use kl1_store::Cell;

/// What comes of a cell that becomes a number: it is unified with it, or a fault of computing is raised.
fn becomes<N: Copy>(left: Cell<N>, number: Number) -> Move<N>
    ensures { result ≡ becomes left number }
{
    match number {
        Number::Value(integer) => Move::Unifies(left, Cell::Integer(integer)),
        Number::Overflow => Move::Raises(BuiltIn::Overflow),
        Number::ZeroDivisor => Move::Raises(BuiltIn::IllegalInput),
    }
}

/// What comes of a cell that becomes what an expression comes to, or nothing while that waits.
pub(crate) fn assigned<N: Copy>(left: Cell<N>, value: Evaluated<u32>) -> Option<Move<N>>
    ensures { result ≡ assigned left value }
{
    match value {
        Evaluated::ComesTo(number) => Some(becomes(left, number)),
        Evaluated::Awaits(_) => None,
        Evaluated::IsNoExpression => Some(Move::Raises(BuiltIn::IllegalInput)),
    }
}
