// Operations that wait for an operand.

ghost use Rattle.std.specs.Prelude.{ℕ, List, [], ◌∷◌};
ghost use Rattle.std.specs.List.{All};
ghost use Rattle.kl1_match_guard.specs.Pendings.{rights_of, IsPending};

use crate::form::Form;
use crate::view::View;
use kl1_model::{Number, Operator};
use kl1_text::NameValue;

/// An operation on the way: its left operand is being looked at, and the right one stands there, or is this integer; or its left
/// operand has come to this, and the right one is being looked at.
#[derive(Clone, Copy)]
pub(crate) enum Pending<A> {
    Right(Operator, A),
    With(Operator, i64),
    Apply(Operator, Number),
}

/// An operation whose left operand is looked at next.
#[inline(always)]
pub(crate) fn pending_of<N: NameValue, T: View<N>>(
    view: &T,
    operator: Operator,
    right: T::At,
) -> Pending<T::At>
    requires { T.IsAt view.now right }
    ensures inside { All (T.IsAt view.now) (rights_of (result ∷ [])) }
    ensures is { (f : N → List ℕ) → IsPending (T.term f view.now) operator right result }
{
    match view.form_of(right) {
        Form::Integer(integer) => Pending::With(operator, integer),
        _ => Pending::Right(operator, right),
    }
}
