// What a term is in an expression.

ghost use Rattle.std.specs.Prelude.{ℕ, List};
ghost use Rattle.kl1_text.specs.Reading.{Reads};
ghost use Rattle.kl1_match_guard.specs.Parts.{ScansAs, IsPartIn};

use crate::form::Form;
use crate::names::operator_of;
use crate::view::View;
use kl1_model::Operator;
use kl1_text::NameValue;

/// What a term is as a part of an expression.
#[derive(Clone, Copy)]
pub(crate) enum Part<V, A> {
    /// An unbound variable.
    Variable(V),
    Integer(i64),
    /// An operator with its two operands.
    Operation(Operator, A, A),
    /// What belongs in no expression.
    Other,
}

/// What a term is as a part of an expression.
#[inline(always)]
pub(crate) fn part_of<N: NameValue, T: View<N>>(view: &T, at: T::At) -> Part<T::Variable, T::At>
    requires { T.IsAt view.now at }
    ensures inside { IsPartIn (T.IsFree view.now) (T.IsAt view.now) result }
    ensures means { (f : N → List ℕ) → Reads N.built f → ScansAs (T.number view.now) (T.term f view.now) (T.term f view.now at) result }
{
    match view.form_of(at) {
        Form::Variable(variable) => Part::Variable(variable),
        Form::Integer(integer) => Part::Integer(integer),
        Form::Atom(_) => Part::Other,
        Form::Structure(name, count, structure) => {
            if count != 2 {
                return Part::Other;
            }
            match operator_of(name) {
                Some(operator) => Part::Operation(
                    operator,
                    view.argument(structure, 0),
                    view.argument(structure, 1),
                ),
                None => Part::Other,
            }
        }
    }
}
