// Tests that compare the values of two expressions.

ghost use Rattle.std.specs.Prelude.{◌≡◌, ℕ, IfOk, IsOk, OnOk};
ghost use Rattle.kl1_model.specs.Guard.{compared, numbers_answer};
ghost use Rattle.kl1_match_guard.specs.Evaluations.{HasRoom};
ghost use Rattle.kl1_match_guard.specs.Outcomes.{outcome_of, ComparesAs, IsKnown, IsWaiting};

use crate::evaluated::Evaluated;
use crate::evaluating::evaluate;
use crate::outcome::{Outcome, decide};
use crate::scratch::Scratch;
use crate::view::View;
use kl1_model::{Comparison, Number};
use kl1_text::NameValue;
use std::alloc::AllocError;

/// Whether a comparison holds of two integers.
fn holds(comparison: Comparison, left: i64, right: i64) -> bool
    ensures { result ≡ compared comparison left right }
{
    match comparison {
        Comparison::Less => left < right,
        Comparison::Greater => left > right,
        Comparison::AtMost => left <= right,
        Comparison::AtLeast => left >= right,
        Comparison::SameNumber => left == right,
        Comparison::OtherNumber => left != right,
    }
}

/// A comparison of what two expressions come to; a fault of computing clashes.
fn compare_numbers<V>(comparison: Comparison, left: Number, right: Number) -> Outcome<V>
    ensures value { (number : V → ℕ) → outcome_of number result ≡ numbers_answer comparison left right }
    ensures known { IsKnown result }
{
    match left {
        Number::Value(first) => match right {
            Number::Value(second) => decide(holds(comparison, first, second)),
            Number::Overflow => Outcome::Clashes,
            Number::ZeroDivisor => Outcome::Clashes,
        },
        Number::Overflow => Outcome::Clashes,
        Number::ZeroDivisor => Outcome::Clashes,
    }
}

/// Compares two terms as expressions: the left one is scanned first, and the first that is no number, or waits, decides. Want of
/// memory is the only error; if the scratch has served a call before, there is none.
#[inline(always)]
pub fn compare<N: NameValue, T: View<N>>(
    view: &T,
    comparison: Comparison,
    left: T::At,
    right: T::At,
    scratch: &mut Scratch<T::At, T::Structure>,
) -> Result<Outcome<T::Variable>, AllocError>
    requires left { T.IsAt view.now left }
    requires right { T.IsAt view.now right }
    ensures value { IfOk result (ComparesAs N.built (T.number view.now) comparison (λ f. T.term f view.now left) (λ f. T.term f view.now right)) }
    ensures waits { IfOk result (IsWaiting (T.IsFree view.now)) }
    ensures room { HasRoom scratch.old → IsOk result }
    ensures kept { HasRoom scratch.old → HasRoom scratch.new }
    ensures made { OnOk result (HasRoom scratch.new) }
{
    let first = match evaluate(view, left, scratch)? {
        Evaluated::ComesTo(number) => number,
        Evaluated::Awaits(variable) => return Ok(Outcome::Waits(variable)),
        Evaluated::IsNoExpression => return Ok(Outcome::Clashes),
    };
    match evaluate(view, right, scratch)? {
        Evaluated::ComesTo(second) => Ok(compare_numbers(comparison, first, second)),
        Evaluated::Awaits(variable) => Ok(Outcome::Waits(variable)),
        Evaluated::IsNoExpression => Ok(Outcome::Clashes),
    }
}
