// What terms come to as expressions.

ghost use Rattle.std.specs.Prelude.{◌≡◌, ◌≤◌, [], IfOk, IfSome, IsOk, OnOk, vec_capacity};
ghost use Rattle.kl1_model.specs.declared.limits.TheConstants.{MOST_OPERATORS};
ghost use Rattle.kl1_match_guard.specs.Evaluations.{EvaluatesAs, IsAwaited, HasRoom};

use crate::arithmetic::operate;
use crate::carrying::{Carried, carry};
use crate::evaluated::Evaluated;
use crate::form::Form;
use crate::part::{Part, part_of};
use crate::pending::{Pending, pending_of};
use crate::scratch::Scratch;
use crate::view::View;
use kl1_model::Number;
use kl1_model::limits::MOST_OPERATORS;
use kl1_text::NameValue;
use std::alloc::AllocError;

/// What a term comes to by itself and its operands, or nothing if there is more to be scanned.
#[inline(always)]
fn at_once<N: NameValue, T: View<N>>(view: &T, at: T::At) -> Option<Evaluated<T::Variable>>
    requires { T.IsAt view.now at }
    ensures value { IfSome result (EvaluatesAs N.built (T.number view.now) (λ f. T.term f view.now at)) }
    ensures awaits { IfSome result (IsAwaited (T.IsFree view.now)) }
{
    match part_of(view, at) {
        Part::Variable(variable) => Some(Evaluated::Awaits(variable)),
        Part::Integer(integer) => Some(Evaluated::ComesTo(Number::Value(integer))),
        Part::Operation(operator, first, second) => match view.form_of(first) {
            Form::Variable(left) => Some(Evaluated::Awaits(left)),
            Form::Integer(left) => match view.form_of(second) {
                Form::Variable(right) => Some(Evaluated::Awaits(right)),
                Form::Integer(right) => Some(Evaluated::ComesTo(operate(operator, left, right))),
                _ => None,
            },
            _ => None,
        },
        Part::Other => Some(Evaluated::IsNoExpression),
    }
}

/// What a term comes to, over an empty list with room for as many operations as an expression may have.
fn scan<N: NameValue, T: View<N>>(
    view: &T,
    whole: T::At,
    stack: &mut Vec<Pending<T::At>>,
) -> Evaluated<T::Variable>
    requires whole { T.IsAt view.now whole }
    requires empty { stack.old.items ≡ [] }
    requires room { MOST_OPERATORS ≤ vec_capacity stack.old }
    ensures value { EvaluatesAs N.built (T.number view.now) (λ f. T.term f view.now whole) result }
    ensures awaits { IsAwaited (T.IsFree view.now) result }
    ensures capacity { vec_capacity stack.new ≡ vec_capacity stack.old }
{
    let mut at = whole;
    let mut left = MOST_OPERATORS;
    'parts: loop {
        match part_of(view, at) {
            Part::Variable(variable) => return Evaluated::Awaits(variable),
            Part::Integer(integer) => match carry(stack, Number::Value(integer)) {
                Carried::To(next) => at = next,
                Carried::Whole(number) => return Evaluated::ComesTo(number),
            },
            Part::Operation(operator, first, second) => {
                if left == 0 {
                    return Evaluated::IsNoExpression;
                }
                left -= 1;
                stack.push_reserved(pending_of(view, operator, second));
                at = first;
            }
            Part::Other => return Evaluated::IsNoExpression,
        }
    }
}

/// What a term comes to as an expression. Want of memory is the only error; if the scratch has served a call before, there is
/// none.
#[inline(always)]
pub fn evaluate<N: NameValue, T: View<N>>(
    view: &T,
    at: T::At,
    scratch: &mut Scratch<T::At, T::Structure>,
) -> Result<Evaluated<T::Variable>, AllocError>
    requires { T.IsAt view.now at }
    ensures value { IfOk result (EvaluatesAs N.built (T.number view.now) (λ f. T.term f view.now at)) }
    ensures awaits { IfOk result (IsAwaited (T.IsFree view.now)) }
    ensures room { HasRoom scratch.old → IsOk result }
    ensures kept { HasRoom scratch.old → HasRoom scratch.new }
    ensures made { OnOk result (HasRoom scratch.new) }
{
    let stack = &mut scratch.stack;
    stack.clear();
    stack.reserve(MOST_OPERATORS as usize)?;
    if let Some(evaluated) = at_once(view, at) {
        return Ok(evaluated);
    }
    Ok(scan(view, at, stack))
}
