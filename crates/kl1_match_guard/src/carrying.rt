// A number goes to the operation that waits for it, and what that comes to goes further on.

ghost use Rattle.std.specs.Prelude.{◌≡◌, ◌≤◌, ℕ, vec_len, vec_capacity};
ghost use Rattle.kl1_model.specs.Term.{Term};
ghost use Rattle.kl1_match_guard.specs.Pendings.{after, rights_of, CarriesAs, TakesRight};

use crate::arithmetic::apply;
use crate::pending::Pending;
use kl1_model::Number;

/// Where a number leads.
#[derive(Clone, Copy)]
pub(crate) enum Carried<A> {
    /// To the right operand of an operation, which is to be looked at next.
    To(A),
    /// Nothing waited for it: the whole expression comes to this.
    Whole(Number),
}

/// Applies the operations that wait, the last one first, as long as they have both operands.
#[inline(always)]
pub(crate) fn carry<A: Copy>(stack: &mut Vec<Pending<A>>, number: Number) -> Carried<A>
    ensures means { (term : A → Term) (left : ℕ) → CarriesAs term left (after term stack.old.items number left) result stack.new.items }
    ensures rights { TakesRight (rights_of stack.old.items) (rights_of stack.new.items) result }
    ensures len { vec_len stack.new ≤ vec_len stack.old }
    ensures capacity { vec_capacity stack.new ≡ vec_capacity stack.old }
{
    let mut value = number;
    while let Some(pending) = stack.pop() {
        match pending {
            Pending::Right(operator, right) => {
                stack.push_reserved(Pending::Apply(operator, value));
                return Carried::To(right);
            }
            Pending::With(operator, right) => value = apply(operator, value, Number::Value(right)),
            Pending::Apply(operator, left) => value = apply(operator, left, value),
        }
    }
    Carried::Whole(value)
}
