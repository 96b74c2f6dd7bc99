// Tests that look at what one term is.

ghost use Rattle.std.specs.Prelude.{◌≡◌, ℕ, List};
ghost use Rattle.kl1_model.specs.Guard.{is_found};
ghost use Rattle.kl1_model.specs.Term.{Term, Terms};
ghost use Rattle.kl1_text.specs.Reading.{Reads};
ghost use Rattle.kl1_match_guard.specs.Forms.{IsForm};
ghost use Rattle.kl1_match_guard.specs.Outcomes.{LooksAs, IsWaiting};

use crate::form::Form;
use crate::names::is_built_in;
use crate::outcome::{Outcome, decide};
use crate::view::View;
use kl1_model::{BuiltIn, TypeTest};
use kl1_text::NameValue;

/// Whether a bound term of this form is what a test looks for.
#[inline]
fn is_found<N: NameValue, V: Copy, S: Copy>(type_test: TypeTest, form: Form<N, V, S>) -> bool
    ensures { (f : N → List ℕ) (number : V → ℕ) (arguments : S → Terms) (t : Term) → Reads N.built f → IsForm f number arguments form t → result ≡ is_found type_test t }
{
    match type_test {
        TypeTest::Bound => true,
        TypeTest::Integer => matches!(form, Form::Integer(_)),
        TypeTest::Atom => matches!(form, Form::Atom(_)),
        TypeTest::Cell => match form {
            Form::Structure(name, count, _) => count == 2 && is_built_in(name, BuiltIn::ListCell),
            _ => false,
        },
    }
}

/// Looks at a term; the test waits while that is an unbound variable.
pub fn look_at<N: NameValue, T: View<N>>(
    view: &T,
    type_test: TypeTest,
    at: T::At,
) -> Outcome<T::Variable>
    requires { T.IsAt view.now at }
    ensures value { LooksAs N.built (T.number view.now) type_test (λ f. T.term f view.now at) result }
    ensures waits { IsWaiting (T.IsFree view.now) result }
{
    match view.form_of(at) {
        Form::Variable(variable) => Outcome::Waits(variable),
        form => decide(is_found(type_test, form)),
    }
}
