// Which test a term is.

ghost use Rattle.std.specs.Prelude.{◌≡◌, ℕ, List, IfSome, option_map};
ghost use Rattle.kl1_model.specs.Term.{Term};
ghost use Rattle.kl1_model.specs.Guard.{test_of, test_of_two};
ghost use Rattle.kl1_text.specs.Reading.{Reads};
ghost use Rattle.kl1_match_guard.specs.Tests.{test_in, IsOfTwo, IsTestAt};

use crate::form::Form;
use crate::names::{comparison_of, inspection_of, is_built_in};
use crate::view::View;
use kl1_model::{BuiltIn, Comparison, TypeTest};
use kl1_text::NameValue;

/// A test, with where the terms stand of which it asks.
#[derive(Clone, Copy)]
pub enum Test<A> {
    /// `true`
    Holds,
    /// A look at one term.
    Looks(TypeTest, A),
    /// `=`
    IsSame(A, A),
    /// `\=`
    IsOther(A, A),
    /// A comparison of two expressions.
    Compares(Comparison, A, A),
}

/// The test of two terms that has this name, if one has.
#[inline(always)]
fn test_of_two<N: NameValue, A: Copy>(name: N, left: A, right: A) -> Option<Test<A>>
    ensures two { IfSome result (IsOfTwo left right) }
    ensures means { (f : N → List ℕ) (term : A → Term) → Reads N.built f → option_map (test_in term) result ≡ test_of_two (f name) (term left) (term right) }
{
    if is_built_in(name, BuiltIn::Equal) {
        return Some(Test::IsSame(left, right));
    }
    if is_built_in(name, BuiltIn::NotEqual) {
        return Some(Test::IsOther(left, right));
    }
    match comparison_of(name) {
        Some(comparison) => Some(Test::Compares(comparison, left, right)),
        None => None,
    }
}

/// The test that a term is, if it is one.
#[inline(always)]
pub fn test_at<N: NameValue, T: View<N>>(view: &T, at: T::At) -> Option<Test<T::At>>
    requires { T.IsAt view.now at }
    ensures inside { IfSome result (IsTestAt (T.IsAt view.now)) }
    ensures means { (f : N → List ℕ) → Reads N.built f → option_map (test_in (T.term f view.now)) result ≡ test_of (T.term f view.now at) }
{
    match view.form_of(at) {
        Form::Variable(_) => None,
        Form::Integer(_) => None,
        Form::Atom(name) => {
            if is_built_in(name, BuiltIn::True) {
                return Some(Test::Holds);
            }
            None
        }
        Form::Structure(name, count, structure) => {
            if count == 1 {
                return match inspection_of(name) {
                    Some(type_test) => { Some(Test::Looks(type_test, view.argument(structure, 0))) }
                    None => None,
                };
            }
            if count == 2 {
                let left = view.argument(structure, 0);
                let right = view.argument(structure, 1);
                return test_of_two(name, left, right);
            }
            None
        }
    }
}
