// Names that are those of built-ins: of operators, and of tests.

ghost use Rattle.std.specs.Prelude.{◌≡◌, ℕ, List, bytes_eq};
ghost use Rattle.kl1_model.specs.Text.{text_of};
ghost use Rattle.kl1_model.specs.Arithmetic.{operator_named};
ghost use Rattle.kl1_model.specs.Guard.{type_test_named, comparison_named};
ghost use Rattle.kl1_text.specs.Reading.{Reads};

use kl1_model::{BuiltIn, Comparison, Operator, TypeTest};
use kl1_text::NameValue;

/// Whether a name is that of a built-in.
#[inline]
pub(crate) fn is_built_in<N: NameValue>(name: N, built_in: BuiltIn) -> bool
    ensures { (f : N → List ℕ) → Reads N.built f → result ≡ bytes_eq (f name) (text_of built_in) }
{
    name.same(&N::of(built_in))
}

/// The operator of a name, if it is one's.
#[inline(always)]
pub(crate) fn operator_of<N: NameValue>(name: N) -> Option<Operator>
    ensures { (f : N → List ℕ) → Reads N.built f → result ≡ operator_named (f name) }
{
    if is_built_in(name, BuiltIn::Plus) {
        return Some(Operator::Plus);
    }
    if is_built_in(name, BuiltIn::Minus) {
        return Some(Operator::Minus);
    }
    if is_built_in(name, BuiltIn::Times) {
        return Some(Operator::Times);
    }
    if is_built_in(name, BuiltIn::Divide) {
        return Some(Operator::Divide);
    }
    if is_built_in(name, BuiltIn::Modulo) {
        return Some(Operator::Modulo);
    }
    None
}

/// The test of one term that has this name, if one has.
#[inline(always)]
pub(crate) fn inspection_of<N: NameValue>(name: N) -> Option<TypeTest>
    ensures { (f : N → List ℕ) → Reads N.built f → result ≡ type_test_named (f name) }
{
    if is_built_in(name, BuiltIn::Wait) {
        return Some(TypeTest::Bound);
    }
    if is_built_in(name, BuiltIn::Integer) {
        return Some(TypeTest::Integer);
    }
    if is_built_in(name, BuiltIn::Atom) {
        return Some(TypeTest::Atom);
    }
    if is_built_in(name, BuiltIn::ListTest) {
        return Some(TypeTest::Cell);
    }
    None
}

/// The comparison of a name, if it is one's.
#[inline(always)]
pub(crate) fn comparison_of<N: NameValue>(name: N) -> Option<Comparison>
    ensures { (f : N → List ℕ) → Reads N.built f → result ≡ comparison_named (f name) }
{
    if is_built_in(name, BuiltIn::Less) {
        return Some(Comparison::Less);
    }
    if is_built_in(name, BuiltIn::Greater) {
        return Some(Comparison::Greater);
    }
    if is_built_in(name, BuiltIn::AtMost) {
        return Some(Comparison::AtMost);
    }
    if is_built_in(name, BuiltIn::AtLeast) {
        return Some(Comparison::AtLeast);
    }
    if is_built_in(name, BuiltIn::SameNumber) {
        return Some(Comparison::SameNumber);
    }
    if is_built_in(name, BuiltIn::OtherNumber) {
        return Some(Comparison::OtherNumber);
    }
    None
}
