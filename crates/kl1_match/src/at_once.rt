// Tests that are decided at once: a comparison of two integers.

ghost use Rattle.std.specs.Prelude.{ℕ, List, IfSome};
ghost use Rattle.kl1_match.specs.Instances.{AreThere};
ghost use Rattle.kl1_match.specs.TestTerms.{tests_with};
ghost use Rattle.kl1_match.specs.Testing.{TestsCome};
ghost use Rattle.kl1_match.specs.AtOnce.{IsComparison, IsInteger};

use crate::place::Place;
use crate::test_view::{cell_of, instruction_at};
use crate::testing::holds;
use kl1_clause::{Instruction, Name};
use kl1_model::{BuiltIn, Comparison};
use kl1_store::{Cell, Store};
use kl1_text::NameValue;

/// The comparison whose name a name of the language is, if it is one's.
#[inline(always)]
fn comparison_in(name: BuiltIn) -> Option<Comparison>
    ensures { IfSome result (IsComparison name) }
{
    match name {
        BuiltIn::Less => Some(Comparison::Less),
        BuiltIn::Greater => Some(Comparison::Greater),
        BuiltIn::AtMost => Some(Comparison::AtMost),
        BuiltIn::AtLeast => Some(Comparison::AtLeast),
        BuiltIn::SameNumber => Some(Comparison::SameNumber),
        BuiltIn::OtherNumber => Some(Comparison::OtherNumber),
        _ => None,
    }
}

/// The integer that an instruction is, or that stands at the first place of the variable that it is.
#[inline(always)]
fn integer_at<N: NameValue>(
    store: &Store<N>,
    places: &[Place<N>],
    instruction: Instruction,
) -> Option<i64>
    requires { AreThere store.now.held places.now }
    ensures { IfSome result (IsInteger store.now.held places.now instruction) }
{
    match instruction {
        Instruction::Variable(variable) => match cell_of(places, variable) {
            Some(cell) => match store.walk(cell) {
                Cell::Integer(integer) => Some(integer),
                Cell::Variable(_) => None,
                Cell::Atom(_) => None,
                Cell::Structure(_) => None,
            },
            None => None,
        },
        Instruction::Integer(integer) => Some(integer),
        Instruction::Atom(_) => None,
        Instruction::Structure(_, _) => None,
    }
}

/// What all tests of a row come to, if they are one comparison of two operands, each an integer or a variable at whose first
/// place one stands: whether it holds. No variable is awaited then. If nothing is answered, nothing is said of the tests.
#[inline(always)]
pub fn known_at_once<N: NameValue>(
    store: &Store<N>,
    row: &[Instruction],
    places: &[Place<N>],
) -> Option<bool>
    requires { AreThere store.now.held places.now }
    ensures { IfSome result (λ holds. (names : List N) (awaited : List ℕ) → TestsCome N.built (tests_with store.now.held names row.now places.now) 0 awaited awaited holds) }
{
    if row.len() != 3 {
        return None;
    }
    let Instruction::Structure(name, 2) = instruction_at(row, 0) else {
        return None;
    };
    let Name::Language(name) = name else {
        return None;
    };
    let Some(comparison) = comparison_in(name) else {
        return None;
    };
    let Some(left) = integer_at(store, places, instruction_at(row, 1)) else {
        return None;
    };
    let Some(right) = integer_at(store, places, instruction_at(row, 2)) else {
        return None;
    };
    Some(holds(comparison, left, right))
}
