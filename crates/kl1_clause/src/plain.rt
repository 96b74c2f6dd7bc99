// Clauses of which the match alone decides.

ghost use Rattle.std.specs.Prelude.{◌≡◌, IsTrue};
ghost use Rattle.kl1_model.specs.declared.built_in.BuiltIn.TheVariants.{True};
ghost use Rattle.kl1_clause.specs.declared.name.Name.TheVariants.{Language};
ghost use Rattle.kl1_clause.specs.declared.instruction.Instruction.TheVariants.{Atom};
ghost use Rattle.kl1_clause.specs.Plain.{AreTrue, is_rising, IsPlain};

use crate::instruction::Instruction;
use crate::name::Name;
use kl1_model::BuiltIn;

/// Whether each variable of a row is greater than those before it, so that none stands there twice.
fn is_rising(row: &[Instruction]) -> bool
    ensures { result ≡ is_rising 0 row.now }
{
    let mut left = row;
    let mut last: u64 = 0;
    while let [first, rest @ ..] = left {
        if let Instruction::Variable(number) = first {
            if *number <= last {
                return false;
            }
            last = *number;
        }
        left = rest;
    }
    true
}

/// Whether an instruction is the test `true`.
fn is_true(instruction: &Instruction) -> bool
    ensures { IsTrue result → instruction.now ≡ Atom (Language True) }
{
    if let Instruction::Atom(Name::Language(BuiltIn::True)) = instruction {
        return true;
    }
    false
}

/// Whether each test of a row is `true`.
fn are_true(row: &[Instruction]) -> bool
    ensures { IsTrue result → AreTrue row.now }
{
    let mut left = row;
    while let [first, rest @ ..] = left {
        if !is_true(first) {
            return false;
        }
        left = rest;
    }
    true
}

/// Whether a clause of these patterns and tests has no tests but `true`, and each variable of its head stands there once.
pub(crate) fn is_plain(patterns: &[Instruction], tests: &[Instruction]) -> bool
    ensures { IsTrue result → IsPlain patterns.now tests.now }
{
    if !are_true(tests) {
        return false;
    }
    is_rising(patterns)
}
