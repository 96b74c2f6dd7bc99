// The tests of a clause.

ghost use Rattle.std.specs.Prelude.{◌≡◌, IfOk, OnOk};
ghost use Rattle.kl1_model.specs.Guard.{compared};
ghost use Rattle.kl1_match_guard.specs.Outcomes.{IsWaiting};
ghost use Rattle.kl1_match_guard.specs.Tests.{IsTestAt};
ghost use Rattle.kl1_store.specs.Remembers.{Remembers};
ghost use Rattle.kl1_match.specs.TestTerms.{tests_of, AreSound, IsFreeIn, IsTermAt};
ghost use Rattle.kl1_match.specs.Testing.{is_variable, SettledAs, SameAs, OtherAs, ComparedAs, FoundAs, TestComes, TestsCome};

use crate::passing::{Passed, compare_terms};
use crate::skips::behind_term;
use crate::test_scratch::TestScratch;
use crate::test_view::{TestAt, TestVariable, TestView, instruction_at};
use kl1_clause::Instruction;
use kl1_match_guard::{Form, Outcome, Test, View, compare, look_at, test_at};
use kl1_model::Comparison;
use kl1_store::SameScratch;
use kl1_text::NameValue;
use std::alloc::AllocError;

/// Whether a test whose outcome is known may hold. `awaited` gets the variable that it waits for, if that is the goal's.
fn settle<N: NameValue>(
    view: &TestView<N>,
    outcome: Outcome<TestVariable>,
    awaited: &mut Vec<u32>,
) -> Result<bool, AllocError>
    requires { IsWaiting (IsFreeIn (tests_of view.now)) outcome }
    ensures { IfOk result (SettledAs N.built (tests_of view.now) outcome awaited.old.items awaited.new.items) }
{
    match outcome {
        Outcome::Agrees => Ok(true),
        Outcome::Clashes => Ok(false),
        Outcome::Waits(variable) => match variable {
            TestVariable::Own(_) => Ok(true),
            TestVariable::Goal(number) => {
                awaited.push(number)?;
                Ok(true)
            }
        },
    }
}

/// Whether `=` may hold of two terms.
fn may_be_same<N: NameValue>(
    view: &TestView<N>,
    left: TestAt<N>,
    right: TestAt<N>,
    scratch: &mut TestScratch<N>,
    same: &mut SameScratch,
    awaited: &mut Vec<u32>,
) -> Result<bool, AllocError>
    requires left { IsTermAt (tests_of view.now) left }
    requires right { IsTermAt (tests_of view.now) right }
    requires remembers { Remembers N.built (tests_of view.now).held same.old }
    ensures may { IfOk result (SameAs N.built (tests_of view.now) left right awaited.old.items awaited.new.items) }
    ensures remembers { OnOk result (Remembers N.built (tests_of view.now).held same.new) }
{
    match compare_terms(view, left, right, scratch, same, awaited)? {
        Passed::Same => Ok(true),
        Passed::Differs => Ok(false),
        Passed::Unknown => Ok(true),
    }
}

/// Whether `\=` may hold of two terms.
fn may_differ<N: NameValue>(
    view: &TestView<N>,
    left: TestAt<N>,
    right: TestAt<N>,
    scratch: &mut TestScratch<N>,
    same: &mut SameScratch,
    awaited: &mut Vec<u32>,
) -> Result<bool, AllocError>
    requires left { IsTermAt (tests_of view.now) left }
    requires right { IsTermAt (tests_of view.now) right }
    requires remembers { Remembers N.built (tests_of view.now).held same.old }
    ensures may { IfOk result (OtherAs N.built (tests_of view.now) left right awaited.old.items awaited.new.items) }
    ensures remembers { OnOk result (Remembers N.built (tests_of view.now).held same.new) }
{
    let before = awaited.len();
    match compare_terms(view, left, right, scratch, same, awaited)? {
        Passed::Same => Ok(false),
        Passed::Differs => {
            awaited.truncate(before);
            Ok(true)
        }
        Passed::Unknown => Ok(true),
    }
}

/// Whether a comparison holds of two integers.
#[inline(always)]
pub(crate) fn holds(comparison: Comparison, left: i64, right: i64) -> bool
    ensures { result ≡ compared comparison left right }
{
    match comparison {
        Comparison::Less => left < right,
        Comparison::Greater => left > right,
        Comparison::AtMost => left <= right,
        Comparison::AtLeast => left >= right,
        Comparison::SameNumber => left == right,
        Comparison::OtherNumber => left != right,
    }
}

/// Whether a comparison may hold of what two expressions come to.
fn compare_expressions<N: NameValue>(
    view: &TestView<N>,
    comparison: Comparison,
    left: TestAt<N>,
    right: TestAt<N>,
    scratch: &mut TestScratch<N>,
    awaited: &mut Vec<u32>,
) -> Result<bool, AllocError>
    requires left { IsTermAt (tests_of view.now) left }
    requires right { IsTermAt (tests_of view.now) right }
    ensures { IfOk result (ComparedAs N.built (tests_of view.now) comparison left right awaited.old.items awaited.new.items) }
{
    let outcome = compare(view, comparison, left, right, &mut scratch.guard)?;
    settle(view, outcome, awaited)
}

/// Whether a comparison may hold of two terms; two integers, and an unbound variable on the left, need no scan.
#[inline]
fn compare_two<N: NameValue>(
    view: &TestView<N>,
    comparison: Comparison,
    left: TestAt<N>,
    right: TestAt<N>,
    scratch: &mut TestScratch<N>,
    awaited: &mut Vec<u32>,
) -> Result<bool, AllocError>
    requires left { IsTermAt (tests_of view.now) left }
    requires right { IsTermAt (tests_of view.now) right }
    ensures { IfOk result (ComparedAs N.built (tests_of view.now) comparison left right awaited.old.items awaited.new.items) }
{
    match view.form_of(left) {
        Form::Integer(first) => {
            if let Form::Integer(second) = view.form_of(right) {
                return Ok(holds(comparison, first, second));
            }
        }
        Form::Variable(variable) => return settle(view, Outcome::Waits(variable), awaited),
        _ => {}
    }
    compare_expressions(view, comparison, left, right, scratch, awaited)
}

/// Whether a test may hold.
fn may_hold<N: NameValue>(
    view: &TestView<N>,
    test: Test<TestAt<N>>,
    scratch: &mut TestScratch<N>,
    same: &mut SameScratch,
    awaited: &mut Vec<u32>,
) -> Result<bool, AllocError>
    requires test { IsTestAt (IsTermAt (tests_of view.now)) test }
    requires remembers { Remembers N.built (tests_of view.now).held same.old }
    ensures may { IfOk result (FoundAs N.built (tests_of view.now) test awaited.old.items awaited.new.items) }
    ensures remembers { OnOk result (Remembers N.built (tests_of view.now).held same.new) }
{
    match test {
        Test::Holds => Ok(true),
        Test::Looks(type_test, at) => settle(view, look_at(view, type_test, at), awaited),
        Test::IsSame(left, right) => may_be_same(view, left, right, scratch, same, awaited),
        Test::IsOther(left, right) => may_differ(view, left, right, scratch, same, awaited),
        Test::Compares(comparison, left, right) => {
            compare_two(view, comparison, left, right, scratch, awaited)
        }
    }
}

/// Whether an instruction is a variable.
#[inline]
fn is_variable(instruction: Instruction) -> bool
    ensures { result ≡ is_variable instruction }
{
    match instruction {
        Instruction::Variable(_) => true,
        Instruction::Integer(_) => false,
        Instruction::Atom(_) => false,
        Instruction::Structure(_, _) => false,
    }
}

/// Whether the test at a place of the row may hold: false if it clashes. Else `awaited` gets the variables of the goal that it
/// waits for, after those in it.
fn run_test<N: NameValue>(
    view: &TestView<N>,
    place: usize,
    scratch: &mut TestScratch<N>,
    same: &mut SameScratch,
    awaited: &mut Vec<u32>,
) -> Result<bool, AllocError>
    requires sound { AreSound (tests_of view.now) }
    requires remembers { Remembers N.built (tests_of view.now).held same.old }
    ensures comes { IfOk result (TestComes N.built (tests_of view.now) place awaited.old.items awaited.new.items) }
    ensures remembers { OnOk result (Remembers N.built (tests_of view.now).held same.new) }
{
    let instruction = instruction_at(view.row, place);
    if is_variable(instruction) {
        return Ok(false);
    }
    match test_at(view, TestAt::Row(place)) {
        Some(test) => may_hold(view, test, scratch, same, awaited),
        None => Ok(false),
    }
}

/// Whether all tests of the row may hold: false if one clashes. Else `awaited` gets the variables of the goal that they wait
/// for, after those in it. If memory is refused, nothing is said of what it got. What `same` remembers is so for the view's store.
pub fn run_tests<N: NameValue>(
    view: &TestView<N>,
    scratch: &mut TestScratch<N>,
    same: &mut SameScratch,
    awaited: &mut Vec<u32>,
) -> Result<bool, AllocError>
    requires sound { AreSound (tests_of view.now) }
    requires remembers { Remembers N.built (tests_of view.now).held same.old }
    ensures come { IfOk result (TestsCome N.built (tests_of view.now) 0 awaited.old.items awaited.new.items) }
    ensures remembers { OnOk result (Remembers N.built (tests_of view.now).held same.new) }
{
    let mut place: usize = 0;
    while place < view.row.len() {
        if !run_test(view, place, scratch, same, awaited)? {
            return Ok(false);
        }
        place = behind_term(view.row, place);
    }
    Ok(true)
}
