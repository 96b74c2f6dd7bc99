// Passive equality of two terms of a clause's tests.

ghost use Rattle.std.specs.Prelude.{◌≡◌, ◌∷◌, ◌++◌, [], map, false, IfOk, OnOk, IsTrue};
ghost use Rattle.std.specs.List.{All};
ghost use Rattle.kl1_model.specs.Match.{own_variables};
ghost use Rattle.kl1_match_guard.specs.Alike.{IsPairOf};
ghost use Rattle.kl1_store.specs.Remembers.{Remembers};
ghost use Rattle.kl1_match.specs.TestTerms.{tests_of, last_of, goal_of, test_number, IsFreeIn, IsTermAt, IsCellAt};
ghost use Rattle.kl1_match.specs.Passing.{PairsCome, Passes};

use crate::test_scratch::TestScratch;
use crate::test_view::{TestAt, TestVariable, TestView};
use kl1_match_guard::{Pair, alike};
use kl1_store::SameScratch;
use kl1_text::NameValue;
use std::alloc::AllocError;

/// What passive equality answers of two terms.
#[derive(Clone, Copy)]
pub(crate) enum Passed {
    Same,
    Differs,
    /// Neither: they wait.
    Unknown,
}

/// Puts a variable after others, if it is the goal's.
fn put_goal_variable(variable: TestVariable, awaited: &mut Vec<u32>) -> Result<(), AllocError>
    ensures { OnOk result (awaited.new.items ≡ awaited.old.items ++ goal_of variable) }
{
    match variable {
        TestVariable::Own(_) => Ok(()),
        TestVariable::Goal(number) => {
            awaited.push(number)?;
            Ok(())
        }
    }
}

/// Puts the variables of the goal after others. One of the clause is waited for by the match.
fn put_goal_variables<N: NameValue>(
    view: &TestView<N>,
    waits: &[TestVariable],
    awaited: &mut Vec<u32>,
) -> Result<(), AllocError>
    requires { All (IsFreeIn (tests_of view.now)) waits.now }
    ensures { OnOk result (awaited.new.items ≡ awaited.old.items ++ own_variables (last_of (tests_of view.now)) (map (test_number (tests_of view.now)) waits.now)) }
{
    let mut at: usize = 0;
    while at < waits.len() {
        put_goal_variable(waits[at], awaited)?;
        at += 1;
    }
    Ok(())
}

/// Compares two cells: false if they clash. `awaited` gets the variables that they wait for, after those in it.
fn compare_pair<N: NameValue>(
    view: &TestView<N>,
    pair: Pair<TestAt<N>>,
    same: &mut SameScratch,
    awaited: &mut Vec<u32>,
) -> Result<bool, AllocError>
    requires pair { IsPairOf (IsTermAt (tests_of view.now)) (IsCellAt (tests_of view.now)) pair }
    requires remembers { Remembers N.built (tests_of view.now).held same.old }
    ensures comes { IfOk result (PairsCome N.built (tests_of view.now) (pair ∷ []) awaited.old.items awaited.new.items) }
    ensures remembers { OnOk result (Remembers N.built (tests_of view.now).held same.new) }
{
    let left = pair.left;
    let right = pair.right;
    match left {
        TestAt::Cell(left) => match right {
            TestAt::Cell(right) => view.store.may_be_same(left, right, same, awaited),
            TestAt::Row(_) => Ok(true),
        },
        TestAt::Row(_) => Ok(true),
    }
}

/// Compares the two cells of each of some pairs, as `compare_pair` does: false if those of one clash.
fn compare_pairs<N: NameValue>(
    view: &TestView<N>,
    pairs: &[Pair<TestAt<N>>],
    same: &mut SameScratch,
    awaited: &mut Vec<u32>,
) -> Result<bool, AllocError>
    requires pairs { All (IsPairOf (IsTermAt (tests_of view.now)) (IsCellAt (tests_of view.now))) pairs.now }
    requires remembers { Remembers N.built (tests_of view.now).held same.old }
    ensures comes { IfOk result (PairsCome N.built (tests_of view.now) pairs.now awaited.old.items awaited.new.items) }
    ensures remembers { OnOk result (Remembers N.built (tests_of view.now).held same.new) }
{
    let mut rest = pairs;
    while let [first, more @ ..] = rest {
        let first = *first;
        if !compare_pair(view, first, same, awaited)? {
            return Ok(false);
        }
        rest = more;
    }
    Ok(true)
}

/// Whether nothing is waited for.
fn is_settled(waits: &[TestVariable], before: usize, after: usize) -> bool
    ensures yes { IsTrue result → (waits.now ≡ []) × (after ≡ before) }
    ensures no { result ≡ false → waits.now ≡ [] → after ≡ before → ⊥ }
{
    if !waits.is_empty() {
        return false;
    }
    after == before
}

/// What passive equality answers of two terms. `awaited` gets the variables of the goal that they wait for, after those in it; if
/// they differ, it may have got some too.
pub(crate) fn compare_terms<N: NameValue>(
    view: &TestView<N>,
    left: TestAt<N>,
    right: TestAt<N>,
    scratch: &mut TestScratch<N>,
    same: &mut SameScratch,
    awaited: &mut Vec<u32>,
) -> Result<Passed, AllocError>
    requires left { IsTermAt (tests_of view.now) left }
    requires right { IsTermAt (tests_of view.now) right }
    requires remembers { Remembers N.built (tests_of view.now).held same.old }
    ensures passes { IfOk result (Passes N.built (tests_of view.now) left right awaited.old.items awaited.new.items) }
    ensures remembers { OnOk result (Remembers N.built (tests_of view.now).held same.new) }
{
    let before = awaited.len();
    if !alike(
        view,
        left,
        right,
        &mut scratch.guard,
        &mut scratch.waits,
        &mut scratch.rest,
    )? {
        return Ok(Passed::Differs);
    }
    put_goal_variables(view, scratch.waits.as_slice(), awaited)?;
    if !compare_pairs(view, scratch.rest.as_slice(), same, awaited)? {
        return Ok(Passed::Differs);
    }
    if is_settled(scratch.waits.as_slice(), before, awaited.len()) {
        return Ok(Passed::Same);
    }
    Ok(Passed::Unknown)
}
