// The verdict of a clause on a goal.

ghost use Rattle.std.specs.Prelude.{IfOk, OnOk};
ghost use Rattle.kl1_store.specs.Held.{IsIn};
ghost use Rattle.kl1_store.specs.Remembers.{Remembers};
ghost use Rattle.kl1_match.specs.Instances.{IsClause};
ghost use Rattle.kl1_match.specs.Matching.{Keeps};
ghost use Rattle.kl1_match.specs.TestTerms.{AreSound, tests_with};
ghost use Rattle.kl1_match.specs.Testing.{TestsCome};
ghost use Rattle.kl1_match.specs.Verdicts.{IsVerdict};
ghost use Rattle.kl1_match_verdict.specs.Outcomes.{RestComes};

use crate::alike::{are_rising, compare_each};
use kl1_clause::{CompiledClause, Instruction};
use kl1_match::{
    Place, Scratch, Span, TestScratch, TestView, Verdict, find_match, is_rejection, judge_plain,
    known_at_once, run_tests,
};
use kl1_store::{Cell, SameScratch, Store};
use kl1_text::NameValue;
use std::alloc::AllocError;

/// The verdict of a clause on a goal, if the names of the clause's code are these. `places` gets the terms at
/// the places of the head's variables, in order, if the clause accepts; otherwise nothing is said of it. `awaited` gets the
/// variables that the verdict waits for, after those in it. If memory is refused, nothing is said of what it got.
pub fn verdict_on<N: NameValue>(
    store: &Store<N>,
    names: &[N],
    clause: &CompiledClause,
    goal: Cell<N>,
    scratch: &mut Scratch<N>,
    places: &mut Vec<Place<N>>,
    awaited: &mut Vec<u32>,
) -> Result<Verdict, AllocError>
    requires clause { IsClause names.now clause.now }
    requires goal { IsIn store.now.held goal }
    ensures { IfOk result (IsVerdict N.built names.now clause.now store.now.held goal places.new.items awaited.old.items awaited.new.items) }
{
    store.forget(&mut scratch.same);
    judge::<_, true>(
        store,
        names,
        clause,
        goal,
        &mut scratch.spans,
        &mut scratch.same,
        &mut scratch.tests,
        places,
        awaited,
    )
}

/// The verdict of a clause on a goal as `verdict_on` gives it, over parts of scratch; if nothing is to be kept, nothing is said of
/// `places`.
#[inline(always)]
pub(crate) fn judge<N: NameValue, const KEEP: bool>(
    store: &Store<N>,
    names: &[N],
    clause: &CompiledClause,
    goal: Cell<N>,
    behind: &mut Vec<Span>,
    same: &mut SameScratch,
    tests: &mut TestScratch<N>,
    places: &mut Vec<Place<N>>,
    awaited: &mut Vec<u32>,
) -> Result<Verdict, AllocError>
    requires clause { IsClause names.now clause.now }
    requires goal { IsIn store.now.held goal }
    requires remembers { Remembers N.built store.now.held same.old }
    ensures judged { IfOk result (λ v. Keeps KEEP places.new.items (λ ps. IsVerdict N.built names.now clause.now store.now.held goal ps awaited.old.items awaited.new.items v)) }
    ensures remembers { OnOk result (Remembers N.built store.now.held same.new) }
{
    if clause.is_plain {
        return judge_plain::<_, KEEP>(store, names, clause, goal, behind, places, awaited);
    }
    judge_whole(
        store, names, clause, goal, behind, same, tests, places, awaited,
    )
}

/// What comes of a clause's tests, one after another.
#[inline(never)]
fn run_row<N: NameValue>(
    store: &Store<N>,
    names: &[N],
    row: &[Instruction],
    places: &[Place<N>],
    tests: &mut TestScratch<N>,
    same: &mut SameScratch,
    awaited: &mut Vec<u32>,
) -> Result<bool, AllocError>
    requires sound { AreSound (tests_with store.now.held names.now row.now places.now) }
    requires remembers { Remembers N.built store.now.held same.old }
    ensures come { IfOk result (TestsCome N.built (tests_with store.now.held names.now row.now places.now) 0 awaited.old.items awaited.new.items) }
    ensures remembers { OnOk result (Remembers N.built store.now.held same.new) }
{
    let view = TestView {
        store,
        names,
        row,
        places,
    };
    run_tests(&view, tests, same, awaited)
}

/// What comes of a clause beside its match: passive equality of each two places of a variable that were reached, and its tests, one
/// after another. False if something clashes; else `awaited` gets the variables that it waits for, after those in it.
#[inline(never)]
fn compare_and_run<N: NameValue>(
    store: &Store<N>,
    names: &[N],
    row: &[Instruction],
    places: &[Place<N>],
    tests: &mut TestScratch<N>,
    same: &mut SameScratch,
    awaited: &mut Vec<u32>,
) -> Result<bool, AllocError>
    requires sound { AreSound (tests_with store.now.held names.now row.now places.now) }
    requires remembers { Remembers N.built store.now.held same.old }
    ensures come { IfOk result (RestComes N.built (tests_with store.now.held names.now row.now places.now) awaited.old.items awaited.new.items) }
    ensures remembers { OnOk result (Remembers N.built store.now.held same.new) }
{
    if !compare_each(store, places, same, awaited)? {
        return Ok(false);
    }
    run_row(store, names, row, places, tests, same, awaited)
}

/// What comes of a clause beside its match, as `compare_and_run` gives it; if each variable stands once, in order, nothing is
/// compared, and one comparison of two integers needs no list.
#[inline]
fn may_go_on<N: NameValue>(
    store: &Store<N>,
    names: &[N],
    row: &[Instruction],
    places: &[Place<N>],
    tests: &mut TestScratch<N>,
    same: &mut SameScratch,
    awaited: &mut Vec<u32>,
) -> Result<bool, AllocError>
    requires sound { AreSound (tests_with store.now.held names.now row.now places.now) }
    requires remembers { Remembers N.built store.now.held same.old }
    ensures come { IfOk result (RestComes N.built (tests_with store.now.held names.now row.now places.now) awaited.old.items awaited.new.items) }
    ensures remembers { OnOk result (Remembers N.built store.now.held same.new) }
{
    if !are_rising(places) {
        return compare_and_run(store, names, row, places, tests, same, awaited);
    }
    if let Some(holds) = known_at_once(store, row, places) {
        return Ok(holds);
    }
    run_row(store, names, row, places, tests, same, awaited)
}

/// The verdict of any clause: what its match says, and then its places and tests. A clash outweighs what is waited for, but the
/// match may still reach other places, so what it waits for is named then too.
fn judge_whole<N: NameValue>(
    store: &Store<N>,
    names: &[N],
    clause: &CompiledClause,
    goal: Cell<N>,
    behind: &mut Vec<Span>,
    same: &mut SameScratch,
    tests: &mut TestScratch<N>,
    places: &mut Vec<Place<N>>,
    awaited: &mut Vec<u32>,
) -> Result<Verdict, AllocError>
    requires clause { IsClause names.now clause.now }
    requires goal { IsIn store.now.held goal }
    requires remembers { Remembers N.built store.now.held same.old }
    ensures judged { IfOk result (IsVerdict N.built names.now clause.now store.now.held goal places.new.items awaited.old.items awaited.new.items) }
    ensures remembers { OnOk result (Remembers N.built store.now.held same.new) }
{
    let before = awaited.len();
    let tried = find_match::<_, true>(store, names, clause, goal, behind, places, awaited)?;
    if is_rejection(tried) {
        awaited.truncate(before);
        return Ok(Verdict::Rejects);
    }
    let matched = awaited.len();
    let row = clause.tests.as_slice();
    if !may_go_on(store, names, row, places.as_slice(), tests, same, awaited)? {
        awaited.truncate(matched);
        return Ok(Verdict::Rejects);
    }
    if awaited.len() == before {
        return Ok(Verdict::Accepts);
    }
    Ok(Verdict::Suspends)
}
