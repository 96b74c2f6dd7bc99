// Whether a goal can commit to one clause of its predicate.

ghost use Rattle.std.specs.Prelude.{◌≡◌, ◌<◌, ◌≤◌, ◌-◌, length, IfOk, OnOk};
ghost use Rattle.kl1_store.specs.Held.{IsIn};
ghost use Rattle.kl1_store.specs.Remembers.{Remembers};
ghost use Rattle.kl1_match_verdict.specs.Choices.{AreClauses};
ghost use Rattle.kl1_match_verdict.specs.Candidates.{section_at, IsRun, RejectAs, Takes};

use crate::choice::nth;
use crate::verdicts::judge;
use kl1_clause::CompiledClause;
use kl1_match::{Place, Scratch, Verdict, is_rejection};
use kl1_store::{Cell, Store};
use kl1_text::NameValue;
use std::alloc::AllocError;

/// The section of the clause at a place, from 0.
#[inline]
fn section_of(clauses: &[CompiledClause], place: usize) -> u64
    requires { place < length clauses.now }
    ensures { result ≡ section_at clauses.now place }
{
    nth(clauses, place).section
}

/// The place of the first clause of the section of the clause at a place, both from 0.
fn start_of(clauses: &[CompiledClause], place: usize) -> usize
    requires { place < length clauses.now }
    ensures below { result ≤ place }
    ensures run { IsRun clauses.now result place }
    ensures first { 0 < result → section_at clauses.now (result - 1) ≡ section_at clauses.now place → ⊥ }
{
    let section = section_of(clauses, place);
    let mut start = place;
    while start > 0 {
        if section_of(clauses, start - 1) != section {
            return start;
        }
        start -= 1;
    }
    start
}

/// Whether the first `count` clauses reject a goal.
fn reject<N: NameValue>(
    store: &Store<N>,
    names: &[N],
    clauses: &[CompiledClause],
    count: usize,
    goal: Cell<N>,
    scratch: &mut Scratch<N>,
    awaited: &mut Vec<u32>,
) -> Result<bool, AllocError>
    requires clauses { AreClauses names.now clauses.now }
    requires count { count ≤ length clauses.now }
    requires goal { IsIn store.now.held goal }
    requires remembers { Remembers N.built store.now.held scratch.old.same }
    ensures rejects { IfOk result (RejectAs N.built names.now clauses.now store.now.held goal count) }
    ensures remembers { OnOk result (Remembers N.built store.now.held scratch.new.same) }
{
    let behind = &mut scratch.spans;
    let same = &mut scratch.same;
    let tests = &mut scratch.tests;
    let places = &mut scratch.places;
    let mut tried: usize = 0;
    while tried < count {
        let clause = nth(clauses, tried);
        let verdict = judge::<_, false>(
            store, names, clause, goal, behind, same, tests, places, awaited,
        )?;
        if !is_rejection(verdict) {
            return Ok(false);
        }
        tried += 1;
    }
    Ok(true)
}

/// Whether a goal can commit to the clause at a place among those of its predicate, from 0: the clause accepts, and each one
/// above the `otherwise` above it rejects. `places` gets the terms at the places of the head's variables then, and otherwise
/// nothing is said of it, nor of what `awaited` gets.
pub fn is_candidate<N: NameValue>(
    store: &Store<N>,
    names: &[N],
    clauses: &[CompiledClause],
    place: usize,
    goal: Cell<N>,
    scratch: &mut Scratch<N>,
    places: &mut Vec<Place<N>>,
    awaited: &mut Vec<u32>,
) -> Result<bool, AllocError>
    requires clauses { AreClauses names.now clauses.now }
    requires place { place < length clauses.now }
    requires goal { IsIn store.now.held goal }
    ensures { IfOk result (Takes N.built names.now clauses.now place store.now.held goal places.new.items) }
{
    store.forget(&mut scratch.same);
    let start = start_of(clauses, place);
    if !reject(store, names, clauses, start, goal, scratch, awaited)? {
        return Ok(false);
    }
    let clause = nth(clauses, place);
    let verdict = judge::<_, true>(
        store,
        names,
        clause,
        goal,
        &mut scratch.spans,
        &mut scratch.same,
        &mut scratch.tests,
        places,
        awaited,
    )?;
    match verdict {
        Verdict::Accepts => Ok(true),
        Verdict::Rejects => Ok(false),
        Verdict::Suspends => Ok(false),
    }
}
