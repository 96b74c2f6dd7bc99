// The verdict of a clause's head on a goal.

ghost use Rattle.std.specs.Prelude.{◌≡◌, ◌≤◌, [], IfOk, OnOk, IsTrue, vec_capacity};
ghost use Rattle.kl1_store.specs.Held.{IsIn};
ghost use Rattle.kl1_clause.specs.Plain.{IsPlain};
ghost use Rattle.kl1_match.specs.Instances.{IsClause};
ghost use Rattle.kl1_match.specs.Matching.{Keeps};
ghost use Rattle.kl1_match.specs.Verdicts.{IsVerdict, IsTried};

use crate::arguments::{is_left, span_of};
use crate::meets::{meet, take_place};
use crate::met::Met;
use crate::place::Place;
use crate::skips::behind_term;
use crate::span::Span;
use crate::verdict::Verdict;
use kl1_clause::{CompiledClause, Instruction};
use kl1_store::{Cell, Store};
use kl1_text::NameValue;
use std::alloc::AllocError;

/// The verdict on a goal of a plain clause, of which the match alone decides: it keeps places as `find_match` does. `awaited` gets
/// the variables that the clause waits for, after those in it, and none if it rejects. If memory is refused, nothing is said of
/// what the lists got.
#[inline(always)]
pub fn judge_plain<N: NameValue, const KEEP: bool>(
    store: &Store<N>,
    names: &[N],
    clause: &CompiledClause,
    goal: Cell<N>,
    behind: &mut Vec<Span>,
    places: &mut Vec<Place<N>>,
    awaited: &mut Vec<u32>,
) -> Result<Verdict, AllocError>
    requires clause { IsClause names.now clause.now }
    requires plain { IsPlain clause.now.patterns.items clause.now.tests.items }
    requires goal { IsIn store.now.held goal }
    ensures { IfOk result (λ v. Keeps KEEP places.new.items (λ ps. IsVerdict N.built names.now clause.now store.now.held goal ps awaited.old.items awaited.new.items v)) }
{
    let before = awaited.len();
    match find_match::<_, KEEP>(store, names, clause, goal, behind, places, awaited)? {
        Verdict::Accepts => Ok(Verdict::Accepts),
        Verdict::Suspends => Ok(Verdict::Suspends),
        Verdict::Rejects => {
            awaited.truncate(before);
            Ok(Verdict::Rejects)
        }
    }
}

/// Empties places, and makes room for `count` if they are kept.
#[inline]
fn clear_places<N: NameValue, const KEEP: bool>(
    places: &mut Vec<Place<N>>,
    count: usize,
) -> Result<(), AllocError>
    ensures empty { places.new.items ≡ [] }
    ensures room { OnOk result (IsTrue KEEP → count ≤ vec_capacity places.new) }
{
    places.clear();
    if KEEP {
        return places.reserve(count);
    }
    Ok(())
}

/// The verdict of the match of a clause with a goal alone, whatever its tests and the places of its variables say: that it
/// agrees, clashes, or waits, if the names of the clause's code are these. If places are to be kept, `places` gets those of
/// the head's variables that are reached, in order; else nothing is said of it. `awaited` gets the variables that its patterns wait
/// for, after those in it, also if a later one clashes. If memory is refused, nothing is said of what the lists got.
#[inline(always)]
pub fn find_match<N: NameValue, const KEEP: bool>(
    store: &Store<N>,
    names: &[N],
    clause: &CompiledClause,
    goal: Cell<N>,
    behind: &mut Vec<Span>,
    places: &mut Vec<Place<N>>,
    awaited: &mut Vec<u32>,
) -> Result<Verdict, AllocError>
    requires clause { IsClause names.now clause.now }
    requires goal { IsIn store.now.held goal }
    ensures { IfOk result (λ v. Keeps KEEP places.new.items (λ ps. IsTried N.built names.now clause.now store.now.held goal ps awaited.old.items awaited.new.items v)) }
{
    let before = awaited.len();
    let row = clause.patterns.as_slice();
    clear_places::<_, KEEP>(places, row.len())?;
    behind.clear();
    behind.reserve(row.len())?;
    let mut span = span_of(store, goal);
    let mut at: usize = 0;
    while at < row.len() {
        if !is_left(store, &mut span, behind) {
            return Ok(Verdict::Rejects);
        }
        if let Instruction::Variable(variable) = row[at] {
            take_place::<_, KEEP>(store, variable, &mut span, places);
            at += 1;
            continue;
        }
        match meet::<_, KEEP>(store, names, row[at], &mut span, behind, places) {
            Met::Agrees => at += 1,
            Met::Waits(variable) => {
                awaited.push(variable)?;
                at = behind_term(row, at);
            }
            Met::Clashes => return Ok(Verdict::Rejects),
        }
    }
    if is_left(store, &mut span, behind) {
        return Ok(Verdict::Rejects);
    }
    if awaited.len() == before {
        return Ok(Verdict::Accepts);
    }
    Ok(Verdict::Suspends)
}
