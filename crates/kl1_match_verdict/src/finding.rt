// The terms at the places of a clause that a goal is known to take.

ghost use Rattle.std.specs.Prelude.{◌<◌, length, IfOk, OnOk};
ghost use Rattle.kl1_store.specs.Held.{IsIn};
ghost use Rattle.kl1_match.specs.Instances.{AreThere};
ghost use Rattle.kl1_match_verdict.specs.Choices.{AreClauses};
ghost use Rattle.kl1_match_verdict.specs.Candidates.{found_places, TakesLeast};

use crate::choice::nth;
use kl1_clause::CompiledClause;
use kl1_match::{Place, Scratch, agrees_with_in_order, find_match};
use kl1_store::{Cell, Store};
use kl1_text::NameValue;
use std::alloc::AllocError;

/// The places of the clause at a place among those of a predicate, one by one.
#[inline(never)]
fn find_each<N: NameValue>(
    store: &Store<N>,
    names: &[N],
    clauses: &[CompiledClause],
    place: usize,
    goal: Cell<N>,
    scratch: &mut Scratch<N>,
    places: &mut Vec<Place<N>>,
    awaited: &mut Vec<u32>,
) -> Result<(), AllocError>
    requires clauses { AreClauses names.now clauses.now }
    requires place { place < length clauses.now }
    requires goal { IsIn store.now.held goal }
    ensures inside { OnOk result (AreThere store.now.held places.new.items) }
    ensures taken { OnOk result (TakesLeast N.built names.now clauses.now place store.now.held goal places.new.items) }
{
    let clause = nth(clauses, place);
    let behind = &mut scratch.spans;
    find_match::<_, true>(store, names, clause, goal, behind, places, awaited)?;
    Ok(())
}

/// Finds the terms at the places of the head's variables of the clause at a place among those of a predicate, from 0, for a goal of which
/// that is known to be the least clause that accepts it: no other clause is tried, and no test. If it says yes, the scratch keeps the
/// cells, in order of the variables' numbers, until it is used for something else than an instance of this clause; else they are in
/// `places`. If it isn't the least that accepts, nothing is said of them but that they are of the store. Nothing is said of what
/// `awaited` gets.
#[inline(always)]
pub fn find_places<N: NameValue>(
    store: &Store<N>,
    names: &[N],
    clauses: &[CompiledClause],
    place: usize,
    goal: Cell<N>,
    scratch: &mut Scratch<N>,
    places: &mut Vec<Place<N>>,
    awaited: &mut Vec<u32>,
) -> Result<bool, AllocError>
    requires clauses { AreClauses names.now clauses.now }
    requires place { place < length clauses.now }
    requires goal { IsIn store.now.held goal }
    ensures inside { IfOk result (λ in_order. AreThere store.now.held (found_places in_order scratch.new places.new.items)) }
    ensures taken { IfOk result (λ in_order. TakesLeast N.built names.now clauses.now place store.now.held goal (found_places in_order scratch.new places.new.items)) }
{
    if agrees_with_in_order(store, names, nth(clauses, place), goal, scratch)? {
        return Ok(true);
    }
    find_each(store, names, clauses, place, goal, scratch, places, awaited)?;
    Ok(false)
}
