// The instance of a clause's body.

ghost use Rattle.std.specs.Prelude.{◌≡◌, ℕ, ◌+◌, ◌<◌, ◌≤◌, List, [], length, map, OnOk, IsOk, slice_index_or, vec_capacity};
ghost use Rattle.kl1_text.specs.Reading.{Reads};
ghost use Rattle.kl1_store.specs.declared.cell.Cell.{Cell};
ghost use Rattle.kl1_store.specs.Held.{AreIn};
ghost use Rattle.kl1_store.specs.Sound.{Grown};
ghost use Rattle.kl1_store.specs.Spending.{Spends};
ghost use Rattle.kl1_clause.specs.Instructions.{IsNamed, AreNamed, code_in};
ghost use Rattle.kl1_match.specs.Instances.{IsClause, AreThere, IsInstance};
ghost use Rattle.kl1_match.specs.Matching.{arguments_after};
ghost use Rattle.kl1_match.specs.Rooms.{structures_at, structures_in, arguments_in, step_structures, step_arguments, HasRoomForRow};
ghost use Rattle.kl1_match.specs.Steps.{step_code, IsBelow};
ghost use Rattle.kl1_match.specs.Variables.{cell_at, AreVariables};
ghost use Rattle.kl1_match.specs.Kept.{places_behind, kept_places};
ghost use Rattle.kl1_match.specs.Bodies.{BuildsBody};
ghost use Rattle.kl1_match.specs.Built.{IsWithinRow, AreBelow, BuildsRow};

use crate::building::put_step;
use crate::name_in::name_at;
use crate::place::Place;
use crate::qualifying::qualify;
use crate::scratch::Scratch;
use crate::step::Step;
use crate::variables::{put_fresh, put_in_order, set_places};
use kl1_clause::{CompiledClause, Instruction};
use kl1_model::BuiltIn;
use kl1_store::{Cell, Qualified, Store};
use kl1_text::NameValue;
use std::alloc::AllocError;

/// The step that an instruction stands for.
#[inline]
fn step_in<N: NameValue>(names: &[N], instruction: Instruction) -> Step<N>
    requires { IsNamed (length names.now) instruction }
    ensures code { (f : N → List ℕ) → Reads N.built f → step_code f result ≡ code_in (map f names.now) instruction }
    ensures below { (count : ℕ) → IsWithinRow count instruction → IsBelow count result }
    ensures structures { step_structures result ≡ structures_at instruction }
    ensures arguments { step_arguments result ≡ arguments_after instruction }
{
    match instruction {
        Instruction::Variable(number) => Step::Variable(number),
        Instruction::Integer(number) => Step::Integer(number),
        Instruction::Atom(name) => Step::Atom(name_at(names, name)),
        Instruction::Structure(name, count) => {
            Step::Structure(name_at(names, name), count as usize)
        }
    }
}

/// Puts on an empty stack the cells of the terms of a row, the last of them first. `variables` has a cell for each variable,
/// by its number from 0. If memory is refused, the stack is of no use.
#[inline(always)]
pub(crate) fn put_row<N: NameValue>(
    store: &mut Store<N>,
    names: &[N],
    variables: &[Cell<N>],
    row: &[Instruction],
    stack: &mut Vec<Cell<N>>,
) -> Result<(), AllocError>
    requires named { AreNamed (length names.now) row.now }
    requires below { AreBelow (length variables.now) row.now }
    requires variables { AreIn store.old.held variables.now }
    requires empty { stack.old.items ≡ [] }
    ensures grown { Grown store.old.held store.new.held }
    ensures hooks { store.new.hooks ≡ store.old.hooks }
    ensures bindings { store.new.held.bindings ≡ store.old.held.bindings }
    ensures rows { OnOk result (BuildsRow N.built names.now store.old.held store.new.held variables.now row.now stack.new.items) }
    ensures room { HasRoomForRow store.old.room (vec_capacity stack.old) row.now → IsOk result }
    ensures spends { OnOk result (Spends store.old.room store.new.room 0 (structures_in row.now) (arguments_in row.now) 0) }
    ensures hook_room { store.new.hook_room ≡ store.old.hook_room }
{
    stack.reserve(row.len())?;
    let mut left = row.len();
    while 0 < left {
        left -= 1;
        let step = step_in(names, row[left]);
        put_step(store, variables, step, stack)?;
    }
    Ok(())
}

/// Puts `count` cells in a list without any, which has room for them: those of the variables of a head, by their number from 0;
/// `none` stands for 0 and for each variable that has no place.
fn put_places<N: NameValue>(
    cells: &mut Vec<Cell<N>>,
    places: &[Place<N>],
    none: Cell<N>,
    count: usize,
) -> Result<(), AllocError>
    requires empty { cells.old.items ≡ [] }
    requires fits { count ≤ vec_capacity cells.old }
    ensures length { OnOk result (length cells.new.items ≡ count) }
    ensures set { OnOk result ((v : ℕ) (d : Cell N) → v < count → slice_index_or cells.new.items v d ≡ cell_at places.now v none) }
    ensures capacity { vec_capacity cells.old ≤ vec_capacity cells.new }
{
    if places.len() < count && places.len() + 1 == count {
        cells.push_reserved(none);
        if put_in_order(cells, places) {
            return Ok(());
        }
    }
    cells.clear();
    cells.resize(count, none)?;
    set_places(cells, places);
    Ok(())
}

/// Puts a cell for each variable of a clause if there is none yet, by its number from 0: for those of the head the cells at
/// their places, and for the others new variables of the store. If memory is refused, the store may have grown.
fn put_variables<N: NameValue>(
    store: &mut Store<N>,
    clause: &CompiledClause,
    places: &[Place<N>],
    cells: &mut Vec<Cell<N>>,
) -> Result<(), AllocError>
    requires places { AreThere store.old.held places.now }
    requires some { 0 < store.old.held.variables }
    requires empty { cells.old.items ≡ [] }
    ensures grown { Grown store.old.held store.new.held }
    ensures hooks { store.new.hooks ≡ store.old.hooks }
    ensures bindings { store.new.held.bindings ≡ store.old.held.bindings }
    ensures variables { OnOk result (AreVariables N.built clause.now.head_variables clause.now.fresh_variables places.now store.old.held store.new.held cells.new.items) }
{
    // Only for the proof: what the store holds is formed.
    let _ = store.mark();
    let none = Cell::Atom(N::of(BuiltIn::EmptyList));
    let count = (clause.head_variables as usize)
        .checked_add(1)
        .ok_or(AllocError)?;
    let all = count
        .checked_add(clause.fresh_variables as usize)
        .ok_or(AllocError)?;
    cells.reserve(all)?;
    put_places(cells, places, none, count)?;
    put_fresh(store, cells, clause.fresh_variables)
}

/// Puts in place of `goals` those of a clause's body. `variables` has a cell for each of its variables, by its number from 0.
/// If memory is refused, `goals` is of no use.
fn put_body<N: NameValue>(
    store: &mut Store<N>,
    names: &[N],
    clause: &CompiledClause,
    variables: &[Cell<N>],
    stack: &mut Vec<Cell<N>>,
    goals: &mut Vec<Qualified<N>>,
) -> Result<(), AllocError>
    requires clause { IsClause names.now clause.now }
    requires count { length variables.now ≡ clause.now.head_variables + 1 + clause.now.fresh_variables }
    requires variables { AreIn store.old.held variables.now }
    ensures grown { Grown store.old.held store.new.held }
    ensures hooks { store.new.hooks ≡ store.old.hooks }
    ensures bindings { store.new.held.bindings ≡ store.old.held.bindings }
    ensures body { OnOk result (BuildsBody N.built names.now clause.now store.old.held store.new.held variables.now goals.new.items) }
{
    stack.clear();
    put_row(store, names, variables, clause.goals.as_slice(), stack)?;
    qualify(names, clause.modules.as_slice(), stack, goals)
}

/// Puts in place of `goals` those of a clause's body, with the terms at the places of its head's variables in them. Its other
/// variables are the next of the store, in order of first occurrence. No variable is bound. If memory is refused, the store
/// may have grown, and `goals` is of no use.
pub fn put_instance<N: NameValue>(
    store: &mut Store<N>,
    names: &[N],
    clause: &CompiledClause,
    places: &[Place<N>],
    scratch: &mut Scratch<N>,
    goals: &mut Vec<Qualified<N>>,
) -> Result<(), AllocError>
    requires clause { IsClause names.now clause.now }
    requires places { AreThere store.old.held places.now }
    requires some { 0 < store.old.held.variables }
    ensures grown { Grown store.old.held store.new.held }
    ensures hooks { store.new.hooks ≡ store.old.hooks }
    ensures bindings { store.new.held.bindings ≡ store.old.held.bindings }
    ensures goals { OnOk result (IsInstance N.built names.now clause.now places.now store.old.held store.new.held goals.new.items) }
{
    let variables = &mut scratch.variables;
    variables.clear();
    put_variables(store, clause, places, variables)?;
    put_body(
        store,
        names,
        clause,
        variables.as_slice(),
        &mut scratch.stack,
        goals,
    )
}

/// Makes `count` cells of those that are kept in order: the first stands for 0, and what is wanted after them too.
fn fill_places<N: NameValue>(
    cells: &mut Vec<Cell<N>>,
    none: Cell<N>,
    count: usize,
) -> Result<(), AllocError>
    requires some { 0 < count }
    ensures length { OnOk result (length cells.new.items ≡ count) }
    ensures set { OnOk result ((v : ℕ) (d : Cell N) → v < count → slice_index_or cells.new.items v d ≡ cell_at (places_behind cells.old.items) v none) }
{
    if cells.len() != count {
        cells.resize(count, none)?;
    }
    cells[0] = none;
    Ok(())
}

/// Makes of the cells that are kept in order a cell for each variable of a clause, by its number from 0: after those of the head
/// new variables of the store. If memory is refused, the store may have grown.
fn fill_variables<N: NameValue>(
    store: &mut Store<N>,
    clause: &CompiledClause,
    cells: &mut Vec<Cell<N>>,
) -> Result<(), AllocError>
    requires places { AreThere store.old.held (places_behind cells.old.items) }
    requires some { 0 < store.old.held.variables }
    ensures grown { Grown store.old.held store.new.held }
    ensures hooks { store.new.hooks ≡ store.old.hooks }
    ensures bindings { store.new.held.bindings ≡ store.old.held.bindings }
    ensures variables { OnOk result (AreVariables N.built clause.now.head_variables clause.now.fresh_variables (places_behind cells.old.items) store.old.held store.new.held cells.new.items) }
{
    // Only for the proof: what the store holds is formed.
    let _ = store.mark();
    let none = Cell::Atom(N::of(BuiltIn::EmptyList));
    let count = (clause.head_variables as usize)
        .checked_add(1)
        .ok_or(AllocError)?;
    fill_places(cells, none, count)?;
    cells.reserve(clause.fresh_variables as usize)?;
    put_fresh(store, cells, clause.fresh_variables)
}

/// Does what `put_instance` does, if the scratch keeps the cells at the places of the head's variables.
pub fn put_kept_instance<N: NameValue>(
    store: &mut Store<N>,
    names: &[N],
    clause: &CompiledClause,
    scratch: &mut Scratch<N>,
    goals: &mut Vec<Qualified<N>>,
) -> Result<(), AllocError>
    requires clause { IsClause names.now clause.now }
    requires places { AreThere store.old.held (kept_places scratch.old) }
    requires some { 0 < store.old.held.variables }
    ensures grown { Grown store.old.held store.new.held }
    ensures hooks { store.new.hooks ≡ store.old.hooks }
    ensures bindings { store.new.held.bindings ≡ store.old.held.bindings }
    ensures goals { OnOk result (IsInstance N.built names.now clause.now (kept_places scratch.old) store.old.held store.new.held goals.new.items) }
{
    let variables = &mut scratch.variables;
    fill_variables(store, clause, variables)?;
    put_body(
        store,
        names,
        clause,
        variables.as_slice(),
        &mut scratch.stack,
        goals,
    )
}
