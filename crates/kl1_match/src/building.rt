// Cells built of nodes, from the last node to the first.

ghost use Rattle.std.specs.Prelude.{◌≡◌, ◌<◌, ◌≤◌, [], ◌∷◌, ◌++◌, length, reverse, OnOk, IsOk, vec_capacity};
ghost use Rattle.kl1_store.specs.Held.{IsIn, AreIn};
ghost use Rattle.kl1_store.specs.Sound.{Grown};
ghost use Rattle.kl1_match.specs.Rows.{Joins};
ghost use Rattle.kl1_match.specs.Steps.{IsBelow, PutsStep};
ghost use Rattle.kl1_match.specs.Rooms.{step_structures, step_arguments, HasRoomFor, UsesRoom};

use crate::step::Step;
use kl1_store::{Cell, Store};
use kl1_text::NameValue;
use std::alloc::AllocError;

/// Puts a cell on a stack.
pub(crate) fn put_cell<N: Copy>(stack: &mut Vec<Cell<N>>, cell: Cell<N>) -> Result<(), AllocError>
    ensures items { OnOk result (stack.new.items ≡ stack.old.items ++ cell ∷ []) }
    ensures room { length stack.old.items < vec_capacity stack.old → IsOk result }
    ensures capacity { vec_capacity stack.old ≤ vec_capacity stack.new }
{
    match stack.push(cell) {
        Ok(()) => Ok(()),
        Err(_) => Err(AllocError),
    }
}

/// Puts the structure with name `name` and `count` cells from the top of a stack on it; if none is left, `missing` stands for
/// it. If memory is refused, the stack is of no use.
#[inline]
pub(crate) fn join_top<N: NameValue>(
    store: &mut Store<N>,
    stack: &mut Vec<Cell<N>>,
    missing: Cell<N>,
    name: N,
    count: usize,
) -> Result<(), AllocError>
    requires stack { AreIn store.old.held stack.old.items }
    requires missing { IsIn store.old.held missing }
    requires fits { length stack.old.items < vec_capacity stack.old }
    ensures grown { Grown store.old.held store.new.held }
    ensures hooks { store.new.hooks ≡ store.old.hooks }
    ensures bindings { store.new.held.bindings ≡ store.old.held.bindings }
    ensures joins { OnOk result (Joins store.old.held store.new.held missing name count (reverse stack.old.items) (reverse stack.new.items) × AreIn store.new.held stack.new.items) }
    ensures room { HasRoomFor 1 count store.old.room → IsOk result }
    ensures uses { OnOk result (UsesRoom 1 count store.old.room store.new.room stack.old stack.new) }
    ensures hook_room { store.new.hook_room ≡ store.old.hook_room }
{
    // Only for the proof: what the store holds is formed.
    let _ = store.mark();
    let structure = store.build_top(name, stack, missing, count)?;
    stack.push_reserved(Cell::Structure(structure));
    Ok(())
}

/// Puts on a stack, which has room for it, the cell of a term that begins with a step, whose arguments are taken from its top.
/// `variables` has a cell for each variable, by its number from 0. If memory is refused, the stack is of no use.
#[inline]
pub(crate) fn put_step<N: NameValue>(
    store: &mut Store<N>,
    variables: &[Cell<N>],
    step: Step<N>,
    stack: &mut Vec<Cell<N>>,
) -> Result<(), AllocError>
    requires below { IsBelow (length variables.now) step }
    requires variables { AreIn store.old.held variables.now }
    requires stack { AreIn store.old.held stack.old.items }
    requires fits { length stack.old.items < vec_capacity stack.old }
    ensures grown { Grown store.old.held store.new.held }
    ensures hooks { store.new.hooks ≡ store.old.hooks }
    ensures bindings { store.new.held.bindings ≡ store.old.held.bindings }
    ensures puts { OnOk result (PutsStep store.old.held store.new.held variables.now step stack.old.items stack.new.items) }
    ensures room { HasRoomFor (step_structures step) (step_arguments step) store.old.room → IsOk result }
    ensures uses { OnOk result (UsesRoom (step_structures step) (step_arguments step) store.old.room store.new.room stack.old stack.new) }
    ensures hook_room { store.new.hook_room ≡ store.old.hook_room }
{
    match step {
        Step::Variable(number) => {
            stack.push_reserved(variables[number as usize]);
            Ok(())
        }
        Step::Integer(number) => {
            stack.push_reserved(Cell::Integer(number));
            Ok(())
        }
        Step::Atom(name) => {
            stack.push_reserved(Cell::Atom(name));
            Ok(())
        }
        Step::Structure(name, count) => join_top(store, stack, variables[0], name, count),
    }
}
