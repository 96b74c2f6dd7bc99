// The cells of a goal that is started, in room that was made before.

ghost use Rattle.std.specs.Prelude.{◌≡◌, ◌+◌, ◌-◌, ◌<◌, length, IfOk, OnOk};
ghost use Rattle.kl1_store.specs.Held.{AreIn, HasRoom};
ghost use Rattle.kl1_store.specs.Sound.{Grown, IsFormed};
ghost use Rattle.kl1_store.specs.Spending.{Spends};
ghost use Rattle.kl1_clause.specs.Instructions.{AreNamed};
ghost use Rattle.kl1_match.specs.Built.{AreBelow};
ghost use Rattle.kl1_match.specs.Variables.{with_variables};
ghost use Rattle.kl1_match.specs.Rooms.{structures_in, arguments_in};
ghost use Rattle.kl1_match.specs.GoalCells.{goal_variables, HasRoomForGoal, AreGoalVariables, BuildsGoal, new_in, told_row};

use crate::instances::put_row;
use crate::scratch::Scratch;
use crate::skips::arguments_of;
use crate::variables::put_fresh;
use kl1_clause::Instruction;
use kl1_model::BuiltIn;
use kl1_store::{Cell, Store};
use kl1_text::NameValue;
use std::alloc::AllocError;

/// Puts a cell for each variable of a goal in the scratch, by its number from 0: `count` new variables of the store, after the
/// cell of the empty list. If memory is refused, the store may have grown, and the scratch's cells are of no use.
pub fn put_goal_variables<N: NameValue>(
    store: &mut Store<N>,
    count: u64,
    scratch: &mut Scratch<N>,
) -> Result<(), AllocError>
    requires some { 0 < store.old.held.variables }
    ensures grown { Grown store.old.held store.new.held }
    ensures hooks { store.new.hooks ≡ store.old.hooks }
    ensures bindings { store.new.held.bindings ≡ store.old.held.bindings }
    ensures held { OnOk result (store.new.held ≡ with_variables store.old.held count) }
    ensures variables { OnOk result (AreGoalVariables store.new.held (store.old.held.variables - 1) count (goal_variables scratch.new)) }
{
    // Only for the proof: what the store holds is formed.
    let _ = store.mark();
    let variables = &mut scratch.variables;
    let all = (count as usize).checked_add(1).ok_or(AllocError)?;
    variables.clear();
    variables.reserve(all)?;
    variables.push_reserved(Cell::Atom(N::of(BuiltIn::EmptyList)));
    put_fresh(store, variables, count)
}

/// Puts a cell for each variable of the goal of an answer in the scratch, by its number from 0, after the cell of the empty list: the
/// variable that it tells, or a new one of the store if it tells none. If memory is refused, the store may have grown, and the scratch's
/// cells are of no use.
pub fn put_told_variables<N: NameValue>(
    store: &mut Store<N>,
    told: &[Option<u32>],
    scratch: &mut Scratch<N>,
) -> Result<(), AllocError>
    ensures formed { IsFormed store.old.held }
    ensures grown { Grown store.old.held store.new.held }
    ensures hooks { store.new.hooks ≡ store.old.hooks }
    ensures bindings { store.new.held.bindings ≡ store.old.held.bindings }
    ensures held { OnOk result (store.new.held ≡ with_variables store.old.held (new_in told.now)) }
    ensures variables { OnOk result (goal_variables scratch.new ≡ told_row N.built store.old.held.variables told.now) }
{
    // Only for the proof: what the store holds is formed.
    let _ = store.mark();
    let variables = &mut scratch.variables;
    let all = told.len().checked_add(1).ok_or(AllocError)?;
    variables.clear();
    variables.reserve(all)?;
    variables.push_reserved(Cell::Atom(N::of(BuiltIn::EmptyList)));
    let mut rest = told;
    while let [first, others @ ..] = rest {
        let number = match first {
            Some(number) => *number,
            None => store.fresh()?,
        };
        variables.push_reserved(Cell::Variable(number));
        rest = others;
    }
    Ok(())
}

/// How many arguments the structures of a row have in all.
fn arguments_in(row: &[Instruction]) -> Result<usize, AllocError>
    ensures { IfOk result (λ count. count ≡ arguments_in row.now) }
{
    let mut count: usize = 0;
    for instruction in row {
        count = count
            .checked_add(arguments_of(*instruction))
            .ok_or(AllocError)?;
    }
    Ok(count)
}

/// Makes the room that a goal of this row takes: to put it can't be refused then. What the scratch has for variables stays.
pub fn reserve_goal<N: NameValue>(
    store: &mut Store<N>,
    row: &[Instruction],
    scratch: &mut Scratch<N>,
) -> Result<(), AllocError>
    ensures room { OnOk result (HasRoomForGoal store.new.room scratch.new row.now) }
    ensures spends { Spends store.old.room store.new.room 0 0 0 0 }
    ensures same { store.new.held ≡ store.old.held }
    ensures hooks { store.new.hooks ≡ store.old.hooks }
    ensures hook_room { store.new.hook_room ≡ store.old.hook_room }
    ensures scratch { goal_variables scratch.new ≡ goal_variables scratch.old }
{
    reserve_goal_beside(store, row, scratch, 0, 0, 0, 0)
}

/// Makes that room and, beside it, room for `variables` variables, `structures` structures, `arguments` arguments and `bindings`
/// bindings.
pub fn reserve_goal_beside<N: NameValue>(
    store: &mut Store<N>,
    row: &[Instruction],
    scratch: &mut Scratch<N>,
    variables: usize,
    structures: usize,
    arguments: usize,
    bindings: usize,
) -> Result<(), AllocError>
    ensures room { OnOk result (HasRoomForGoal store.new.room scratch.new row.now) }
    ensures beside { OnOk result (HasRoom store.new.room variables (structures_in row.now + structures) (arguments_in row.now + arguments) bindings) }
    ensures spends { Spends store.old.room store.new.room 0 0 0 0 }
    ensures same { store.new.held ≡ store.old.held }
    ensures hooks { store.new.hooks ≡ store.old.hooks }
    ensures hook_room { store.new.hook_room ≡ store.old.hook_room }
    ensures scratch { goal_variables scratch.new ≡ goal_variables scratch.old }
{
    let own = arguments_in(row)?;
    let structures = row.len().checked_add(structures).ok_or(AllocError)?;
    let arguments = own.checked_add(arguments).ok_or(AllocError)?;
    scratch.stack.clear();
    scratch.stack.reserve(row.len())?;
    store.reserve(variables, structures, arguments, bindings)
}

/// The cell of the goal of a row, in room that was made for it, so that no memory is asked for. The scratch has a cell for each
/// of its variables, by its number from 0; these stay. No variable is bound.
pub fn put_goal<N: NameValue>(
    store: &mut Store<N>,
    names: &[N],
    row: &[Instruction],
    scratch: &mut Scratch<N>,
) -> Cell<N>
    requires named { AreNamed (length names.now) row.now }
    requires below { AreBelow (length (goal_variables scratch.old)) row.now }
    requires variables { AreIn store.old.held (goal_variables scratch.old) }
    requires room { HasRoomForGoal store.old.room scratch.old row.now }
    ensures grown { Grown store.old.held store.new.held }
    ensures hooks { store.new.hooks ≡ store.old.hooks }
    ensures bindings { store.new.held.bindings ≡ store.old.held.bindings }
    ensures hook_room { store.new.hook_room ≡ store.old.hook_room }
    ensures spends { Spends store.old.room store.new.room 0 (structures_in row.now) (arguments_in row.now) 0 }
    ensures scratch { goal_variables scratch.new ≡ goal_variables scratch.old }
    ensures goal { BuildsGoal N.built names.now row.now (goal_variables scratch.old) store.old.held store.new.held result }
{
    let stack = &mut scratch.stack;
    let variables = scratch.variables.as_slice();
    stack.clear();
    match put_row(store, names, variables, row, stack) {
        Ok(()) => {}
        Err(_) => unreachable!(),
    }
    stack.pop().unwrap_or(Cell::Integer(0))
}
