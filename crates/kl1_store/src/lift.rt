// Lifting terms to a level.

ghost use Rattle.std.specs.Prelude.{◌≡◌, ◌<◌, ◌≤◌, ◌++◌, length, OnOk};
ghost use Rattle.kl1_store.specs.Held.{arguments_of, IsIn};
ghost use Rattle.kl1_store.specs.Levels.{AreLevels};
ghost use Rattle.kl1_store.specs.Sound.{IsFormed};
ghost use Rattle.kl1_store.specs.Tasks.{AreTasks, tasks_of, Lifts, Lifted};

use crate::cell::Cell;
use crate::cells::Cells;
use crate::levels::{Levels, level_of, set_level};
use crate::task::Task;
use kl1_text::NameValue;
use std::alloc::AllocError;

/// Puts the arguments of a structure on the list.
fn push_arguments<N: NameValue>(
    cells: &Cells<N>,
    tasks: &mut Vec<Task<N>>,
    structure: u32,
    level: u64,
) -> Result<(), AllocError>
    requires { structure < length cells.now.held.structures }
    ensures { OnOk result (tasks.new.items ≡ tasks.old.items ++ tasks_of level (arguments_of cells.now.held structure)) }
{
    let count = cells.head(structure).count;
    for index in 0..count {
        let cell = cells.argument(structure, index);
        tasks.push(Task { cell, level })?;
    }
    Ok(())
}

/// Lifts a variable; what it was bound to is put on the list.
fn lift_variable<N: NameValue>(
    cells: &Cells<N>,
    levels: &mut Levels,
    tasks: &mut Vec<Task<N>>,
    variable: u32,
    level: u64,
) -> Result<(), AllocError>
    requires formed { IsFormed cells.now.held }
    requires inside { variable < cells.now.held.variables }
    requires tasks { AreTasks cells.now.held tasks.old.items }
    ensures { OnOk result (Lifts cells.now.held (Cell.Variable variable) level levels.old levels.new tasks.old.items tasks.new.items) }
{
    if level_of(&levels.variables, variable) >= level {
        return Ok(());
    }
    set_level(&mut levels.variables, variable, level)?;
    let next = cells.slot(variable);
    if next.is_variable(variable) {
        return Ok(());
    }
    tasks.push(Task { cell: next, level })?;
    Ok(())
}

/// Lifts a structure to twice its old level at least, so that it is seldom lifted; its arguments are put on the list.
fn lift_structure<N: NameValue>(
    cells: &Cells<N>,
    levels: &mut Levels,
    tasks: &mut Vec<Task<N>>,
    structure: u32,
    level: u64,
) -> Result<(), AllocError>
    requires formed { IsFormed cells.now.held }
    requires inside { structure < length cells.now.held.structures }
    requires tasks { AreTasks cells.now.held tasks.old.items }
    ensures { OnOk result (Lifts cells.now.held (Cell.Structure structure) level levels.old levels.new tasks.old.items tasks.new.items) }
{
    let old = level_of(&levels.structures, structure);
    if old >= level {
        return Ok(());
    }
    let new = old.saturating_mul(2).max(level);
    set_level(&mut levels.structures, structure, new)?;
    push_arguments(cells, tasks, structure, new)
}

/// Lifts one cell; what is right below it is put on the list.
fn lift_one<N: NameValue>(
    cells: &Cells<N>,
    levels: &mut Levels,
    tasks: &mut Vec<Task<N>>,
    cell: Cell<N>,
    level: u64,
) -> Result<(), AllocError>
    requires formed { IsFormed cells.now.held }
    requires inside { IsIn cells.now.held cell }
    requires tasks { AreTasks cells.now.held tasks.old.items }
    ensures { OnOk result (Lifts cells.now.held cell level levels.old levels.new tasks.old.items tasks.new.items) }
{
    match cell {
        Cell::Variable(variable) => lift_variable(cells, levels, tasks, variable, level),
        Cell::Integer(_) => Ok(()),
        Cell::Atom(_) => Ok(()),
        Cell::Structure(structure) => lift_structure(cells, levels, tasks, structure, level),
    }
}

/// Lifts a cell and all that is in its term to a level; `tasks` is scratch. After an error the levels are of no use.
pub fn lift<N: NameValue>(
    cells: &Cells<N>,
    levels: &mut Levels,
    tasks: &mut Vec<Task<N>>,
    cell: Cell<N>,
    level: u64,
) -> Result<(), AllocError>
    requires formed { IsFormed cells.now.held }
    requires inside { IsIn cells.now.held cell }
    requires levels { AreLevels cells.now.held levels.old }
    ensures levels { OnOk result (AreLevels cells.now.held levels.new) }
    ensures lifted { OnOk result (Lifted cells.now.held cell level levels.old levels.new) }
{
    tasks.clear();
    tasks.push(Task { cell, level })?;
    while let Some(task) = tasks.pop() {
        lift_one(cells, levels, tasks, task.cell, task.level)?;
    }
    Ok(())
}
