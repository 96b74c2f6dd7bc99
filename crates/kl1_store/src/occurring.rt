// Which variables are in a term.

ghost use Rattle.std.specs.Prelude.{◌≡◌, ◌++◌, ℕ, List, map, OnOk};
ghost use Rattle.kl1_model.specs.Term.{occurs};
ghost use Rattle.kl1_store.specs.Held.{IsIn};
ghost use Rattle.kl1_store.specs.Levels.{AreLevels, SeesTerm};
ghost use Rattle.kl1_store.specs.Meaning.{term_of};

use crate::cell::Cell;
use crate::cells::Cells;
use crate::levels::{Levels, level_of};
use crate::lift::lift;
use crate::task::Task;
use kl1_text::NameValue;
use std::alloc::AllocError;

/// Puts at level 1, of all that lies at 0, what is in a term alone; `tasks` is scratch.
fn lift_alone<N: NameValue>(
    cells: &Cells<N>,
    levels: &mut Levels,
    tasks: &mut Vec<Task<N>>,
    cell: Cell<N>,
) -> Result<(), AllocError>
    requires inside { IsIn cells.now.held cell }
    ensures levels { AreLevels cells.now.held levels.new }
    ensures sees { OnOk result (SeesTerm cells.now.held levels.new cell) }
{
    // Only for the proof: what the cells hold is formed.
    let _ = cells.mark();
    levels.keep(0, 0);
    match lift(cells, levels, tasks, cell, 1) {
        Ok(()) => Ok(()),
        Err(error) => {
            levels.keep(0, 0);
            Err(error)
        }
    }
}

/// Whether a number is that of a variable in a term that alone lies above 0.
fn is_seen<N: NameValue>(cells: &Cells<N>, levels: &Levels, cell: Cell<N>, number: u64) -> bool
    requires inside { IsIn cells.now.held cell }
    requires levels { AreLevels cells.now.held levels.now }
    requires sees { SeesTerm cells.now.held levels.now cell }
    ensures { (f : N → List ℕ) → result ≡ occurs number (term_of f cells.now.held cell) }
{
    // For the proof too: what the cells hold is formed.
    let held = cells.mark();
    if number >= held.variables as u64 {
        return false;
    }
    let variable = number as u32;
    if !cells.slot(variable).is_variable(variable) {
        return false;
    }
    0 < level_of(&levels.variables, variable)
}

/// Puts behind others, for each of these numbers, whether it is that of a variable in a term; `tasks` is scratch.
pub fn note_occurring<N: NameValue>(
    cells: &Cells<N>,
    levels: &mut Levels,
    tasks: &mut Vec<Task<N>>,
    cell: Cell<N>,
    numbers: &[u64],
    found: &mut Vec<bool>,
) -> Result<(), AllocError>
    requires inside { IsIn cells.now.held cell }
    ensures found { OnOk result ((f : N → List ℕ) → found.new.items ≡ found.old.items ++ map (λ (n : ℕ). occurs n (term_of f cells.now.held cell)) numbers.now) }
    ensures levels { AreLevels cells.now.held levels.new }
{
    lift_alone(cells, levels, tasks, cell)?;
    let mut rest = numbers;
    while let [first, others @ ..] = rest {
        found.push(is_seen(cells, levels, cell, *first))?;
        rest = others;
    }
    Ok(())
}
