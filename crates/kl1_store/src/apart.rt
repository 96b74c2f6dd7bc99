// Whether a variable is seen at once not to be in a term.

ghost use Rattle.std.specs.Prelude.{◌≡◌, ◌<◌, false, length, IsTrue};
ghost use Rattle.kl1_store.specs.Held.{is_bound, IsIn, IsWalked};
ghost use Rattle.kl1_store.specs.Levels.{AreLevels, FindsAs};
ghost use Rattle.kl1_store.specs.Apart.{IsPlain, IsFree};
ghost use Rattle.kl1_store.specs.declared.cell.Cell.TheVariants.{Structure};

use crate::cell::Cell;
use crate::cells::Cells;
use crate::levels::{Levels, level_of};
use kl1_text::NameValue;

const FEW: u32 = 4;

/// Whether a cell is a constant or another variable.
#[inline]
fn is_plain<N: Copy>(variable: u32, cell: Cell<N>) -> bool
    ensures { IsTrue result → IsPlain variable cell }
{
    match cell {
        Cell::Variable(other) => other != variable,
        Cell::Integer(_) => true,
        Cell::Atom(_) => true,
        Cell::Structure(_) => false,
    }
}

/// Whether a structure has few arguments, each a constant or another unbound variable.
fn are_plain<N: NameValue>(cells: &Cells<N>, variable: u32, structure: u32) -> bool
    requires { structure < length cells.now.held.structures }
    ensures { IsTrue result → IsFree cells.now.held variable (Structure structure) }
{
    let count = cells.head(structure).count;
    if count > FEW {
        return false;
    }
    let mut index = 0;
    while index < count {
        let argument = cells.argument(structure, index);
        if !is_plain(variable, cells.walk(argument)) {
            return false;
        }
        index += 1;
    }
    true
}

/// Whether it is seen at once that an unbound variable is not in a cell's term, and that this doesn't lie below it.
pub fn is_apart<N: NameValue>(
    cells: &Cells<N>,
    levels: &Levels,
    variable: u32,
    value: Cell<N>,
) -> bool
    requires inside { IsIn cells.now.held value }
    requires walked { IsWalked cells.now.held value }
    requires levels { AreLevels cells.now.held levels.now }
    ensures { IsTrue result → FindsAs cells.now.held levels.now variable value false }
{
    // Only for the proof: what the cells hold is formed.
    let _ = cells.mark();
    match value {
        Cell::Variable(other) => {
            is_plain(variable, value)
                && level_of(&levels.variables, variable) <= level_of(&levels.variables, other)
        }
        Cell::Integer(_) => true,
        Cell::Atom(_) => true,
        Cell::Structure(structure) => is_apart_from(cells, levels, variable, structure),
    }
}

/// Whether a structure is apart from a variable: it lies above it, or beside it with few plain arguments.
fn is_apart_from<N: NameValue>(
    cells: &Cells<N>,
    levels: &Levels,
    variable: u32,
    structure: u32,
) -> bool
    requires inside { structure < length cells.now.held.structures }
    requires levels { AreLevels cells.now.held levels.now }
    ensures { IsTrue result → FindsAs cells.now.held levels.now variable (Structure structure) false }
{
    // Only for the proof: what the cells hold is formed.
    let _ = cells.mark();
    let own = level_of(&levels.variables, variable);
    let there = level_of(&levels.structures, structure);
    if own < there {
        return true;
    }
    if there < own {
        return false;
    }
    are_plain(cells, variable, structure)
}
