// Whether a variable is in a term.

ghost use Rattle.std.specs.Prelude.{◌≡◌, ◌<◌, false, IfOk};
ghost use Rattle.kl1_store.specs.Held.{is_bound, IsIn, IsWalked};
ghost use Rattle.kl1_store.specs.Levels.{AreLevels, FindsAs};

use crate::apart::is_apart;
use crate::cell::Cell;
use crate::cells::Cells;
use crate::levels::{Levels, level_of};
use crate::lift::lift;
use crate::task::Task;
use kl1_text::NameValue;
use std::alloc::AllocError;

/// Whether an unbound variable is in a term; `tasks` is scratch.
///
/// A term without it is lifted above it, and a part that lies there already is not looked at.
pub fn occurs_in_term<N: NameValue>(
    cells: &Cells<N>,
    levels: &mut Levels,
    tasks: &mut Vec<Task<N>>,
    variable: u32,
    value: Cell<N>,
) -> Result<bool, AllocError>
    requires variable { variable < cells.now.held.variables }
    requires unbound { is_bound variable cells.now.held.bindings ≡ false }
    requires inside { IsIn cells.now.held value }
    requires walked { IsWalked cells.now.held value }
    requires levels { AreLevels cells.now.held levels.old }
    ensures found { IfOk result (FindsAs cells.now.held levels.new variable value) }
    ensures levels { AreLevels cells.now.held levels.new }
{
    // Only for the proof: what the cells hold is formed.
    let _ = cells.mark();
    if is_apart(cells, levels, variable, value) {
        return Ok(false);
    }
    if level_of(&levels.variables, variable) == u64::MAX {
        levels.keep(0, 0);
    }
    let level = level_of(&levels.variables, variable) + 1;
    match lift(cells, levels, tasks, value, level) {
        Ok(()) => {
            if level_of(&levels.variables, variable) < level {
                return Ok(false);
            }
            Ok(true)
        }
        Err(error) => {
            levels.keep(0, 0);
            Err(error)
        }
    }
}
