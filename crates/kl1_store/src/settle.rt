// Equations, one binding after another.

ghost use Rattle.std.specs.Prelude.{◌≡◌, ℕ, List, [], IfOk, OnErr};
ghost use Rattle.kl1_store.specs.Held.{Held, IsIn};
ghost use Rattle.kl1_store.specs.Sound.{IsFormed};
ghost use Rattle.kl1_store.specs.Waiting.{waiting, ArePairs};
ghost use Rattle.kl1_store.specs.Meets.{CanTake};
ghost use Rattle.kl1_store.specs.Levels.{AreLevels};
ghost use Rattle.kl1_store.specs.Spending.{SpendsOnBindings};
ghost use Rattle.kl1_store.specs.Nested.{IsNested};
ghost use Rattle.kl1_store.specs.Merged.{AreMerged};
ghost use Rattle.kl1_store.specs.Unifies.{OnlyBound, SettlesAs, BindsAs, equation_of};

use crate::advance::advance;
use crate::cell::Cell;
use crate::cells::Cells;
use crate::frame::Frame;
use crate::levels::Levels;
use crate::meeting::Meeting;
use crate::meets::meet;
use crate::merges::Merges;
use crate::next::Next;
use crate::occurs::occurs_in_term;
use crate::task::Task;
use kl1_text::NameValue;
use std::alloc::AllocError;

/// Binds a variable to a cell, unless it is in the cell's term.
fn bind_new<N: NameValue>(
    cells: &mut Cells<N>,
    levels: &mut Levels,
    tasks: &mut Vec<Task<N>>,
    variable: u32,
    value: Cell<N>,
) -> Result<bool, AllocError>
    requires can { CanTake cells.old.held variable value }
    requires levels { AreLevels cells.old.held levels.old }
    ensures ok { IfOk result (BindsAs cells.old.held cells.new.held variable value) }
    ensures err { OnErr result (cells.new.held ≡ cells.old.held) }
    ensures levels { AreLevels cells.new.held levels.new }
    ensures spends { SpendsOnBindings cells.old.held cells.old.room cells.new.held cells.new.room }
{
    if occurs_in_term(cells, levels, tasks, variable, value)? {
        return Ok(false);
    }
    cells.bind(variable, value)?;
    Ok(true)
}

/// Solves the waiting equations, as far as they can be solved; `tasks` is scratch.
fn settle<N: NameValue>(
    cells: &mut Cells<N>,
    frames: &mut Vec<Frame>,
    merges: &mut Merges,
    levels: &mut Levels,
    tasks: &mut Vec<Task<N>>,
) -> Result<bool, AllocError>
    requires pairs { ArePairs cells.old.held frames.old.items }
    requires nested { IsNested cells.old.held frames.old.items }
    requires merged { AreMerged cells.old.held merges.old }
    requires levels { AreLevels cells.old.held levels.old }
    ensures settled { IfOk result (SettlesAs N.built cells.old.held cells.new.held (λ f. waiting f cells.old.held [] frames.old.items)) }
    ensures grown { OnlyBound cells.old.held cells.new.held }
    ensures levels { AreLevels cells.new.held levels.new }
    ensures spends { SpendsOnBindings cells.old.held cells.old.room cells.new.held cells.new.room }
{
    loop {
        match advance(cells, frames, merges)? {
            Next::Finished => return Ok(true),
            Next::Never => return Ok(false),
            Next::Binds(variable, value) => {
                if !bind_new(cells, levels, tasks, variable, value)? {
                    return Ok(false);
                }
            }
        }
    }
}

/// Makes two cells mean the same, as far as that can be; `frames`, `merges` and `tasks` are scratch.
pub fn unify_cells<N: NameValue>(
    cells: &mut Cells<N>,
    frames: &mut Vec<Frame>,
    merges: &mut Merges,
    levels: &mut Levels,
    tasks: &mut Vec<Task<N>>,
    left: Cell<N>,
    right: Cell<N>,
) -> Result<bool, AllocError>
    requires formed { IsFormed cells.old.held }
    requires left_in { IsIn cells.old.held left }
    requires right_in { IsIn cells.old.held right }
    requires levels { AreLevels cells.old.held levels.old }
    ensures settled { IfOk result (SettlesAs N.built cells.old.held cells.new.held (λ f. equation_of f cells.old.held left right)) }
    ensures grown { OnlyBound cells.old.held cells.new.held }
    ensures levels { AreLevels cells.new.held levels.new }
    ensures spends { SpendsOnBindings cells.old.held cells.old.room cells.new.held cells.new.room }
{
    let first = cells.walk(left);
    let second = cells.walk(right);
    match meet(cells, first, second) {
        Meeting::Same => Ok(true),
        Meeting::Clash => Ok(false),
        Meeting::Bind(variable, value) => bind_new(cells, levels, tasks, variable, value),
        Meeting::Open(frame) => {
            frames.clear();
            merges.clear();
            frames.push(frame)?;
            settle(cells, frames, merges, levels, tasks)
        }
    }
}
