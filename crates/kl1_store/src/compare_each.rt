// A list of cells, each two side by side.

ghost use Rattle.std.specs.Prelude.{◌≡◌, ℕ, List, IfOk, OnOk};
ghost use Rattle.kl1_store.specs.Held.{Held, IsIn, AreIn};
ghost use Rattle.kl1_store.specs.ComparesEach.{ComparedWithAs, ComparedEachAs};
ghost use Rattle.kl1_store.specs.Unbound.{AreUnbound};

use crate::cell::Cell;
use crate::cells::Cells;
use crate::compare::compare;
use crate::frame::Frame;
use kl1_text::NameValue;
use std::alloc::{AllocError, Global};

/// Compares a cell with each of others: false if it clashes with one.
fn compare_with<N: NameValue>(
    cells: &Cells<N>,
    frames: &mut Vec<Frame>,
    alloc: Global,
    waits: &mut Vec<u32>,
    cell: Cell<N>,
    others: &[Cell<N>],
) -> Result<bool, AllocError>
    requires cell_in { IsIn cells.now.held cell }
    requires others_in { AreIn cells.now.held others.now }
    ensures compared { IfOk result (ComparedWithAs N.built cells.now.held cell others.now waits.old.items waits.new.items) }
    ensures unbound { OnOk result (AreUnbound cells.now.held waits.old.items → AreUnbound cells.now.held waits.new.items) }
{
    let mut rest = others;
    while let [other, more @ ..] = rest {
        let other = *other;
        if !compare(cells, frames, alloc, waits, cell, other)? {
            return Ok(false);
        }
        rest = more;
    }
    Ok(true)
}

/// Compares each two of some cells: false if two clash.
pub fn compare_each<N: NameValue>(
    cells: &Cells<N>,
    frames: &mut Vec<Frame>,
    alloc: Global,
    waits: &mut Vec<u32>,
    terms: &[Cell<N>],
) -> Result<bool, AllocError>
    requires { AreIn cells.now.held terms.now }
    ensures compared { IfOk result (ComparedEachAs N.built cells.now.held terms.now waits.old.items waits.new.items) }
    ensures unbound { OnOk result (AreUnbound cells.now.held waits.old.items → AreUnbound cells.now.held waits.new.items) }
{
    let mut rest = terms;
    while let [first, more @ ..] = rest {
        let first = *first;
        if !compare_with(cells, frames, alloc, waits, first, more)? {
            return Ok(false);
        }
        rest = more;
    }
    Ok(true)
}
