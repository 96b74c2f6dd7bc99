// The cells that stand for a clause's variables.

ghost use Rattle.std.specs.Prelude.{◌≡◌, ℕ, ◌+◌, ◌<◌, ◌≤◌, ◌++◌, length, OnOk, IsTrue, slice_index_or, vec_capacity};
ghost use Rattle.kl1_store.specs.declared.cell.Cell.{Cell};
ghost use Rattle.kl1_store.specs.Sound.{Grown};
ghost use Rattle.kl1_match.specs.Variables.{cell_at, cells_at, AreFrom, with_variables, fresh_cells};

use crate::place::Place;
use kl1_store::{Cell, Store};
use kl1_text::NameValue;
use std::alloc::AllocError;

/// Puts the cells at places where the cells of their variables stand, by their numbers from 0. Of several places of one
/// variable it is the first that counts.
pub(crate) fn set_places<N: NameValue>(cells: &mut Vec<Cell<N>>, places: &[Place<N>])
    ensures length { length cells.new.items ≡ length cells.old.items }
    ensures capacity { vec_capacity cells.new ≡ vec_capacity cells.old }
    ensures set { (v : ℕ) (d : Cell N) → v < length cells.old.items → slice_index_or cells.new.items v d ≡ cell_at places.now v (slice_index_or cells.old.items v d) }
{
    let mut left = places.len();
    while 0 < left {
        left -= 1;
        let place = places[left];
        let number = place.variable as usize;
        if number < cells.len() {
            cells[number] = place.cell;
        }
    }
}

/// Puts the cells at places after cells, if the places are of the variables that come next, one of each in order: whether they
/// are. If not, what stands after the cells is of no use.
pub(crate) fn put_in_order<N: NameValue>(cells: &mut Vec<Cell<N>>, places: &[Place<N>]) -> bool
    requires fits { length cells.old.items + length places.now ≤ vec_capacity cells.old }
    ensures order { IsTrue result → AreFrom (length cells.old.items) places.now }
    ensures put { IsTrue result → cells.new.items ≡ cells.old.items ++ cells_at places.now }
    ensures capacity { vec_capacity cells.new ≡ vec_capacity cells.old }
{
    let mut rest = places;
    while let [place, more @ ..] = rest {
        let place = *place;
        if place.variable as usize != cells.len() {
            return false;
        }
        cells.push_reserved(place.cell);
        rest = more;
    }
    true
}

/// Puts `count` new variables of the store after cells, which have room for them. If memory is refused, the store may have
/// grown.
pub(crate) fn put_fresh<N: NameValue>(
    store: &mut Store<N>,
    cells: &mut Vec<Cell<N>>,
    count: u64,
) -> Result<(), AllocError>
    requires fits { length cells.old.items + count ≤ vec_capacity cells.old }
    ensures grown { Grown store.old.held store.new.held }
    ensures hooks { store.new.hooks ≡ store.old.hooks }
    ensures bindings { store.new.held.bindings ≡ store.old.held.bindings }
    ensures put { OnOk result ((store.new.held ≡ with_variables store.old.held count) × (cells.new.items ≡ cells.old.items ++ fresh_cells store.old.held.variables count)) }
{
    let mut left = count;
    while 0 < left {
        let number = store.fresh()?;
        cells.push_reserved(Cell::Variable(number));
        left -= 1;
    }
    Ok(())
}
