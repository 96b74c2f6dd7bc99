// Names that become others in lists of cells.

ghost use Rattle.std.specs.Prelude.{◌≡◌, length, vec_capacity};
ghost use Rattle.kl1_store.specs.Renames.{cell_renamed, mapped_from};

use crate::cell::Cell;
use crate::renaming::Renaming;
use crate::words::{Words, wide_before};
use kl1_text::NameValue;

/// A cell, with what its name becomes if it is an atom.
#[inline]
fn renamed_cell<N: NameValue, R: Renaming<N>>(names: &R, cell: Cell<N>) -> Cell<N>
    ensures { result ≡ cell_renamed (R.becomes names.now) cell }
{
    match cell {
        Cell::Variable(variable) => Cell::Variable(variable),
        Cell::Integer(number) => Cell::Integer(number),
        Cell::Atom(name) => Cell::Atom(names.renamed(name)),
        Cell::Structure(structure) => Cell::Structure(structure),
    }
}

/// Puts what each name becomes in its place in the cells from `first` on.
fn rename_cells<N: NameValue, R: Renaming<N>>(cells: &mut Vec<Cell<N>>, first: usize, names: &R)
    ensures count { length cells.new.items ≡ length cells.old.items }
    ensures items { cells.new.items ≡ mapped_from (cell_renamed (R.becomes names.now)) first cells.old.items }
    ensures capacity { vec_capacity cells.new ≡ vec_capacity cells.old }
{
    for place in first..cells.len() {
        let cell = cells[place];
        cells[place] = renamed_cell(names, cell);
    }
}

impl<N: NameValue> Words<N> {
    /// Puts what each name becomes in its place in the cells from `first` on. It takes no memory.
    pub fn rename<R: Renaming<N>>(&mut self, first: usize, names: &R)
        ensures cells { self.new.cells ≡ mapped_from (cell_renamed (R.becomes names.now)) first self.old.cells }
        ensures room { self.new.room ≡ self.old.room }
    {
        if first < self.words.len() {
            let wide = wide_before(&self.words, &self.wide, first);
            rename_cells(&mut self.wide, wide, names);
        }
    }
}
