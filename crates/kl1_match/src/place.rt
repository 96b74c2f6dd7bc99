// The term at a place of a head's variable.

use kl1_store::Cell;

/// A variable of a head, by its number in the clause, from 1, and the cell of a goal at a place of it.
#[derive(Clone, Copy)]
pub struct Place<N> {
    pub variable: u64,
    pub cell: Cell<N>,
}
