// Cells that wait to be lifted.

use crate::cell::Cell;
/// A cell that is to lie at a level or above it, with all that is in its term.
#[derive(Clone, Copy)]
pub struct Task<N> {
    pub cell: Cell<N>,
    pub level: u64,
}
