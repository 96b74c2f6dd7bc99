// What is to be reduced.

use crate::cell::Cell;

/// What is to be reduced: the goal of a cell in the module of a name, or the whole goal that a cell is.
#[derive(Clone, Copy)]
pub struct Qualified<N> {
    pub module_name: Option<N>,
    pub cell: Cell<N>,
}
