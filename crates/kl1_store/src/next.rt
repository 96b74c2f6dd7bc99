// What the waiting equations come to.

use crate::cell::Cell;

/// What the waiting equations come to before the next binding.
pub enum Next<N> {
    /// They all hold.
    Finished,
    /// Nothing makes them hold.
    Never,
    /// The variable takes the cell, if it isn't in it.
    Binds(u32, Cell<N>),
}
