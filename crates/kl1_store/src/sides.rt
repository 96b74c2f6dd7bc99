// The two sides of an equation.

use crate::cell::Cell;

/// Two cells that are looked at side by side.
pub struct Sides<N> {
    pub left: Cell<N>,
    pub right: Cell<N>,
}
