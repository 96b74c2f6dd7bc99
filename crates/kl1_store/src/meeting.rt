// What an equation of two cells leads to.

use crate::cell::Cell;
use crate::frame::Frame;

/// What becomes of an equation of two cells, neither of them a bound variable.
pub enum Meeting<N> {
    /// It is dropped.
    Same,
    /// Nothing makes its sides equal.
    Clash,
    /// The variable takes the cell, if it isn't in it.
    Bind(u32, Cell<N>),
    /// The equations of the arguments take its place.
    Open(Frame),
}
