//! What a goal is shown as to people: the values of its variables by their names, and operators between their operands.
#![tactic(auto)]

mod bindings;
mod infix;
mod names;
mod operators;
mod parsed;
mod readable;

pub use bindings::{Binding, binding_of};
pub use infix::infix_text;
pub use names::variable_names;
pub use parsed::{Parsed, parse_print};
pub use readable::readable_goal;
