//! The tests that lines of modules state, and the lines that tell what came of them.
#![tactic(auto)]

mod expectation;
mod found;
mod lines;
mod row;
mod test_lines;
mod tests;
mod tokens;
mod values;

pub use expectation::{Equation, Expectation};
pub use found::{Found, put_tests};
pub use lines::{put_line, put_place, put_plan};
pub use test_lines::TestLine;
pub use tests::Test;
pub use values::{has_values, put_values};
