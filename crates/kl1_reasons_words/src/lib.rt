//! What is wrong with an item, and what may help, as its tokens show it.
#![tactic(auto)]

mod alien;
mod bodies;
mod brackets;
mod clauses;
mod finding;
mod foreign;
mod guards;
mod heads;
mod level;
mod marks;
mod operators;
mod outline;
mod part;
mod terms;

pub use alien::alien_finding;
pub use clauses::clause_finding;
pub use finding::{Finding, Say, Words, found_at, known, said};
pub use guards::is_test;
pub use heads::is_built_in;
pub use outline::{Outline, Role, Step};
pub use part::{Main, Part};
