//! Runs that are told step by step, and where variables and exceptions came from.
#![tactic(auto)]

mod called;
mod clauses;
mod finder;
mod notes;
mod steps;

pub use called::{Called, called_by};
pub use clauses::{ClausePlace, clause_at, put_clauses};
pub use finder::{Finder, Found, Origin};
pub use notes::{notes_of_found, put_clause};
pub use steps::{StepWatch, step_through};
