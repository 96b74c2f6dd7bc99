//! What clauses say to goals, over cells: verdicts, and which clause of a predicate a goal can take.
#![tactic(auto)]

mod alike;
mod choice;
mod finding;
mod taking;
mod verdicts;

pub use choice::choose;
pub use finding::find_places;
pub use taking::is_candidate;
pub use verdicts::verdict_on;
