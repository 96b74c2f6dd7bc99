//! The goals of an account in order of number, and which of those that can step goes first.
#![tactic(auto)]

mod begun;
mod chains;
mod goal;
mod goal_table;
mod noting;
mod places;
mod room;
mod slot;
mod standing;
mod tally;
mod task;

pub use goal::Goal;
pub use goal_table::GoalTable;
pub use kl1_model::Rules;
pub use room::make_room;
pub use standing::Standing;
pub use task::Task;
