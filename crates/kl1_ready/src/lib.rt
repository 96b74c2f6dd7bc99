//! What an account's goals can do, and what each is to do by a clause.
#![tactic(auto)]

mod beside;
mod call_cache;
mod clauses;
mod looking;
mod planning;

pub use beside::judge_beside;
pub use call_cache::{CallCache, predicate_of};
pub use clauses::judge;
pub use looking::{enable_each, may_step, put_in_order};
pub use planning::{Plan, PlannedMove, plan_of};
