//! What may be done to an account, and what it answers: events, queries, replies and refusals.
#![tactic(auto)]

mod event;
mod goal_view;
mod listed;
mod numbers;
mod refusal;
mod reply;
mod shoen_view;
mod usage;

pub use event::{Event, Query};
pub use goal_view::{Extent, GoalView, Presence, TaskKind};
pub use listed::Listed;
pub use numbers::{ClauseNo, GoalNo, ShoenNo};
pub use refusal::Refusal;
pub use reply::Reply;
pub use shoen_view::ShoenView;
pub use usage::{Usage, Used};
