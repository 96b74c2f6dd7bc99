//! The shoens of an account as a tree in order of number, with what each is charged, and with the way back to an event's beginning.
#![tactic(auto)]

mod change;
mod counted;
mod shift;
mod tree;
mod work;

pub use kl1_shoen_paths::{Origin, Shoen};
pub use shift::Shift;
pub use tree::{ShoenTree, Step};
