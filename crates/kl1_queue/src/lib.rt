//! Which of places in order goes first: that of the greatest priority, and of equal ones the least.
#![tactic(auto)]

mod bit_set;
mod rank_tree;
mod ready_queue;
mod tree;
mod word;

pub use ready_queue::ReadyQueue;
