//! Many accounts over one table of names and one source of codes: each account's replies are those of its own events alone.
#![tactic(auto)]

mod stopped;
mod world;

pub use kl1_journal::{AccountName, Rules};
pub use stopped::Stopped;
pub use world::World;
