//! What a pool answered to the commands of one connection, with the share in which they were counted.
#![tactic(auto)]

mod history;

pub use history::History;
