//! Numbers that hang on the variables that they wait for.
#![tactic(auto)]

mod hanging;

pub use hanging::hang_on;
