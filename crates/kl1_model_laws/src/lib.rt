//! What holds of the definitions alone: laws, worked rows and example scripts, each the contract of a function that does nothing.
#![tactic(auto)]

pub mod arithmetic;
pub mod examples;
pub mod reading;
pub mod relabelling;
pub mod same;
pub mod shoens;
pub mod unification;
pub mod waits;
