//! Unification on a store, all or nothing.
#![tactic(auto)]

mod unification;

pub use unification::unify;
