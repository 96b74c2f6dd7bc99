//! Expressions of arithmetic and tests of guards, over terms that are looked at from the top, as those of cells.
#![tactic(auto)]

mod arithmetic;
mod carrying;
mod cells;
mod comparing;
mod evaluated;
mod evaluating;
mod form;
mod frame;
mod looking;
mod meeting;
mod names;
mod outcome;
mod pair;
mod part;
mod passive;
mod pending;
mod scratch;
mod store_view;
mod test;
mod view;

pub use cells::evaluate_cell;
pub use comparing::compare;
pub use evaluated::Evaluated;
pub use evaluating::evaluate;
pub use form::Form;
pub use looking::look_at;
pub use outcome::Outcome;
pub use pair::Pair;
pub use passive::alike;
pub use scratch::Scratch;
pub use test::{Test, test_at};
pub use view::View;
