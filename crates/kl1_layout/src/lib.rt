//! The layout of sources: their tokens and comments with other blanks between them.
#![tactic(auto)]

mod formatting;
mod item;
mod laid_out;
mod layout_fault;
mod piece;
mod pieces;
mod placed;
mod predicate;
mod same;
mod spacing;
mod verdict;

pub use formatting::format;
pub use layout_fault::LayoutFault;
pub use verdict::{Verdict, verdict_of};
