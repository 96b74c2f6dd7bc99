//! Terms as values, and their text: whole, and cut after a number of bytes.
#![tactic(auto)]

ghost use Rattle.kl1_term.specs.UntoldLaws.{UntoldHold};

mod depth;
mod depths;
mod frame;
mod mode;
mod node;
mod opening;
mod page;
mod print;
mod printer;
mod telling;
mod term;
mod variables;
mod writable;

pub use node::Node;
pub use print::{print_cut, print_whole, put_whole};
pub use printer::Printer;
pub use term::Term;
pub use variables::highest_among;

/// An answer by rules by which all its variables are new comes to the same by rules whose answers tell variables, if it is done with `untold` of its
/// goal. It does nothing: its contract is this law.
pub fn untold_are_new()
    ensures { UntoldHold }
{}
