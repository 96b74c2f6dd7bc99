//! What programs have alike: their words as tables of options, why they can't do what they are asked, and files that are read and
//! written over.
#![tactic(auto)]

mod asked;
mod commands;
mod fault;
mod files;
mod program;
mod unasked;

pub use asked::{Asked, asked_in, words_of};
pub use fault::{BAD, Fault, LEFT};
pub use files::{
    FileId, NotOpened, named_line, open_over, put_named_line, read_known, read_up_to,
    rename_written, replace,
};
pub use program::{OptionSpec, Program, SystemFaults, Takes, TaskSpec};
pub use unasked::{Unasked, why_in};
