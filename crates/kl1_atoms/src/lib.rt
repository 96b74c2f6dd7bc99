//! The table of names that accounts share: a number for each name, and each account's own view of it.
#![tactic(auto)]

mod agreeing;
mod atom_seat;
mod atom_source;
mod atom_table;
mod face;
mod known;
mod law;
mod laws;
mod looking_up;
mod plain_seat;
mod plain_table;
mod round;
mod seeking;
mod shared_atoms;
mod sought;
mod turns;
mod walking;

pub use atom_seat::AtomSeat;
pub use atom_source::AtomSource;
pub use atom_table::AtomTable;
pub use face::{Face, Heard, Size, View};
pub use known::Known;
pub use laws::words_show_names;
pub use plain_seat::PlainSeat;
pub use plain_table::PlainTable;
pub use shared_atoms::SharedAtoms;
pub use turns::Turns;
