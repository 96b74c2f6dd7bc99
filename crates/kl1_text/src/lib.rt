//! The names of the language as values: texts of at most 127 bytes, and what may stand in their place; numbers from digits.
#![tactic(auto)]

mod atom_no;
mod atom_text;
mod built_ins;
mod cell_name;
mod decimals;
mod literals;
mod name_value;
mod packing;
mod printing;
mod short_bytes;

pub use atom_no::AtomNo;
pub use atom_text::AtomText;
pub use built_ins::built_in_at;
pub use cell_name::CellName;
pub use decimals::decimal_up_to;
pub use name_value::NameValue;
pub use packing::{FULL_WORD, WORDS};
pub use printing::{put_atom, put_int, put_name};
pub use short_bytes::ShortBytes;
