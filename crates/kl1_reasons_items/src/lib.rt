//! Items and tokens of a text, whatever its bytes are, and their places.
#![tactic(auto)]

mod cut;
mod item;
mod place;
mod scan;
mod spans;
mod token;
mod within;

pub use cut::{blanks_end, dropped, front_behind, item_end, starts_with};
pub use item::{Item, item_on};
pub use place::{Place, place_of, taken};
pub use scan::tokens_of;
pub use token::{Kind, Token};
pub use within::Within;
