//! Streams of shoens, over cells: what is reported and what is told on control streams, the end of streams, and exceptions.
#![tactic(auto)]

mod answers;
mod console;
mod control;
mod elements;
mod exceptions;
mod letting;
mod reports;
mod sending;
mod told;
mod tops;

pub use answers::{Asking, asked_at};
pub use console::send_message;
pub use control::{Control, read_control};
pub use elements::{keep_places, next_element, nth_cell};
pub use exceptions::{exception_of, exception_with};
pub use letting::without_reports;
pub use reports::{append_report, close_report};
pub use told::Told;
