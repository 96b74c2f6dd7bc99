//! Stamps of the journals that were shown of an account: they tell which of two is later, and that within one generation a journal only grows.
#![tactic(auto)]

mod shown_history;
mod shown_ids;
mod shown_journal;
mod stamp;

pub use shown_history::ShownHistory;
pub use shown_ids::ShownIds;
pub use stamp::Stamp;
