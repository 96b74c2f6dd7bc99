// What one bucket of a look-up gives.

use kl1_text::AtomNo;

/// What one bucket of a look-up gives.
#[derive(Clone, Copy)]
pub enum Round {
    /// The text stands in this entry.
    Found(u64),
    /// The text was published in the seat's own entry.
    Made,
    /// Another text stands there; whether the seat's own entry has the text drafted.
    Other(bool),
}

/// What a look-up ends with: the text's number, and how many more of its own entries the seat has used.
#[derive(Drop)]
pub struct Ended {
    pub number: AtomNo,
    pub more: u64,
}
