// What a seat of the tally knows, for proofs alone.

use std::collections::LinkedList;

/// One event of an account, which is a step or not. No value of it is made.
pub struct Mark {
    pub account: u64,
    pub step: bool,
}

/// What a seat knows: its parts of the right to know the whole, the accounts whose books it has, what stands in these books,
/// and what it has counted itself. No value of it is made.
pub struct View {
    pub parts: u64,
    pub names: LinkedList<u64>,
    pub book: LinkedList<Mark>,
    pub amount: LinkedList<Mark>,
}
