// What the scribe takes at once.

use crate::change::Change;

/// What one account's file gets next: a change that stands for the changes from `taken` to `noted`, counted since the server was started.
#[derive(Drop)]
pub struct Batch {
    pub account: u32,
    pub taken: u64,
    pub noted: u64,
    pub change: Change,
}
