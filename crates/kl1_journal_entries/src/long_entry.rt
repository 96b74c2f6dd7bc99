// Entries that are kept whole.

use kl1_model::Message;

/// An entry that is kept whole.
#[derive(Drop)]
pub(crate) enum LongEntry {
    Load {
        source: Vec<u8>,
    },
    /// `goal` is the goal's print, here and in an answer.
    Start {
        allowance: u64,
        low: u64,
        high: u64,
        goal: Vec<u8>,
    },
    Control {
        shoen: u64,
        message: Message,
    },
    Step {
        goal: u64,
        clause: u64,
    },
    /// How many reductions the run has.
    Run(u64),
    /// `told` is whether the goal tells variables by their numbers.
    Answer {
        shoen: u64,
        report: u64,
        goal: Vec<u8>,
        told: bool,
    },
    Forget {
        shoen: u64,
        count: u64,
    },
}
