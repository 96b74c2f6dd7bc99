// Why work is not done to its end.

use kl1_user_events::Refusal;

/// Why work is not done to its end.
#[derive(Clone, Copy)]
pub enum Stop {
    /// The source of this place, from 0, is refused.
    Source { place: usize, refusal: Refusal },
    /// The goal is refused.
    Goal(Refusal),
    /// Memory was refused.
    Memory,
    /// A write failed.
    Write,
}
