// What becomes of the first goal that can step.

use kl1_user_events::Refusal;

/// What became of the first goal that can step, or of the last one that was tried.
#[derive(Clone, Copy)]
pub enum FirstStep {
    /// There is none.
    Quiet,
    /// It is reduced.
    Done,
    /// Its reduction is refused, and the account is as it was.
    Refused(Refusal),
    /// Memory was refused, and the account is as it was.
    Memory,
}
