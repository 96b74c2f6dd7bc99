// How a request ends that is let in.

use kl1_host_door::Answer;
use std::alloc::AllocError;

/// How a request ends that is let in.
#[derive(Drop)]
pub enum Outcome {
    /// It is answered.
    Told(Answer),
    /// A session of the account of this number is open, and one of the browser begins.
    Opens(usize),
    /// The session of the account is closed, and that of the browser ends, with this answer if there was memory for it.
    Closes(Result<Answer, AllocError>),
}
