// Commands.

use kl1_user_events::Event;

/// What an account is asked to do.
pub enum Command {
    /// This event.
    Does(Event),
    /// At most this number of first steps.
    Run(u64),
    /// The lines of the journal from one on, the first being 1, at most this number of them.
    Shows { from: u64, count: u64 },
}

/// Not derived, so that crates above don't prove the drop of each part again.
impl Drop for Command {
    fn drop(self) {
        match self {
            Command::Does(_) => {}
            Command::Run(_) => {}
            Command::Shows { from: _, count: _ } => {}
        }
    }
}
