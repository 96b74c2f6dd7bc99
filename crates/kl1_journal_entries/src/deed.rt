// What an entry that was read asks for.

use kl1_user_events::Event;

/// What an entry asks for.
#[derive(Drop)]
pub enum Deed {
    /// This event.
    Event(Event),
    /// First reductions, one after another: how many, from 1.
    Run(u64),
}
