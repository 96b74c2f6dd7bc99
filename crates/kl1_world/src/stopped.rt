// Where a run stopped.

use kl1_user_events::Reply;

/// Where a run stopped for want of memory: its first `done` events are done, with these replies, and the next changed nothing.
#[derive(Drop)]
pub struct Stopped {
    pub done: usize,
    pub replies: Vec<Reply>,
}
