// What the calls of a store work with.

use crate::frame::Frame;
use crate::merges::Merges;
use crate::task::Task;
use kl1_text::NameValue;

/// Lists that each call empties before it uses them.
#[derive(Drop)]
pub struct Scratch<N: NameValue> {
    pub frames: Vec<Frame>,
    pub merges: Merges,
    pub tasks: Vec<Task<N>>,
}
