// What the calls of this crate work with.

use crate::frame::Frame;
use crate::pending::Pending;
use std::alloc::Global;

/// Lists that calls work with, for places and structures of some view: each empties those that it uses, and what it leaves in them
/// is of no use. They take no memory until a call needs some.
#[derive(Drop)]
pub struct Scratch<A: Copy, S: Copy> {
    pub(crate) stack: Vec<Pending<A>>,
    pub(crate) frames: Vec<Frame<S>>,
}

impl<A: Copy, S: Copy> Scratch<A, S> {
    /// Lists that hold nothing.
    pub fn new(alloc: Global) -> Self {
        Scratch {
            stack: Vec::new(alloc),
            frames: Vec::new(alloc),
        }
    }
}
