// What passive equality of two cells works with.

ghost use Rattle.std.specs.Prelude.{◌≡◌, []};

use crate::frame::Frame;
use std::alloc::Global;

/// What comparing two structures, by their numbers, gave: whether they may be the same, and the variables that this waits for. If it is
/// worth keeping, `pairs` has what is left of it.
#[derive(Drop)]
pub(crate) struct Remembered {
    pub(crate) left: u32,
    pub(crate) right: u32,
    pub(crate) alike: bool,
    pub(crate) waits: Vec<u32>,
    pub(crate) is_worth_keeping: bool,
    pub(crate) pairs: Vec<Frame>,
}

/// Lists that a call empties before it uses them, and what comparisons gave since `Store::forget`. It keeps the lists' memory for
/// the next call.
#[derive(Drop)]
pub struct SameScratch {
    pub(crate) frames: Vec<Frame>,
    pub(crate) waits: Vec<u32>,
    pub(crate) remembered: Vec<Remembered>,
}

impl SameScratch {
    /// Lists that hold nothing.
    pub fn new(alloc: Global) -> Self {
        SameScratch {
            frames: Vec::new(alloc),
            waits: Vec::new(alloc),
            remembered: Vec::new(alloc),
        }
    }

    /// Lets go of all that is remembered. It stands apart, since what calls it is put in place of its own calls.
    #[inline(never)]
    pub(crate) fn let_go(&mut self)
        ensures { self.new.remembered.items ≡ [] }
    {
        self.remembered.clear();
    }
}
