// How far a comparison came.

ghost use Rattle.std.specs.Prelude.{◌≡◌, []};

use crate::frame::Frame;
use std::alloc::Global;

/// The pairs of structures that are compared to the end before a comparison tires, of the first level, and for each level more.
const FIRST_SPARED: usize = 64;

const SPARED_BY_LEVEL: usize = 4;

/// The arguments that are looked at again rather than that a rest is kept.
const FEW: usize = 32;

/// The pairs with arguments in turn that wait for a variable, how many arguments were looked at, the most levels that were reached, and how
/// many pairs more are compared to the end before the comparison tires.
#[derive(Drop)]
pub(crate) struct Course {
    pub(crate) pairs: Vec<Frame>,
    met: usize,
    deepest: usize,
    spared: usize,
}

impl Course {
    /// Nothing was looked at.
    pub(crate) fn new(alloc: Global) -> Self
        ensures { result.pairs.items ≡ [] }
    {
        Course {
            pairs: Vec::new(alloc),
            met: 0,
            deepest: 0,
            spared: FIRST_SPARED,
        }
    }

    /// Takes note of one argument more at a level. Each level that is new spares some pairs, so that those of lists never tire it.
    pub(crate) fn meet(&mut self, level: usize)
        ensures { self.new.pairs.items ≡ self.old.pairs.items }
    {
        self.met = self.met.saturating_add(1);
        if level > self.deepest {
            self.deepest = level;
            self.spared = self.spared.saturating_add(SPARED_BY_LEVEL);
        }
    }

    /// Takes note of a pair that was compared to the end: false if that tires it.
    pub(crate) fn close(&mut self) -> bool
        ensures { self.new.pairs.items ≡ self.old.pairs.items }
    {
        if self.spared == 0 {
            return false;
        }
        self.spared -= 1;
        true
    }

    /// Whether to go on where it was left spares enough: at least 32 arguments, and four for each that waits.
    pub(crate) fn is_long(&self) -> bool {
        self.met >= FEW && (self.met - FEW) / 4 >= self.pairs.len()
    }
}
