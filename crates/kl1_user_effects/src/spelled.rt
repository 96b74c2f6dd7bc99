// Variables that become names.

use kl1_store::Point;

/// A variable that becomes a name whose number isn't known yet: a spare number stands for it, and that binding is the last one.
#[derive(Clone, Copy)]
pub struct Spelled {
    pub variable: u32,
    /// How much the store held before that binding.
    pub before: Point,
}
