// What is told of a run while it goes on.

/// What is told of a run while it goes on.
pub trait Watch {
    /// Whether something is to be told now.
    fn is_due(&mut self) -> bool;

    /// Takes the reductions that the shoen was charged, and how many goals are alive in it and below it.
    fn tell(&mut self, charged: u64, alive: u64);
}
