// How a shoen stands once its run is over.

/// How a shoen stands once its run is over.
#[derive(Clone, Copy)]
pub enum Ending {
    /// It terminated, and reported no exception.
    Terminated,
    /// It terminated, or no goal can step, and it reported exceptions.
    Raised,
    /// It reported no exception, no goal can step, and this many in it and below it wait for ever.
    Waits(u64),
    /// It was charged all of its allowance.
    Exhausted,
    /// Goals can step, but all steps of the run are done, or the journal is full.
    Unfinished,
}
