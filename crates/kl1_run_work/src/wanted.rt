// What is wanted to be told of a goal.

use kl1_user_events::Extent;

/// What is wanted to be told of a goal once its run is over.
#[derive(Clone, Copy)]
pub struct Wanted {
    /// Whether its reports are wanted too.
    pub reports: bool,
    /// How much of its value is wanted.
    pub value: Extent,
}
