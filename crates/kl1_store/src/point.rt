// Points, to which a store can be taken back.

use crate::mark::Mark;

/// How much a store kept at some moment: what it held, and what hung on its variables.
#[derive(Clone, Copy)]
pub struct Point {
    pub sizes: Mark,
    pub hooks: usize,
}
