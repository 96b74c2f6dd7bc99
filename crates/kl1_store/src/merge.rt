// Structures that were merged.

/// A structure that was merged into a lower one.
#[derive(Clone, Copy)]
pub struct Merge {
    pub from: u32,
    pub to: u32,
}
