// Whether the goals of a shoen are enabled now.

/// A shoen, and whether its goals are enabled now.
#[derive(Clone, Copy)]
pub struct Shift {
    pub shoen: u64,
    pub is_enabled: bool,
}
