// Hooks, as the store keeps them.

/// A number that hangs on a variable, and the place, counted from 1, of the hook that hung there before it; 0 if none did.
#[derive(Clone, Copy)]
pub struct Link {
    pub number: u64,
    pub variable: u32,
    pub before: u32,
}
