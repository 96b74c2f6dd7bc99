// What unification comes to.

/// Whether two terms were made equal.
#[derive(Clone, Copy, PartialEq, Eq)]
pub enum Unified {
    /// They are equal from now on.
    Bound,
    /// Nothing makes them equal.
    Clash,
}
