// Terms side by side.

/// Two terms side by side.
#[derive(Clone, Copy)]
pub struct Pair<A> {
    pub left: A,
    pub right: A,
}
