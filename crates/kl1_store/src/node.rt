// Structures, as the store keeps them.

/// A structure's name, and where its arguments stand in the store's list of arguments.
#[derive(Clone, Copy)]
pub struct Node<N> {
    pub name: N,
    pub start: u32,
    pub count: u32,
}
