// What a goal does.

use kl1_store::{Cell, Qualified};

/// What a goal does: it reads its shoen's control stream; or it is to be reduced; or it is a substitute, which waits for what this cell is
/// to be a goal.
#[derive(Clone, Copy)]
pub enum Task<N> {
    Monitor,
    Reduces(Qualified<N>),
    Substitutes(Cell<N>),
}
