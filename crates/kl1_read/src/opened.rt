// What a bracket opened.

use crate::piece::Piece;
use crate::spelling::Spelling;

/// What a bracket opened and nothing has closed yet.
#[derive(Drop)]
pub(crate) enum Opened<'a> {
    /// An expression in parentheses.
    Group,
    /// The arguments of a name, those that are read.
    Arguments(&'a Spelling, Vec<Piece>),
    /// The elements of a list, those that are read.
    Elements(Vec<Piece>),
    /// What follows the elements of a list after a bar.
    Tail(Vec<Piece>),
}
