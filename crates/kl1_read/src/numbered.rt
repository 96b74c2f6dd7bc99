// Tokens with numbers for variables.

use crate::spelling::Spelling;
use kl1_model::Sign;

/// A token whose variables are known by their numbers in the item, from 1.
#[derive(Drop)]
pub(crate) enum Numbered {
    /// Whether a name stood in quotes, whether a `(` stands directly after it, and the name.
    Name(bool, bool, Spelling),
    /// A variable.
    Variable(u64),
    /// Digits by their value, at most 2^63.
    Digits(u64),
    /// `-`, and whether a digit stands directly after it.
    Minus(bool),
    /// A sign.
    Sign(Sign),
    /// The end of an item.
    End,
}
