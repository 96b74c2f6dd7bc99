// Tokens as they are kept while their item is read.

ghost use Rattle.std.specs.Prelude.{◌≡◌, IfOk};
ghost use Rattle.kl1_read.specs.Views.{spelled_token, kept_token};

use crate::spelled::Spelled;
use crate::spelling::Spelling;
use kl1_model::Sign;
use std::alloc::{AllocError, Global};

/// A token whose variables are known by their spellings, in little room.
#[derive(Drop)]
pub(crate) enum Kept {
    /// Whether a name stood in quotes, whether a `(` stands directly after it, and the name.
    Name(bool, bool, Spelling),
    /// A variable.
    Variable(Spelling),
    /// Digits by their value, at most 2^63.
    Digits(u64),
    /// `-`, and whether a digit stands directly after it.
    Minus(bool),
    /// A sign.
    Sign(Sign),
    /// The end of an item.
    End,
}

/// A token in little room.
pub(crate) fn kept_of(alloc: Global, token: Spelled) -> Result<Kept, AllocError>
    ensures { IfOk result (λ kept. kept_token kept ≡ spelled_token token) }
{
    match token {
        Spelled::Name(text, quotes, applied) => {
            let text = Spelling::of(alloc, text)?;
            Ok(Kept::Name(quotes, applied, text))
        }
        Spelled::Variable(text) => {
            let text = Spelling::of(alloc, text)?;
            Ok(Kept::Variable(text))
        }
        Spelled::Digits(number) => Ok(Kept::Digits(number)),
        Spelled::Minus(digit) => Ok(Kept::Minus(digit)),
        Spelled::Sign(sign) => Ok(Kept::Sign(sign)),
        Spelled::End => Ok(Kept::End),
    }
}
