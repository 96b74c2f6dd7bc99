// Tokens as a text spells them.

ghost use Rattle.std.specs.Prelude.{◌≡◌};
ghost use Rattle.kl1_model.specs.Module.{is_end};

use kl1_model::Sign;
use kl1_text::AtomText;

/// A token whose variables are known by their spellings.
#[derive(Clone, Copy)]
pub enum Spelled {
    /// A name, whether it stood in quotes, and whether a `(` stands directly after it.
    Name(AtomText, bool, bool),
    /// A variable.
    Variable(AtomText),
    /// Digits by their value, at most 2^63.
    Digits(u64),
    /// `-`, and whether a digit stands directly after it.
    Minus(bool),
    /// A sign.
    Sign(Sign),
    /// The end of an item.
    End,
}

impl Spelled {
    ghost use Rattle.kl1_read.specs.Views.{spelled_token};

    /// Whether this ends an item.
    pub(crate) fn is_end(&self) -> bool
        ensures { result ≡ is_end (spelled_token self.now) }
    {
        match self {
            Spelled::Name(_, _, _) => false,
            Spelled::Variable(_) => false,
            Spelled::Digits(_) => false,
            Spelled::Minus(_) => false,
            Spelled::Sign(_) => false,
            Spelled::End => true,
        }
    }
}
