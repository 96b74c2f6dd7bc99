// Names in little room.

ghost use Rattle.std.specs.Prelude.{◌≡◌, IfOk};

use kl1_text::AtomText;
use std::alloc::{AllocError, Global};
use std::marker::Model;

/// Where a name is held.
#[derive(Drop)]
pub(crate) enum Held {
    /// At most eight bytes, in the name's first word.
    Short(u64),
    /// In memory of its own.
    Long(Box<AtomText>),
}

/// A name that takes two words, and memory of its own if it has more than eight bytes.
#[derive(Drop)]
pub(crate) struct Spelling {
    held: Held,
}

impl Model for Spelling {
    ghost use Rattle.std.specs.Prelude.{ℕ, List};
    ghost use Rattle.kl1_read.specs.Held.{text_held, IsHeld};

    ghost Value = { List ℕ };

    ghost view = { λ s. text_held s.held };

    ghost invariant = { λ s. IsHeld s.held };
}

impl Spelling {
    /// A name in little room.
    pub(crate) fn of(alloc: Global, text: AtomText) -> Result<Self, AllocError>
        ensures { IfOk result (λ spelling. spelling ≡ text) }
    {
        if let Some(word) = text.one_word() {
            return Ok(Spelling {
                held: Held::Short(word),
            });
        }
        let long = Box::new(alloc, text)?;
        Ok(Spelling {
            held: Held::Long(long),
        })
    }

    /// The name.
    pub(crate) fn name(&self) -> AtomText
        ensures { result ≡ self.now }
    {
        match &self.held {
            Held::Short(word) => AtomText::of_word(*word),
            Held::Long(text) => **text,
        }
    }
}
