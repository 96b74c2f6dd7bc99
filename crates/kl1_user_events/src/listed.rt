// The texts of a reply that is a list.

ghost use Rattle.std.specs.Prelude.{◌≡◌, [], ◌∷◌, ◌++◌, length, map, OnOk, OnErr};

use std::alloc::{AllocError, Global};
use std::marker::Model;

/// Texts in order.
#[derive(Drop)]
pub struct Listed {
    texts: Vec<Vec<u8>>,
}

impl Model for Listed {
    ghost use Rattle.std.specs.Prelude.{ℕ, List, map};

    ghost Value = { List (List ℕ) };

    ghost view = { λ l. map (λ t. t.items) l.texts.items };
}

impl Listed {
    /// No texts.
    pub fn new(alloc: Global) -> Self
        ensures { result ≡ [] }
    {
        Listed {
            texts: Vec::new(alloc),
        }
    }

    /// Puts a text after the others.
    pub fn push(&mut self, text: Vec<u8>) -> Result<(), AllocError>
        ensures ok { OnOk result (self.new ≡ self.old ++ text.items ∷ []) }
        ensures err { OnErr result (self.new ≡ self.old) }
    {
        self.texts.push(text)?;
        Ok(())
    }

    /// How many texts there are.
    pub fn len(&self) -> usize
        ensures { result ≡ length self.now }
    {
        self.texts.len()
    }

    /// The texts.
    pub fn texts(&self) -> &[Vec<u8>]
        ensures { map (λ t. t.items) result.now ≡ self.now }
    {
        &self.texts
    }
}
