// A text that is cut if it grows too long.

ghost use Rattle.std.specs.Prelude.{◌≡◌, ℕ, List, [], ◌++◌, OnOk, IfOk, IsTrue};
ghost use Rattle.kl1_model.specs.Name.{name_text, atom_text};
ghost use Rattle.kl1_term.specs.Page.{page_text, limited, is_over};

use kl1_text::{AtomText, put_atom, put_name};
use std::alloc::{AllocError, Global};

/// The front of a text that is to be cut after `most` bytes, if that is given. What is put after more than that is left out.
#[derive(Drop)]
pub(crate) struct Page {
    pub(crate) bytes: Vec<u8>,
    pub(crate) most: Option<usize>,
}

impl Page {
    /// Nothing yet.
    pub(crate) fn new(alloc: Global, most: Option<usize>) -> Self
        ensures { (rest : List ℕ) → page_text result rest ≡ limited most rest }
    {
        Page {
            bytes: Vec::new(alloc),
            most,
        }
    }

    /// Whether the text is too long already, so that what follows doesn't matter.
    #[tactic(auto, using(crate::proofs::Pages::full_anyway))]
    pub(crate) fn is_full(&self) -> bool
        ensures settled { IsTrue result → (rest more : List ℕ) → page_text self.now rest ≡ page_text self.now more }
        ensures full { IsTrue (is_over self.now) → IsTrue result }
    {
        match self.most {
            None => false,
            Some(most) => self.bytes.len() > most,
        }
    }

    /// Puts bytes after the others.
    #[tactic(auto, using(crate::proofs::Pages::whole_yet))]
    pub(crate) fn put(&mut self, bytes: &[u8]) -> Result<(), AllocError>
        ensures { OnOk result ((rest : List ℕ) → page_text self.new rest ≡ page_text self.old (bytes.now ++ rest)) }
    {
        if self.is_full() {
            return Ok(());
        }
        self.bytes.extend_from_slice(bytes)
    }

    /// Puts an atom, as it is printed, after the others.
    #[tactic(auto, using(crate::proofs::Pages::whole_yet))]
    pub(crate) fn put_atom(&mut self, name: &AtomText) -> Result<(), AllocError>
        ensures { OnOk result ((rest : List ℕ) → page_text self.new rest ≡ page_text self.old (atom_text name.now ++ rest)) }
    {
        if self.is_full() {
            return Ok(());
        }
        put_atom(&mut self.bytes, name)
    }

    /// Puts the name of a structure, as it is printed, after the others.
    #[tactic(auto, using(crate::proofs::Pages::whole_yet))]
    pub(crate) fn put_name(&mut self, name: &AtomText) -> Result<(), AllocError>
        ensures { OnOk result ((rest : List ℕ) → page_text self.new rest ≡ page_text self.old (name_text name.now ++ rest)) }
    {
        if self.is_full() {
            return Ok(());
        }
        put_name(&mut self.bytes, name)
    }

    /// The whole text, with three dots where it was cut.
    #[tactic(auto, using(crate::proofs::Pages::cut_at))]
    pub(crate) fn into_text(self) -> Result<Vec<u8>, AllocError>
        ensures { IfOk result (λ text. text.items ≡ page_text self []) }
    {
        let Page { bytes, most } = self;
        let mut text = bytes;
        if let Some(most) = most {
            if text.len() > most {
                text.truncate(most);
                text.extend_from_slice(b"...")?;
            }
        }
        Ok(text)
    }
}
