// The names of a code.

ghost use Rattle.std.specs.Prelude.{◌≡◌, [], length, IfOk, OnOk, OnErr};
ghost use Rattle.kl1_clause.specs.NameList.{with_text, IsNameList};
ghost use Rattle.kl1_clause.specs.Instructions.{IsPlaced, text_in};

use crate::name::Name;
use indexmap::IndexSet;
use kl1_text::AtomText;
use std::alloc::{AllocError, Global};
use std::marker::Model;

/// How many names a code has at most.
const MOST: usize = 0xffff_ffff;

/// The names of a code that are not built in, each once, in order of first use.
#[derive(Drop)]
pub(crate) struct Names {
    texts: IndexSet<AtomText>,
}

impl Model for Names {
    ghost use Rattle.std.specs.Prelude.{ℕ, List};
    ghost use Rattle.kl1_clause.specs.NameList.{IsNameList};

    ghost Value = { List (List ℕ) };

    ghost view = { λ n. n.texts.keys };

    ghost invariant = { λ n. IsNameList n.texts.keys };
}

impl Names {
    /// No names.
    #[tactic(auto, using(crate::proofs::NameLists::no_names_in))]
    pub(crate) fn new(alloc: Global) -> Self
        ensures { result ≡ [] }
    {
        Names {
            texts: IndexSet::new(alloc),
        }
    }

    /// The names in their order.
    pub(crate) fn texts(&self) -> &[AtomText]
        ensures value { result.now ≡ self.now }
        ensures names { IsNameList self.now }
    {
        self.texts.as_slice()
    }

    /// A text as a name: one of the language, or its place, at the end if it is new. A name whose place would no more
    /// fit 32 bits is refused as for want of memory.
    pub(crate) fn placed(&mut self, text: &AtomText) -> Result<Name, AllocError>
        ensures names { OnOk result (self.new ≡ with_text self.old text.now) }
        ensures placed { IfOk result (IsPlaced (length self.new)) }
        ensures text { IfOk result (λ name. text_in self.new name ≡ text.now) }
        ensures err { OnErr result (self.new ≡ self.old) }
    {
        if let Some(built_in) = text.built_in() {
            return Ok(Name::Language(built_in));
        }
        if self.texts.len() >= MOST {
            return Err(AllocError);
        }
        let (place, _is_new) = self.texts.insert_full(*text)?;
        Ok(Name::Place(place as u32))
    }
}
