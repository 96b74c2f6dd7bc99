// The reductions that were charged, for contracts alone.

ghost use Rattle.std.specs.Prelude.{◌≡◌, ℕ, List, [], ◌∷◌};

use boxcar::tag::{Names, Tag};
use std::marker::Model;

/// For each charged reduction the number of its goal's shoen, the newest first. It has no bytes, so only a contract can tell them.
#[derive(Drop)]
pub struct Work {
    tag: Tag,
}

impl Model for Work {
    ghost use Rattle.std.specs.Prelude.{ℕ, List};

    ghost Value = { List ℕ };

    ghost view = { λ w. w.tag.numbers };
}

/// The charged reductions, and the shoen of one more.
#[derive(Drop)]
struct Adding {
    work: Work,
    shoen: u64,
}

/// One number more than a list of reductions has.
struct More;

impl Names<Adding> for More {
    ghost numbers = { λ adding. adding.shoen ∷ adding.work };
}

/// The name of reductions that have the numbers of a list of reductions.
struct Same;

impl Names<Work> for Same {
    ghost numbers = { λ work. work };
}

impl Work {
    /// No reductions.
    pub fn new() -> Work
        ensures { result ≡ [] }
    {
        Work { tag: Tag::empty() }
    }

    /// A copy of these reductions.
    pub fn same(&self) -> Work
        ensures { result ≡ self.now }
    {
        Work {
            tag: Tag::of::<Work, Same>(self),
        }
    }

    /// Takes one more in, by its shoen's number.
    pub fn add(&mut self, shoen: u64)
        ensures { self.new ≡ shoen ∷ self.old }
    {
        let adding = Adding {
            work: self.same(),
            shoen,
        };
        self.tag = Tag::of::<Adding, More>(&adding);
    }
}
