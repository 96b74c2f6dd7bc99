// How many buckets look-ups have looked at, for contracts alone.

ghost use Rattle.std.specs.Prelude.{◌≡◌, ℕ, ◌+◌, ◌∷◌, length};

use boxcar::tag::{Names, Tag};
use std::marker::Model;

/// How many buckets look-ups have looked at, from zero. It has no bytes, so only a contract can tell the number.
#[derive(Drop)]
pub struct Turns {
    tag: Tag,
}

impl Model for Turns {
    ghost use Rattle.std.specs.Prelude.{ℕ, length};

    ghost Value = { ℕ };

    ghost view = { λ t. length t.tag.numbers };
}

/// One number more than a tag has.
struct More;

impl Names<Tag> for More {
    ghost numbers = { λ tag. 0 ∷ tag.numbers };
}

impl Turns {
    /// No turns.
    pub fn new() -> Turns
        ensures { result ≡ 0 }
    {
        Turns { tag: Tag::empty() }
    }

    /// One turn more.
    pub fn tick(&mut self)
        ensures { self.new ≡ self.old + 1 }
    {
        self.tag = Tag::of::<Tag, More>(&self.tag);
    }
}
