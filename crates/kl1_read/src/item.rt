// Items of a text.

ghost use Rattle.std.specs.Prelude.{◌≡◌, ℕ, ◌+◌, ◌^◌, ◌<◌, List, length, None, IfOk};
ghost use Rattle.kl1_model.specs.Module.{last_item};
ghost use Rattle.kl1_read.specs.Items.{items_left, items_of_next, GoesOn};

use crate::front::{Front, front_of};
use crate::kept::{Kept, kept_of};
use std::alloc::{AllocError, Global};

/// The next item of a text.
#[derive(Drop)]
pub(crate) enum Next<'a> {
    /// Nothing is left but blanks and comments.
    Nothing,
    /// An item that has no end or a byte that is no token, by the line on which it begins.
    Bad(u64),
    /// An item, with what is after it.
    Whole(Item, Place<'a>),
}

/// An item: the line on which it begins, and its tokens without its end.
#[derive(Drop)]
pub(crate) struct Item {
    pub(crate) line: u64,
    pub(crate) tokens: Vec<Kept>,
}

/// What is left of a text, and the line of its first byte, from 1.
#[derive(Clone, Copy)]
pub(crate) struct Place<'a> {
    pub(crate) line: u64,
    pub(crate) bytes: &'a [u8],
}

/// The next item.
pub(crate) fn next_item<'a>(alloc: Global, place: Place<'a>) -> Result<Next<'a>, AllocError>
    requires { place.line + length place.bytes.now < 2 ^ 64 }
    ensures items { IfOk result (λ next. items_of_next next ≡ items_left place.entry.line place.entry.bytes.now) }
    ensures behind { IfOk result (GoesOn place.entry.line place.entry.bytes.now) }
{
    let mut line = place.line;
    let mut rest = place.bytes;
    let mut began = None;
    let mut tokens = Vec::new(alloc);
    'items: loop {
        match front_of(rest) {
            Front::Finished => return Ok(last_item(began)),
            Front::Broken => return Ok(Next::Bad(began.unwrap_or(line))),
            Front::LineEnd(behind) => {
                line += 1;
                rest = behind;
            }
            Front::Blank(behind) => rest = behind,
            Front::Token(token, behind) => {
                let first = began.unwrap_or(line);
                if token.is_end() {
                    let item = Item {
                        line: first,
                        tokens,
                    };
                    return Ok(Next::Whole(
                        item,
                        Place {
                            line,
                            bytes: behind,
                        },
                    ));
                }
                began = Some(first);
                let kept = kept_of(alloc, token)?;
                tokens.push(kept)?;
                rest = behind;
            }
        }
    }
}

/// What the end of a text leaves, if an item may have begun.
fn last_item<'a>(began: Option<u64>) -> Next<'a>
    ensures items { items_of_next result ≡ last_item began None }
    ensures behind { (line : ℕ) (bytes : List ℕ) → GoesOn line bytes result }
{
    match began {
        None => Next::Nothing,
        Some(line) => Next::Bad(line),
    }
}
