// Which item on a line is bad, and what is wrong with it.

use crate::module_line::module_line_finding;
use crate::seen::{Seen, is_otherwise};
use kl1_reasons_items::{
    Item, Place, Token, blanks_end, dropped, item_end, place_of, starts_with, tokens_of,
};
use kl1_reasons_words::{Finding, Say, Step, clause_finding, known, said};
use std::alloc::{AllocError, Global};

/// An item that may be bad: how many bytes stand before it, and what is wrong with it.
#[derive(Drop)]
pub(crate) struct Guess {
    pub(crate) start: usize,
    pub(crate) finding: Finding,
}

/// A walk along the items of a text.
#[derive(Drop)]
struct Walk<'a> {
    alloc: Global,
    text: &'a [u8],
    /// Whether the next item is to be the line of the module.
    wants_line: bool,
    /// The items before.
    seen: Seen,
}

impl Walk<'_> {
    /// Why an item is bad, if its tokens show it.
    fn check(&self, tokens: &[Token]) -> Step {
        if self.wants_line {
            return module_line_finding(self.alloc, self.text, tokens);
        }
        if is_otherwise(self.text, tokens) {
            return self.seen.check(self.alloc, self.text, tokens);
        }
        match clause_finding(self.alloc, self.text, tokens)? {
            Some(found) => Ok(Some(found)),
            None => self.seen.check(self.alloc, self.text, tokens),
        }
    }

    /// Takes an item.
    fn note(&mut self, tokens: &[Token]) -> Result<(), AllocError> {
        if self.wants_line {
            self.wants_line = false;
            return Ok(());
        }
        self.seen.note(self.text, tokens)
    }
}

/// The item on a line that is bad, in a text whose front may be given up: the first in which something is found, or else the first.
pub(crate) fn guess_on(
    alloc: Global,
    text: &[u8],
    front: Option<usize>,
    line: u64,
) -> Result<Guess, AllocError> {
    let mut walk = Walk {
        alloc,
        text,
        wants_line: front.is_none(),
        seen: Seen::new(alloc),
    };
    let mut at = front.unwrap_or(0);
    let mut here = place_of(text, at).line;
    let mut first = None;
    while at < text.len() {
        let start = blanks_end(text, at);
        here = here.saturating_add(feeds_between(text, at, start));
        if here > line {
            break;
        }
        let end = item_end(text, start);
        let tokens = tokens_of(alloc, text, Item { start, end })?;
        if here == line {
            if let Some(mut finding) = walk.check(tokens.as_slice())? {
                note_beginning(alloc, text, start, &mut finding)?;
                return Ok(Guess { start, finding });
            }
            first = first.or(Some(start));
        }
        walk.note(tokens.as_slice())?;
        here = here.saturating_add(feeds_between(text, start, end));
        at = end;
    }
    unfound(&walk, first)
}

/// Notes where an item begins if what is wrong stands two lines further on or more.
fn note_beginning(
    alloc: Global,
    text: &[u8],
    start: usize,
    finding: &mut Finding,
) -> Result<(), AllocError> {
    let Place { line, column } = place_of(text, start);
    if place_of(text, finding.at).line <= line.saturating_add(1) {
        return Ok(());
    }
    let hint = said(
        alloc,
        &[
            Say::Text(b"the item begins at "),
            Say::Number(line),
            Say::Text(b":"),
            Say::Number(column),
        ],
    )?;
    finding.words.hints.push(hint)?;
    Ok(())
}

/// How many line feeds stand between two places.
fn feeds_between(text: &[u8], from: usize, to: usize) -> u64 {
    place_of(dropped(text, from), to.saturating_sub(from))
        .line
        .saturating_sub(1)
}

/// What is told of an item in which nothing was found, or of a text without items.
fn unfound(walk: &Walk<'_>, first: Option<usize>) -> Result<Guess, AllocError> {
    let alloc = walk.alloc;
    let start = first.unwrap_or(0);
    let finding = if walk.wants_line {
        known(
            alloc,
            start,
            b"an empty text: a module begins with :- module NAME.",
            b"",
        )?
    } else if starts_with(dropped(walk.text, start), b"otherwise") {
        let hint = match walk.seen.heads.last() {
            None => Vec::new(alloc),
            Some(head) => said(
                alloc,
                &[
                    Say::Text(b"a clause of "),
                    Say::Text(head.token.bytes(walk.text)),
                    Say::Text(b"/"),
                    Say::Number(head.count),
                    Say::Text(b" must follow"),
                ],
            )?,
        };
        known(
            alloc,
            start,
            b"otherwise. is the last item",
            hint.as_slice(),
        )?
    } else {
        known(
            alloc,
            start,
            b"this item is no clause",
            b"a clause is p(X) :- tests | goals. or p(X).",
        )?
    };
    Ok(Guess { start, finding })
}
