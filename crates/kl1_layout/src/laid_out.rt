// What is written, laid out.

ghost use Rattle.std.specs.Prelude.{◌≤◌, ◌<◌, length};

use crate::item::put_item;
use crate::piece::{Kind, Piece};
use crate::predicate::{is_clause, is_otherwise, is_same_predicate};
use kl1_read::Spelled;
use std::alloc::{AllocError, Global};

/// The number of pieces of the item in front.
fn item_length(pieces: &[Piece]) -> usize
    requires { 0 < length pieces.now }
    ensures some { 0 < result }
    ensures within { result ≤ length pieces.now }
{
    let mut rest = pieces;
    while let [first, others @ ..] = rest {
        if matches!(&first.kind, Kind::Token(Spelled::End)) {
            return pieces.len() - others.len();
        }
        rest = others;
    }
    pieces.len()
}

/// The item that stands directly below the comments in front.
fn item_below(pieces: &[Piece]) -> &[Piece] {
    let mut rest = pieces;
    let mut is_first = true;
    while let [first, others @ ..] = rest {
        if first.is_apart && !is_first {
            return &[];
        }
        if let Kind::Token(_token) = &first.kind {
            return rest;
        }
        is_first = false;
        rest = others;
    }
    rest
}

/// Ends a line, if there is one, and puts an empty line after it if that is wanted.
fn put_line_end(out: &mut Vec<u8>, is_apart: bool) -> Result<(), AllocError> {
    if !out.is_empty() {
        out.push(b'\n')?;
        if is_apart {
            out.push(b'\n')?;
        }
    }
    Ok(())
}

/// Whether the item in front begins another predicate than the last clause above, if both are there.
fn begins_another(above: &[Piece], pieces: &[Piece]) -> bool {
    is_clause(above)
        && is_clause(pieces)
        && !is_otherwise(pieces)
        && !is_same_predicate(above, pieces)
}

/// The pieces, laid out: items and comments on lines of their own, and an empty line between predicates, and before each item or
/// comment that had one before it.
pub(crate) fn laid_out(alloc: Global, pieces: &[Piece]) -> Result<Vec<u8>, AllocError> {
    let mut out = Vec::new(alloc);
    // From the last item above on that isn't `otherwise`.
    let mut above: &[Piece] = &[];
    let mut is_below_comment = false;
    let mut rest = pieces;
    while let [first, others @ ..] = rest {
        match &first.kind {
            Kind::Comment(false) => {
                out.push(b' ')?;
                out.extend_from_slice(first.bytes.as_slice())?;
                rest = others;
            }
            Kind::Comment(true) => {
                let begins = !is_below_comment && begins_another(above, item_below(rest));
                put_line_end(&mut out, first.is_apart || begins)?;
                out.extend_from_slice(first.bytes.as_slice())?;
                is_below_comment = true;
                rest = others;
            }
            Kind::Token(_token) => {
                let begins = !is_below_comment && begins_another(above, rest);
                put_line_end(&mut out, first.is_apart || begins)?;
                let count = item_length(rest);
                put_item(alloc, &mut out, &rest[..count])?;
                if !is_otherwise(rest) {
                    above = rest;
                }
                is_below_comment = false;
                rest = &rest[count..];
            }
        }
    }
    put_line_end(&mut out, false)?;
    Ok(out)
}
