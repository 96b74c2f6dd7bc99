// What is told of bytes that are no token.

use crate::finding::{Finding, Say, found_at, known};
use crate::foreign::operator_finding;
use kl1_reasons_items::Token;
use std::alloc::{AllocError, Global};

/// What other languages write with a byte, with what is told of it.
const BYTES: [(&[u8], &[u8], &[u8]); 13] = [
    (
        b"\"",
        b"no strings",
        b"a quoted name is 'abc'; a text can be a list of codes, as [97,98,99], of which atom_from makes a name",
    ),
    (
        b"{",
        b"no braces",
        b"write a structure with a name, as v(A,B)",
    ),
    (
        b"}",
        b"no braces",
        b"write a structure with a name, as v(A,B)",
    ),
    (
        b"!",
        b"no cut",
        b"a guard commits: the bar | is the cut of KL1",
    ),
    (
        b";",
        b"no ; here",
        b"write a clause for each case, and otherwise. between them",
    ),
    (b"#", b"no # here", b"a comment begins with %"),
    (b"^", b"no ^ here", b"multiply"),
    (
        b"\\",
        b"\\ stands only in \\= and =\\=",
        b"there is no negation: test the opposite, or write the case below otherwise.",
    ),
    (b"?", b"no ? here", b""),
    (b"&", b"no & here", b"goals are parted by commas"),
    (b"~", b"no ~ here", b""),
    (b"$", b"no $ here", b""),
    (b"`", b"no ` here", b""),
];

/// What is told of bytes that are no token.
pub fn alien_finding(alloc: Global, text: &[u8], token: &Token) -> Result<Finding, AllocError> {
    if let Some(found) = operator_finding(alloc, text, token.start)? {
        return Ok(found);
    }
    let bytes = token.bytes(text);
    for (front, why, hint) in &BYTES {
        if bytes.starts_with(front) {
            return known(alloc, token.start, why, hint);
        }
    }
    other_finding(alloc, token.start, bytes)
}

/// What is told of quotes that aren't closed, of a dot, and of bytes that no text may hold.
fn other_finding(alloc: Global, at: usize, bytes: &[u8]) -> Result<Finding, AllocError> {
    match bytes {
        [b'\'', ..] => known(
            alloc,
            at,
            b"this quote isn't closed on its line",
            b"a quote in a quoted name stands twice: 'it''s'",
        ),
        [b'.', ..] => known(
            alloc,
            at,
            b"a dot that ends nothing: a blank must follow",
            b"there are no numbers with a point, and no lists with a dot",
        ),
        [first, ..] => found_at(
            alloc,
            at,
            &[
                Say::Text(b"byte "),
                Say::Number(u64::from(*first)),
                Say::Text(if *first < 128 {
                    b" begins no token"
                } else {
                    b" of UTF-8 is no ASCII"
                }),
            ],
            &[Say::Text(b"texts are ASCII, comments too")],
        ),
        [] => known(alloc, at, b"a term is wanted before the end", b""),
    }
}
