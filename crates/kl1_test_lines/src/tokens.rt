// Tokens in texts of tests.

use kl1_read::{Front, Spelled, front_of};

/// The first token of a text, with its bytes and those after it.
#[derive(Clone, Copy)]
pub(crate) struct Cut<'a> {
    pub(crate) token: Spelled,
    pub(crate) bytes: &'a [u8],
    pub(crate) behind: &'a [u8],
}

/// The bytes of a text before those with which it ends.
fn front_before<'a>(text: &'a [u8], behind: &[u8]) -> &'a [u8] {
    if behind.len() <= text.len() {
        &text[..text.len() - behind.len()]
    } else {
        text
    }
}

/// The first token of a text, if there is one.
pub(crate) fn first_token(text: &[u8]) -> Option<Cut<'_>> {
    let mut rest = text;
    // Each round takes a byte at least.
    for _ in text {
        match front_of(rest) {
            Front::Finished => return None,
            Front::Broken => return None,
            Front::LineEnd(behind) => rest = behind,
            Front::Blank(behind) => rest = behind,
            Front::Token(token, behind) => {
                return Some(Cut {
                    token,
                    bytes: front_before(rest, behind),
                    behind,
                });
            }
        }
    }
    None
}

/// Whether a text has no token at all: nothing but blanks and comments.
pub(crate) fn is_blank_text(text: &[u8]) -> bool {
    let mut rest = text;
    for _ in text {
        match front_of(rest) {
            Front::Finished => return true,
            Front::Broken => return false,
            Front::Token(_token, _behind) => return false,
            Front::LineEnd(behind) => rest = behind,
            Front::Blank(behind) => rest = behind,
        }
    }
    rest.is_empty()
}

/// Whether a byte is a space, a tab, a line feed or a carriage return.
fn is_blank(byte: u8) -> bool {
    byte == b' ' || byte == b'\t' || byte == b'\n' || byte == b'\r'
}

/// The bytes after the blanks in front of them.
pub(crate) fn behind_blanks(text: &[u8]) -> &[u8] {
    let mut kept = text;
    while let [first, others @ ..] = kept {
        if !is_blank(*first) {
            return kept;
        }
        kept = others;
    }
    kept
}

/// The bytes without the blanks at their end.
fn without_last_blanks(text: &[u8]) -> &[u8] {
    let mut kept = text;
    while let [others @ .., last] = kept {
        if !is_blank(*last) {
            return kept;
        }
        kept = others;
    }
    kept
}

/// The bytes without the blanks at both ends.
pub(crate) fn without_blanks(text: &[u8]) -> &[u8] {
    without_last_blanks(behind_blanks(text))
}
