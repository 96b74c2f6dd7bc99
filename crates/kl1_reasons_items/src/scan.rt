// How an item is cut into tokens.

ghost use Rattle.std.specs.Prelude.{◌<◌, ◌≤◌, length, All, IfOk};
ghost use Rattle.kl1_reasons_items.specs.Tokens.{IsIn};

use crate::cut::{dropped, ends_before, is_blank};
use crate::item::Item;
use crate::spans::{Class, quoted_span, sign_in_front, span};
use crate::token::{Kind, Token};
use std::alloc::{AllocError, Global};

/// What stands in front of a text: a token, or nothing that is one, and how many bytes it has.
#[derive(Clone, Copy)]
struct Front {
    kind: Option<Kind>,
    count: usize,
}

/// The tokens of an item, its end among them.
pub fn tokens_of(alloc: Global, text: &[u8], item: Item) -> Result<Vec<Token>, AllocError>
    ensures { IfOk result (λ tokens. All (IsIn text.now) tokens.items) }
{
    let mut tokens = Vec::new(alloc);
    let mut at = item.start;
    while at < item.end && at < text.len() {
        let front = front_of(dropped(text, at));
        let end = at + front.count;
        if let Some(kind) = front.kind {
            tokens.push(Token {
                kind,
                start: at,
                end,
            })?;
        }
        at = end;
    }
    Ok(tokens)
}

/// What stands in front of a text.
fn front_of(bytes: &[u8]) -> Front
    requires { 0 < length bytes.now }
    ensures some { 0 < result.count }
    ensures within { result.count ≤ length bytes.now }
{
    let first = bytes[0];
    if is_blank(first) {
        Front {
            kind: None,
            count: 1,
        }
    } else if first == b'%' {
        comment_front(bytes)
    } else if first.is_ascii_lowercase() {
        word_front(Kind::Name, Class::Word, bytes)
    } else if first.is_ascii_uppercase() || first == b'_' {
        word_front(Kind::Variable, Class::Word, bytes)
    } else if first.is_ascii_digit() {
        word_front(Kind::Number, Class::Digit, bytes)
    } else {
        other_front(first, bytes)
    }
}

/// A word or a number.
fn word_front(kind: Kind, class: Class, bytes: &[u8]) -> Front
    requires { 0 < length bytes.now }
    ensures some { 0 < result.count }
    ensures within { result.count ≤ length bytes.now }
{
    Front {
        kind: Some(kind),
        count: span(class, bytes),
    }
}

/// A comment, up to the first byte that no text may hold; or that byte.
fn comment_front(bytes: &[u8]) -> Front
    requires { 0 < length bytes.now }
    ensures some { 0 < result.count }
    ensures within { result.count ≤ length bytes.now }
{
    Front {
        kind: None,
        count: span(Class::Comment, bytes),
    }
}

/// A name in quotes, a dot, a sign, or what is no token.
fn other_front(first: u8, bytes: &[u8]) -> Front
    requires { 0 < length bytes.now }
    ensures some { 0 < result.count }
    ensures within { result.count ≤ length bytes.now }
{
    match first {
        b'\'' => match quoted_span(bytes) {
            Some(count) => Front {
                kind: Some(Kind::Quoted),
                count,
            },
            None => Front {
                kind: Some(Kind::Alien),
                count: span(Class::Line, bytes),
            },
        },
        b'.' => Front {
            kind: Some(if ends_before(dropped(bytes, 1)) {
                Kind::End
            } else {
                Kind::Alien
            }),
            count: 1,
        },
        b'-' => Front {
            kind: Some(Kind::Minus),
            count: 1,
        },
        _ => sign_front(bytes),
    }
}

/// A sign, or what is no token.
fn sign_front(bytes: &[u8]) -> Front
    requires { 0 < length bytes.now }
    ensures some { 0 < result.count }
    ensures within { result.count ≤ length bytes.now }
{
    match sign_in_front(bytes) {
        Some((sign, count)) => Front {
            kind: Some(Kind::Sign(sign)),
            count,
        },
        None => Front {
            kind: Some(Kind::Alien),
            count: 1,
        },
    }
}
