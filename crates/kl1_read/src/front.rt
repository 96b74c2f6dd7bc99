// What stands in front of a text.

ghost use Rattle.std.specs.Prelude.{◌≡◌, ◌∷◌, [], false, length, drop, IsTrue};
ghost use Rattle.kl1_model.specs.declared.limits.TheConstants.{MOST_VARIABLE_BYTES};
ghost use Rattle.kl1_model.specs.Text.{is_name_byte};
ghost use Rattle.kl1_model.specs.Token.{front_of, word_of, behind_word, bounded, variable_token, name_front, digits_front, digits_of, behind_digits, behind_comment, dot_front, sign_at};
ghost use Rattle.kl1_model.specs.code.Fronts.{sign_front, quoted_from};
ghost use Rattle.kl1_model.specs.Token as model;
ghost use Rattle.kl1_model.specs.laws.ReadLaws.{LeavesLess};
ghost use Rattle.kl1_model.proofs.LexStarts.{start_of, front_by};
ghost use Rattle.kl1_read.specs.Views.{front_view};

use crate::bytes::{
    is_blank, is_digit, is_digit_next, is_open_next, is_small_letter, is_variable_start,
};
use crate::quotes::quoted;
use crate::signs::{sign_at, spelling_of};
use crate::spelled::Spelled;
use crate::words::{behind_comment, behind_digits, behind_word, digits_of, word_of};
use kl1_model::limits::{MOST_VARIABLE_BYTES, NUMBER_LIMIT};
use kl1_text::{AtomText, decimal_up_to};

/// What stands in front of a text, with what is after it.
pub enum Front<'a> {
    /// The text is at its end.
    Finished,
    /// A byte or more that are no token.
    Broken,
    /// The end of a line.
    LineEnd(&'a [u8]),
    /// Another blank, or a comment.
    Blank(&'a [u8]),
    /// A token.
    Token(Spelled, &'a [u8]),
}

/// What stands in front of a text.
pub fn front_of(bytes: &[u8]) -> Front<'_>
    ensures value { front_view result ≡ front_of bytes.now }
    ensures less { LeavesLess (length bytes.now) (front_view result) }
{
    begun_front(bytes)
}

/// What stands in front of a text.
fn begun_front(bytes: &[u8]) -> Front<'_>
    ensures { front_view result ≡ front_of bytes.now }
{
    match bytes {
        [] => Front::Finished,
        [first, rest @ ..] => first_front(*first, bytes, rest),
    }
}

/// What stands in front of a text that begins with `first`.
fn first_front<'a>(first: u8, bytes: &'a [u8], rest: &'a [u8]) -> Front<'a>
    requires begins { bytes.now ≡ first ∷ rest.now }
    ensures { front_view result ≡ front_by (start_of first) first rest.now }
{
    if first == b'\n' {
        Front::LineEnd(rest)
    } else if is_blank(first) {
        Front::Blank(rest)
    } else if first == b'%' {
        match behind_comment(rest) {
            None => Front::Broken,
            Some(behind) => Front::Blank(behind),
        }
    } else if is_small_letter(first) {
        name_front(first, bytes, rest)
    } else if is_variable_start(first) {
        variable_front(first, bytes, rest)
    } else if is_digit(first) {
        digits_front(first, bytes, rest)
    } else if first == b'\'' {
        match quoted(rest) {
            None => Front::Broken,
            Some((text, behind)) => {
                Front::Token(Spelled::Name(text, true, is_open_next(behind)), behind)
            }
        }
    } else if first == b'.' {
        dot_front(rest)
    } else if first == b'-' {
        Front::Token(Spelled::Minus(is_digit_next(rest)), rest)
    } else {
        sign_front(bytes)
    }
}

/// A name without quotes, in a text that begins with `first`.
fn name_front<'a>(first: u8, bytes: &'a [u8], rest: &'a [u8]) -> Front<'a>
    requires begins { bytes.now ≡ first ∷ rest.now }
    requires name { IsTrue (is_name_byte first) }
    ensures { front_view result ≡ name_front false (first ∷ word_of rest.now) (behind_word rest.now) }
{
    let behind = behind_word(rest);
    match AtomText::read(word_of(first, bytes, rest)) {
        None => Front::Broken,
        Some(text) => Front::Token(Spelled::Name(text, false, is_open_next(behind)), behind),
    }
}

/// A variable, in a text that begins with `first`.
fn variable_front<'a>(first: u8, bytes: &'a [u8], rest: &'a [u8]) -> Front<'a>
    requires begins { bytes.now ≡ first ∷ rest.now }
    requires name { IsTrue (is_name_byte first) }
    ensures { front_view result ≡ bounded MOST_VARIABLE_BYTES (first ∷ word_of rest.now) (variable_token (first ∷ word_of rest.now)) (behind_word rest.now) }
{
    let behind = behind_word(rest);
    let word = word_of(first, bytes, rest);
    if word.len() > MOST_VARIABLE_BYTES {
        return Front::Broken;
    }
    Front::Token(Spelled::Variable(AtomText::of(word)), behind)
}

/// Digits, in a text that begins with `first`.
fn digits_front<'a>(first: u8, bytes: &'a [u8], rest: &'a [u8]) -> Front<'a>
    requires begins { bytes.now ≡ first ∷ rest.now }
    ensures { front_view result ≡ digits_front (model.number_of (first ∷ digits_of rest.now)) (behind_digits rest.now) }
{
    let behind = behind_digits(rest);
    match decimal_up_to(NUMBER_LIMIT, digits_of(first, bytes, rest)) {
        None => Front::Broken,
        Some(number) => Front::Token(Spelled::Digits(number), behind),
    }
}

/// A dot, which ends an item before a blank, a comment or the end of the text.
fn dot_front(rest: &[u8]) -> Front<'_>
    ensures { front_view result ≡ dot_front rest.now }
{
    match rest {
        [] => Front::Token(Spelled::End, rest),
        [first, _others @ ..] => {
            if is_blank(*first) || *first == b'%' {
                Front::Token(Spelled::End, rest)
            } else {
                Front::Broken
            }
        }
    }
}

/// A sign.
fn sign_front(bytes: &[u8]) -> Front<'_>
    ensures { front_view result ≡ sign_front (sign_at bytes.now) bytes.now }
{
    match sign_at(bytes) {
        None => Front::Broken,
        Some(sign) => Front::Token(Spelled::Sign(sign), behind(bytes, spelling_of(sign).len())),
    }
}

/// What is after the first `count` bytes.
fn behind(bytes: &[u8], count: usize) -> &[u8]
    ensures { result.now ≡ drop count bytes.now }
{
    if count < bytes.len() {
        &bytes[count..]
    } else {
        &[]
    }
}
