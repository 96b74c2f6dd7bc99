// Words, digits and comments in front of a text.

ghost use Rattle.std.specs.Prelude.{◌≡◌, ◌∷◌, ◌-◌, take, length, IsTrue, option_map};
ghost use Rattle.std.specs.List.{list_all};
ghost use Rattle.kl1_model.specs.Token.{word_of, behind_word, digits_of, behind_digits, behind_comment};
ghost use Rattle.kl1_model.specs.Text.{is_name_byte};

use crate::bytes::{is_digit, is_source_byte, is_word_byte};

/// What is after the word in front.
pub(crate) fn behind_word(bytes: &[u8]) -> &[u8]
    ensures { result.now ≡ behind_word bytes.now }
{
    let mut rest = bytes;
    while let [first, others @ ..] = rest {
        if !is_word_byte(*first) {
            return rest;
        }
        rest = others;
    }
    rest
}

/// What is after the digits in front.
pub(crate) fn behind_digits(bytes: &[u8]) -> &[u8]
    ensures { result.now ≡ behind_digits bytes.now }
{
    let mut rest = bytes;
    while let [first, others @ ..] = rest {
        if !is_digit(*first) {
            return rest;
        }
        rest = others;
    }
    rest
}

/// What is after a comment, from the end of its line.
pub(crate) fn behind_comment(bytes: &[u8]) -> Option<&[u8]>
    ensures { option_map (λ rest. rest.now) result ≡ behind_comment bytes.now }
{
    let mut rest = bytes;
    while let [first, others @ ..] = rest {
        if *first == b'\n' {
            return Some(rest);
        }
        if !is_source_byte(*first) {
            return None;
        }
        rest = others;
    }
    Some(rest)
}

/// The word that begins with `first`, which stands before `rest`.
pub(crate) fn word_of<'a>(first: u8, bytes: &'a [u8], rest: &[u8]) -> &'a [u8]
    requires begins { bytes.now ≡ first ∷ rest.now }
    requires name { IsTrue (is_name_byte first) }
    ensures value { result.now ≡ first ∷ word_of rest.now }
    ensures names { IsTrue (list_all is_name_byte result.now) }
{
    front_part(bytes, behind_word(rest).len())
}

/// The digits that begin with `first`, which stands before `rest`.
pub(crate) fn digits_of<'a>(first: u8, bytes: &'a [u8], rest: &[u8]) -> &'a [u8]
    requires { bytes.now ≡ first ∷ rest.now }
    ensures { result.now ≡ first ∷ digits_of rest.now }
{
    front_part(bytes, behind_digits(rest).len())
}

/// A text without its last `last` bytes.
fn front_part(bytes: &[u8], last: usize) -> &[u8]
    ensures { result.now ≡ take (length bytes.now - last) bytes.now }
{
    if last < bytes.len() {
        &bytes[..bytes.len() - last]
    } else {
        &[]
    }
}
