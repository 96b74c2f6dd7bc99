// How many bytes at the front of a text belong together.

ghost use Rattle.std.specs.Prelude.{◌<◌, ◌≤◌, length, IfSome};

use crate::cut::is_blank;
use kl1_model::Sign;

/// A class of bytes.
#[derive(Clone, Copy)]
pub(crate) enum Class {
    /// Letters, digits and `_`.
    Word,
    /// Digits.
    Digit,
    /// What a comment may hold.
    Comment,
    /// All but the end of a line.
    Line,
}

/// The signs, each before those that it begins with, and those first that stand most often.
const SIGNS: [(&[u8], Sign); 21] = [
    (b",", Sign::Comma),
    (b"(", Sign::Open),
    (b")", Sign::Close),
    (b"[", Sign::OpenList),
    (b"]", Sign::CloseList),
    (b"|", Sign::Bar),
    (b":-", Sign::Neck),
    (b":=", Sign::Becomes),
    (b"=:=", Sign::SameValue),
    (b"=\\=", Sign::OtherValue),
    (b"=<", Sign::NotOver),
    (b"\\=", Sign::Differs),
    (b">=", Sign::NotUnder),
    (b":", Sign::Colon),
    (b"=", Sign::Equals),
    (b"<", Sign::Under),
    (b">", Sign::Over),
    (b"+", Sign::Plus),
    (b"*", Sign::Star),
    (b"/", Sign::Slash),
    (b"@", Sign::At),
];

/// Whether a byte is one of a class.
fn is_in(class: Class, byte: u8) -> bool {
    match class {
        Class::Word => byte == b'_' || byte.is_ascii_alphanumeric(),
        Class::Digit => byte.is_ascii_digit(),
        Class::Comment => byte != b'\n' && (is_blank(byte) || byte.is_ascii_graphic()),
        Class::Line => byte != b'\n',
    }
}

/// How many bytes there are in front: the first, and those of a class after it.
pub(crate) fn span(class: Class, bytes: &[u8]) -> usize
    requires { 0 < length bytes.now }
    ensures some { 0 < result }
    ensures within { result ≤ length bytes.now }
{
    let mut count = 1;
    while count < bytes.len() && is_in(class, bytes[count]) {
        count += 1;
    }
    count
}

/// How many bytes the quotes in front have with the name in them, if they are closed on their line.
pub(crate) fn quoted_span(bytes: &[u8]) -> Option<usize>
    requires { 0 < length bytes.now }
    ensures some { IfSome result (λ count. 0 < count) }
    ensures within { IfSome result (λ count. count ≤ length bytes.now) }
{
    let mut count = 1;
    let mut is_open = true;
    while count < bytes.len() {
        let byte = bytes[count];
        if byte == b'\'' {
            is_open = !is_open;
        } else if !is_open {
            return Some(count);
        } else if byte == b'\n' {
            return None;
        }
        count += 1;
    }
    if is_open { None } else { Some(count) }
}

/// The longest sign in front, with how many bytes it has.
pub(crate) fn sign_in_front(bytes: &[u8]) -> Option<(Sign, usize)>
    ensures some { IfSome result (λ found. 0 < found.1) }
    ensures within { IfSome result (λ found. found.1 ≤ length bytes.now) }
{
    for (spelling, sign) in &SIGNS {
        if bytes.starts_with(spelling) && !spelling.is_empty() {
            return Some((*sign, spelling.len()));
        }
    }
    None
}
