// A token or a comment, with its bytes.

ghost use Rattle.std.specs.Prelude.{◌≡◌, IsTrue};
ghost use Rattle.kl1_layout.specs.Pieces.{written_as, written_piece};
ghost use Rattle.kl1_read.specs.Views.{spelled_token};

use kl1_read::Spelled;

/// What a piece of a text is.
#[derive(Clone, Copy)]
pub(crate) enum Kind {
    /// A token.
    Token(Spelled),
    /// A comment, and whether it has a line of its own.
    Comment(bool),
}

/// A token or a comment of a text.
#[derive(Drop)]
pub(crate) struct Piece {
    /// What it is.
    pub(crate) kind: Kind,
    /// Its bytes; of a comment those without the blanks at its end.
    pub(crate) bytes: Vec<u8>,
    /// Whether an empty line stands before it.
    pub(crate) is_apart: bool,
}

/// Whether two tokens are the same.
fn is_same_token(one: &Spelled, other: &Spelled) -> bool
    ensures { IsTrue result → spelled_token one.now ≡ spelled_token other.now }
{
    match (one, other) {
        (Spelled::Name(text, quotes, applied), Spelled::Name(text_2, quotes_2, applied_2)) => {
            text.is(text_2) && *quotes == *quotes_2 && *applied == *applied_2
        }
        (Spelled::Variable(text), Spelled::Variable(text_2)) => text.is(text_2),
        (Spelled::Digits(number), Spelled::Digits(number_2)) => *number == *number_2,
        (Spelled::Minus(digit), Spelled::Minus(digit_2)) => *digit == *digit_2,
        (Spelled::Sign(sign), Spelled::Sign(sign_2)) => *sign == *sign_2,
        (Spelled::End, Spelled::End) => true,
        _ => false,
    }
}

/// Whether two pieces of these kinds and bytes are the same.
fn is_same_kind(one: &Kind, other: &Kind, bytes: &[u8], bytes_2: &[u8]) -> bool
    ensures { IsTrue result → written_as one.now bytes.now ≡ written_as other.now bytes_2.now }
{
    match (one, other) {
        (Kind::Token(token), Kind::Token(token_2)) => is_same_token(token, token_2),
        (Kind::Comment(alone), Kind::Comment(alone_2)) => { *alone == *alone_2 && bytes == bytes_2 }
        _ => false,
    }
}

impl Piece {
    /// Whether a piece is the same as another, wherever they stand.
    pub(crate) fn is_same(&self, other: &Piece) -> bool
        ensures { IsTrue result → written_piece self.now ≡ written_piece other.now }
    {
        is_same_kind(
            &self.kind,
            &other.kind,
            self.bytes.as_slice(),
            other.bytes.as_slice(),
        )
    }
}
