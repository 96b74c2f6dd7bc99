// Tokens of an item, whatever its bytes are.

use crate::cut::dropped;
use crate::place::taken;
use kl1_model::Sign;

/// What a token is.
#[derive(Clone, Copy)]
pub enum Kind {
    /// A name without quotes.
    Name,
    /// A name in quotes.
    Quoted,
    /// A variable.
    Variable,
    /// Digits.
    Number,
    /// `-`
    Minus,
    /// A sign.
    Sign(Sign),
    /// A dot that ends an item.
    End,
    /// Bytes with which no token begins: one, or quotes that are open at the end of their line.
    Alien,
}

/// A token: what it is, and how many bytes of the text stand before it and before what is after it.
#[derive(Clone, Copy)]
pub struct Token {
    pub kind: Kind,
    pub start: usize,
    pub end: usize,
}

impl Token {
    /// Whether this is a sign.
    pub fn is(&self, sign: Sign) -> bool {
        match self.kind {
            Kind::Sign(own) => own == sign,
            _ => false,
        }
    }

    /// Whether this is a name, in quotes or not.
    pub fn is_name(&self) -> bool {
        matches!(self.kind, Kind::Name | Kind::Quoted)
    }

    /// Whether this is a sign but no bracket and no comma.
    pub fn is_operator(&self) -> bool {
        match self.kind {
            Kind::Minus => true,
            Kind::Sign(sign) => !matches!(
                sign,
                Sign::Open | Sign::Close | Sign::OpenList | Sign::CloseList | Sign::Comma
            ),
            _ => false,
        }
    }

    /// Whether another token begins where this one ends.
    pub fn touches(&self, next: &Token) -> bool {
        self.end == next.start
    }

    /// The bytes of the token.
    pub fn bytes<'t>(&self, text: &'t [u8]) -> &'t [u8] {
        dropped(taken(text, self.end), self.start)
    }

    /// The name that the token is, without its quotes.
    pub fn name<'t>(&self, text: &'t [u8]) -> &'t [u8] {
        match self.kind {
            Kind::Quoted => dropped(
                taken(text, self.end.saturating_sub(1)),
                self.start.saturating_add(1),
            ),
            _ => self.bytes(text),
        }
    }
}
