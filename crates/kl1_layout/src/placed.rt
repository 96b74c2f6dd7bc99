// What stands before each piece of an item on one line.

use crate::piece::{Kind, Piece};
use crate::spacing::is_blank_between;
use kl1_model::Sign;
use kl1_read::Spelled;
use std::alloc::{AllocError, Global};

/// The blanks before a line of a body.
pub(crate) const INDENT: usize = 4;

/// The blanks before a line that begins inside a goal.
const DEEP_INDENT: usize = 8;

/// What stands before a piece.
#[derive(Clone, Copy)]
pub(crate) enum Gap {
    /// Nothing.
    Nothing,
    /// A blank.
    Blank,
    /// The end of a line, and this number of blanks.
    Line(usize),
}

/// What a piece is the first of.
#[derive(Clone, Copy)]
pub(crate) enum Spot {
    /// Of nothing.
    Inside,
    /// Of what stands after `:-`.
    Neck,
    /// Of what stands after a bar outside of brackets.
    Bar,
    /// Of what stands after a comma outside of brackets.
    Comma,
}

/// The place of a piece.
#[derive(Clone, Copy)]
pub(crate) struct Place {
    pub(crate) gap: Gap,
    pub(crate) spot: Spot,
}

/// What was read of an item so far.
#[derive(Drop)]
struct Walk {
    /// For each open bracket whether operators in it stand without blanks.
    open: Vec<bool>,
    /// The last token.
    last: Option<Spelled>,
    /// What the next token is the first of.
    spot: Spot,
    /// Whether a comment stands after the last token.
    is_behind_comment: bool,
}

impl Walk {
    /// Whether operators stand without blanks in the innermost bracket that is open.
    fn is_tight(&self) -> bool {
        match self.open.as_slice() {
            [] => false,
            [_others @ .., tight] => *tight,
        }
    }

    /// What stands before this token.
    fn gap_before(&self, token: &Spelled) -> Gap {
        let Some(last) = &self.last else {
            return Gap::Nothing;
        };
        if self.is_behind_comment {
            return match self.spot {
                Spot::Inside => Gap::Line(DEEP_INDENT),
                _ => Gap::Line(INDENT),
            };
        }
        if is_blank_between(last, token, self.open.is_empty(), self.is_tight()) {
            Gap::Blank
        } else {
            Gap::Nothing
        }
    }

    /// Whether the last token is a name with a `(` directly after it.
    fn is_behind_call(&self) -> bool {
        match &self.last {
            Some(Spelled::Name(_text, _quotes, applied)) => *applied,
            _ => false,
        }
    }

    /// Reads one token more.
    fn read(&mut self, token: Spelled) -> Result<(), AllocError> {
        match token {
            Spelled::Sign(Sign::Open) => {
                let is_call = self.is_behind_call();
                self.open.push(is_call)?;
            }
            Spelled::Sign(Sign::OpenList) => self.open.push(true)?,
            Spelled::Sign(Sign::Close) | Spelled::Sign(Sign::CloseList) => {
                let _bracket = self.open.pop();
            }
            _ => {}
        }
        self.spot = self.spot_behind(&token);
        self.last = Some(token);
        self.is_behind_comment = false;
        Ok(())
    }

    /// What the token after this one is the first of.
    fn spot_behind(&self, token: &Spelled) -> Spot {
        if !self.open.is_empty() || self.last.is_none() {
            return Spot::Inside;
        }
        match token {
            Spelled::Sign(Sign::Neck) => Spot::Neck,
            Spelled::Sign(Sign::Bar) => Spot::Bar,
            Spelled::Sign(Sign::Comma) => Spot::Comma,
            _ => Spot::Inside,
        }
    }

    /// The place of the next piece, which is read.
    fn place_next(&mut self, kind: &Kind) -> Result<Place, AllocError> {
        match kind {
            Kind::Token(token) => {
                let place = Place {
                    gap: self.gap_before(token),
                    spot: self.spot,
                };
                self.read(*token)?;
                Ok(place)
            }
            Kind::Comment(alone) => {
                self.is_behind_comment = true;
                Ok(Place {
                    gap: if *alone {
                        Gap::Line(INDENT)
                    } else {
                        Gap::Blank
                    },
                    spot: Spot::Inside,
                })
            }
        }
    }
}

/// The places of the pieces of an item if it has one line, but for its comments.
pub(crate) fn places_of(alloc: Global, item: &[Piece]) -> Result<Vec<Place>, AllocError> {
    let mut walk = Walk {
        open: Vec::new(alloc),
        last: None,
        spot: Spot::Inside,
        is_behind_comment: false,
    };
    let mut places = Vec::new(alloc);
    for piece in item {
        let place = walk.place_next(&piece.kind)?;
        places.push(place)?;
    }
    Ok(places)
}
