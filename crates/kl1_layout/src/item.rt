// An item laid out.

use crate::piece::{Kind, Piece};
use crate::placed::{Gap, INDENT, Place, Spot, places_of};
use std::alloc::{AllocError, Global};

/// The most bytes of a line, its comment left out.
const MOST_COLUMNS: usize = 100;

/// Where lines of an item begin.
#[derive(Clone, Copy)]
struct Breaks {
    neck: bool,
    bar: bool,
    comma: bool,
}

impl Breaks {
    /// Whether a line begins at a place.
    fn has(&self, spot: Spot) -> bool {
        match spot {
            Spot::Inside => false,
            Spot::Neck => self.neck,
            Spot::Bar => self.bar,
            Spot::Comma => self.comma,
        }
    }
}

/// The bytes of pieces on one line, with what stands before each.
fn width_of(pieces: &[Piece], places: &[Place]) -> usize {
    let mut width: usize = 0;
    let mut rest = places;
    for piece in pieces {
        if let [
            Place {
                gap: Gap::Blank,
                ..
            },
            _others @ ..,
        ] = rest
        {
            width = width.saturating_add(1);
        }
        if let [_place, others @ ..] = rest {
            rest = others;
        }
        width = width.saturating_add(piece.bytes.len());
    }
    width
}

/// Whether a comment is among pieces.
fn has_comment(pieces: &[Piece]) -> bool {
    for piece in pieces {
        if let Kind::Comment(_alone) = &piece.kind {
            return true;
        }
    }
    false
}

/// The number of pieces before the body: up to the bar after a guard, or else up to `:-`, or else all.
fn before_body(places: &[Place]) -> usize {
    let mut behind_neck = places.len();
    let mut index: usize = 0;
    for place in places {
        match place.spot {
            Spot::Bar => return index,
            Spot::Neck => behind_neck = index,
            _ => {}
        }
        index = index.saturating_add(1);
    }
    behind_neck
}

/// Puts what stands before a piece after the bytes.
fn put_gap(out: &mut Vec<u8>, gap: Gap) -> Result<(), AllocError> {
    match gap {
        Gap::Nothing => {}
        Gap::Blank => out.push(b' ')?,
        Gap::Line(blanks) => {
            out.push(b'\n')?;
            for _blank in 0..blanks {
                out.push(b' ')?;
            }
        }
    }
    Ok(())
}

/// Puts pieces after the bytes, with these lines.
fn put_pieces(
    out: &mut Vec<u8>,
    pieces: &[Piece],
    places: &[Place],
    breaks: Breaks,
) -> Result<(), AllocError> {
    let mut rest = places;
    for piece in pieces {
        if let [place, others @ ..] = rest {
            let gap = if breaks.has(place.spot) {
                Gap::Line(INDENT)
            } else {
                place.gap
            };
            put_gap(out, gap)?;
            rest = others;
        }
        out.extend_from_slice(piece.bytes.as_slice())?;
    }
    Ok(())
}

/// Puts an item after the bytes: on one line, if it fits there; otherwise its body on a line of its own or, if it doesn't fit
/// there or a comment is in the item, each goal of the body.
pub(crate) fn put_item(alloc: Global, out: &mut Vec<u8>, item: &[Piece]) -> Result<(), AllocError> {
    let places = places_of(alloc, item)?;
    let has_comment = has_comment(item);
    let is_whole = !has_comment && width_of(item, places.as_slice()) <= MOST_COLUMNS;
    let count = if is_whole {
        item.len()
    } else {
        before_body(places.as_slice())
    };
    let count = count.min(item.len()).min(places.len());
    let head = &item[..count];
    let body = &item[count..];
    let head_places = &places.as_slice()[..count];
    let body_places = &places.as_slice()[count..];
    let breaks = Breaks {
        neck: width_of(head, head_places) > MOST_COLUMNS,
        bar: false,
        comma: false,
    };
    put_pieces(out, head, head_places, breaks)?;
    // The blank before the body isn't on its line.
    let is_long = width_of(body, body_places) > MOST_COLUMNS + 1 - INDENT;
    let breaks = Breaks {
        neck: true,
        bar: true,
        comma: has_comment || is_long,
    };
    put_pieces(out, body, body_places, breaks)
}
