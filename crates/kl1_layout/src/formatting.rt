// The layout of a text.

ghost use Rattle.std.specs.Prelude.{◌≡◌, map, Some, IsTrue, IfOk, IfErr};
ghost use Rattle.kl1_layout.specs.Written.{written_of};
ghost use Rattle.kl1_layout.specs.Pieces.{written_piece};
ghost use Rattle.kl1_layout.specs.Layouts.{IsLayoutOf, IsFaultOf};

use crate::laid_out::laid_out;
use crate::layout_fault::LayoutFault;
use crate::piece::Piece;
use crate::pieces::pieces_of;
use crate::same::is_same_row;
use std::alloc::{AllocError, Global};

/// Whether these pieces are what is written in a text.
fn is_written(alloc: Global, pieces: &[Piece], text: &[u8]) -> Result<bool, AllocError>
    ensures { IfOk result (λ is_written. IsTrue is_written → written_of text.now ≡ Some (map written_piece pieces.now)) }
{
    match pieces_of(alloc, text) {
        Ok(now) => Ok(is_same_row(pieces, now.as_slice())),
        Err(LayoutFault::Broken { line: _line }) => Ok(false),
        Err(LayoutFault::Memory) => Err(AllocError),
    }
}

/// A text with what is written in `source`, laid out. `Broken` if a byte of the source is no token.
///
/// What was made is read again and compared; the source itself is answered if anything else is written in it.
pub fn format(alloc: Global, source: &[u8]) -> Result<Vec<u8>, LayoutFault>
    ensures layout { IfOk result (λ text. IsLayoutOf source.now text.items) }
    ensures fault { IfErr result (IsFaultOf source.now) }
{
    let pieces = pieces_of(alloc, source)?;
    let text = laid_out(alloc, pieces.as_slice())?;
    let is_same = is_written(alloc, pieces.as_slice(), text.as_slice())?;
    if is_same {
        return Ok(text);
    }
    let text = Vec::from_slice(alloc, source)?;
    Ok(text)
}
