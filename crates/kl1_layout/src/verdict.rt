// What becomes of a file, by its text.

ghost use Rattle.std.specs.Prelude.{IfOk};
ghost use Rattle.kl1_layout.specs.Layouts.{IsLayoutOf};
ghost use Rattle.kl1_layout.specs.Verdicts.{Fits, IsVerdict};

use crate::formatting::format;
use crate::layout_fault::LayoutFault;
use kl1_model::limits::MOST_SOURCE_BYTES;
use std::alloc::{AllocError, Global};

/// What a text is to its layout.
#[derive(Drop)]
pub enum Verdict {
    /// It is laid out.
    LaidOut,
    /// It isn't; this is its layout.
    Differs(Vec<u8>),
    /// It has more bytes than a source may have.
    TooLong,
    /// Its layout has more bytes than a source may have.
    Grows,
    /// A byte on this line, from 1, is no token.
    Broken(u64),
}

/// What a text of at most as many bytes as a source may have is to this layout of it.
#[tactic(auto, using(crate::proofs::Alike::own_layout))]
fn compared(source: &[u8], layout: Vec<u8>) -> Verdict
    requires fits { Fits source.now }
    requires layout { IsLayoutOf source.now layout.items }
    ensures { IsVerdict source.now result }
{
    if layout.as_slice() == source {
        Verdict::LaidOut
    } else if layout.len() > MOST_SOURCE_BYTES {
        Verdict::Grows
    } else {
        Verdict::Differs(layout)
    }
}

/// What a text is to its layout.
pub fn verdict_of(alloc: Global, source: &[u8]) -> Result<Verdict, AllocError>
    ensures { IfOk result (IsVerdict source.now) }
{
    if source.len() > MOST_SOURCE_BYTES {
        return Ok(Verdict::TooLong);
    }
    match format(alloc, source) {
        Ok(layout) => Ok(compared(source, layout)),
        Err(LayoutFault::Broken { line }) => Ok(Verdict::Broken(line)),
        Err(LayoutFault::Memory) => Err(AllocError),
    }
}
