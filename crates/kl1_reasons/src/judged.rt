// What the reader says of sources.

ghost use Rattle.std.specs.Prelude.{◌≡◌, ◌++◌, OnOk, IfOk};
ghost use Rattle.kl1_reasons.specs.Judged.{IsLineRefused};
ghost use Rattle.kl1_reasons.specs.Reasons.{line_feeds, text_from};

use kl1_read::{ReadFault, read_module};
use kl1_reasons_items::{dropped, taken};
use std::alloc::{AllocError, Global};

/// The line of the first bad item of a source whose front may be given up, if what is left is no module.
pub(crate) fn line_refused(
    alloc: Global,
    text: &[u8],
    front: Option<usize>,
) -> Result<Option<u64>, AllocError>
    ensures { IfOk result (IsLineRefused (text_from text.now front)) }
{
    match front {
        None => refused_in(alloc, text),
        Some(front) => {
            let mut left = Vec::from_slice(alloc, b":- module m.")?;
            put_line_feeds(taken(text, front), &mut left)?;
            left.extend_from_slice(dropped(text, front))?;
            refused_in(alloc, left.as_slice())
        }
    }
}

/// The line of a text's first bad item, if it is no module.
fn refused_in(alloc: Global, text: &[u8]) -> Result<Option<u64>, AllocError>
    ensures { IfOk result (IsLineRefused text.now) }
{
    match read_module(alloc, text) {
        Ok(_module) => Ok(None),
        Err(ReadFault::Bad { line }) => Ok(Some(line)),
        Err(ReadFault::Memory) => Err(AllocError),
    }
}

/// Puts the line feeds among bytes after others.
fn put_line_feeds(bytes: &[u8], out: &mut Vec<u8>) -> Result<(), AllocError>
    ensures { OnOk result (out.new.items ≡ out.old.items ++ line_feeds bytes.now) }
{
    let mut rest = bytes;
    while let [first, others @ ..] = rest {
        if *first == b'\n' {
            out.push(*first)?;
        }
        rest = others;
    }
    Ok(())
}
