// What is told of files with sources.

ghost use Rattle.std.specs.Prelude.{◌≡◌, IfOk};
ghost use Rattle.kl1_reasons.specs.Refused.{is_refused};
ghost use Rattle.kl1_reasons.specs.Told.{PutsReasons};

use crate::lines::put_each;
use crate::modules::{MOST_REASONS, reasons_of};
use crate::predicates::predicates_of;
use crate::warnings::warnings_of;
use std::alloc::{AllocError, Global};

/// A source, and the name of the file in which it stands.
#[derive(Clone, Copy)]
pub struct NamedText<'a> {
    pub name: &'a [u8],
    pub text: &'a [u8],
}

/// Puts the lines of the reasons why a source is refused after the bytes, and answers whether it is. After an `Err` some of them may
/// be there.
#[tactic(auto, using(crate::proofs::Refusals::reasons_if_refused))]
pub fn put_reasons(
    alloc: Global,
    file: NamedText<'_>,
    out: &mut Vec<u8>,
) -> Result<bool, AllocError>
    ensures refused { IfOk result (λ refused. refused ≡ is_refused file.entry.text.now) }
    ensures told { IfOk result (λ refused. PutsReasons file.entry.name.now file.entry.text.now out.old.items out.new.items) }
{
    let reasons = reasons_of(alloc, file.text, MOST_REASONS)?;
    let is_refused = !reasons.is_empty();
    put_each(file.name, b"error", reasons.as_slice(), out)?;
    Ok(is_refused)
}

/// Puts the lines of the warnings of sources that aren't refused after the bytes, and answers whether there are any. After an `Err`
/// some of them may be there.
pub fn put_warnings(
    alloc: Global,
    files: &[NamedText<'_>],
    out: &mut Vec<u8>,
) -> Result<bool, AllocError> {
    let mut modules = Vec::new(alloc);
    for file in files {
        modules.push(predicates_of(alloc, file.text)?)?;
    }
    let before = out.len();
    for (file, own) in files.iter().zip(&modules) {
        let warnings = warnings_of(alloc, file.text, own, modules.as_slice())?;
        put_each(file.name, b"warning", warnings.as_slice(), out)?;
    }
    Ok(before < out.len())
}
