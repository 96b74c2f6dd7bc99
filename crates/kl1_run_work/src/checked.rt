// Sources by themselves: which of them are no modules.

use crate::faults::put_fault;
use crate::source_file::SourceFile;
use kl1_model::limits::MOST_SOURCE_BYTES;
use kl1_read::{ReadFault, read_module};
use kl1_user_events::Refusal;
use std::alloc::{AllocError, Global};

/// Why a text by itself is no module: each account refuses to load it for this reason.
pub fn fault_in(alloc: Global, text: &[u8]) -> Result<Option<Refusal>, AllocError> {
    if text.len() > MOST_SOURCE_BYTES {
        return Ok(Some(Refusal::Syntax));
    }
    match read_module(alloc, text) {
        Ok(_module) => Ok(None),
        Err(ReadFault::Bad { line }) => Ok(Some(Refusal::Source { line })),
        Err(ReadFault::Memory) => Err(AllocError),
    }
}

/// Puts a line for each file whose text by itself is no module after the bytes. After an `Err` some of them may be there.
pub fn put_checked(
    alloc: Global,
    files: &[SourceFile],
    out: &mut Vec<u8>,
) -> Result<(), AllocError> {
    for file in files {
        if let Some(refusal) = fault_in(alloc, file.text.as_slice())? {
            put_fault(out, file.name.as_slice(), refusal)?;
        }
    }
    Ok(())
}
