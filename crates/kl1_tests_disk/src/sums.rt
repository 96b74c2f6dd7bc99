// The texts of journals, and files in which each of their lines has a sum.

use kl1_sums::{Sum, plain_text, with_sums};
use std::alloc::{AllocError, Global};

/// The file of a journal of this text.
pub(crate) fn file_of(alloc: Global, text: &[u8]) -> Result<Vec<u8>, AllocError> {
    Ok(with_sums(alloc, Sum::none(), text)?.bytes)
}

/// The text of the journal in a file, if each of its lines has its sum; else the bytes of the file.
pub(crate) fn text_in(alloc: Global, file: Vec<u8>) -> Result<Vec<u8>, AllocError> {
    let text = plain_text(alloc, file.as_slice())?;
    if file_of(alloc, text.as_slice())?.as_slice() == file.as_slice() {
        Ok(text)
    } else {
        Ok(file)
    }
}
