// A journal that is cut.

use crate::sums::file_of;
use kl1_log::{Found, recover};
use std::alloc::{AllocError, Global};

/// A journal's text: a heading, two names, and entries of each kind that needs no goal.
pub(crate) const TEXT: &[u8] =
    b"journal 4 0 2\nname f\nname 'a b'\nload 3a2d\nrun 12\nrun 8\nreduce 2 1\nstop 1\nresume 1\nallow 1 5\nabort 1\n";

/// How many lines its heading and its names are.
pub(crate) const OPENING: usize = 3;

/// How many line feeds there are in bytes, and how many bytes there are up to the last of them.
pub(crate) fn counted(bytes: &[u8]) -> (usize, usize) {
    let mut feeds = 0usize;
    let mut upto = 0usize;
    for (place, byte) in bytes.iter().enumerate() {
        if *byte == b'\n' {
            feeds = feeds.saturating_add(1);
            upto = place.saturating_add(1);
        }
    }
    (feeds, upto)
}

/// Whether of bytes their whole lines are found, if the heading and the names are among them.
fn is_found(alloc: Global, bytes: &[u8]) -> Result<bool, AllocError> {
    let (feeds, upto) = counted(bytes);
    match recover(alloc, bytes)? {
        Found::Whole { journal, bytes } => {
            let lines = journal.text_lines(alloc)?;
            Ok(feeds >= OPENING && lines.len() == feeds && bytes == upto)
        }
        Found::Fault { .. } => Ok(false),
        Found::Unopened => Ok(feeds < OPENING),
    }
}

/// Whether of each front of these bytes the whole lines are found.
fn are_found(alloc: Global, bytes: &[u8]) -> Result<bool, AllocError> {
    for count in 0..bytes.len() + 1 {
        if !is_found(alloc, &bytes[..count])? {
            return Ok(false);
        }
    }
    Ok(true)
}

/// Cuts a journal and a file with sums at each byte.
pub(crate) fn cut_at_each_byte_leaves_the_whole_lines(alloc: Global) -> Result<bool, AllocError> {
    let file = file_of(alloc, TEXT)?;
    Ok(are_found(alloc, TEXT)? && are_found(alloc, file.as_slice())?)
}
