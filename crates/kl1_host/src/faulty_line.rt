// Why a line of a journal's file is at fault.

use crate::repair::bytes_before;
use kl1_journal_entries::next_line;
use kl1_sums::plain_text;
use std::alloc::{AllocError, Global};

/// What is wrong with a line.
#[derive(Clone, Copy)]
pub enum LineFault {
    /// It isn't what was written there, or doesn't follow the line before it.
    OtherSum,
    /// It has its sum, and another byte in the place of its line feed.
    NoFeed,
    /// It is none of a journal.
    NoEntry,
}

impl LineFault {
    /// What is told of it.
    pub fn words(self) -> &'static str {
        match self {
            LineFault::OtherSum => "another sum",
            LineFault::NoFeed => "no line feed",
            LineFault::NoEntry => "no entry of a journal",
        }
    }
}

/// How many bytes the line of this number has, the first being 1; `None` if there is no such line that ends with a line feed.
fn length_of(text: &[u8], line: u64) -> Option<usize> {
    let (found, _) = next_line(&text[bytes_before(text, line)..])?;
    Some(found.len())
}

/// Why a line of the file of a journal, the first being 1, is at fault: in the plain text one that hasn't its sum has no bytes.
pub fn fault_in(alloc: Global, text: &[u8], line: u64) -> Result<LineFault, AllocError> {
    let plain = plain_text(alloc, text)?;
    Ok(
        match (length_of(text, line), length_of(plain.as_slice(), line)) {
            (None, _) => LineFault::NoFeed,
            (Some(length), Some(0)) if length > 0 => LineFault::OtherSum,
            _ => LineFault::NoEntry,
        },
    )
}
