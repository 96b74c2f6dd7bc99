// A file with a bit that was turned, or with lines that stand elsewhere.

use crate::log::cut::{OPENING, TEXT};
use crate::sums::file_of;
use kl1_log::{Found, recover};
use std::alloc::{AllocError, Global};

/// Whether bytes are told to be at fault at a line, after the lines before it.
fn is_told(alloc: Global, bytes: &[u8], wanted: usize) -> Result<bool, AllocError> {
    let (line, before) = match recover(alloc, bytes)? {
        Found::Whole { .. } => return Ok(false),
        Found::Fault { line, before } => (line, before),
        Found::Unopened => return Ok(wanted <= OPENING),
    };
    let lines = before.text_lines(alloc)?;
    Ok(line == wanted as u64 && line == lines.len() as u64 + 1)
}

/// Turns each bit of a file, of its line feeds too.
pub(crate) fn turned_bit_is_told_with_its_line(alloc: Global) -> Result<bool, AllocError> {
    let file = file_of(alloc, TEXT)?;
    let mut line = 1usize;
    for place in 0..file.len() {
        for bit in 0..8u32 {
            let mut turned = Vec::from_slice(alloc, file.as_slice())?;
            if let Some(byte) = turned.get_mut(place) {
                *byte ^= 1 << bit;
            }
            if !is_told(alloc, turned.as_slice(), line)? {
                return Ok(false);
            }
        }
        if file.get(place) == Some(&b'\n') {
            line = line.saturating_add(1);
        }
    }
    Ok(true)
}

/// The lines of a file, each with its line feed.
fn lines_in(alloc: Global, file: &[u8]) -> Result<Vec<&[u8]>, AllocError> {
    let mut lines = Vec::new(alloc);
    for line in file.split_inclusive(|byte| *byte == b'\n') {
        lines.push(line)?;
    }
    Ok(lines)
}

/// Lines, one after the other.
fn joined(alloc: Global, lines: &[&[u8]]) -> Result<Vec<u8>, AllocError> {
    let mut file = Vec::new(alloc);
    for line in lines {
        file.extend_from_slice(line)?;
    }
    Ok(file)
}

/// Exchanges each two lines of a file, and leaves out each but the last.
pub(crate) fn moved_line_is_told(alloc: Global) -> Result<bool, AllocError> {
    let file = file_of(alloc, TEXT)?;
    let lines = lines_in(alloc, file.as_slice())?;
    for first in 0..lines.len() {
        for second in first + 1..lines.len() {
            let mut moved = lines_in(alloc, file.as_slice())?;
            if second < moved.len() {
                moved.as_mut_slice().swap(first, second);
            }
            if !is_told(
                alloc,
                joined(alloc, moved.as_slice())?.as_slice(),
                first + 1,
            )? {
                return Ok(false);
            }
        }
        let mut fewer = lines_in(alloc, file.as_slice())?;
        if first < fewer.len() {
            let _left_out = fewer.remove(first);
        }
        if first + 1 < lines.len()
            && !is_told(
                alloc,
                joined(alloc, fewer.as_slice())?.as_slice(),
                first + 1,
            )?
        {
            return Ok(false);
        }
    }
    Ok(true)
}
