// A file in memory that fails.

use crate::sums::file_of;
use kl1_log::{Batch, Change, Found, LogFile, Memory, recover};
use std::alloc::{AllocError, Global};

/// What is written, one after the other, and whether it begins the file anew.
const CHANGES: &[(bool, &[u8])] = &[
    (true, b"journal 4 0 0\n"),
    (false, b"run 3\n"),
    (true, b"journal 4 0 1\nname g\n"),
    (false, b"run 5\n"),
];

/// The most that the changes cost.
const MOST: usize = 170;

/// No change has more bytes.
const MOST_BYTES: usize = 56;

/// A file after the first `count` changes.
fn file_after(alloc: Global, count: usize) -> Result<Vec<u8>, AllocError> {
    let mut text = Vec::new(alloc);
    for (begins, bytes) in CHANGES.iter().take(count) {
        if *begins {
            text.clear();
        }
        text.extend_from_slice(bytes)?;
    }
    file_of(alloc, text.as_slice())
}

/// How many changes a file of this cost acknowledges, and the file.
fn written(alloc: Global, left: usize) -> Result<(usize, LogFile<Memory>), AllocError> {
    let mut file = LogFile::new(Memory::new(alloc, Vec::new(alloc), left), 7);
    let mut done = 0usize;
    for (begins, bytes) in CHANGES {
        let bytes = Vec::from_slice(alloc, bytes)?;
        let change = if *begins {
            Change::Begins(bytes)
        } else {
            Change::Appends(bytes)
        };
        let batch = Batch {
            account: 7,
            taken: done as u64,
            noted: (done as u64).saturating_add(1),
            change,
        };
        if file.write(&batch).is_ok() {
            done = done.saturating_add(1);
        }
    }
    Ok((done, file))
}

/// Whether what a crash left is a front of the file after one change more than were acknowledged, and has all of those.
fn is_kept(alloc: Global, left: &[u8], done: usize) -> Result<bool, AllocError> {
    let acknowledged = file_after(alloc, done)?;
    let next = file_after(alloc, done.saturating_add(1))?;
    let longer = next.as_slice().starts_with(left) && left.len() >= acknowledged.len();
    if left != acknowledged.as_slice() && left != next.as_slice() && !longer {
        return Ok(false);
    }
    match recover(alloc, left)? {
        Found::Whole { bytes, .. } => Ok(bytes >= acknowledged.len() || left == next.as_slice()),
        Found::Fault { .. } => Ok(false),
        Found::Unopened => Ok(done == 0 && left.is_empty()),
    }
}

/// Whether a crash of a file loses nothing that was acknowledged.
fn is_crash_safe(
    alloc: Global,
    file: &LogFile<Memory>,
    pending: usize,
    undone: bool,
    done: usize,
) -> Result<bool, AllocError> {
    match file.disk().left_by_crash(pending, undone)? {
        None => Ok(true),
        Some(bytes) => is_kept(alloc, bytes.as_slice(), done),
    }
}

/// Whether each crash of a file that has done so much loses nothing that was acknowledged.
fn is_safe(alloc: Global, left: usize) -> Result<bool, AllocError> {
    let (done, file) = written(alloc, left)?;
    if !is_crash_safe(alloc, &file, 0, true, done)? {
        return Ok(false);
    }
    for pending in 0..MOST_BYTES {
        if !is_crash_safe(alloc, &file, pending, false, done)? {
            return Ok(false);
        }
    }
    Ok(true)
}

/// Stops a file after each number of calls and bytes.
pub(crate) fn no_acknowledged_line_is_lost(alloc: Global) -> Result<bool, AllocError> {
    for left in 0..MOST {
        if !is_safe(alloc, left)? {
            return Ok(false);
        }
    }
    let (done, _) = written(alloc, MOST)?;
    Ok(done == CHANGES.len())
}
