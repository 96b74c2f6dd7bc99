// Files in a folder of the system.

use crate::log::cut::{OPENING, TEXT, counted};
use crate::sums::{file_of, text_in};
use kl1_log::{Batch, Change, Disk, FolderFile, Found, LogError, LogFile, restore};
use std::alloc::Global;
use std::os::unix::fs::symlink;
use std::rt::Files;
use std::time::Clock;
use std::{fs, io};

/// What is written after the lines that were restored.
const ENTRY: &[u8] = b"run 3\n";

/// What a file is begun anew with.
const HEADING: &[u8] = b"journal 4 0 0\n";

/// A batch that comes first.
fn first_batch(change: Change) -> Batch {
    Batch {
        account: 7,
        taken: 0,
        noted: 1,
        change,
    }
}

/// Whether the journal in the file `cut.journal` has the text of a file of these bytes, and then this one.
fn has_text<R: Files + Clock>(
    rt: &R,
    alloc: Global,
    front: &[u8],
    last: &[u8],
) -> io::Result<bool> {
    let mut wanted = text_in(alloc, Vec::from_slice(alloc, front)?)?;
    wanted.extend_from_slice(last)?;
    let mut disk = FolderFile::open(rt, alloc, ".", "cut")?;
    let text = text_in(alloc, disk.read(alloc)?)?;
    Ok(text.as_slice() == wanted.as_slice())
}

/// Whether a file of these bytes is restored to its whole lines, and goes on; or is begun anew if its opening isn't whole.
fn is_restored<R: Files + Clock>(rt: &R, alloc: Global, bytes: &[u8]) -> io::Result<bool> {
    fs::write(rt, "cut.journal", bytes)?;
    let mut disk = FolderFile::open(rt, alloc, ".", "cut")?;
    let found = restore(alloc, &mut disk)?;
    let (feeds, upto) = counted(bytes);
    let (front, last, change) = match found {
        Found::Whole { bytes: whole, .. } if whole == upto => {
            let entry = Vec::from_slice(alloc, ENTRY)?;
            (
                bytes.get(..whole).unwrap_or(bytes),
                ENTRY,
                Change::Appends(entry),
            )
        }
        Found::Unopened if feeds < OPENING => {
            let heading = Vec::from_slice(alloc, HEADING)?;
            (&bytes[..0], HEADING, Change::Begins(heading))
        }
        _ => return Ok(false),
    };
    let mut file = LogFile::new(disk, 7);
    if file.write(&first_batch(change)).is_err() {
        return Ok(false);
    }
    has_text(rt, alloc, front, last)
}

/// Cuts a file at each of its bytes.
pub(crate) fn file_cut_at_each_byte_goes_on<R: Files + Clock>(
    rt: &R,
    alloc: Global,
) -> io::Result<bool> {
    let file = file_of(alloc, TEXT)?;
    for count in 0..file.len() + 1 {
        if !is_restored(rt, alloc, &file[..count])? {
            return Ok(false);
        }
    }
    Ok(true)
}

/// Whether a file fails when it is changed, and then gets nothing more.
fn is_stopped<R: Files + Clock>(
    rt: &R,
    alloc: Global,
    folder: &str,
    name: &str,
    begins: bool,
) -> io::Result<bool> {
    let mut file = LogFile::new(FolderFile::open(rt, alloc, folder, name)?, 7);
    let bytes = Vec::from_slice(alloc, HEADING)?;
    let change = if begins {
        Change::Begins(bytes)
    } else {
        Change::Appends(bytes)
    };
    let has_failed = matches!(file.write(&first_batch(change)), Err(LogError::Failed(_)));
    let more = Change::Appends(Vec::from_slice(alloc, ENTRY)?);
    let is_stopped = matches!(file.write(&first_batch(more)), Err(LogError::Stopped));
    Ok(has_failed && is_stopped)
}

/// Writes to a file that takes nothing but a number: it can be read to its end, as a device that is full can't.
pub(crate) fn refused_bytes_stop_a_file<R: Files + Clock>(
    rt: &R,
    alloc: Global,
) -> io::Result<bool> {
    let _gone = fs::remove_file(rt, "number.journal");
    symlink(rt, "/proc/self/oom_score_adj", "number.journal")?;
    is_stopped(rt, alloc, ".", "number", false)
}

/// Writes to a folder in which no file can be made.
pub(crate) fn folder_without_files_stops_a_file<R: Files + Clock>(
    rt: &R,
    alloc: Global,
) -> io::Result<bool> {
    is_stopped(rt, alloc, "/proc", "none", true)
}

/// Opens a file in a folder that isn't there.
pub(crate) fn missing_folder_is_told<R: Files + Clock>(rt: &R, alloc: Global) -> io::Result<bool> {
    Ok(FolderFile::open(rt, alloc, "no_folder", "none").is_err())
}
