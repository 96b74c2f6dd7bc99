// Files when a host starts.

ghost use Rattle.std.specs.Prelude.{◌≡◌, Some, slice_get};
ghost use Rattle.kl1_host_journals.specs.FreshHistories.{books_of};

use crate::journals::growing::NewAccount;
use crate::journals::shelf::{ENOUGH, FRESH, bytes_on_disk, linked};
use crate::sums::{file_of, text_in};
use kl1_host_journals::{Naming, OpenFault, open_file};
use kl1_log::Memory;
use kl1_model::Rules;
use std::alloc::{AllocError, Global};
use std::marker::Brand;

/// What a file costs that is opened and linked, and is that of its journal: a read, a cut, two reads, an append of no bytes, a sync.
const OPENED_AND_LINKED: usize = 6;

/// A journal's text with a run in two pieces, which no account writes so.
const IN_PIECES: &[u8] = b"journal 4 0 0\nrun 2\nrun 3\n";

/// Opens a file with these bytes, and tells how many lines its journal has, and the line that was repaired, or that is at fault.
fn opened(alloc: Global, bytes: &[u8], repair: bool) -> Result<(usize, u64, u64), AllocError> {
    let disk = Memory::new(alloc, Vec::from_slice(alloc, bytes)?, ENOUGH);
    match open_file(alloc, disk, Rules::Four, repair) {
        Ok(opened) => {
            let lines = opened.journal().text_lines(alloc)?.len();
            Ok((lines, opened.repaired().unwrap_or(0), 0))
        }
        Err(OpenFault::Line(line)) => Ok((0, 0, line)),
        Err(OpenFault::Failed(_)) => Err(AllocError),
    }
}

/// The bytes on the disk of a file with these, once it was opened and linked with the journal of a text, as that of account 3. None if a call
/// of it failed.
fn linked_as<J: Naming>(
    alloc: Global,
    bytes: &[u8],
    text: &[u8],
    left: usize,
    start: NewAccount,
) -> Result<Option<Vec<u8>>, AllocError>
    requires books { books_of start.fresh ≡ J.books 3 }
    requires history { slice_get J.histories 3 ≡ Some start.shown.history }
{
    match linked::<J>(alloc, 3, bytes, text, left, start)? {
        Some((linked, _journal)) => Ok(Some(bytes_on_disk(&linked.file)?)),
        None => Ok(None),
    }
}

/// Like `linked_as`, with a new history.
fn linked_bytes(
    alloc: Global,
    bytes: &[u8],
    text: &[u8],
    left: usize,
) -> Result<Option<Vec<u8>>, AllocError> {
    linked_as::<Brand>(alloc, bytes, text, left, NewAccount::new())
}

/// Whether a file with these bytes has the journal of a text on its disk, once it was linked with that.
fn is_linked(alloc: Global, bytes: &[u8], text: &[u8]) -> Result<bool, AllocError> {
    match linked_bytes(alloc, bytes, text, ENOUGH)? {
        Some(found) => Ok(text_in(alloc, found)?.as_slice() == text),
        None => Ok(false),
    }
}

/// A file without bytes begins an account in which nothing has happened.
pub(crate) fn file_without_bytes_begins_an_account(alloc: Global) -> Result<bool, AllocError> {
    if opened(alloc, b"", false)? != (1, 0, 0) {
        return Ok(false);
    }
    is_linked(alloc, b"", FRESH)
}

/// Bytes after the last line feed are no line.
pub(crate) fn torn_line_is_cut(alloc: Global) -> Result<bool, AllocError> {
    if opened(alloc, b"journal 4 0 0\nrun 3\nrun 4", false)? != (2, 0, 0) {
        return Ok(false);
    }
    let mut file = file_of(alloc, b"journal 4 0 0\nrun 3\n")?;
    file.extend_from_slice(b"run 4")?;
    is_linked(alloc, file.as_slice(), b"journal 4 0 0\nrun 3\n")
}

/// A line that is none of a journal is told; or the account begins with the lines before it.
pub(crate) fn fault_is_told_or_repaired(alloc: Global) -> Result<bool, AllocError> {
    let text = b"journal 4 0 1\nname f\nrun 3\nrum 4\nrun 5\n";
    let mut other = file_of(alloc, b"journal 4 0 1\nname f\nrun 3\nrun 4\nrun 5\n")?;
    // The 4 of the fourth line becomes a 5.
    let place = other.len().saturating_sub(17 + 6 + 2);
    if let Some(byte) = other.get_mut(place) {
        *byte ^= 1;
    }
    Ok(
        opened(alloc, other.as_slice(), false)? == (0, 0, 4)
            && opened(alloc, other.as_slice(), true)? == (3, 4, 0)
            && opened(alloc, text, false)? == (0, 0, 4)
            && opened(alloc, text, true)? == (3, 4, 0)
            && opened(alloc, b"journey 4 0 0\n", false)? == (0, 0, 1)
            && opened(alloc, b"journey 4 0 0\n", true)? == (1, 1, 0),
    )
}

/// A file in which lines have no sums is written again with them, though its text is that of its journal.
pub(crate) fn file_without_sums_is_written_again(alloc: Global) -> Result<bool, AllocError> {
    let text = b"journal 4 0 0\nrun 5\n";
    let fewer = linked_bytes(alloc, text, text, OPENED_AND_LINKED)?.is_some();
    match linked_bytes(alloc, text, text, ENOUGH)? {
        Some(found) => {
            let has_sums = found.len() > text.len();
            Ok(!fewer && has_sums && text_in(alloc, found)?.as_slice() == text.as_slice())
        }
        None => Ok(false),
    }
}

/// A file whose text is that of its journal is only read; one with a run in pieces is written again.
pub(crate) fn same_text_is_not_written_again(alloc: Global) -> Result<bool, AllocError> {
    let text = b"journal 4 0 0\nrun 5\n";
    let file = file_of(alloc, text)?;
    let same = linked_bytes(alloc, file.as_slice(), text, OPENED_AND_LINKED)?.is_some();
    let fewer = linked_bytes(alloc, file.as_slice(), text, OPENED_AND_LINKED - 1)?.is_some();
    let pieces = file_of(alloc, IN_PIECES)?;
    Ok(same && !fewer && is_linked(alloc, pieces.as_slice(), text)?)
}
