// Journals are repaired.

ghost use Rattle.std.specs.Prelude.{◌≡◌, ◌≤◌, length, take};
ghost use Rattle.kl1_host.specs.Repairs.{lines_before};

use crate::fault::{Fault, at_path, fault_at};
use crate::folder::{JOURNALS, journal_in, path_in};
use crate::new_file::{sync_folder, write_new};
use kl1_journal_entries::next_line;
use kl1_log::{Disk, FolderFile};
use std::alloc::Global;
use std::fs::File;
use std::rt::Files;
use std::time::Clock;

/// The word for the names of files in which what is repaired is kept: the seconds since 1970.
pub fn word_of_now<R: Clock>(rt: &R, alloc: Global) -> Result<String, Fault> {
    let seconds = match rt.since_1970() {
        Ok(time) => time.as_secs(),
        Err(_) => 0,
    };
    Ok(format!(in alloc; "{seconds}")?)
}

/// How many bytes of a text are before this line, the first being 1; those of all whole lines if there are fewer.
pub(crate) fn bytes_before(text: &[u8], line: u64) -> usize
    ensures before { take result text.now ≡ lines_before text.now line }
    ensures within { result ≤ length text.now }
{
    let lines = line.saturating_sub(1);
    let mut rest = text;
    let mut count = 0;
    while count < lines {
        let Some((_, after)) = next_line(rest) else {
            return text.len() - rest.len();
        };
        rest = after;
        count += 1;
    }
    text.len() - rest.len()
}

/// Keeps what the file of the journal of an account holds in a new file beside it, and then cuts it to the lines before this one, the first
/// being 1.
pub fn cut_journal<R: Files<File = File> + Clock>(
    rt: &R,
    alloc: Global,
    folder: &str,
    name: &[u8],
    line: u64,
    word: &str,
) -> Result<(), Fault> {
    let journals = path_in(alloc, folder, JOURNALS)?;
    let path = journal_in(alloc, folder, name)?;
    let path = path.as_str();
    let name = format!(in alloc; "{}", name.escape_ascii())?;
    let mut disk = match FolderFile::open(rt, alloc, journals.as_str(), name.as_str()) {
        Ok(disk) => disk,
        Err(error) => return Err(fault_at(alloc, path, &error)),
    };
    let bytes = match disk.read(alloc) {
        Ok(bytes) => bytes,
        Err(error) => return Err(fault_at(alloc, path, &error)),
    };
    let kept = format!(in alloc; "{path}.{word}.{line}.bad")?;
    write_new(rt, alloc, kept.as_str(), bytes.as_slice())?;
    sync_folder(rt, alloc, journals.as_str())?;
    let cut = disk.cut(bytes_before(bytes.as_slice(), line));
    at_path(alloc, path, cut)
}
