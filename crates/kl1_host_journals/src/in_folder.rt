// The file of a journal in a folder, when a host starts.

use crate::opened_file::{OpenedFile, open_file};
use crate::opening::OpenFault;
use kl1_log::FolderFile;
use kl1_model::Rules;
use std::alloc::Global;
use std::fs::{self, File, OpenFile, OpenOptions};
use std::io::{self, Read, Write};
use std::os::unix::fs::OpenOptionsExt;
use std::rt::Files;
use std::time::Clock;

/// A new file is for its owner alone.
const FILE_MODE: u32 = 0o600;

/// Writes what the file of a journal holds into a new file beside it, NAME.journal.WORD.bad, and has it on disk.
fn keep_aside<R: Files>(
    rt: &R,
    alloc: Global,
    folder: &str,
    name: &str,
    word: &str,
) -> io::Result<()> {
    let from = format!(in alloc; "{folder}/{name}.journal")?;
    let to = format!(in alloc; "{folder}/{name}.journal.{word}.bad")?;
    let mut bytes = Vec::new(alloc);
    File::open(rt, from.as_str())?.read_to_end(&mut bytes)?;
    let mut file = OpenOptions::new()
        .write(true)
        .create_new(true)
        .mode(FILE_MODE)
        .open(rt, to.as_str())?;
    file.write_all(bytes.as_slice())?;
    file.sync_all()?;
    fs::open(rt, folder)?.sync_all()
}

/// Opens the file of the journal of `name` in a folder. A fault is repaired if `repair` is a word for the name of the file in which what
/// was there is kept: it is written before anything is changed.
pub fn open_in_folder<'r, R: Files + Clock>(
    rt: &'r R,
    alloc: Global,
    folder: &str,
    name: &str,
    rules: Rules,
    repair: Option<&str>,
) -> Result<OpenedFile<FolderFile<&'r R>>, OpenFault> {
    let disk = match FolderFile::open(rt, alloc, folder, name) {
        Ok(disk) => disk,
        Err(error) => return Err(OpenFault::Failed(error)),
    };
    let opened = open_file(alloc, disk, rules, repair.is_some())?;
    if let (Some(_), Some(word)) = (opened.repaired(), repair)
        && let Err(error) = keep_aside(rt, alloc, folder, name, word)
    {
        return Err(OpenFault::Failed(error));
    }
    Ok(opened)
}
