// Which accounts have started before.

use crate::fault::{Fault, REFUSED, at_path, fault_at};
use crate::folder::{FILE_MODE, NEW_STARTED, STARTED, journal_in, path_in};
use kl1_model::limits::MOST_ACCOUNTS;
use kl1_session::Key;
use std::alloc::Global;
use std::fs::{self, OpenFile, OpenOptions};
use std::io::{self, ErrorKind, Write};
use std::os::unix::fs::OpenOptionsExt;
use std::rt::Files;

/// The names of accounts that have started before, each with a line feed; none if there is no such file.
pub fn names_in<R: Files + AllocGlobal>(rt: &R, folder: &str) -> Result<Vec<u8>, Fault> {
    let alloc = rt.alloc();
    let path = path_in(alloc, folder, STARTED)?;
    match fs::read(rt, path.as_str()) {
        Ok(names) => Ok(names),
        Err(error) if error.kind() == ErrorKind::NotFound => Ok(Vec::new(alloc)),
        Err(error) => Err(fault_at(alloc, path.as_str(), &error)),
    }
}

/// Whether a name is one of these.
fn is_among(names: &[u8], name: &[u8]) -> bool {
    names.split(|byte| *byte == b'\n').any(|line| line == name)
}

/// Whether a file has bytes; not if there is none.
fn has_bytes<R: Files>(rt: &R, alloc: Global, path: &str) -> Result<bool, Fault> {
    match fs::metadata(rt, path) {
        Ok(attributes) => Ok(attributes.len() > 0),
        Err(error) if error.kind() == ErrorKind::NotFound => Ok(false),
        Err(error) => Err(fault_at(alloc, path, &error)),
    }
}

/// Whether the journal of the account of this name is missing or empty, though the account is among those that have started before.
pub fn is_lost<R: Files + AllocGlobal>(
    rt: &R,
    folder: &str,
    started: &[u8],
    name: &[u8],
) -> Result<bool, Fault> {
    let alloc = rt.alloc();
    if !is_among(started, name) {
        return Ok(false);
    }
    let path = journal_in(alloc, folder, name)?;
    Ok(!has_bytes(rt, alloc, path.as_str())?)
}

/// Refuses to start if the journal of an account that has started before is missing or empty: the account would begin anew without a word.
pub fn refuse_missing<R: Files + AllocGlobal>(
    rt: &R,
    folder: &str,
    keys: &[Key],
) -> Result<(), Fault> {
    let alloc = rt.alloc();
    let started = names_in(rt, folder)?;
    for key in keys {
        let name = key.name.as_slice();
        if is_lost(rt, folder, started.as_slice(), name)? {
            let path = journal_in(alloc, folder, name)?;
            let words = format!(in alloc;
                "{path}: it is missing or empty, and the account has started before: bring it back, or for an empty account take the line {} out of {folder}/{STARTED}",
                name.escape_ascii()
            )?;
            return Err(Fault::Words(REFUSED, words));
        }
    }
    Ok(())
}

/// Writes a file anew that isn't there, and has it on the disk.
fn write_anew<R: Files>(rt: &R, path: &str, bytes: &[u8]) -> io::Result<()> {
    let mut file = OpenOptions::new()
        .write(true)
        .create(true)
        .truncate(true)
        .mode(FILE_MODE)
        .open(rt, path)?;
    file.write_all(bytes)?;
    file.sync_all()
}

/// Which accounts are there, by their places, and whether all of the start have come.
#[derive(Clone, Copy)]
pub struct Arrivals {
    pub are_there: [bool; MOST_ACCOUNTS],
    pub is_ready: bool,
}

impl Arrivals {
    /// None is there.
    pub fn new() -> Self {
        Arrivals {
            are_there: [false; MOST_ACCOUNTS],
            is_ready: false,
        }
    }
}

/// Notes that these accounts have started. A crash leaves the old file or the new one.
pub fn note_started<R: Files>(
    rt: &R,
    alloc: Global,
    folder: &str,
    keys: &[Key],
    are_there: &[bool],
) -> Result<(), Fault> {
    let mut names = Vec::new(alloc);
    for (key, is_there) in keys.iter().zip(are_there) {
        if !*is_there || key.name.is_empty() {
            continue;
        }
        names.extend_from_slice(key.name.as_slice())?;
        names.push(b'\n')?;
    }
    let new = path_in(alloc, folder, NEW_STARTED)?;
    let path = path_in(alloc, folder, STARTED)?;
    let written = write_anew(rt, new.as_str(), names.as_slice());
    at_path(alloc, new.as_str(), written)?;
    let renamed = fs::rename(rt, new.as_str(), path.as_str());
    at_path(alloc, path.as_str(), renamed)
}
