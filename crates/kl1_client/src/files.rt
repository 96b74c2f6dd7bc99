// Files that are loaded and written.

use kl1_client_talk::{Fault, MOST_SOURCE_BYTES};
use kl1_words::{read_up_to, rename_written};
use std::alloc::{AllocError, Global};
use std::env::VarError;
use std::fs::File;
use std::io::{Read, Write};
use std::{env, fs, io, str};

/// What the text of a journal begins with.
const HEADING: &[u8] = b"journal ";

/// What stands after the name of a file while it is written.
const PART: &str = ".part";

/// Why a file can't be read or written.
#[derive(Drop)]
pub enum FileTrouble {
    /// The name is no UTF-8.
    Name,
    /// A call of the system failed.
    System(io::Error),
    /// It has more bytes than a module may have.
    TooLong,
    /// It is there, or the one beside it in which it is written, and is no journal.
    NoJournal,
    /// Memory was refused.
    Memory,
}

impl From<io::Error> for FileTrouble {
    fn from(error: io::Error) -> Self {
        if error.kind() == io::ErrorKind::OutOfMemory {
            FileTrouble::Memory
        } else {
            FileTrouble::System(error)
        }
    }
}

impl From<AllocError> for FileTrouble {
    fn from(_refused: AllocError) -> Self {
        FileTrouble::Memory
    }
}

/// Tells why nothing came of a file, if it wasn't for memory.
pub fn tell(rt: &HostRuntime, name: &[u8], trouble: &FileTrouble) -> Result<(), Fault> {
    let name = str::from_utf8(name).unwrap_or("a file");
    let _ = match trouble {
        FileTrouble::Memory => return Err(Fault::Memory),
        FileTrouble::Name => eprintln!(rt; "kl1_client: the name of a file is no UTF-8"),
        FileTrouble::System(error) => eprintln!(rt; "kl1_client: {name}: {error}"),
        FileTrouble::TooLong => eprintln!(rt; "kl1_client: {name}: too long"),
        FileTrouble::NoJournal => {
            eprintln!(rt; "kl1_client: {name}: is there, and is no journal")
        }
    };
    Ok(())
}

/// What stands between two quotes of one kind, if a name is in quotes.
fn unquoted(name: &str) -> Option<&str> {
    for quote in ["\"", "'"] {
        if let Some(rest) = name.strip_prefix(quote) {
            return rest.strip_suffix(quote);
        }
    }
    None
}

/// Puts the path that a name, as it was typed, stands for after the bytes: what is in quotes is taken as it is, and else a `~` in front
/// of it is the folder of the user.
fn put_path(rt: &HostRuntime, name: &str, path: &mut String) -> Result<(), FileTrouble> {
    if let Some(inner) = unquoted(name) {
        path.push_str(inner)?;
        return Ok(());
    }
    let Some(rest) = name.strip_prefix("~") else {
        path.push_str(name)?;
        return Ok(());
    };
    if !rest.is_empty() && !rest.starts_with("/") {
        path.push_str(name)?;
        return Ok(());
    }
    match env::var(rt, "HOME") {
        Ok(home) => path.push_str(home.as_str())?,
        Err(VarError::OutOfMemory) => return Err(FileTrouble::Memory),
        Err(_) => path.push_str("~")?,
    }
    path.push_str(rest)?;
    Ok(())
}

/// The path that a name stands for.
fn path_of(rt: &HostRuntime, alloc: Global, name: &[u8]) -> Result<String, FileTrouble> {
    let Ok(name) = str::from_utf8(name) else {
        return Err(FileTrouble::Name);
    };
    let mut path = String::new(alloc);
    put_path(rt, name, &mut path)?;
    Ok(path)
}

/// Puts the bytes of a file in the place of these, at most as many as a module may have.
pub fn read(rt: &HostRuntime, name: &[u8], bytes: &mut Vec<u8>) -> Result<(), FileTrouble> {
    let path = path_of(rt, rt.alloc(), name)?;
    bytes.clear();
    File::open(rt, path.as_str())?
        .take(MOST_SOURCE_BYTES as u64 + 1)
        .read_to_end(bytes)?;
    if bytes.len() > MOST_SOURCE_BYTES {
        return Err(FileTrouble::TooLong);
    }
    Ok(())
}

/// Whether this path is taken by what `save` must leave: a file that is no journal and has a byte, or what is no file.
fn is_other(rt: &HostRuntime, path: &str) -> Result<bool, FileTrouble> {
    let found = match fs::metadata(rt, path) {
        Ok(found) => found,
        Err(error) => {
            if error.kind() == io::ErrorKind::NotFound {
                return Ok(false);
            }
            return Err(error.into());
        }
    };
    if !found.is_file() {
        return Ok(true);
    }
    let front = read_up_to(rt, path, HEADING.len() as u64)?;
    Ok(!front.is_empty() && front.as_slice() != HEADING)
}

/// Writes these bytes to the file of this path, to the disk.
fn write_part(rt: &HostRuntime, part: &str, bytes: &[u8]) -> io::Result<()> {
    let mut file = File::create(rt, part)?;
    file.write_all(bytes)?;
    file.sync_all()
}

/// Writes these bytes to a file that is new, empty or a journal. What was there stays until all of them are written beside it.
pub fn write(rt: &HostRuntime, name: &[u8], bytes: &[u8]) -> Result<(), FileTrouble> {
    let path = path_of(rt, rt.alloc(), name)?;
    let mut part = path_of(rt, rt.alloc(), name)?;
    part.push_str(PART)?;
    if is_other(rt, path.as_str())? || is_other(rt, part.as_str())? {
        return Err(FileTrouble::NoJournal);
    }
    let part = part.as_str();
    rename_written(rt, path.as_str(), part, write_part(rt, part, bytes))?;
    Ok(())
}
