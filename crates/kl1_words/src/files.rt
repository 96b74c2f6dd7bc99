// Files that are read and written over.

use crate::fault::Fault;
use crate::program::Program;
use std::alloc::{AllocError, Global};
use std::fs::{self, File, Metadata, OpenOptions, Permissions};
use std::io;
use std::io::{Read, Write};
use std::os::unix::fs::MetadataExt;
use std::rt::Files;

/// What tells a file from all others: its device, and its number there.
#[derive(Clone, Copy)]
pub struct FileId {
    device: u64,
    number: u64,
}

impl FileId {
    /// That of the file with these attributes.
    pub fn of(attributes: &Metadata) -> Self {
        FileId {
            device: attributes.dev(),
            number: attributes.ino(),
        }
    }

    /// Whether both are the same file.
    pub fn is(self, other: FileId) -> bool {
        self.device == other.device && self.number == other.number
    }
}

/// Reads a file, at most `most` bytes of it.
pub fn read_up_to<R: Files<File = File> + AllocGlobal>(
    rt: &R,
    name: &str,
    most: u64,
) -> io::Result<Vec<u8>> {
    let mut text = Vec::new(rt.alloc());
    File::open(rt, name)?.take(most).read_to_end(&mut text)?;
    Ok(text)
}

/// Reads a file, at most `most` bytes of it, and tells which one it is.
pub fn read_known<R: Files<File = File> + AllocGlobal>(
    rt: &R,
    name: &str,
    most: u64,
) -> io::Result<(FileId, Vec<u8>)> {
    let mut text = Vec::new(rt.alloc());
    let file = File::open(rt, name)?;
    let id = FileId::of(&file.metadata()?);
    file.take(most).read_to_end(&mut text)?;
    Ok((id, text))
}

/// Puts the line of a file that can't be read or written after the bytes: the program's name, the file's, and why.
pub fn put_named_line(
    alloc: Global,
    program: &Program,
    name: &str,
    error: &io::Error,
    out: &mut Vec<u8>,
) -> Result<(), AllocError> {
    let line = format!(in alloc; "{}: {name}: {error}\n", program.name)?;
    out.extend_from_slice(line.as_bytes())
}

/// The fault that a line tells: the program's name, the file's, and these words.
pub fn named_line(alloc: Global, program: &Program, name: &str, words: &str) -> Fault {
    match format!(in alloc; "{}: {name}: {words}\n", program.name) {
        Ok(line) => Fault::Lines(line.into_bytes()),
        Err(_) => Fault::Memory,
    }
}

/// Why a file isn't written over.
#[derive(Clone, Copy)]
pub enum NotOpened {
    /// It is one of the files that are kept.
    Kept,
    /// It has something in it that doesn't begin so.
    Other,
}

/// Opens a file, made if there is none, and empties it only once it is known that nothing is lost but what begins so, and that it is none
/// of `kept`.
pub fn open_over<R: Files<File = File> + AllocGlobal>(
    rt: &R,
    name: &str,
    kept: &[FileId],
    beginning: &[u8],
) -> io::Result<Result<File, NotOpened>> {
    let file = OpenOptions::new().write(true).create(true).open(rt, name)?;
    let attributes = file.metadata()?;
    let id = FileId::of(&attributes);
    for other in kept {
        if id.is(*other) {
            return Ok(Err(NotOpened::Kept));
        }
    }
    // Terminals, pipes and other devices have nothing that could be lost.
    if attributes.is_file() {
        if attributes.len() != 0 && !begins_with(rt, name, beginning)? {
            return Ok(Err(NotOpened::Other));
        }
        file.set_len(0)?;
    }
    Ok(Ok(file))
}

/// Whether a file begins so.
fn begins_with<R: Files<File = File> + AllocGlobal>(
    rt: &R,
    name: &str,
    beginning: &[u8],
) -> io::Result<bool> {
    let front = read_up_to(rt, name, beginning.len() as u64)?;
    Ok(front.as_slice() == beginning)
}

/// Writes a text to a file that was made, and gives the file these permissions.
fn write_whole(mut file: File, permissions: Permissions, text: &[u8]) -> io::Result<()> {
    file.set_permissions(permissions)?;
    file.write_all(text)
}

/// Has the file `target` hold this text in place of its own: the file `new`, which isn't there yet, is written first, and then takes
/// its name. If that fails, `target` stays as it is.
pub fn replace<R: Files<File = File>>(
    rt: &R,
    target: &str,
    new: &str,
    text: &[u8],
) -> io::Result<()> {
    let permissions = fs::metadata(rt, target)?.permissions();
    let file = File::create_new(rt, new)?;
    rename_written(rt, target, new, write_whole(file, permissions, text))
}

/// Gives the file `new`, if it is written, the name `target`; else, and if that fails, it is removed.
pub fn rename_written<R: Files<File = File>>(
    rt: &R,
    target: &str,
    new: &str,
    written: io::Result<()>,
) -> io::Result<()> {
    let renamed = match written {
        Ok(()) => fs::rename(rt, new, target),
        Err(error) => Err(error),
    };
    if renamed.is_err() {
        let _ = fs::remove_file(rt, new);
    }
    renamed
}
