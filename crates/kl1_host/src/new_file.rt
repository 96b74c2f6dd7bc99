// New files.

use crate::fault::{Fault, at_path};
use crate::folder::FILE_MODE;
use std::alloc::Global;
use std::fs::{self, File, OpenOptions};
use std::io::Write;
use std::os::unix::fs::OpenOptionsExt;
use std::rt::Files;

/// Writes a file that isn't there yet, for its owner alone, and has it on the disk. One that can't be written whole goes again.
pub fn write_new<R: Files<File = File>>(
    rt: &R,
    alloc: Global,
    path: &str,
    bytes: &[u8],
) -> Result<(), Fault> {
    let opened = OpenOptions::new()
        .write(true)
        .create_new(true)
        .mode(FILE_MODE)
        .open(rt, path);
    let mut file = at_path(alloc, path, opened)?;
    let written = match file.write_all(bytes) {
        Ok(()) => file.sync_all(),
        Err(error) => Err(error),
    };
    if written.is_err() {
        let _ = fs::remove_file(rt, path);
    }
    at_path(alloc, path, written)
}

/// Has the names of a folder on the disk.
pub fn sync_folder<R: Files<File = File>>(rt: &R, alloc: Global, path: &str) -> Result<(), Fault> {
    let folder = at_path(alloc, path, fs::open(rt, path))?;
    at_path(alloc, path, folder.sync_all())
}
