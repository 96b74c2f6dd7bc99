// A folder is made.

use crate::fault::{Fault, REFUSED, at_path, fault_at};
use crate::folder::{ACCOUNTS, FOLDER_MODE, JOURNALS, LOCK, SETTINGS, path_in};
use crate::new_file::{sync_folder, write_new};
use kl1_host_front::FIRST_SETTINGS;
use std::alloc::AllocError;
use std::fs::{self, DirBuilder, Permissions};
use std::io::ErrorKind;
use std::os::unix::fs::{DirBuilderExt, PermissionsExt};

/// The files of a folder that was just made, and what is in them. The lock is the last: a folder that has it is whole.
const FIRST_FILES: [(&str, &str); 3] = [(SETTINGS, FIRST_SETTINGS), (ACCOUNTS, ""), (LOCK, "")];

/// Whether nothing is in a folder.
fn is_empty(rt: &HostRuntime, folder: &str) -> Result<bool, Fault> {
    let mut names = at_path(rt.alloc(), folder, fs::read_dir(rt, folder))?;
    Ok(names.next().is_none())
}

/// Whether a file has nothing but the first bytes of this text, or isn't there.
fn is_begun(rt: &HostRuntime, path: &str, text: &[u8]) -> Result<bool, Fault> {
    match fs::read(rt, path) {
        Ok(bytes) => Ok(text.starts_with(bytes.as_slice())),
        Err(error) if error.kind() == ErrorKind::NotFound => Ok(true),
        Err(error) => Err(fault_at(rt.alloc(), path, &error)),
    }
}

/// Whether in a folder there is nothing but what a call has left that was ended in the midst of making it: the lock comes last.
fn is_left(rt: &HostRuntime, folder: &str) -> Result<bool, Fault> {
    let alloc = rt.alloc();
    for entry in at_path(alloc, folder, fs::read_dir(rt, folder))? {
        let entry = at_path(alloc, folder, entry)?;
        let name = entry.file_name();
        if name != SETTINGS && name != ACCOUNTS && name != JOURNALS {
            return Ok(false);
        }
    }
    let journals = path_in(alloc, folder, JOURNALS)?;
    if !(fs::exists(rt, journals.as_str())? && is_empty(rt, journals.as_str())?) {
        return Ok(false);
    }
    for (name, text) in &FIRST_FILES {
        if !is_begun(rt, path_in(alloc, folder, name)?.as_str(), text.as_bytes())? {
            return Ok(false);
        }
    }
    Ok(true)
}

/// Removes what a call has left that was ended in the midst of making a folder.
fn remove_left(rt: &HostRuntime, folder: &str) -> Result<(), Fault> {
    let alloc = rt.alloc();
    remove_files(rt, folder, FIRST_FILES.len())?;
    let journals = path_in(alloc, folder, JOURNALS)?;
    let removed = fs::remove_dir(rt, journals.as_str());
    at_path(alloc, journals.as_str(), removed)
}

/// Makes a folder for its owner alone, and tells whether it is new: one that is there already is taken if nothing is in it, or what a call
/// like this has left.
fn make_folder(rt: &HostRuntime, folder: &str) -> Result<bool, Fault> {
    match DirBuilder::new().mode(FOLDER_MODE).create(rt, folder) {
        Ok(()) => Ok(true),
        Err(error) if error.kind() == ErrorKind::AlreadyExists => {
            if !is_empty(rt, folder)? {
                if !is_left(rt, folder)? {
                    let words = format!(in rt.alloc();
                        "{folder}: there is something in it already"
                    )?;
                    return Err(Fault::Words(REFUSED, words));
                }
                remove_left(rt, folder)?;
            }
            let mode = Permissions::from_mode(FOLDER_MODE);
            at_path(rt.alloc(), folder, fs::set_permissions(rt, folder, mode))?;
            Ok(false)
        }
        Err(error) => Err(fault_at(rt.alloc(), folder, &error)),
    }
}

/// Makes the first files of a folder, and counts those that are made.
fn make_files(rt: &HostRuntime, folder: &str, made: &mut usize) -> Result<(), Fault> {
    let alloc = rt.alloc();
    for (name, text) in &FIRST_FILES {
        let path = path_in(alloc, folder, name)?;
        write_new(rt, alloc, path.as_str(), text.as_bytes())?;
        *made = made.saturating_add(1);
    }
    sync_folder(rt, alloc, folder)
}

/// Removes the first files of a folder, of which this many were made.
fn remove_files(rt: &HostRuntime, folder: &str, made: usize) -> Result<(), AllocError> {
    for (place, (name, _)) in FIRST_FILES.iter().enumerate() {
        if place < made {
            let _ = fs::remove_file(rt, path_in(rt.alloc(), folder, name)?.as_str());
        }
    }
    Ok(())
}

/// Makes what is in a folder. If that fails, what was made goes again.
fn fill_folder(rt: &HostRuntime, folder: &str) -> Result<(), Fault> {
    let alloc = rt.alloc();
    let journals = path_in(alloc, folder, JOURNALS)?;
    let created = DirBuilder::new()
        .mode(FOLDER_MODE)
        .create(rt, journals.as_str());
    at_path(alloc, journals.as_str(), created)?;
    let mut made = 0;
    let filled = make_files(rt, folder, &mut made);
    if filled.is_err() {
        let _ = remove_files(rt, folder, made);
        let _ = fs::remove_dir(rt, journals.as_str());
    }
    filled
}

/// Makes a folder with settings and without an account, and answers the program's status. If that fails, what was made goes again.
pub fn init_folder(rt: &HostRuntime, folder: &str) -> Result<u8, Fault> {
    let is_new = make_folder(rt, folder)?;
    let filled = fill_folder(rt, folder);
    if is_new && filled.is_err() {
        let _ = fs::remove_dir(rt, folder);
    }
    filled?;
    Ok(0)
}
