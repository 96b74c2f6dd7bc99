// One host at a time in a folder.

use crate::fault::{Fault, REFUSED, fault_at, fault_in_folder};
use crate::folder::{LOCK, path_in};
use std::alloc::Global;
use std::fs::{File, OpenOptions, TryLockError};
use std::rt::Files;

/// Takes the lock of a folder, if nobody has it.
pub fn try_lock_folder<R: Files<File = File>>(
    rt: &R,
    alloc: Global,
    folder: &str,
) -> Result<Option<File>, Fault> {
    let path = path_in(alloc, folder, LOCK)?;
    let file = match OpenOptions::new()
        .read(true)
        .write(true)
        .open(rt, path.as_str())
    {
        Ok(file) => file,
        Err(error) => return Err(fault_in_folder(alloc, path.as_str(), &error)),
    };
    match file.try_lock() {
        Ok(()) => Ok(Some(file)),
        Err(TryLockError::WouldBlock) => Ok(None),
        Err(TryLockError::Error(error)) => Err(fault_at(alloc, path.as_str(), &error)),
    }
}

/// Takes the lock of a folder: who has it holds it until the file is closed. If another has it, these words tell what to do.
pub fn lock_folder<R: Files<File = File>>(
    rt: &R,
    alloc: Global,
    folder: &str,
    advice: &str,
) -> Result<File, Fault> {
    let path = path_in(alloc, folder, LOCK)?;
    let file = match OpenOptions::new()
        .read(true)
        .write(true)
        .open(rt, path.as_str())
    {
        Ok(file) => file,
        Err(error) => return Err(fault_in_folder(alloc, path.as_str(), &error)),
    };
    match file.try_lock() {
        Ok(()) => Ok(file),
        Err(TryLockError::WouldBlock) => {
            let words = format!(in alloc; "{folder}: a host runs there; {advice}")?;
            Err(Fault::Words(REFUSED, words))
        }
        Err(TryLockError::Error(error)) => Err(fault_at(alloc, path.as_str(), &error)),
    }
}
