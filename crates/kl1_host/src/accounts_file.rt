// The file of accounts is changed.

use crate::accounts::{Accounts, accounts_in};
use crate::fault::{BAD, Fault, REFUSED, at_path, fault_at, fault_in_folder};
use crate::folder::{
    ACCOUNTS, ACCOUNTS_LOCK, FILE_MODE, LOCK, NEW_ACCOUNTS, STARTED, journal_in, path_in,
};
use crate::new_file::{sync_folder, write_new};
use crate::started::names_in;
use kl1_lines::split_feed;
use kl1_pool::AccountName;
use std::alloc::Global;
use std::fs::{self, File, OpenFile, OpenOptions, TryLockError};
use std::io::ErrorKind;
use std::os::unix::fs::OpenOptionsExt;

/// Takes the lock of a folder's accounts: who changes their file has it, one call at a time, whether a host runs there or not.
pub fn lock_accounts(rt: &HostRuntime, folder: &str) -> Result<File, Fault> {
    let alloc = rt.alloc();
    let lock = path_in(alloc, folder, LOCK)?;
    if let Err(error) = fs::metadata(rt, lock.as_str()) {
        return Err(fault_in_folder(alloc, lock.as_str(), &error));
    }
    let path = path_in(alloc, folder, ACCOUNTS_LOCK)?;
    let opened = OpenOptions::new()
        .read(true)
        .write(true)
        .create(true)
        .mode(FILE_MODE)
        .open(rt, path.as_str());
    let file = at_path(alloc, path.as_str(), opened)?;
    match file.try_lock() {
        Ok(()) => Ok(file),
        Err(TryLockError::WouldBlock) => {
            let words = format!(in alloc; "{folder}: another call changes its accounts")?;
            Err(Fault::Words(REFUSED, words))
        }
        Err(TryLockError::Error(error)) => Err(fault_at(alloc, path.as_str(), &error)),
    }
}

/// Whether this is the line of the account of this name.
fn is_of(line: &[u8], name: &str) -> bool {
    line.starts_with(name.as_bytes()) && line.get(name.len()) == Some(&b' ')
}

/// The text of a file of accounts without the line of an account; and that line, without its end, if there is one.
pub fn without_line(
    alloc: Global,
    text: &[u8],
    name: &str,
) -> Result<(Vec<u8>, Option<Vec<u8>>), Fault> {
    let mut left = Vec::new(alloc);
    let mut found = None;
    let mut rest = text;
    for _ in 0..u64::MAX {
        let (line, behind) = match split_feed(rest) {
            Some((line, behind)) => (line, behind),
            None => (rest, rest.get(rest.len()..).unwrap_or(&[])),
        };
        if is_of(line, name) {
            found = Some(Vec::from_slice(alloc, line)?);
        } else if !line.is_empty() {
            left.extend_from_slice(line)?;
            left.push(b'\n')?;
        }
        if behind.is_empty() {
            break;
        }
        rest = behind;
    }
    Ok((left, found))
}

/// Writes the new file of accounts beside the old one.
pub fn prepare_accounts(rt: &HostRuntime, folder: &str, text: &[u8]) -> Result<(), Fault> {
    let alloc = rt.alloc();
    let new = path_in(alloc, folder, NEW_ACCOUNTS)?;
    remove_if_there(rt, new.as_str())?;
    write_new(rt, alloc, new.as_str(), text)
}

/// Gives the new file of accounts its name: a crash leaves the old one or the new one.
pub fn rename_accounts(rt: &HostRuntime, folder: &str) -> Result<(), Fault> {
    let alloc = rt.alloc();
    let new = path_in(alloc, folder, NEW_ACCOUNTS)?;
    let path = path_in(alloc, folder, ACCOUNTS)?;
    let renamed = fs::rename(rt, new.as_str(), path.as_str());
    at_path(alloc, path.as_str(), renamed)?;
    sync_folder(rt, alloc, folder)
}

/// Writes the file of accounts anew.
pub fn write_accounts(rt: &HostRuntime, folder: &str, text: &[u8]) -> Result<(), Fault> {
    prepare_accounts(rt, folder, text)?;
    rename_accounts(rt, folder)
}

/// Removes a file, if it is there.
pub fn remove_if_there(rt: &HostRuntime, path: &str) -> Result<(), Fault> {
    match fs::remove_file(rt, path) {
        Err(error) if error.kind() != ErrorKind::NotFound => {
            Err(fault_at(rt.alloc(), path, &error))
        }
        _ => Ok(()),
    }
}

/// Whether a file is there.
pub fn is_there(rt: &HostRuntime, path: &str) -> Result<bool, Fault> {
    at_path(rt.alloc(), path, fs::exists(rt, path))
}

/// Whether the journal of an account of this name is there.
pub fn has_journal(rt: &HostRuntime, folder: &str, name: &str) -> Result<bool, Fault> {
    let path = journal_in(rt.alloc(), folder, name.as_bytes())?;
    is_there(rt, path.as_str())
}

/// Refuses an account whose name the folder has no line for.
pub fn refuse_unknown(alloc: Global, folder: &str, name: &str) -> Result<Fault, Fault> {
    let words = format!(in alloc; "{folder}: there is no account {}", name.escape_debug())?;
    Ok(Fault::Words(REFUSED, words))
}

/// Refuses what is no name of an account.
pub fn refuse_bad_name(rt: &HostRuntime, name: &str) -> Result<(), Fault> {
    if AccountName::read(name.as_bytes()).is_some() {
        return Ok(());
    }
    let words = format!(in rt.alloc();
        "'{}' is no name: one has a small letter, and then small letters and digits, at most 16 in all",
        name.escape_debug()
    )?;
    Err(Fault::Words(BAD, words))
}

/// The accounts of a folder, of which one has this name.
pub fn accounts_with(rt: &HostRuntime, folder: &str, name: &str) -> Result<Accounts, Fault> {
    let accounts = accounts_in(rt, rt.alloc(), folder)?;
    for key in &accounts.keys {
        if key.name.as_slice() == name.as_bytes() {
            return Ok(accounts);
        }
    }
    Err(refuse_unknown(rt.alloc(), folder, name)?)
}

/// Takes the name of an account that is gone out of those of accounts that have started.
pub fn forget_started(rt: &HostRuntime, folder: &str, name: &str) -> Result<(), Fault> {
    let alloc = rt.alloc();
    let names = names_in(rt, folder)?;
    let mut left = Vec::new(alloc);
    for line in names.split(|byte| *byte == b'\n') {
        if !line.is_empty() && line != name.as_bytes() {
            left.extend_from_slice(line)?;
            left.push(b'\n')?;
        }
    }
    if left.len() == names.len() {
        return Ok(());
    }
    let path = path_in(alloc, folder, STARTED)?;
    let new = format!(in alloc; "{path}.new")?;
    remove_if_there(rt, new.as_str())?;
    write_new(rt, alloc, new.as_str(), left.as_slice())?;
    let renamed = fs::rename(rt, new.as_str(), path.as_str());
    at_path(alloc, path.as_str(), renamed)
}
