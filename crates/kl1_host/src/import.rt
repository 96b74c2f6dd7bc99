// An account that was exported comes to a host.

use crate::accounts::accounts_in;
use crate::accounts_file::{
    has_journal, is_there, lock_accounts, refuse_bad_name, remove_if_there, write_accounts,
};
use crate::export::{exported_in, line_in, write_whole};
use crate::fault::{BAD, Fault, REFUSED, at_path, fault_at};
use crate::folder::{JOURNALS, journal_in, path_in, read_file};
use crate::letting_go::tell_host;
use crate::new_file::{sync_folder, write_new};
use kl1_host_front::read_sums;
use kl1_lines::split_feed;
use kl1_log::{Found, recover};
use kl1_model::limits::MOST_ACCOUNTS;
use std::fs::{self, File, TryLockError};

/// What a folder of accounts that were exported has of one.
#[derive(Drop)]
enum Parcel {
    /// Its line, with its end: nobody has taken it.
    Free(Vec<u8>),
    /// The same, and the path of the folder that takes it.
    Taken(Vec<u8>, Vec<u8>),
    /// Nothing.
    Gone,
}

/// The path of the note that an account is taken, and by whom.
fn taken_in(rt: &HostRuntime, from: &str, name: &str) -> Result<String, Fault> {
    Ok(format!(in rt.alloc(); "{from}/{name}.taken")?)
}

/// What a file has.
fn read_at(rt: &HostRuntime, path: &str) -> Result<Vec<u8>, Fault> {
    at_path(rt.alloc(), path, read_file(rt, rt.alloc(), path))
}

/// What there is of an account.
fn parcel_of(rt: &HostRuntime, from: &str, name: &str) -> Result<Parcel, Fault> {
    let alloc = rt.alloc();
    let taken = taken_in(rt, from, name)?;
    if is_there(rt, taken.as_str())? {
        let text = read_at(rt, taken.as_str())?;
        let Some((line, behind)) = split_feed(text.as_slice()) else {
            let words = format!(in alloc; "{taken}: it isn't whole")?;
            return Err(Fault::Words(BAD, words));
        };
        let mut line = Vec::from_slice(alloc, line)?;
        line.push(b'\n')?;
        let who = behind.strip_suffix(b"\n").unwrap_or(behind);
        return Ok(Parcel::Taken(line, Vec::from_slice(alloc, who)?));
    }
    let path = line_in(rt, from, name)?;
    if is_there(rt, path.as_str())? {
        return Ok(Parcel::Free(read_at(rt, path.as_str())?));
    }
    Ok(Parcel::Gone)
}

/// Refuses a line that isn't one of an account of this name.
fn refuse_line(rt: &HostRuntime, from: &str, name: &str, line: &[u8]) -> Result<(), Fault> {
    let alloc = rt.alloc();
    if let Some(keys) = read_sums(alloc, line)?
        && let [key] = keys.as_slice()
        && key.name.as_slice() == name.as_bytes()
    {
        return Ok(());
    }
    let path = line_in(rt, from, name)?;
    let words = format!(in alloc; "{path}: it isn't the line of an account of this name")?;
    Err(Fault::Words(BAD, words))
}

/// The journal of an account that was exported, if it is whole.
fn journal_from(rt: &HostRuntime, from: &str, name: &str) -> Result<Vec<u8>, Fault> {
    let alloc = rt.alloc();
    let path = exported_in(rt, from, name)?;
    let text = read_at(rt, path.as_str())?;
    if text.is_empty() {
        return Ok(text);
    }
    match recover(alloc, text.as_slice())? {
        Found::Whole { bytes, .. } if bytes == text.len() => Ok(text),
        _ => {
            let words = format!(in alloc; "{path}: it is no whole journal")?;
            Err(Fault::Words(REFUSED, words))
        }
    }
}

/// Copies the journal to its name in the folder, where no account has that name. One that is there already is the same, which an earlier call has left.
fn copy_journal(rt: &HostRuntime, folder: &str, from: &str, name: &str) -> Result<(), Fault> {
    let alloc = rt.alloc();
    let text = journal_from(rt, from, name)?;
    let path = journal_in(alloc, folder, name.as_bytes())?;
    if has_journal(rt, folder, name)? {
        if read_at(rt, path.as_str())?.as_slice() == text.as_slice() {
            return Ok(());
        }
        let words = format!(in alloc; "{path}: it is there already: move it away")?;
        return Err(Fault::Words(REFUSED, words));
    }
    let new = format!(in alloc; "{path}.import")?;
    remove_if_there(rt, new.as_str())?;
    write_new(rt, alloc, new.as_str(), text.as_slice())?;
    let renamed = fs::rename(rt, new.as_str(), path.as_str());
    at_path(alloc, path.as_str(), renamed)?;
    let journals = path_in(alloc, folder, JOURNALS)?;
    sync_folder(rt, alloc, journals.as_str())
}

/// The path of a folder, by which it is told from others of this machine.
fn whole_path(rt: &HostRuntime, folder: &str) -> Result<Vec<u8>, Fault> {
    match fs::canonicalize(rt, folder) {
        Ok(path) => Ok(Vec::from_slice(rt.alloc(), path.as_str().as_bytes())?),
        Err(error) => Err(fault_at(rt.alloc(), folder, &error)),
    }
}

/// Notes in the folder of exported accounts that this folder takes one: from then on no other does.
fn take(rt: &HostRuntime, from: &str, name: &str, line: &[u8], who: &[u8]) -> Result<(), Fault> {
    let alloc = rt.alloc();
    let mut text = Vec::from_slice(alloc, line)?;
    text.extend_from_slice(who)?;
    text.push(b'\n')?;
    let path = taken_in(rt, from, name)?;
    write_whole(rt, from, path.as_str(), text.as_slice())?;
    let free = line_in(rt, from, name)?;
    remove_if_there(rt, free.as_str())?;
    sync_folder(rt, alloc, from)
}

/// Adds the line of an account that this folder takes.
fn add_line(rt: &HostRuntime, folder: &str, line: &[u8]) -> Result<(), Fault> {
    let alloc = rt.alloc();
    let accounts = accounts_in(rt, alloc, folder)?;
    let mut text = accounts.text;
    if !text.is_empty() && !text.ends_with(b"\n") {
        text.push(b'\n')?;
    }
    text.extend_from_slice(line)?;
    write_accounts(rt, folder, text.as_slice())
}

/// Removes what is left of an account that is here now.
fn remove_parcel(rt: &HostRuntime, from: &str, name: &str) -> Result<(), Fault> {
    remove_if_there(rt, line_in(rt, from, name)?.as_str())?;
    remove_if_there(rt, exported_in(rt, from, name)?.as_str())?;
    remove_if_there(rt, taken_in(rt, from, name)?.as_str())?;
    sync_folder(rt, rt.alloc(), from)
}

/// Takes the lock of a folder of accounts that were exported: one call at a time takes an account from there.
fn lock_exported(rt: &HostRuntime, from: &str) -> Result<File, Fault> {
    let folder = at_path(rt.alloc(), from, fs::open(rt, from))?;
    match folder.try_lock() {
        Ok(()) => Ok(folder),
        Err(TryLockError::WouldBlock) => Err(refused(rt, from, "another call takes an account")),
        Err(TryLockError::Error(error)) => Err(fault_at(rt.alloc(), from, &error)),
    }
}

/// The fault of an account that can't come.
fn refused(rt: &HostRuntime, path: &str, why: &str) -> Fault {
    match format!(in rt.alloc(); "{path}: {why}") {
        Ok(words) => Fault::Words(REFUSED, words),
        Err(_) => Fault::Memory,
    }
}

/// Whether the folder has an account of this name.
fn is_here(rt: &HostRuntime, folder: &str, name: &str) -> Result<bool, Fault> {
    let accounts = accounts_in(rt, rt.alloc(), folder)?;
    let is_here = accounts
        .keys
        .iter()
        .any(|key| key.name.as_slice() == name.as_bytes());
    if !is_here && accounts.keys.len() >= MOST_ACCOUNTS {
        return Err(refused(rt, folder, "there are as many accounts as may be"));
    }
    Ok(is_here)
}

/// Brings an account that nobody has taken.
fn bring_free(
    rt: &HostRuntime,
    folder: &str,
    from: &str,
    name: &str,
    line: &[u8],
    who: &[u8],
) -> Result<(), Fault> {
    refuse_line(rt, from, name, line)?;
    copy_journal(rt, folder, from, name)?;
    take(rt, from, name, line, who)?;
    add_line(rt, folder, line)
}

/// Goes on with an account that was taken, if this folder took it.
fn bring_taken(
    rt: &HostRuntime,
    folder: &str,
    from: &str,
    name: &str,
    line: &[u8],
    taker: &[u8],
    who: &[u8],
) -> Result<(), Fault> {
    let taken = taken_in(rt, from, name)?;
    if taker != who {
        let words = format!(in rt.alloc(); "{} takes it", taker.escape_ascii())?;
        return Err(refused(rt, taken.as_str(), words.as_str()));
    }
    refuse_line(rt, from, name, line)?;
    // What is left here may be older than what another host has by now.
    if !has_journal(rt, folder, name)? {
        let why = "this folder took it, and it was removed or exported since";
        return Err(refused(rt, taken.as_str(), why));
    }
    remove_if_there(rt, line_in(rt, from, name)?.as_str())?;
    add_line(rt, folder, line)
}

/// Brings an account that isn't here yet.
fn bring(rt: &HostRuntime, folder: &str, from: &str, name: &str, who: &[u8]) -> Result<(), Fault> {
    match parcel_of(rt, from, name)? {
        Parcel::Free(line) => bring_free(rt, folder, from, name, line.as_slice(), who),
        Parcel::Taken(line, taker) => {
            let (line, taker) = (line.as_slice(), taker.as_slice());
            bring_taken(rt, folder, from, name, line, taker, who)
        }
        Parcel::Gone => Err(refused(
            rt,
            line_in(rt, from, name)?.as_str(),
            "it isn't there: no such account was exported, or it was imported already",
        )),
    }
}

/// Whether an account that was exported is taken by this folder.
fn is_taken_by(rt: &HostRuntime, from: &str, name: &str, who: &[u8]) -> Result<bool, Fault> {
    match parcel_of(rt, from, name)? {
        Parcel::Free(_line) => Ok(false),
        Parcel::Taken(_line, taker) => Ok(taker.as_slice() == who),
        Parcel::Gone => Ok(false),
    }
}

/// Takes an account that was exported from a folder with its line and its journal, and adds it to another folder, whether a host runs there or not. A
/// call that was ended midway is gone on with. Answers the program's status.
pub fn import_account(rt: &HostRuntime, folder: &str, name: &str, from: &str) -> Result<u8, Fault> {
    refuse_bad_name(rt, name)?;
    let _lock = lock_accounts(rt, folder)?;
    let _from = lock_exported(rt, from)?;
    let who = whole_path(rt, folder)?;
    if !is_here(rt, folder, name)? {
        bring(rt, folder, from, name, who.as_slice())?;
    } else if !is_taken_by(rt, from, name, who.as_slice())? {
        return Err(refused(rt, folder, "there is an account of this name already"));
    }
    let status = tell_host(rt, folder, "accounts\n", false)?.unwrap_or(0);
    remove_parcel(rt, from, name)?;
    Ok(status)
}
