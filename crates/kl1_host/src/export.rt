// An account leaves a host for another.

use crate::accounts::accounts_in;
use crate::accounts_file::{
    forget_started, has_journal, is_there, lock_accounts, refuse_bad_name, remove_if_there,
    without_line, write_accounts,
};
use crate::fault::{Fault, REFUSED, at_path, fault_at};
use crate::folder::{EXPORTED, FOLDER_MODE, JOURNALS, journal_in, path_in};
use crate::letting_go::{let_go, tell_host};
use crate::new_file::{sync_folder, write_new};
use crate::remove::unknown;
use std::fs::{self, DirBuilder};
use std::io::ErrorKind;
use std::os::unix::fs::DirBuilderExt;

/// The path of the line of an account in a folder of accounts that were exported.
pub fn line_in(rt: &HostRuntime, from: &str, name: &str) -> Result<String, Fault> {
    Ok(format!(in rt.alloc(); "{from}/{name}.line")?)
}

/// The path of its journal there.
pub fn exported_in(rt: &HostRuntime, from: &str, name: &str) -> Result<String, Fault> {
    Ok(format!(in rt.alloc(); "{from}/{name}.journal")?)
}

/// Writes a file anew in one step, in a folder that is then synced.
pub fn write_whole(rt: &HostRuntime, folder: &str, path: &str, bytes: &[u8]) -> Result<(), Fault> {
    let alloc = rt.alloc();
    let new = format!(in alloc; "{path}.new")?;
    remove_if_there(rt, new.as_str())?;
    write_new(rt, alloc, new.as_str(), bytes)?;
    let renamed = fs::rename(rt, new.as_str(), path);
    at_path(alloc, path, renamed)?;
    sync_folder(rt, alloc, folder)
}

/// Makes the folder of accounts that were exported, if it isn't there.
fn make_folder(rt: &HostRuntime, folder: &str, exported: &str) -> Result<(), Fault> {
    match DirBuilder::new().mode(FOLDER_MODE).create(rt, exported) {
        Ok(()) => sync_folder(rt, rt.alloc(), folder),
        Err(error) if error.kind() == ErrorKind::AlreadyExists => Ok(()),
        Err(error) => Err(fault_at(rt.alloc(), exported, &error)),
    }
}

/// Takes the line of an account out of the folder's accounts, once no host has the account: then the line is in the folder of exported accounts alone.
/// Nothing is done if it is there already.
fn take_out(rt: &HostRuntime, folder: &str, exported: &str, name: &str) -> Result<(), Fault> {
    let alloc = rt.alloc();
    let accounts = accounts_in(rt, alloc, folder)?;
    let (text, line) = without_line(alloc, accounts.text.as_slice(), name)?;
    let path = line_in(rt, exported, name)?;
    let Some(mut line) = line else {
        if is_there(rt, path.as_str())? {
            return Ok(());
        }
        return Err(unknown(rt, folder, name));
    };
    let journal = exported_in(rt, exported, name)?;
    if is_there(rt, journal.as_str())? {
        let words = format!(in alloc;
            "{journal}: it is there from an earlier export: move it away"
        )?;
        return Err(Fault::Words(REFUSED, words));
    }
    make_folder(rt, folder, exported)?;
    let _held = let_go(rt, folder, name)?;
    line.push(b'\n')?;
    write_whole(rt, exported, path.as_str(), line.as_slice())?;
    write_accounts(rt, folder, text.as_slice())
}

/// Moves the journal of an account whose line is taken out, once no host has the account: none takes it up any more.
fn move_journal(rt: &HostRuntime, folder: &str, exported: &str, name: &str) -> Result<(), Fault> {
    let alloc = rt.alloc();
    let held = let_go(rt, folder, name)?;
    if held.is_some() {
        forget_started(rt, folder, name)?;
    } else {
        let _ = tell_host(rt, folder, "accounts\n", false)?;
    }
    let to = exported_in(rt, exported, name)?;
    if has_journal(rt, folder, name)? {
        let from = journal_in(alloc, folder, name.as_bytes())?;
        let renamed = fs::rename(rt, from.as_str(), to.as_str());
        at_path(alloc, to.as_str(), renamed)?;
        let spare = format!(in alloc; "{from}.new")?;
        remove_if_there(rt, spare.as_str())?;
        let journals = path_in(alloc, folder, JOURNALS)?;
        sync_folder(rt, alloc, exported)?;
        return sync_folder(rt, alloc, journals.as_str());
    }
    if !is_there(rt, to.as_str())? {
        // It has never started.
        write_whole(rt, exported, to.as_str(), b"")?;
    }
    Ok(())
}

/// Takes an account out of a folder, whether a host runs there or not, and puts its line and its journal into DIR/exported, for `import` at another
/// one. A call that was ended midway is gone on with. Answers the program's status.
pub fn export_account(rt: &HostRuntime, folder: &str, name: &str) -> Result<u8, Fault> {
    refuse_bad_name(rt, name)?;
    let _lock = lock_accounts(rt, folder)?;
    let exported = path_in(rt.alloc(), folder, EXPORTED)?;
    take_out(rt, folder, exported.as_str(), name)?;
    move_journal(rt, folder, exported.as_str(), name)?;
    println!(rt; "{exported}/{name}.line\n{exported}/{name}.journal")?;
    Ok(0)
}
