// An account gets another key, or is removed.

use crate::accounts_file::{
    accounts_with, forget_started, has_journal, lock_accounts, prepare_accounts, refuse_bad_name,
    refuse_unknown, remove_if_there, rename_accounts, without_line, write_accounts,
};
use crate::add::{new_key, put_key};
use crate::fault::{Fault, at_path};
use crate::folder::{JOURNALS, journal_in, path_in};
use crate::letting_go::{let_go, tell_host};
use crate::new_file::sync_folder;
use crate::repair::word_of_now;
use kl1_host_front::put_account;
use std::fs;

/// Gives an account another key, writes it to standard output, and answers the program's status. As with a new account the key comes first.
pub fn rekey_account(rt: &HostRuntime, folder: &str, name: &str) -> Result<u8, Fault> {
    refuse_bad_name(rt, name)?;
    let _lock = lock_accounts(rt, folder)?;
    let accounts = accounts_with(rt, folder, name)?;
    let key = new_key(rt)?;
    let (mut text, _) = without_line(rt.alloc(), accounts.text.as_slice(), name)?;
    put_account(&mut text, name.as_bytes(), key.as_bytes())?;
    prepare_accounts(rt, folder, text.as_slice())?;
    put_key(rt, folder, key.as_str())?;
    rename_accounts(rt, folder)?;
    Ok(tell_host(rt, folder, "accounts\n", false)?.unwrap_or(0))
}

/// Puts the journal of an account that is gone aside: NAME.journal.SECONDS.removed.
fn put_aside(rt: &HostRuntime, folder: &str, name: &str) -> Result<(), Fault> {
    let alloc = rt.alloc();
    if !has_journal(rt, folder, name)? {
        return Ok(());
    }
    let path = journal_in(alloc, folder, name.as_bytes())?;
    let word = word_of_now(rt, alloc)?;
    let to = format!(in alloc; "{path}.{word}.removed")?;
    let renamed = fs::rename(rt, path.as_str(), to.as_str());
    at_path(alloc, to.as_str(), renamed)?;
    let spare = format!(in alloc; "{path}.new")?;
    remove_if_there(rt, spare.as_str())?;
    let journals = path_in(alloc, folder, JOURNALS)?;
    sync_folder(rt, alloc, journals.as_str())
}

/// Removes an account: its line goes first, then the host lets it go, if one runs, and then its journal is put aside. One that was ended midway is
/// gone on with. Answers the program's status.
pub fn remove_account(rt: &HostRuntime, folder: &str, name: &str) -> Result<u8, Fault> {
    refuse_bad_name(rt, name)?;
    let _lock = lock_accounts(rt, folder)?;
    match accounts_with(rt, folder, name) {
        Ok(accounts) => {
            let (text, _) = without_line(rt.alloc(), accounts.text.as_slice(), name)?;
            write_accounts(rt, folder, text.as_slice())?;
        }
        Err(fault) => {
            if !has_journal(rt, folder, name)? {
                return Err(fault);
            }
        }
    }
    let held = let_go(rt, folder, name)?;
    if held.is_some() {
        forget_started(rt, folder, name)?;
    } else {
        let _ = tell_host(rt, folder, "accounts\n", false)?;
    }
    put_aside(rt, folder, name)?;
    Ok(0)
}

/// The fault of an account that isn't there.
pub fn unknown(rt: &HostRuntime, folder: &str, name: &str) -> Fault {
    match refuse_unknown(rt.alloc(), folder, name) {
        Ok(fault) => fault,
        Err(fault) => fault,
    }
}
