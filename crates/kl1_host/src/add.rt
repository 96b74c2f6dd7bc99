// An account is added.

use crate::accounts::{Accounts, accounts_in};
use crate::accounts_file::{
    forget_started, has_journal, lock_accounts, prepare_accounts, rename_accounts,
};
use crate::fault::{BAD, Fault, REFUSED};
use crate::folder::{NEW_ACCOUNTS, journal_in, path_in};
use crate::letting_go::tell_host;
use base64::engine::general_purpose::URL_SAFE_NO_PAD;
use kl1_host_front::{put_account, read_sums};
use kl1_model::limits::MOST_ACCOUNTS;
use std::fs;
use std::random::RandomSource;

/// The random bytes of a key.
const KEY_BYTES: usize = 24;

/// A new key: random bytes as text.
pub fn new_key(rt: &HostRuntime) -> Result<String, Fault> {
    let mut bytes = [0u8; KEY_BYTES];
    rt.fill_bytes(&mut bytes)?;
    Ok(URL_SAFE_NO_PAD.encode(rt.alloc(), &bytes)?)
}

/// Refuses a name that an account has already, and one account more than there may be.
fn refuse_used(rt: &HostRuntime, accounts: &Accounts, name: &str) -> Result<(), Fault> {
    for key in &accounts.keys {
        if key.name.as_slice() == name.as_bytes() {
            let words = format!(in rt.alloc(); "there is an account {name} already")?;
            return Err(Fault::Words(REFUSED, words));
        }
    }
    if accounts.keys.len() >= MOST_ACCOUNTS {
        let words = format!(in rt.alloc(); "there are {MOST_ACCOUNTS} accounts already, the most")?;
        return Err(Fault::Words(REFUSED, words));
    }
    Ok(())
}

/// The file of accounts with one more at its end.
fn text_with(
    rt: &HostRuntime,
    accounts: Accounts,
    name: &str,
    key: &str,
) -> Result<Vec<u8>, Fault> {
    let alloc = rt.alloc();
    let count = accounts.keys.len();
    let mut text = accounts.text;
    if !text.is_empty() && !text.ends_with(b"\n") {
        text.push(b'\n')?;
    }
    put_account(&mut text, name.as_bytes(), key.as_bytes())?;
    match read_sums(alloc, text.as_slice())? {
        // A name with a line feed in it could be two accounts.
        Some(keys) if keys.len() - 1 == count => Ok(text),
        _ => {
            let words = format!(in alloc;
                "'{}' is no name: one has a small letter, and then small letters and digits, at most 16 in all",
                name.escape_debug()
            )?;
            Err(Fault::Words(BAD, words))
        }
    }
}

/// Writes a key to standard output. If that fails, the new file of accounts goes again.
pub fn put_key(rt: &HostRuntime, folder: &str, key: &str) -> Result<(), Fault> {
    if let Err(error) = println!(rt; "{key}") {
        let new = path_in(rt.alloc(), folder, NEW_ACCOUNTS)?;
        let _ = fs::remove_file(rt, new.as_str());
        return Err(error.into());
    }
    Ok(())
}

/// Refuses a name of which there is a journal, which would become that of the new account.
fn refuse_journal(rt: &HostRuntime, folder: &str, name: &str) -> Result<(), Fault> {
    if !has_journal(rt, folder, name)? {
        return Ok(());
    }
    let path = journal_in(rt.alloc(), folder, name.as_bytes())?;
    let words = format!(in rt.alloc();
        "{path}: it is there already, of an account that left, or that is to: go on with that, or move it away"
    )?;
    Err(Fault::Words(REFUSED, words))
}

/// Adds an account, writes its key to standard output, and answers the program's status. The key is nowhere else, and comes before the
/// account: whenever this ends, there is no account whose key nobody has. A host that runs there lets it in.
pub fn add_account(rt: &HostRuntime, folder: &str, name: &str) -> Result<u8, Fault> {
    let _lock = lock_accounts(rt, folder)?;
    let accounts = accounts_in(rt, rt.alloc(), folder)?;
    refuse_used(rt, &accounts, name)?;
    let key = new_key(rt)?;
    let text = text_with(rt, accounts, name, key.as_str())?;
    refuse_journal(rt, folder, name)?;
    // Of one of this name that was removed.
    forget_started(rt, folder, name)?;
    prepare_accounts(rt, folder, text.as_slice())?;
    put_key(rt, folder, key.as_str())?;
    rename_accounts(rt, folder)?;
    Ok(tell_host(rt, folder, "accounts\n", false)?.unwrap_or(0))
}
