// What is in the folder of a host.

use std::alloc::{AllocError, Global};
use std::fs::{self, File};
use std::io::{self, Read};
use std::rt::Files;

/// Its settings.
pub const SETTINGS: &str = "host.toml";

/// Its accounts, with the sums of their keys.
pub const ACCOUNTS: &str = "accounts";

/// Its accounts while they are written anew.
pub const NEW_ACCOUNTS: &str = "accounts.new";

/// The names of the accounts that have started before, so that a journal that is missing is told.
pub const STARTED: &str = "started";

/// These names while they are written anew.
pub const NEW_STARTED: &str = "started.new";

/// The file that who changes the accounts has locked.
pub const ACCOUNTS_LOCK: &str = "accounts.lock";

/// The folder of accounts that were exported.
pub const EXPORTED: &str = "exported";

/// The folder of the journals.
pub const JOURNALS: &str = "journals";

/// The file that a host has locked as long as it runs.
pub const LOCK: &str = "lock";

/// The socket at which a host that runs is asked.
pub const SOCKET: &str = "host.sock";

/// The mode of folders: for the owner alone.
pub const FOLDER_MODE: u32 = 0o700;

/// The mode of files: for the owner alone.
pub const FILE_MODE: u32 = 0o600;

/// The path of what has this name in a folder.
pub fn path_in(alloc: Global, folder: &str, name: &str) -> Result<String, AllocError> {
    format!(in alloc; "{folder}/{name}")
}

/// The path of the journal of the account of this name.
pub fn journal_in(alloc: Global, folder: &str, name: &[u8]) -> Result<String, AllocError> {
    format!(in alloc; "{folder}/{JOURNALS}/{}.journal", name.escape_ascii())
}

/// Refuses what is no file, as a pipe, from which a read may never come back. What isn't there isn't refused, and a folder by who reads it.
pub fn refuse_pipe<R: Files>(rt: &R, path: &str) -> io::Result<()> {
    match fs::metadata(rt, path) {
        Ok(attributes) if !attributes.is_file() && !attributes.is_dir() => {
            Err(io::Error::other("Not a file"))
        }
        _ => Ok(()),
    }
}

/// What a file holds.
pub fn read_file<R: Files>(rt: &R, alloc: Global, path: &str) -> io::Result<Vec<u8>> {
    refuse_pipe(rt, path)?;
    let mut bytes = Vec::new(alloc);
    File::open(rt, path)?.read_to_end(&mut bytes)?;
    Ok(bytes)
}

/// The text that a file holds.
pub fn read_text<R: Files>(rt: &R, alloc: Global, path: &str) -> io::Result<String> {
    let mut text = String::new(alloc);
    File::open(rt, path)?.read_to_string(&mut text)?;
    Ok(text)
}
