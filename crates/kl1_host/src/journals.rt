// The journals of a folder are opened.

ghost use Rattle.std.specs.Prelude.{◌≡◌, IfOk};

use crate::faulty_line::{LineFault, fault_in};
use crate::folder::{JOURNALS, journal_in, path_in, read_file, refuse_pipe};
use crate::keyring::Keyring;
use crate::log::Log;
use kl1_host_journals::{OpenFault, open_in_folder};
use kl1_host_work::{AccountFile, Opener};
use kl1_log::FolderFile;
use kl1_pool::{AccountName, Rules};
use kl1_session::Key;
use std::alloc::{AllocError, Global};
use std::fs::{self, File};
use std::io;
use std::rt::Files;
use std::time::Clock;

/// Why the file on this path isn't opened, if that is a line of it.
pub fn why_of<R: Files>(
    rt: &R,
    alloc: Global,
    path: &str,
    fault: &OpenFault,
) -> Result<LineFault, AllocError> {
    if let OpenFault::Line(line) = fault
        && let Ok(text) = read_file(rt, alloc, path)
    {
        return fault_in(alloc, text.as_slice(), *line);
    }
    Ok(LineFault::NoEntry)
}

/// Opens the files of a folder's accounts, by the names of their keys. With a word for the names of files in which what is repaired is kept, a fault
/// of one of the first accounts is repaired.
#[derive(Drop)]
pub struct FolderOpener<'f, R: Files<File = File> + Clock + Eprint> {
    pub log: &'f Log<'f, R>,
    pub folder: &'f str,
    pub keys: &'f Keyring,
    pub firsts: usize,
    pub repair: Option<&'f str>,
}

/// A fault of memory.
fn no_memory(_refused: AllocError) -> OpenFault {
    OpenFault::Failed(io::Error::from(io::ErrorKind::OutOfMemory))
}

/// A fault of a place at which no account stands.
fn no_account() -> OpenFault {
    OpenFault::Failed(io::Error::other("no account"))
}

impl<'f, R: Files<File = File> + Clock + Eprint> FolderOpener<'f, R> {
    /// Opens the file of the account with this key, which is called by its name.
    fn opened(
        &self,
        key: &Key,
        repair: Option<&str>,
    ) -> Result<AccountFile<FolderFile<&'f R>>, OpenFault>
        ensures { IfOk result (λ found. found.name ≡ key.now.name.items) }
    {
        let Log { rt, alloc } = *self.log;
        let Some(name) = AccountName::read(key.name.as_slice()) else {
            return Err(no_account());
        };
        let text = format!(in alloc; "{}", key.name.escape_ascii()).map_err(no_memory)?;
        let journals = path_in(alloc, self.folder, JOURNALS).map_err(no_memory)?;
        let path = journal_in(alloc, self.folder, text.as_bytes()).map_err(no_memory)?;
        if let Err(error) = refuse_pipe(rt, path.as_str()) {
            return Err(OpenFault::Failed(error));
        }
        let opened = open_in_folder(
            rt,
            alloc,
            journals.as_str(),
            text.as_str(),
            Rules::Five,
            repair,
        )?;
        if let Some(line) = opened.repaired() {
            self.log.tell_repaired(text.as_bytes(), line);
        }
        Ok(AccountFile { name, opened })
    }
}

impl<'f, R: Files<File = File> + Clock + Eprint> Opener<FolderFile<&'f R>> for FolderOpener<'f, R> {
    fn open(&self, account: usize) -> Result<AccountFile<FolderFile<&'f R>>, OpenFault> {
        let repair = if account < self.firsts {
            self.repair
        } else {
            None
        };
        match self.keys.keys().get(account) {
            Some(key) => self.opened(key, repair),
            None => Err(no_account()),
        }
    }
}

/// Removes the new files that are kept beside the journals of accounts for resets.
pub fn remove_spares<'r, R: Files<File = File> + Clock + Eprint>(
    log: &Log<'r, R>,
    folder: &str,
    keys: &[Key],
) {
    for key in keys {
        if let Ok(path) = journal_in(log.alloc, folder, key.name.as_slice())
            && let Ok(path) = format!(in log.alloc; "{path}.new")
        {
            let _ = fs::remove_file(log.rt, path.as_str());
        }
    }
}
