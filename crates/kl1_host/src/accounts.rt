// The accounts of a folder.

use crate::fault::{BAD, Fault, fault_in_folder};
use crate::folder::{ACCOUNTS, path_in, read_file};
use kl1_host_front::{bad_line, read_sums};
use kl1_session::Key;
use std::alloc::Global;
use std::rt::Files;

/// The accounts of a folder.
#[derive(Drop)]
pub struct Accounts {
    /// The bytes of their file.
    pub text: Vec<u8>,
    /// Their names, with the sums of their keys; none if the file has no bytes.
    pub keys: Vec<Key>,
}

/// The accounts of a folder, in the order of the lines of their file.
pub fn accounts_in<R: Files>(rt: &R, alloc: Global, folder: &str) -> Result<Accounts, Fault> {
    let path = path_in(alloc, folder, ACCOUNTS)?;
    let text = match read_file(rt, alloc, path.as_str()) {
        Ok(text) => text,
        Err(error) => return Err(fault_in_folder(alloc, path.as_str(), &error)),
    };
    if text.is_empty() {
        return Ok(Accounts {
            text,
            keys: Vec::new(alloc),
        });
    }
    match read_sums(alloc, text.as_slice())? {
        Some(keys) => Ok(Accounts { text, keys }),
        None => {
            let line = bad_line(alloc, text.as_slice())?;
            let words = format!(in alloc;
                "{path}:{line}: a line has a name, which stands nowhere else, a space, and 64 hexadecimal digits"
            )?;
            Err(Fault::Words(BAD, words))
        }
    }
}
