// Why a task can't be done.

pub use kl1_words::{BAD, Fault};
use std::alloc::Global;
use std::io::{self, ErrorKind};

/// The status if the folder isn't as the task needs it, and of `check` if a journal is at fault.
pub const REFUSED: u8 = 1;

/// The fault of a call of the system on this path.
pub fn fault_at(alloc: Global, path: &str, error: &io::Error) -> Fault {
    if error.kind() == ErrorKind::OutOfMemory {
        return Fault::Memory;
    }
    match format!(in alloc; "{path}: {error}") {
        Ok(words) => Fault::Words(BAD, words),
        Err(_) => Fault::Memory,
    }
}

/// The fault of a call of the system on this path, which is in the folder of a host; if nothing is there, it is told how one is made.
pub fn fault_in_folder(alloc: Global, path: &str, error: &io::Error) -> Fault {
    if error.kind() != ErrorKind::NotFound {
        return fault_at(alloc, path, error);
    }
    match format!(in alloc; "{path}: {error}; kl1_host init DIR makes a folder") {
        Ok(words) => Fault::Words(BAD, words),
        Err(_) => Fault::Memory,
    }
}

/// What a call of the system on this path gave.
pub fn at_path<T>(alloc: Global, path: &str, given: io::Result<T>) -> Result<T, Fault> {
    match given {
        Ok(value) => Ok(value),
        Err(error) => Err(fault_at(alloc, path, &error)),
    }
}
