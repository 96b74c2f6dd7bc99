// Why the server doesn't serve to its end.

ghost use Rattle.std.specs.Prelude.{◌≡◌};
ghost use Rattle.kl1_server_work.specs.StartupErrors.{line_of, status_of};

use std::alloc::{AllocError, AllocFailed};

/// Why the server doesn't serve to its end.
#[derive(Clone, Copy)]
pub enum StartupError {
    /// The words are none that it knows.
    Usage,
    /// The file of accounts is none, or can't be read.
    Accounts,
    /// Nothing can listen at the address.
    Listen,
    /// Memory was refused outside a session.
    Memory,
}

impl StartupError {
    /// What standard error is told, with the line's end.
    pub fn line(self) -> &'static [u8]
        ensures { result.now ≡ line_of self }
    {
        match self {
            StartupError::Usage => b"usage: kl1_server FILE ADDRESS WORKERS ACCEPT\n",
            StartupError::Accounts => b"kl1_server: bad accounts\n",
            StartupError::Listen => b"kl1_server: listen fault\n",
            StartupError::Memory => b"kl1_server: no memory\n",
        }
    }

    /// The program's status.
    pub fn status(self) -> u8
        ensures { result ≡ status_of self }
    {
        match self {
            StartupError::Usage | StartupError::Accounts => 2,
            StartupError::Listen | StartupError::Memory => 1,
        }
    }
}

impl From<AllocError> for StartupError {
    fn from(_refused: AllocError) -> Self {
        StartupError::Memory
    }
}

impl<T: Drop> From<AllocFailed<T>> for StartupError {
    fn from(_refused: AllocFailed<T>) -> Self {
        StartupError::Memory
    }
}
