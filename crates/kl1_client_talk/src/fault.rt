// Why a talk ends before its commands do.

use std::alloc::{AllocError, AllocFailed};

/// Why a talk ends before its commands do.
#[derive(Clone, Copy)]
pub enum Fault {
    /// The connection ended, or a read or a write on it failed.
    Connection,
    /// What came is no reply.
    Reply,
    /// The commands can't be read, or one of them has too many bytes.
    Commands,
    /// The replies can't be shown.
    Write,
    /// Memory was refused.
    Memory,
}

impl From<AllocError> for Fault {
    fn from(_refused: AllocError) -> Self {
        Fault::Memory
    }
}

impl<T: Drop> From<AllocFailed<T>> for Fault {
    fn from(_refused: AllocFailed<T>) -> Self {
        Fault::Memory
    }
}
