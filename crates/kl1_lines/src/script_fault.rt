// Why a script is not run to its end.

use thiserror::Error;

/// Why a script is not run to its end.
#[derive(Clone, Copy, Debug, Drop, Error)]
pub enum ScriptFault {
    /// A read failed.
    #[error("read fault")]
    Read,
    /// A write failed.
    #[error("write fault")]
    Write,
    /// The script has more bytes than one may have.
    #[error("too long")]
    TooLong,
    /// Memory was refused.
    #[error("no memory")]
    Memory,
}
