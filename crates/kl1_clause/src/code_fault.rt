// Why a source is not compiled.

use thiserror::Error;

/// Why a source is not compiled.
#[derive(Clone, Copy, Debug, Drop, Error)]
pub enum CodeFault {
    /// The source is no module: the line, from 1, on which its first bad item begins.
    #[error("bad item on line {line}")]
    Bad { line: u64 },
    /// Memory was refused.
    #[error("no memory")]
    Memory,
}
