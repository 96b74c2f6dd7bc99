// Why a batch isn't on disk.

use std::io;

/// Why a batch isn't on disk.
#[derive(Drop)]
pub enum LogError {
    /// A call of the file failed, now or before: it gets nothing more.
    Stopped,
    /// The batch is of another account, or isn't the next: nothing was written.
    NotNext,
    /// Memory was refused for the sums of its lines: nothing was written.
    Memory,
    /// A call of the file failed now.
    Failed(io::Error),
}
