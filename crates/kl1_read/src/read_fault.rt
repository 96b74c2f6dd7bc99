// Why a text is not read.

ghost use Rattle.std.specs.Prelude.{◌≡◌};

use std::alloc::AllocError;
use thiserror::Error;

/// Why a text is not read.
#[derive(Clone, Copy, Debug, Drop, Error)]
pub enum ReadFault {
    /// The text is not what was asked for: the line, from 1, on which its first bad item begins.
    #[error("bad item on line {line}")]
    Bad { line: u64 },
    /// Memory was refused.
    #[error("no memory")]
    Memory,
}

impl From<AllocError> for ReadFault {
    ghost use Rattle.kl1_read.specs.declared.read_fault.ReadFault.TheVariants.{Memory};

    ghost from_gives = { λ _ e. e ≡ Memory };

    fn from(_refused: AllocError) -> Self
        ensures { result ≡ ReadFault.Memory }
    {
        ReadFault::Memory
    }
}
