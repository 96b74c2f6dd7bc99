// Why a text has no layout.

ghost use Rattle.std.specs.Prelude.{◌≡◌};

use std::alloc::AllocError;
use thiserror::Error;

/// Why a text has no layout.
#[derive(Clone, Copy, Debug, Drop, Error)]
pub enum LayoutFault {
    /// A byte on this line, from 1, is no token.
    #[error("no token on line {line}")]
    Broken { line: u64 },
    /// Memory was refused.
    #[error("no memory")]
    Memory,
}

impl From<AllocError> for LayoutFault {
    ghost use Rattle.kl1_layout.specs.declared.layout_fault.LayoutFault.TheVariants.{Memory};

    ghost from_gives = { λ _ e. e ≡ Memory };

    fn from(_refused: AllocError) -> Self
        ensures { result ≡ LayoutFault.Memory }
    {
        LayoutFault::Memory
    }
}
