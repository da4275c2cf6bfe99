//! Why a code text is refused.
ghost use Rattle.std.specs.Prelude.{◌≡◌};
ghost use Rattle.bcode.specs.declared.fault.CodeFault.TheVariants.{Memory};

use std::alloc::{AllocError, AllocFailed};
use thiserror::Error;

/// Why a code text was not read.
#[derive(Clone, Copy, Debug, Drop, PartialEq, Eq, Error)]
pub enum CodeFault {
    /// No code text goes on with this line, or the text ends before the line does. Lines count from 1.
    #[error("code {0}")]
    Line(u64),
    /// Out of memory.
    #[error("memory")]
    Memory,
}

impl From<AllocError> for CodeFault {
    ghost from_gives = { λ _ e. e ≡ Memory };

    fn from(_error: AllocError) -> CodeFault {
        CodeFault::Memory
    }
}

impl<T: Drop> From<AllocFailed<T>> for CodeFault {
    ghost from_gives = { λ _ e. e ≡ Memory };

    fn from(_failed: AllocFailed<T>) -> CodeFault {
        CodeFault::Memory
    }
}
