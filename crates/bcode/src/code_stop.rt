//! Why a code text is read or written no further.
ghost use Rattle.std.specs.Prelude.{◌≡◌};
ghost use Rattle.bcode.specs.Readers.{stop_of};
ghost use Rattle.bcode.specs.declared.fault.CodeFault.TheVariants.{Memory};
ghost use Rattle.bcode.specs.declared.code_stop.CodeStop.TheVariants.{Fault, Device};

use crate::CodeFault;
use bword::EndFault;
use std::alloc::{AllocError, AllocFailed};

/// Why a code text is read or written no further.
#[derive(Clone, Copy, Drop)]
pub enum CodeStop {
    /// The text goes on otherwise, or memory ran out.
    Fault(CodeFault),
    /// A read or a write failed.
    Device,
}

impl From<bword::Device> for CodeStop {
    ghost from_gives = { λ _ stop. stop ≡ Device };

    fn from(_: bword::Device) -> CodeStop {
        CodeStop::Device
    }
}

impl From<EndFault> for CodeStop {
    ghost from_gives = { λ fault stop. stop ≡ stop_of fault };

    fn from(fault: EndFault) -> CodeStop {
        match fault {
            EndFault::Device => CodeStop::Device,
            EndFault::Memory => CodeStop::Fault(CodeFault::Memory),
        }
    }
}

impl From<AllocError> for CodeStop {
    ghost from_gives = { λ _ stop. stop ≡ Fault Memory };

    fn from(_error: AllocError) -> CodeStop {
        CodeStop::Fault(CodeFault::Memory)
    }
}

impl<T: Drop> From<AllocFailed<T>> for CodeStop {
    ghost from_gives = { λ _ stop. stop ≡ Fault Memory };

    fn from(_failed: AllocFailed<T>) -> CodeStop {
        CodeStop::Fault(CodeFault::Memory)
    }
}
