//! What calls of the compiler answer.
ghost use Rattle.std.specs.Prelude.{◌≡◌};
ghost use Rattle.bparse.specs.declared.step.Step.TheVariants.{Device, Memory};
ghost use Rattle.bparse.specs.Steps.{refused_step};

use blang::Diagnostic;
use bword::{Device, EndFault, NoMemory};

/// What became of the next definition.
#[derive(Clone, Copy)]
pub enum Step {
    /// Its code was written.
    Written,
    /// There is none, and the last line was written.
    Finished,
    /// It is faulty, or the source is after it.
    Fault(Diagnostic),
    /// A read or a write failed.
    Device,
    /// Out of memory.
    Memory,
    /// There was an answer before that wasn't `Written`.
    Closed,
}

impl From<Device> for Step {
    ghost from_gives = { λ _ step. step ≡ Device };

    fn from(_: Device) -> Self {
        Step::Device
    }
}

impl From<NoMemory> for Step {
    ghost from_gives = { λ _ step. step ≡ Memory };

    fn from(_: NoMemory) -> Self {
        Step::Memory
    }
}

impl From<EndFault> for Step {
    ghost from_gives = { λ fault step. step ≡ refused_step fault };

    fn from(fault: EndFault) -> Self {
        match fault {
            EndFault::Device => Step::Device,
            EndFault::Memory => Step::Memory,
        }
    }
}
