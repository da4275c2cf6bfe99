//! Exit statuses.
ghost use Rattle.std.specs.Prelude.{◌≡◌};
ghost use Rattle.blang.specs.Compiles.{status_of};

use bword::EndFault;

/// The status with which the program ends.
pub type Status = u8;

/// All went well.
pub const DONE: Status = 0;

/// The source has a fault.
pub const FAULT: Status = 1;

/// The run can't go on.
pub const TRAP: Status = 130;

/// No halt within the limit of steps.
pub const LIMIT: Status = 131;

/// The code text is refused.
pub const REFUSED: Status = 132;

/// A read or a write failed, or a file could not be opened.
pub const DEVICE: Status = 133;

/// Out of memory.
pub const MEMORY: Status = 134;

/// The words are no command line.
pub const WRONG_COMMAND: Status = 135;

/// The status of a refused write.
pub fn of_fault(fault: EndFault) -> Status
    ensures { result ≡ status_of fault }
{
    match fault {
        EndFault::Device => DEVICE,
        EndFault::Memory => MEMORY,
    }
}
