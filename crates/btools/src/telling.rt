//! Texts that are written whole, and their statuses.
ghost use Rattle.std.specs.Prelude.{◌≡◌};
ghost use Rattle.blang.specs.Reports.{Reported};
ghost use Rattle.btools.specs.Programs.{located_status};

use blang::Outcome;
use blang::status::{self, Status};
use bword::ByteOut;

/// Writes a text, and gives this status, or that of a refused write.
pub fn tell<O: ByteOut>(text: &[u8], status: Status, out: &mut O) -> Status
    ensures told { Reported text.now status (O.outgoing out.old) (O.outgoing out.new) result }
    ensures same { O.lender out.new ≡ O.lender out.old }
{
    match out.put(text) {
        Ok(()) => status,
        Err(fault) => status::of_fault(fault),
    }
}

/// The status of an outcome that is at a place of the program.
pub fn located_status(outcome: Outcome) -> Option<Status>
    ensures { result ≡ located_status outcome }
{
    match outcome {
        Outcome::Trap(_) => Some(status::TRAP),
        Outcome::Limit => Some(status::LIMIT),
        Outcome::Exit(_) | Outcome::Device | Outcome::Memory => None,
    }
}
