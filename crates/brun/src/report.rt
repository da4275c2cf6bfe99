//! The line that tells why a run has no end of its own.
ghost use Rattle.std.specs.Prelude.{◌≡◌, ◌≤◌, length};
ghost use Rattle.blang.specs.Reports.{Reported, report_text, trap_letters, load_number};

use arrayvec::ArrayString;
use blang::status::{self, Status};
use blang::{LoadFault, Report, Trap};
use bword::ByteOut;
use itoa::Buffer;

/// Room for the longest line.
const REPORT_LEN: usize = 64;

/// Writes the line, and gives this status, or that of a refused write.
pub(crate) fn write_report<D: ByteOut>(report: Report, status: Status, diag: &mut D) -> Status
    ensures gives { Reported (report_text report) status (D.outgoing diag.old) (D.outgoing diag.new) result }
    ensures same { D.lender diag.new ≡ D.lender diag.old }
{
    match diag.put(line(report).as_str().as_bytes()) {
        Ok(()) => status,
        Err(fault) => status::of_fault(fault),
    }
}

fn line(report: Report) -> ArrayString<REPORT_LEN>
    ensures { result.bytes ≡ report_text report }
{
    let mut line = ArrayString::new();
    match report {
        Report::Code(number) => {
            line.push_str("code ");
            line.push_str(Buffer::new().format(number));
        }
        Report::Load(number) => {
            line.push_str("load ");
            line.push_str(Buffer::new().format(number));
        }
        Report::Trap(trap) => {
            line.push_str("trap ");
            line.push_str(letters(trap));
        }
        Report::Limit => line.push_str("limit"),
    }
    line.push_str("\n");
    line
}

fn letters(trap: Trap) -> &'static str
    ensures text { result.now ≡ trap_letters trap }
    ensures two { length result.now ≡ 2 }
{
    match trap {
        Trap::ZeroDivisor => "dz",
        Trap::NotAFunction => "fn",
        Trap::NotALabel => "gt",
        Trap::NoRoom => "st",
        Trap::TooDeep => "dp",
        Trap::BadBase => "bs",
        Trap::Stuck => "sk",
    }
}

/// The number of a reason; none if memory ran out.
pub(crate) fn number_of(fault: &LoadFault) -> Option<u8>
    ensures { result ≡ load_number fault.now }
{
    match fault {
        LoadFault::Duplicate(_) => Some(1),
        LoadFault::TooLarge => Some(2),
        LoadFault::Undefined(_) => Some(3),
        LoadFault::NoMain => Some(4),
        LoadFault::Memory => None,
    }
}
