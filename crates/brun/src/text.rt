//! Running a code text.
ghost use Rattle.std.specs.Prelude.{◌≡◌};
ghost use Rattle.blang.specs.Reports.{Finishes, run_ends};
ghost use Rattle.brun.specs.Runs.{RunsDefinitions, RunsText, NotRead};

use crate::report::{number_of, write_report};
use bcode::{CodeFault, read_code};
use blang::status::{self, Status};
use blang::{Definition, Outcome, Report};
use bmach::{load, run};
use bpages::PagedStore;
use bword::{ByteIn, ByteOut};
use std::alloc::Global;

/// Runs a code text for at most so many steps.
///
/// The status is that of the program, or 130 after a trap, 131 at the limit, and 132 for a text that is no code text or
/// doesn't load. These three have a line. It is 133 if a read or a write failed, and 134 if memory ran out.
pub fn run_text<I: ByteIn, O: ByteOut, D: ByteOut>(
    alloc: Global,
    code: &[u8],
    input: &mut I,
    out: &mut O,
    diag: &mut D,
    steps: u64,
) -> Status
    ensures runs { RunsText steps code.now (run_ends
        (I.incoming input.old) (I.incoming input.new) (O.outgoing out.old) (O.outgoing out.new)
        (D.outgoing diag.old) (D.outgoing diag.new)) result }
    ensures input_lender { I.lender input.new ≡ I.lender input.old }
    ensures out_lender { O.lender out.new ≡ O.lender out.old }
    ensures diag_lender { D.lender diag.new ≡ D.lender diag.old }
{
    match read_code(alloc, code) {
        Ok(definitions) => run_definitions(alloc, definitions, input, out, diag, steps),
        Err(fault) => refuse(fault, diag),
    }
}

/// The status of a text that was not read, and its line if it is no code text.
pub(crate) fn refuse<D: ByteOut>(fault: CodeFault, diag: &mut D) -> Status
    ensures gives { NotRead fault (D.outgoing diag.old) (D.outgoing diag.new) result }
    ensures diag_lender { D.lender diag.new ≡ D.lender diag.old }
{
    match fault {
        CodeFault::Line(line) => write_report(Report::Code(line), status::REFUSED, diag),
        CodeFault::Memory => status::MEMORY,
    }
}

/// Runs definitions, if they load.
pub(crate) fn run_definitions<I: ByteIn, O: ByteOut, D: ByteOut>(
    alloc: Global,
    definitions: Vec<Definition>,
    input: &mut I,
    out: &mut O,
    diag: &mut D,
    steps: u64,
) -> Status
    ensures runs { RunsDefinitions steps definitions.items (run_ends
        (I.incoming input.old) (I.incoming input.new) (O.outgoing out.old) (O.outgoing out.new)
        (D.outgoing diag.old) (D.outgoing diag.new)) result }
    ensures input_lender { I.lender input.new ≡ I.lender input.old }
    ensures out_lender { O.lender out.new ≡ O.lender out.old }
    ensures diag_lender { D.lender diag.new ≡ D.lender diag.old }
{
    let image = match load(alloc, definitions) {
        Ok(image) => image,
        Err(fault) => {
            return match number_of(&fault) {
                Some(number) => write_report(Report::Load(number), status::REFUSED, diag),
                None => status::MEMORY,
            };
        }
    };
    let Ok(store) = PagedStore::new(alloc) else {
        return status::MEMORY;
    };
    let outcome = run(alloc, &image, store, input, out, steps);
    finish(outcome, diag)
}

/// Writes the line of an outcome, if it has one, and gives its status.
pub fn finish<D: ByteOut>(outcome: Outcome, diag: &mut D) -> Status
    ensures gives { Finishes outcome (D.outgoing diag.old) (D.outgoing diag.new) result }
    ensures diag_lender { D.lender diag.new ≡ D.lender diag.old }
{
    match outcome {
        Outcome::Exit(status) => status,
        Outcome::Trap(trap) => write_report(Report::Trap(trap), status::TRAP, diag),
        Outcome::Limit => write_report(Report::Limit, status::LIMIT, diag),
        Outcome::Device => status::DEVICE,
        Outcome::Memory => status::MEMORY,
    }
}
