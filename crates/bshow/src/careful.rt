//! The page of a careful run.
ghost use Rattle.std.specs.Prelude.{◌≡◌};
ghost use Rattle.bshow.specs.CarefulExcluded.{NoCarefulPages};
ghost use Rattle.bshow.specs.CarefulPages.{ShowsCarefully, asked_up_to};
ghost use Rattle.bshow.specs.Shows.{asked_of};
ghost use Rattle.btools.specs.Origins.{origin_shown};

use crate::showing::{PageRequest, show};
use bcareful::{Care, SilentRun, find_first};
use bendless::Extent;
use blang::Outcome;
use blang::status::{self, Status};
use btools::{Origin, Tables, read_program, tell_placed};
use bword::{ByteIn, ByteOut, MemIn};
use std::alloc::Global;

/// Runs a program carefully, in silence, and then writes the page of the steps before its first finding,
/// which the page tells; or, where there is none, that of the whole run.
///
/// The status is that of `show`, and so is the line where there is no program. A run that reads more than is kept
/// of its input (`bendless` keeps 2 MB) is out of memory.
pub fn show_careful<I: ByteIn, O: ByteOut, D: ByteOut>(
    alloc: Global,
    source: &[u8],
    origin: Origin<'_>,
    care: Care,
    wanted: PageRequest<'_>,
    input: &mut I,
    out: &mut O,
    diag: &mut D,
) -> Status
    ensures shows { ShowsCarefully care (origin_shown origin.entry) source.now (asked_of wanted.entry) (record {
      input = I.incoming input.old;
      input_after = I.incoming input.new;
      out = O.outgoing out.old;
      out_after = O.outgoing out.new;
      line = D.outgoing diag.old;
      line_after = D.outgoing diag.new;
    }) result }
    ensures input_lender { I.lender input.new ≡ I.lender input.old }
    ensures out_lender { O.lender out.new ≡ O.lender out.old }
    ensures diag_lender { D.lender diag.new ≡ D.lender diag.old }
{
    let program = match read_program(alloc, source, origin) {
        Ok(program) => program,
        Err(fault) => return tell_placed(alloc, &fault, wanted.files, diag),
    };
    let Ok(tables) = Tables::new(alloc, &program) else {
        return status::MEMORY;
    };
    let silent = match find_first(alloc, &program, &tables, care, wanted.steps, input) {
        Ok(silent) => silent,
        Err(why) => match why {
            Outcome::Memory => return status::MEMORY,
            _ => return show(alloc, source, origin, wanted, input, out, diag),
        },
    };
    match silent.stop.outcome {
        Outcome::Device => return status::DEVICE,
        Outcome::Memory => return status::MEMORY,
        _ => {}
    }
    match silent.read.extent {
        Extent::Whole => {}
        _ => return status::MEMORY,
    }
    let found = up_to(wanted, &silent);
    let mut read = MemIn::new(silent.read.bytes.as_slice());
    show(alloc, source, origin, found, &mut read, out, diag)
}

// What is asked of the page of a run that was made in silence.
fn up_to<'a>(wanted: PageRequest<'a>, silent: &'a SilentRun) -> PageRequest<'a>
    ensures { asked_of result ≡ asked_up_to (asked_of wanted.entry) silent.now.stop silent.now.meaning }
{
    match &silent.meaning {
        None => wanted,
        Some(meaning) => PageRequest {
            steps: silent.stop.steps,
            rows: wanted.rows,
            files: wanted.files,
            given: wanted.given,
            finding: Some(meaning.as_slice()),
        },
    }
}

/// No page of a careful run has 0 without a page, or for a source that has no program, or 1 with another line than that
/// of its fault.
pub fn wrong_careful_pages_are_excluded()
    ensures { NoCarefulPages }
{}
