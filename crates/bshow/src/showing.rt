//! Showing the run of a program.
ghost use Rattle.std.specs.Prelude.{◌≡◌, ◌≤◌, IfOk, map};
ghost use Rattle.blang.specs.Layout.{data_end, shape_of};
ghost use Rattle.bsources.specs.Files.{files_shown};
ghost use Rattle.btools.specs.Origins.{origin_shown};
ghost use Rattle.bshow.specs.Facts.{program_text};
ghost use Rattle.bshow.specs.ShowExcluded.{NoPages};
ghost use Rattle.bshow.specs.Shows.{Shows, asked_of, unbegun_page};
ghost use Rattle.bshow.specs.Steps.{ShowsUnbegun};

use crate::ending::push_unbegun;
use crate::facts::push_program;
use crate::page::{BETWEEN, SCRIPT};
use crate::parts::{push_head, push_tail};
use crate::recorder::Recorder;
use bendless::{RecordedWatch, repeat_of, watch_recorded};
use blang::status::{self, Status};
use blang::{Outcome, Trap};
use bsources::SourceFiles;
use btools::{Origin, Program, Tables, Text, read_program, tell, tell_placed};
use bwatch::{TraceRows, Watched};
use bword::{ByteIn, ByteOut};
use std::alloc::{AllocError, Global};

/// What is shown of a run.
#[derive(Clone, Copy)]
pub struct PageRequest<'a> {
    /// The most steps that are made.
    pub steps: u64,
    /// Which of them have a row.
    pub rows: TraceRows,
    /// The files of the source, and how many lines each has.
    pub files: SourceFiles<'a>,
    /// The input, where it is known before the run; else empty.
    pub given: &'a [u8],
    /// What a careful run has found in the step after these, if it has.
    pub finding: Option<&'a [u8]>,
}

/// What is told of a run without a step.
const NO_RUN: &[u8] =
    b",\"calls_at\":0,\"calls\":[0],\"words\":[0],\"heard\":\"\",\"output\":\"\"}";

/// Runs a program for at most so many steps, and writes a page that shows the run, beside the source.
///
/// The status is 0 where the page was written, whatever came of the run, which the page tells. At the limit it tells
/// whether a state comes again, so that the run never ends. Where there is no program the line and the status are
/// those of `go_edition`, or of `run_text` for a code text. If a read failed, there is no page, and the status is 133.
/// If memory was refused, there is no page, either.
pub fn show<I: ByteIn, O: ByteOut, D: ByteOut>(
    alloc: Global,
    source: &[u8],
    origin: Origin<'_>,
    wanted: PageRequest<'_>,
    input: &mut I,
    out: &mut O,
    diag: &mut D,
) -> Status
    ensures shows { Shows (origin_shown origin.entry) source.now (asked_of wanted.entry) (record {
      input = I.incoming input.old;
      input_after = I.incoming input.new;
      out = O.outgoing out.old;
      out_after = O.outgoing out.new;
      line = D.outgoing diag.old;
      line_after = D.outgoing diag.new;
    }) result }
    ensures input_lender { I.lender input.new ≡ I.lender input.old }
    ensures out_lender { O.lender out.new ≡ O.lender out.old }
    ensures diag_lender { D.lender diag.new ≡ D.lender diag.old }
{
    let program = match read_program(alloc, source, origin) {
        Ok(program) => program,
        Err(fault) => return tell_placed(alloc, &fault, wanted.files, diag),
    };
    let Ok(tables) = Tables::new(alloc, &program) else {
        return status::MEMORY;
    };
    let Ok(told) = program_text(alloc, &program, wanted, source) else {
        return status::MEMORY;
    };
    let Ok(mut recorder) = Recorder::new(alloc, &tables, wanted.rows, told) else {
        return status::MEMORY;
    };
    let Ok(ran) = watch_recorded(alloc, &program, wanted.steps, input, &mut recorder) else {
        return status::MEMORY;
    };
    let RecordedWatch { watched, record } = ran;
    let stop = match watched {
        Watched::Ended(stop) => stop,
        Watched::Unbegun(trap) => {
            return show_unbegun(alloc, &program, wanted, source, trap, out);
        }
    };
    match stop.outcome {
        Outcome::Device => return status::DEVICE,
        _ => {}
    }
    let again = repeat_of(alloc, &program.image, &record, stop.outcome);
    let Ok(()) = recorder.push_end(&tables, wanted.finding, again) else {
        return status::MEMORY;
    };
    tell(recorder.rows.page.as_slice(), status::DONE, out)
}

// What a page tells of the program.
fn program_text(
    alloc: Global,
    program: &Program,
    wanted: PageRequest<'_>,
    source: &[u8],
) -> Result<Text, AllocError>
    requires { data_end (map shape_of program.now.definitions.items) ≤ 65536 }
    ensures { IfOk result (λ text. text ≡ program_text (files_shown wanted.entry.files) source.now
        wanted.entry.given.now program.now.definitions.items program.now.names.frames.items) }
{
    let mut text = Text::new(alloc);
    push_program(&mut text, program, wanted.files, source, wanted.given)?;
    Ok(text)
}

// Shows that a run had no first step.
fn show_unbegun<O: ByteOut>(
    alloc: Global,
    program: &Program,
    wanted: PageRequest<'_>,
    source: &[u8],
    trap: Trap,
    out: &mut O,
) -> Status
    requires { data_end (map shape_of program.now.definitions.items) ≤ 65536 }
    ensures shows { ShowsUnbegun (asked_of wanted.entry) source.now program.now.definitions.items
        program.now.names.frames.items trap (O.outgoing out.old) (O.outgoing out.new) result }
    ensures same { O.lender out.new ≡ O.lender out.old }
{
    let Ok(page) = unbegun_page(alloc, program, wanted, source, trap) else {
        return status::MEMORY;
    };
    tell(page.as_slice(), status::DONE, out)
}

// The page of a run that had no first step.
fn unbegun_page(
    alloc: Global,
    program: &Program,
    wanted: PageRequest<'_>,
    source: &[u8],
    trap: Trap,
) -> Result<Text, AllocError>
    requires { data_end (map shape_of program.now.definitions.items) ≤ 65536 }
    ensures { IfOk result (λ page. page ≡ unbegun_page (program_text (files_shown wanted.entry.files) source.now
        wanted.entry.given.now program.now.definitions.items program.now.names.frames.items) trap) }
{
    let mut page = Text::new(alloc);
    push_head(&mut page)?;
    page.push(BETWEEN)?;
    push_unbegun(&mut page, trap)?;
    page.push(SCRIPT)?;
    push_program(&mut page, program, wanted.files, source, wanted.given)?;
    page.push(NO_RUN)?;
    push_tail(&mut page)?;
    Ok(page)
}

/// No page has another status than its run, and none is written where it had to fail.
pub fn wrong_pages_are_excluded()
    ensures { NoPages }
{}
