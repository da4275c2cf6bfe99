//! Tracing a program.
ghost use Rattle.std.specs.Prelude.{◌≡◌, option_map};
ghost use Rattle.blang.specs.Reports.{run_ends};
ghost use Rattle.bsources.specs.Files.{Files, files_shown};
ghost use Rattle.btools.specs.Functions.{entries_of};
ghost use Rattle.btools.specs.Origins.{origin_shown};
ghost use Rattle.btrace.specs.TraceExcluded.{TracesExcluded};
ghost use Rattle.btrace.specs.Traces.{Traces, which_of};

use crate::legend::Legend;
use crate::tracer::{Tracer, Which};
use bendless::{RecordedWatch, repeat_of, watch_recorded};
use blang::Outcome;
use blang::status::{self, Status};
use brun::finish;
use bsources::SourceFiles;
use btools::{Origin, Tables, read_program, tell, tell_placed};
use bwatch::{TraceRows, Watched};
use bword::{ByteIn, ByteOut};
use std::alloc::Global;

/// The columns of a trace.
const HEADING: &[u8] = b"    step  function place  line  code         operands, signed\n";

/// The message for a name that no function has.
const UNNAMED: &[u8] = b"error: the source has no function of this NAME\n";

/// Which steps are made, and which of them are shown.
#[derive(Clone, Copy)]
pub struct TraceRequest<'a> {
    /// The most steps that are made.
    pub steps: u64,
    /// Which of them have a row.
    pub rows: TraceRows,
    /// The name of the function whose steps are shown; all, if there is none.
    pub function: Option<&'a str>,
    /// The files of the source.
    pub files: SourceFiles<'a>,
}

/// Runs a program for at most so many steps, and writes each step when the run is over.
///
/// The status and the line are those of `go_edition`, but all output goes into the trace. At the limit the last rows tell
/// whether a state comes again, so that the run never ends. If no function has the name, a
/// line says so, and the status is 135. If the run is out of memory, nothing is written.
pub fn trace<I: ByteIn, O: ByteOut, D: ByteOut>(
    alloc: Global,
    source: &[u8],
    origin: Origin<'_>,
    wanted: TraceRequest<'_>,
    input: &mut I,
    out: &mut O,
    diag: &mut D,
) -> Status
    ensures traces { Traces (origin_shown origin.entry) source.now wanted.entry.steps wanted.entry.rows (files_shown wanted.entry.files) (option_map (λ n. n.now) wanted.entry.function) (run_ends
        (I.incoming input.old) (I.incoming input.new) (O.outgoing out.old) (O.outgoing out.new)
        (D.outgoing diag.old) (D.outgoing diag.new)) result }
    ensures input_lender { I.lender input.new ≡ I.lender input.old }
    ensures out_lender { O.lender out.new ≡ O.lender out.old }
    ensures diag_lender { D.lender diag.new ≡ D.lender diag.old }
{
    let program = match read_program(alloc, source, origin) {
        Ok(program) => program,
        Err(fault) => return tell_placed(alloc, &fault, wanted.files, diag),
    };
    let Ok(tables) = Tables::new(alloc, &program) else {
        return status::MEMORY;
    };
    let Some(which) = which_of(&tables, wanted) else {
        return tell(UNNAMED, status::WRONG_COMMAND, diag);
    };
    let legend = Legend {
        tables: &tables,
        files: wanted.files,
    };
    let Ok(mut tracer) = Tracer::new(alloc, HEADING, legend, which) else {
        return status::MEMORY;
    };
    let Ok(ran) = watch_recorded(alloc, &program, wanted.steps, input, &mut tracer) else {
        return status::MEMORY;
    };
    let RecordedWatch { watched, record } = ran;
    let stop = match watched {
        Watched::Ended(stop) => stop,
        Watched::Unbegun(trap) => return finish(Outcome::Trap(trap), diag),
    };
    let again = repeat_of(alloc, &program.image, &record, stop.outcome);
    let Ok(()) = tracer.push_again(&legend, again) else {
        return status::MEMORY;
    };
    let told = tracer.trail.tell(out);
    if told != status::DONE {
        return told;
    }
    finish(stop.outcome, diag)
}

fn which_of(tables: &Tables<'_>, wanted: TraceRequest<'_>) -> Option<Which>
    ensures { result ≡ which_of (entries_of tables.now) wanted.entry.rows (option_map (λ n. n.now) wanted.entry.function) }
{
    let rows = wanted.rows;
    match wanted.function {
        None => Some(Which {
            rows,
            function: None,
        }),
        Some(name) => match tables.named(name) {
            None => None,
            Some(entry) => Some(Which {
                rows,
                function: Some(entry.strings),
            }),
        },
    }
}

/// No trace has the status of other steps, a run that begins is not without its trace, and want of memory is told for no
/// failed read.
pub fn wrong_traces_are_excluded()
    ensures { (files : Files) → TracesExcluded files }
{}
