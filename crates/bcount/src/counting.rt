//! Counting the steps of a program.
ghost use Rattle.std.specs.Prelude.{◌≡◌, IfOk};
ghost use Rattle.blang.specs.Reports.{run_ends};
ghost use Rattle.btools.specs.Origins.{origin_shown};
ghost use Rattle.btools.specs.ProgramLines.{lines_shown};
ghost use Rattle.bcount.specs.Counts.{Counts, asked_of, count_text, is_source};
ghost use Rattle.bcount.specs.CountExcluded.{CountsExcluded};
ghost use Rattle.bcount.specs.Tallies.{tallies_of};
ghost use Rattle.bcount.specs.Together.{StepsAddUp};

use crate::lines::{counted_of, lines_of};
use crate::table::{CountStyle, Table, table_text};
use crate::tallies::Tallies;
use blang::Outcome;
use blang::status::{self, Status};
use brun::finish;
use bsources::SourceFiles;
use btools::{Origin, Tables, Text, last_line, read_program, tell, tell_placed};
use bwatch::{Watched, watch};
use bword::{ByteIn, ByteOut};
use std::alloc::{AllocError, Global};

/// What is counted of a program, and how it is written.
#[derive(Clone, Copy)]
pub struct Counting<'a> {
    /// What the program is read from.
    pub origin: Origin<'a>,
    /// The most steps that are made.
    pub steps: u64,
    /// The files of the source.
    pub files: SourceFiles<'a>,
    pub style: CountStyle,
}

/// Runs a program for at most so many steps, and writes how often each line of the source was made.
///
/// The output of the program is dropped. The line and the status after the counts are those of `go_edition`. If a read
/// fails or the run is out of memory, nothing is written.
pub fn count<I: ByteIn, O: ByteOut, D: ByteOut>(
    alloc: Global,
    source: &[u8],
    counting: Counting<'_>,
    input: &mut I,
    out: &mut O,
    diag: &mut D,
) -> Status
    ensures counts { Counts (asked_of counting.entry) source.now (run_ends
        (I.incoming input.old) (I.incoming input.new) (O.outgoing out.old) (O.outgoing out.new)
        (D.outgoing diag.old) (D.outgoing diag.new)) result }
    ensures input_lender { I.lender input.new ≡ I.lender input.old }
    ensures out_lender { O.lender out.new ≡ O.lender out.old }
    ensures diag_lender { D.lender diag.new ≡ D.lender diag.old }
{
    let program = match read_program(alloc, source, counting.origin) {
        Ok(program) => program,
        Err(fault) => return tell_placed(alloc, &fault, counting.files, diag),
    };
    let Ok(tables) = Tables::new(alloc, &program) else {
        return status::MEMORY;
    };
    let Ok(mut tallies) = Tallies::new(alloc, &tables) else {
        return status::MEMORY;
    };
    let stop = match watch(alloc, &program, counting.steps, input, &mut tallies) {
        Ok(Watched::Ended(stop)) => stop,
        Ok(Watched::Unbegun(trap)) => return finish(Outcome::Trap(trap), diag),
        Err(_) => return status::MEMORY,
    };
    match stop.outcome {
        Outcome::Device => return status::DEVICE,
        _ => {}
    }
    let Ok(text) = text_of(alloc, source, counting, &tables, &tallies, stop.steps) else {
        return status::MEMORY;
    };
    let told = tell(text.as_slice(), status::DONE, out);
    if told != status::DONE {
        return told;
    }
    finish(stop.outcome, diag)
}

// The text of the counts.
fn text_of(
    alloc: Global,
    source: &[u8],
    counting: Counting<'_>,
    tables: &Tables<'_>,
    tallies: &Tallies<'_, '_>,
    made: u64,
) -> Result<Text, AllocError>
    ensures { IfOk result (λ text. text ≡ count_text (asked_of counting.entry) source.now (lines_shown tables.now)
        (tallies_of tallies.now) made) }
{
    let rows = last_line(source) + 1;
    let counted = counted_of(alloc, tables, tallies, rows)?;
    let lines = lines_of(alloc, counted.as_slice(), rows)?;
    let table = Table {
        source,
        is_b: is_source(counting.origin),
        files: counting.files,
        style: counting.style,
        lines: lines.as_slice(),
        made,
    };
    table_text(alloc, &table)
}

// Whether the source is one of B.
fn is_source(origin: Origin<'_>) -> bool
    ensures { result ≡ is_source (origin_shown origin.entry) }
{
    match origin {
        Origin::Source(_) => true,
        Origin::Code(_) => false,
    }
}

/// No count has a step too few or too many, or one of another instruction.
pub fn wrong_counts_are_excluded()
    ensures { CountsExcluded }
{}

/// Each step is counted on one line: the steps of all lines together are those that were made. A code text may have no
/// instruction for its last step, which is on no line then.
pub fn steps_of_all_lines_add_up()
    ensures { StepsAddUp }
{}
