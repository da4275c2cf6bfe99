//! What the code of each line did.
ghost use Rattle.std.specs.Prelude.{◌≡◌, ◌-◌, ◌++◌, IfOk, OnOk, get_or, length, option_map, replicate, set};
ghost use Rattle.std.specs.List.{All};
ghost use Rattle.bcount.specs.Counts.{counted_in, counted_of, line_counts, row_of, with_count};
ghost use Rattle.bcount.specs.Marks.{no_code};
ghost use Rattle.bcount.specs.SourceLines.{IsOnLines};
ghost use Rattle.bcount.specs.Tallies.{tallies_of};
ghost use Rattle.btools.specs.ProgramLines.{lined_entry, lines_shown};

use crate::tallies::Tallies;
use btools::{FunctionEntry, Tables};
use std::alloc::{AllocError, Global};

/// An instruction with the row that it is counted on, and how often it was made.
#[derive(Clone, Copy)]
pub struct Counted {
    /// The line of the source that it comes from, or the row after the last line, if it comes from none.
    pub line: u64,
    pub count: u64,
}

/// What the code of a line did.
#[derive(Clone, Copy)]
pub struct LineCount {
    /// How often its first instruction was made; nothing, if it has none.
    pub times: Option<u64>,
    /// How many steps its instructions took.
    pub steps: u64,
}

/// The counts of all instructions, in order, each on one of the rows: those of the lines, from 1, and one after them.
pub fn counted_of(
    alloc: Global,
    tables: &Tables<'_>,
    tallies: &Tallies<'_, '_>,
    rows: u64,
) -> Result<Vec<Counted>, AllocError>
    ensures { IfOk result (λ v. v.items ≡ counted_of rows (lines_shown tables.now) (tallies_of tallies.now)) }
{
    let entries = tables.entries();
    let mut counted = Vec::new(alloc);
    for number in 0..tallies.counts.len() {
        let entry = entries.get(number).copied();
        let counts = tallies.counts[number].as_slice();
        push_function(&mut counted, tables, entry, counts, rows)?;
    }
    Ok(counted)
}

// The counts of a function.
fn push_function<'a>(
    counted: &mut Vec<Counted>,
    tables: &Tables<'a>,
    entry: Option<FunctionEntry<'a>>,
    counts: &[u64],
    rows: u64,
) -> Result<(), AllocError>
    ensures { OnOk result (counted.new.items ≡ counted.old.items
        ++ counted_in rows (option_map lined_entry entry.entry) counts.now) }
{
    for place in 0..counts.len() {
        counted.push(Counted {
            line: row_of(tables.line(entry, place), rows),
            count: counts[place],
        })?;
    }
    Ok(())
}

// The row of a line of the source. The last row is that of 0, which is none, and a line past the last one is the last.
fn row_of(line: u64, rows: u64) -> u64
    ensures { result ≡ row_of rows line }
{
    match line {
        0 => rows,
        _ => line.min(rows.saturating_sub(1)),
    }
}

/// What the code of each row did, from the first to the last one.
pub fn lines_of(alloc: Global, counted: &[Counted], rows: u64) -> Result<Vec<LineCount>, AllocError>
    requires { All (IsOnLines rows) counted.now }
    ensures { IfOk result (λ v. v.items ≡ line_counts counted.now rows) }
{
    let mut lines = blank_lines(alloc, rows)?;
    for instruction in counted {
        add(&mut lines, *instruction);
    }
    Ok(lines)
}

fn blank_lines(alloc: Global, rows: u64) -> Result<Vec<LineCount>, AllocError>
    ensures { IfOk result (λ v. v.items ≡ replicate rows (record { times = None; steps = 0 })) }
{
    let blank = LineCount {
        times: None,
        steps: 0,
    };
    vec![in alloc; blank; rows as usize]
}

// Adds the count of an instruction to its line.
fn add(lines: &mut Vec<LineCount>, instruction: Counted)
    requires { IsOnLines (length lines.old.items) instruction }
    ensures { lines.new.items ≡ set lines.old.items (instruction.line - 1)
        (with_count (get_or lines.old.items (instruction.line - 1) no_code) instruction.count) }
{
    let index = (instruction.line - 1) as usize;
    let line = lines[index];
    lines[index] = LineCount {
        times: Some(line.times.unwrap_or(instruction.count)),
        steps: line.steps.saturating_add(instruction.count),
    };
}
