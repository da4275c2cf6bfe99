//! The counts as they are written.
ghost use Rattle.std.specs.Prelude.{◌≡◌, ◌<◌, ◌+◌, ◌-◌, ◌++◌, IfOk, OnOk, get_or, length, option_map};
ghost use Rattle.bsources.specs.Files.{files_shown, line_shown};
ghost use Rattle.bcount.specs.Marks.{no_code};
ghost use Rattle.bcount.specs.SourceLines.{beside_text};
ghost use Rattle.bcount.specs.Tables.{cells_text, counts_text, file_row, heading_of, hint_of, lines_with_code};
ghost use Rattle.bcount.specs.Tables.{none_text, object_text, row_text, table_text, times_and_steps, total_of};

use crate::lines::LineCount;
use crate::marks::{is_marked, marks_of};
use crate::source::split_line;
use bsources::{FileLine, SourceFiles};
use btools::{Text, push_file, push_quoted, push_source_line};
use std::alloc::{AllocError, Global};

/// How counts are written.
#[derive(Clone, Copy)]
pub enum CountStyle {
    /// For people: a row for each line of the source.
    Table,
    /// For programs: an object a line, for each line of the source that has code.
    Json,
}

/// What is written.
#[derive(Clone, Copy)]
pub struct Table<'a> {
    pub source: &'a [u8],
    /// Whether that is one of B.
    pub is_b: bool,
    pub files: SourceFiles<'a>,
    pub style: CountStyle,
    /// What the code of each line did, and last what code that comes from no line did.
    pub lines: &'a [LineCount],
    /// How many steps were made.
    pub made: u64,
}

/// The columns of a table.
const HEADING: &[u8] = b"    line         times         steps  source\n";

const HINT: &[u8] =
    b"  hint: all code is on one line; b format FILE gives each statement its own\n";

/// The text of the counts.
pub fn table_text(alloc: Global, table: &Table<'_>) -> Result<Text, AllocError>
    ensures { IfOk result (λ text. text ≡ table_text table.now.style table.now.is_b (files_shown table.now.files)
        table.now.source.now table.now.lines.now table.now.made) }
{
    let mut text = Text::new(alloc);
    push_heading(&mut text, table.style)?;
    let marks = marks_of(alloc, table.lines)?;
    let mut rest = table.source;
    let last = table.lines.len().saturating_sub(1);
    for index in 0..last {
        let (line, after) = split_line(rest);
        rest = after;
        let is_marked = is_marked(marks.as_slice(), index);
        push_row(&mut text, table, index, is_marked, line)?;
    }
    let is_marked = is_marked(marks.as_slice(), last);
    push_none(&mut text, table.style, is_marked, last_of(table.lines))?;
    push_total(&mut text, table.style, table.made)?;
    push_hint(&mut text, table)?;
    Ok(text)
}

fn push_heading(text: &mut Text, style: CountStyle) -> Result<(), AllocError>
    ensures { OnOk result (text.new ≡ text.old ++ heading_of style) }
{
    match style {
        CountStyle::Table => text.push(HEADING),
        CountStyle::Json => Ok(()),
    }
}

// The row of a line, with what stands there in the source.
fn push_row(
    text: &mut Text,
    table: &Table<'_>,
    index: usize,
    is_marked: bool,
    source: &[u8],
) -> Result<(), AllocError>
    requires { index < length table.now.lines.now }
    ensures { OnOk result (text.new ≡ text.old ++ row_text table.now.style (files_shown table.now.files) (index + 1)
        (get_or table.now.lines.now index no_code) is_marked source.now) }
{
    let count = table.lines[index];
    let line = index as u64 + 1;
    let at = table.files.own_line(line);
    match table.style {
        CountStyle::Json => push_object(text, at, count),
        CountStyle::Table => {
            push_file_row(text, table.files.beyond_first(line))?;
            push_cells(text, is_marked, at.line, count)?;
            push_beside(text, source)?;
            text.push(b"\n")
        }
    }
}

// The name of a file after the first one, before its first line.
fn push_file_row(text: &mut Text, beyond: Option<FileLine<'_>>) -> Result<(), AllocError>
    ensures { OnOk result (text.new ≡ text.old ++ file_row (option_map line_shown beyond.entry)) }
{
    match beyond {
        Some(at) if at.line == 1 => {
            push_file(text, at.file.as_bytes())?;
            text.push(b"\n")
        }
        _ => Ok(()),
    }
}

// The mark of a line, its number and its counts.
fn push_cells(
    text: &mut Text,
    is_marked: bool,
    line: u64,
    count: LineCount,
) -> Result<(), AllocError>
    ensures { OnOk result (text.new ≡ text.old ++ cells_text is_marked line count) }
{
    text.push(if is_marked { b">" } else { b" " })?;
    text.push_right_number(7, line)?;
    push_counts(text, count)
}

fn push_counts(text: &mut Text, count: LineCount) -> Result<(), AllocError>
    ensures { OnOk result (text.new ≡ text.old ++ counts_text count.times count.steps) }
{
    match count.times {
        None => text.push_blanks(28),
        Some(times) => {
            text.push_right_number(14, times)?;
            text.push_right_number(14, count.steps)
        }
    }
}

fn last_of(lines: &[LineCount]) -> LineCount
    ensures { result ≡ get_or lines.now (length lines.now - 1) no_code }
{
    match lines.last() {
        Some(count) => *count,
        None => LineCount {
            times: None,
            steps: 0,
        },
    }
}

// What code that comes from no line did, if there is some.
fn push_none(
    text: &mut Text,
    style: CountStyle,
    is_marked: bool,
    count: LineCount,
) -> Result<(), AllocError>
    ensures { OnOk result (text.new ≡ text.old ++ none_text style is_marked count) }
{
    let Some(times) = count.times else {
        return Ok(());
    };
    match style {
        CountStyle::Table => {
            text.push(if is_marked { b">   none" } else { b"    none" })?;
            push_counts(text, count)?;
            text.push(b"  code that comes from no line\n")
        }
        CountStyle::Json => {
            text.push(b"{\"line\":0")?;
            push_times(text, times, count.steps)
        }
    }
}

// A line of the source after two blanks.
fn push_beside(text: &mut Text, source: &[u8]) -> Result<(), AllocError>
    ensures { OnOk result (text.new ≡ text.old ++ beside_text source.now) }
{
    text.push(b"  ")?;
    push_source_line(text, source)
}

// The object of a line that has code.
fn push_object(text: &mut Text, at: FileLine<'_>, count: LineCount) -> Result<(), AllocError>
    ensures { OnOk result (text.new ≡ text.old ++ object_text (line_shown at.entry) count) }
{
    let Some(times) = count.times else {
        return Ok(());
    };
    text.push(b"{\"file\":")?;
    push_quoted(text, at.file.as_bytes())?;
    text.push(b",\"line\":")?;
    text.push_number(at.line)?;
    push_times(text, times, count.steps)
}

fn push_times(text: &mut Text, times: u64, steps: u64) -> Result<(), AllocError>
    ensures { OnOk result (text.new ≡ text.old ++ times_and_steps times steps) }
{
    text.push(b",\"times\":")?;
    text.push_number(times)?;
    text.push(b",\"steps\":")?;
    text.push_number(steps)?;
    text.push(b"}\n")
}

fn push_total(text: &mut Text, style: CountStyle, made: u64) -> Result<(), AllocError>
    ensures { OnOk result (text.new ≡ text.old ++ total_of style made) }
{
    match style {
        CountStyle::Table => {
            text.push(b"   total")?;
            text.push_right_number(28, made)?;
            text.push(b"\n")
        }
        CountStyle::Json => Ok(()),
    }
}

// What helps where all code is on one line, so that its counts tell little.
fn push_hint(text: &mut Text, table: &Table<'_>) -> Result<(), AllocError>
    ensures { OnOk result (text.new ≡ text.old ++ hint_of table.now.style table.now.is_b table.now.lines.now) }
{
    match table.style {
        CountStyle::Table if table.is_b && lines_with_code(table.lines) == 1 => text.push(HINT),
        CountStyle::Table | CountStyle::Json => Ok(()),
    }
}

fn lines_with_code(lines: &[LineCount]) -> usize
    ensures { result ≡ lines_with_code lines.now }
{
    lines.iter().filter(|line| line.times.is_some()).count()
}
