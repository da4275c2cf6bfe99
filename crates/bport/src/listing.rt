//! The list of what was changed, and of what was left.
ghost use Rattle.std.specs.Prelude.{◌≡◌, ◌++◌, [], OnOk};
ghost use Rattle.bport.specs.Changes.{is_told, line_on, listed, newlines, row_text, told_of, told_once, with_row};
ghost use Rattle.bport.specs.Staying.{note_row, notes_text};

use crate::edit::{Edit, between};
use crate::row::{Note, NoteKind, Row};
use btools::{Text, push_file};
use memchr::memchr_iter;
use std::alloc::{AllocError, Global};

/// Adds the list of edits of a source, which has this name: the line of each, and a sentence on it.
pub fn push_changes(
    alloc: Global,
    text: &mut Text,
    file: &str,
    source: &[u8],
    edits: &[Edit],
) -> Result<(), AllocError>
    ensures { OnOk result (text.new ≡ text.old ++ listed file.now source.now 1 0 [] edits.now) }
{
    let mut line: u64 = 1;
    let mut at: usize = 0;
    let mut rows: Vec<Row> = Vec::new(alloc);
    for edit in edits {
        let next = line_on(source, line, at, edit.start);
        forget(&mut rows, line, next);
        push_once(text, &mut rows, file, next, edit.row)?;
        line = next;
        at = edit.start;
    }
    Ok(())
}

// The line of a place, counted on from another one.
fn line_on(source: &[u8], line: u64, at: usize, start: usize) -> u64
    ensures { result ≡ line_on source.now line at start }
{
    line.saturating_add(newlines(between(source, at, start)))
}

fn newlines(bytes: &[u8]) -> u64
    ensures { result ≡ newlines bytes.now }
{
    memchr_iter(b'\n', bytes).count() as u64
}

// Takes away what was told of a line, at another line.
fn forget(rows: &mut Vec<Row>, line: u64, next: u64)
    ensures { rows.new.items ≡ told_of line next rows.old.items }
{
    if line != next {
        rows.clear();
    }
}

fn push_once(
    text: &mut Text,
    rows: &mut Vec<Row>,
    file: &str,
    line: u64,
    row: Row,
) -> Result<(), AllocError>
    ensures text { OnOk result (text.new ≡ text.old ++ told_once rows.old.items file.now line row) }
    ensures rows { OnOk result (rows.new.items ≡ with_row rows.old.items row) }
{
    if is_told(rows.as_slice(), row) {
        return Ok(());
    }
    push_row(text, file, line, row)?;
    rows.push(row)?;
    Ok(())
}

fn is_told(rows: &[Row], row: Row) -> bool
    ensures { result ≡ is_told rows.now row }
{
    for told in rows {
        if told.sentence() == row.sentence() {
            return true;
        }
    }
    false
}

fn push_row(text: &mut Text, file: &str, line: u64, row: Row) -> Result<(), AllocError>
    ensures { OnOk result (text.new ≡ text.old ++ row_text file.now line row) }
{
    push_file(text, file.as_bytes())?;
    text.push(b":")?;
    text.push_number(line)?;
    text.push(b": ported: ")?;
    text.push(row.sentence())?;
    text.push(b"\n")
}

/// Adds a row for each note.
pub fn push_notes(
    text: &mut Text,
    file: &str,
    source: &[u8],
    notes: &[Note],
) -> Result<(), AllocError>
    ensures { OnOk result (text.new ≡ text.old ++ notes_text file.now source.now notes.now) }
{
    let mut line: u64 = 1;
    let mut at: usize = 0;
    for note in notes {
        line = line_from(source, line, at, note.start);
        at = note.start;
        push_note(text, file, line, note.kind)?;
    }
    Ok(())
}

// The line of a place, from a place that has this line.
fn line_from(source: &[u8], line: u64, at: usize, start: usize) -> u64
    requires { line ≡ line_on source.now 1 0 at }
    ensures { result ≡ line_on source.now 1 0 start }
{
    if at <= start {
        line_on(source, line, at, start)
    } else {
        line_on(source, 1, 0, start)
    }
}

fn push_note(text: &mut Text, file: &str, line: u64, kind: NoteKind) -> Result<(), AllocError>
    ensures { OnOk result (text.new ≡ text.old ++ note_row file.now line kind) }
{
    push_file(text, file.as_bytes())?;
    text.push(b":")?;
    text.push_number(line)?;
    text.push(b": left: ")?;
    text.push(kind.sentence())?;
    text.push(b"\n")
}
