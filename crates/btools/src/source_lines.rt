//! Lines of a source, as they are shown.
ghost use Rattle.std.specs.Prelude.{◌≡◌, ◌<◌, ◌-◌, ◌^◌, ◌++◌, IfOk, OnOk, map};
ghost use Rattle.btools.specs.SourceLines.{last_line, line_at, mark_under, newlines_in, plain_byte, shown_line};
ghost use Rattle.btools.specs.SourceLines.{source_lines};

use crate::text::Text;
use std::alloc::{AllocError, Global};

/// The lines of a source, without their newlines.
pub fn split_source(alloc: Global, source: &[u8]) -> Result<Vec<&[u8]>, AllocError>
    ensures { IfOk result (λ lines. map (λ line. line.now) lines.items ≡ source_lines source.now) }
{
    source.split(|byte| *byte == b'\n').collect(alloc)
}

/// The number of the last line of a source. It is none where nothing stands after the last newline.
pub fn last_line(source: &[u8]) -> u64
    ensures { result ≡ last_line source.now }
{
    let newlines = newlines_in(source);
    if source.ends_with(b"\n") {
        newlines
    } else {
        newlines + 1
    }
}

fn newlines_in(source: &[u8]) -> u64
    ensures value { result ≡ newlines_in source.now }
    ensures fits { result < 2 ^ 64 - 1 }
{
    source.iter().filter(|byte| **byte == b'\n').count() as u64
}

/// The line of a source with this number, from 1 on; nothing if the source has fewer.
pub fn line_at(source: &[u8], number: u64) -> &[u8]
    ensures { result.now ≡ line_at source.now number }
{
    let mut lines = source.split(|byte| *byte == b'\n');
    lines.nth(number.saturating_sub(1) as usize).unwrap_or(b"")
}

/// Adds a line of a source, without the white space at its end. A tab is shown as a blank, and what can't be printed
/// as `?`.
pub fn push_source_line(text: &mut Text, line: &[u8]) -> Result<(), AllocError>
    ensures { OnOk result (text.new ≡ text.old ++ shown_line line.now) }
{
    for byte in line.trim_ascii_end() {
        text.push(&[plain_byte(*byte)])?;
    }
    Ok(())
}

/// Adds a mark under a byte of the line before, which has four blanks before it; nothing where its column is 0.
pub fn push_mark(text: &mut Text, column: u64) -> Result<(), AllocError>
    ensures { OnOk result (text.new ≡ text.old ++ mark_under column) }
{
    if column == 0 {
        return Ok(());
    }
    text.push(b"\n    ")?;
    text.push_blanks((column - 1) as usize)?;
    text.push(b"^")
}

// A byte as it is shown.
fn plain_byte(byte: u8) -> u8
    ensures { result ≡ plain_byte byte }
{
    match byte {
        b'\t' => b' ',
        32..=126 => byte,
        _ => b'?',
    }
}
