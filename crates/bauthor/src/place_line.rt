//! The lines of a file of lines.
ghost use Rattle.std.specs.Prelude.{◌≡◌, ◌==◌, ◌<◌, ◌+◌, IfSome, length, option_map, position};
ghost use Rattle.bauthor.specs.LineFiles.{columned, columns_in, in_column, place_read, whole_line};
ghost use Rattle.bauthor.specs.Readers.{lines_shown};

use crate::number::number_upto;

/// The line of a source that a place comes from.
#[derive(Clone, Copy)]
pub struct PlaceLine {
    /// From 1 on; 0 where it comes from none.
    pub line: u64,
    /// The byte of the line with which it begins, from 1 on, if that is told.
    pub column: Option<u64>,
}

/// What a line of such a file says, if it is one, where no line is above the last one of a source of these lines.
pub(crate) fn place_read(last: u64, source: Option<&[&[u8]]>, text: &[u8]) -> Option<PlaceLine>
    ensures { result ≡ place_read last (lines_shown source.entry) text.now }
{
    match blank_in(text) {
        None => whole_line(number_upto(last, text)),
        Some(blank) => columned(
            source,
            number_upto(last, &text[..blank]),
            &text[blank + 1..],
        ),
    }
}

fn blank_in(text: &[u8]) -> Option<usize>
    ensures value { result ≡ position (λ b. b == 32) text.now }
    ensures within { IfSome result (λ n. n < length text.now) }
{
    text.iter().position(|byte| *byte == b' ')
}

fn whole_line(line: Option<u64>) -> Option<PlaceLine>
    ensures { result ≡ option_map whole_line line }
{
    match line {
        Some(line) => Some(PlaceLine { line, column: None }),
        None => None,
    }
}

// A line, if there is one, with the column that a text is.
fn columned(source: Option<&[&[u8]]>, line: Option<u64>, text: &[u8]) -> Option<PlaceLine>
    ensures { result ≡ columned (lines_shown source.entry) line text.now }
{
    match line {
        Some(line) => in_column(line, number_upto(columns_in(source, line), text)),
        None => None,
    }
}

fn in_column(line: u64, column: Option<u64>) -> Option<PlaceLine>
    ensures { result ≡ in_column line column }
{
    let column = column?;
    if line == 0 || column == 0 {
        return None;
    }
    Some(PlaceLine {
        line,
        column: Some(column),
    })
}

// How many columns a line of the source has.
fn columns_in(source: Option<&[&[u8]]>, line: u64) -> u64
    ensures { result ≡ columns_in (lines_shown source.entry) line }
{
    let Some(lines) = source else {
        return u64::MAX;
    };
    let index = line.saturating_sub(1) as usize;
    match lines.get(index) {
        Some(line) => columns_of(line),
        None => 1,
    }
}

fn columns_of(line: &[u8]) -> u64
    ensures { result ≡ length line.now + 1 }
{
    line.len() as u64 + 1
}
