//! Edits of the first file of a source.
ghost use Rattle.std.specs.Prelude.{◌≡◌, ◌≤◌, ◌+◌, ◌++◌, IfOk, drop, length, take};
ghost use Rattle.bfix.specs.OwnText.{ends_lines, lines_after, own_length};

use btools::Text;
use std::alloc::{AllocError, Global};

/// A text with these words in the place of some of its bytes.
pub(crate) fn edited(
    alloc: Global,
    old: &[u8],
    start: usize,
    len: usize,
    words: &[u8],
) -> Result<Text, AllocError>
    requires { start + len ≤ length old.now }
    ensures { IfOk result (λ text. text ≡ take start old.now ++ (words.now ++ drop (start + len) old.now)) }
{
    let mut text = Text::new(alloc);
    text.push(&old[..start])?;
    text.push(words)?;
    text.push(&old[start + len..])?;
    Ok(text)
}

/// How many bytes so many lines have, without the newline after the last one.
pub(crate) fn own_length(text: &[u8], lines: u64) -> usize
    ensures equation { result ≡ own_length lines text.now }
    ensures within { result ≤ length text.now }
{
    let mut left = lines;
    for index in 0..text.len() {
        if ends_lines(left, text[index]) {
            return index;
        }
        left = lines_after(left, text[index]);
    }
    text.len()
}

// Whether a byte is the newline after the last one of so many lines.
fn ends_lines(lines: u64, byte: u8) -> bool
    ensures { result ≡ ends_lines lines byte }
{
    byte == b'\n' && lines <= 1
}

// How many of so many lines come after a byte.
fn lines_after(lines: u64, byte: u8) -> u64
    ensures { result ≡ lines_after lines byte }
{
    if byte == b'\n' {
        lines.saturating_sub(1)
    } else {
        lines
    }
}
