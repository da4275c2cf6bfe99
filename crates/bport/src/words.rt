//! How many words edits take out of a source, and how many they put in.
ghost use Rattle.std.specs.Prelude.{◌≡◌, [], IfOk};
ghost use Rattle.bport.specs.Words.{are_kept, closes, counted, declares, depth_after, is_of_word, is_type_word, moves};
ghost use Rattle.bport.specs.Words.{opens, words_on};

use crate::edit::{Edit, between};
use crate::row::Row;
use std::alloc::{AllocError, Global};

/// Whether no edit takes more words out than it puts in, but for types, brackets of declarations, and code that moves.
///
/// # Errors
///
/// If memory was refused.
pub(crate) fn are_kept(alloc: Global, source: &[u8], edits: &[Edit]) -> Result<bool, AllocError>
    ensures { IfOk result (λ kept. kept ≡ are_kept source.now 0 0 edits.now) }
{
    let mut out: u64 = 0;
    let mut put: u64 = 0;
    for edit in edits {
        let bytes = between(source, edit.start, edit.end);
        let old = words_in(alloc, bytes, declares(edit.row))?;
        let new = words_in(alloc, edit.text.as_slice(), false)?;
        if moves(edit.row) {
            out = out.saturating_add(old);
            put = put.saturating_add(new);
        } else if old > new {
            return Ok(false);
        }
    }
    Ok(out <= put)
}

fn declares(row: Row) -> bool
    ensures { result ≡ declares row }
{
    matches!(
        row,
        Row::Vector
            | Row::Size
            | Row::Index
            | Row::Text
            | Row::Type
            | Row::Parameters
            | Row::External
    )
}

fn moves(row: Row) -> bool
    ensures { result ≡ moves row }
{
    matches!(row, Row::For | Row::Value)
}

// The words among bytes that are no types, and where it counts also those that stand in no brackets.
fn words_in(alloc: Global, bytes: &[u8], is_counted: bool) -> Result<u64, AllocError>
    ensures { IfOk result (λ count. count ≡ words_on is_counted 0 0 [] bytes.now) }
{
    let mut word: Vec<u8> = Vec::new(alloc);
    let mut depth: u64 = 0;
    let mut count: u64 = 0;
    for byte in bytes {
        if is_of_word(*byte) {
            word.push(*byte)?;
        } else {
            count = counted(depth, count, word.as_slice());
            depth = depth_after(is_counted, depth, *byte);
            word.clear();
        }
    }
    Ok(counted(depth, count, word.as_slice()))
}

/// Whether a byte is a letter, a digit, `_` or `.`.
pub(crate) fn is_of_word(byte: u8) -> bool
    ensures { result ≡ is_of_word byte }
{
    matches!(byte, b'a'..=b'z' | b'A'..=b'Z' | b'0'..=b'9' | b'_' | b'.')
}

fn depth_after(is_counted: bool, depth: u64, byte: u8) -> u64
    ensures { result ≡ depth_after is_counted depth byte }
{
    if is_counted && opens(byte) {
        depth.saturating_add(1)
    } else if is_counted && closes(byte) {
        depth.saturating_sub(1)
    } else {
        depth
    }
}

fn opens(byte: u8) -> bool
    ensures { result ≡ opens byte }
{
    matches!(byte, b'(' | b'[')
}

fn closes(byte: u8) -> bool
    ensures { result ≡ closes byte }
{
    matches!(byte, b')' | b']')
}

fn counted(depth: u64, count: u64, word: &[u8]) -> u64
    ensures { result ≡ counted depth count word.now }
{
    if depth == 0 && !(word == b"".as_slice() || is_type_word(word)) {
        count.saturating_add(1)
    } else {
        count
    }
}

fn is_type_word(word: &[u8]) -> bool
    ensures { result ≡ is_type_word word.now }
{
    word == b"int".as_slice()
        || word == b"char".as_slice()
        || word == b"long".as_slice()
        || word == b"short".as_slice()
        || word == b"unsigned".as_slice()
        || word == b"signed".as_slice()
        || word == b"register".as_slice()
        || word == b"static".as_slice()
        || word == b"const".as_slice()
        || word == b"void".as_slice()
        || word == b"float".as_slice()
        || word == b"double".as_slice()
        || word == b"struct".as_slice()
        || word == b"union".as_slice()
        || word == b"typedef".as_slice()
}
