//! Sources that are read wrongly as long as something in them is no code of any form: nothing of them is edited.
use crate::edit::between;
use crate::meanings::has_pair;
use crate::names::is_keyword;
use crate::pointers::ends_operand;
use crate::row::NoteKind;
use crate::shape::{is_closing, is_opening};
use crate::source::{Done, Draft, Source};
use crate::staying::is_foreign;
use crate::table::NONE;
use crate::tokens::TokenKind;
use crate::within::Within;
use std::alloc::AllocError;

/// Tells why nothing of a source is edited, if nothing is: numbers before its lines, bytes of no form, operators of
/// fractions, strings of several parts, a bracket without the other one of its pair, or a string that goes on to the
/// end of its line.
pub(crate) fn refuse(source: &Source<'_>, draft: &mut Draft) -> Result<bool, AllocError> {
    for index in 0..source.tokens.len() {
        if is_line_number(source, index) {
            draft.note(source, index, NoteKind::Numbered)?;
            return Ok(true);
        }
    }
    for index in 0..source.tokens.len() {
        if matches!(source.word(index), [byte] if is_foreign(*byte)) {
            draft.note(source, index, NoteKind::Accent)?;
        } else if is_fraction(source, index) {
            draft.note(source, index, NoteKind::Fraction)?;
        } else if is_parted(source, index) {
            draft.note(source, index, NoteKind::Parted)?;
        }
    }
    if draft.notes.is_empty() {
        unpaired(source, draft)?;
    }
    if draft.notes.is_empty() && has_open_string(source) {
        star_string(source, draft)?;
    }
    Ok(!draft.notes.is_empty())
}

// Whether a number stands before all else, or before a word at the beginning of a line.
fn is_line_number(source: &Source<'_>, index: usize) -> bool {
    let is_number = source.kind(index) == Some(TokenKind::Number);
    if !is_number || index == 0 {
        return is_number;
    }
    let next = index.wrapping_add(1);
    let is_first = source.places.get(source.start(index)) == Some(&Within::Start);
    let after = between(source.text, source.end(index), source.start(next));
    is_first && source.is_name(next) && !after.contains(&b'\n')
}

// Whether a string goes on in the next line, or another one comes right after it.
fn is_parted(source: &Source<'_>, index: usize) -> bool {
    let word = source.word(index);
    let goes_on = word.ends_with(b"\\\n") || word.ends_with(b"\\\r\n");
    let is_joined = source.kind(index.wrapping_add(1)) == Some(TokenKind::String)
        && !has_pair(word, b'*', b"\"");
    source.kind(index) == Some(TokenKind::String) && (goes_on || is_joined)
}

// Tells the first bracket without the other one of its pair, and a string that may have gone on to it.
fn unpaired(source: &Source<'_>, draft: &mut Draft) -> Done {
    for index in 0..source.tokens.len() {
        let word = source.word(index);
        if (is_opening(word) || is_closing(word)) && source.partner(index) == NONE {
            draft.note(source, index, NoteKind::Bracket)?;
            return star_string(source, draft);
        }
    }
    Ok(())
}

// Whether a string goes on to the end of its line.
fn has_open_string(source: &Source<'_>) -> bool {
    for index in 0..source.tokens.len() {
        let is_string = source.kind(index) == Some(TokenKind::String);
        if is_string && source.word(index).ends_with(b"\n") {
            return true;
        }
    }
    false
}

// Tells the first string with `*"` in it, where other escapes begin with a backslash.
fn star_string(source: &Source<'_>, draft: &mut Draft) -> Done {
    for index in 0..source.tokens.len() {
        let is_string = source.kind(index) == Some(TokenKind::String);
        if is_string && has_pair(source.word(index), b'*', b"\"") {
            return draft.note(source, index, NoteKind::Star);
        }
    }
    Ok(())
}

// Whether a `#` is an operator of fractions, and comes after no keyword and no head of a statement.
fn is_fraction(source: &Source<'_>, index: usize) -> bool {
    let before = index.wrapping_sub(1);
    source.is(index, b"#") && !is_keyword(source.word(before)) && !source.is_head(before)
}

/// Whether an operand of any kind ends with a token.
pub(crate) fn is_operand(source: &Source<'_>, index: usize) -> bool {
    match source.kind(index) {
        Some(TokenKind::Number | TokenKind::Char | TokenKind::String) => true,
        _ => ends_operand(source, index),
    }
}
