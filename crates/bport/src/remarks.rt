//! Comments up to the end of a line, and lines for a preprocessor.
use crate::edit::between;
use crate::names::Constants;
use crate::row::{NoteKind, Row};
use crate::source::{Done, Draft, has_mark};
use crate::staying::is_code;
use crate::tokens::is_letter;
use crate::within::Within;

/// Edits these comments and lines, and keeps the constants that they define.
pub(crate) fn remarks(
    draft: &mut Draft,
    constants: &mut Constants,
    source: &[u8],
    places: &[Within],
) -> Done {
    let mut is_first = true;
    for at in 0..source.len() {
        let next = places.get(at.saturating_add(1));
        match (places.get(at), source[at], next) {
            (Some(place), b'#', _) if is_first && is_code(*place) => {
                line(draft, constants, source, at)?;
            }
            (Some(Within::Code | Within::Slash | Within::CharQuote), b'#', _) => {
                remark(draft, source, at, 1)?;
            }
            (Some(Within::Slash), b'/', Some(Within::Line) | None) => {
                remark(draft, source, at.saturating_sub(1), 2)?;
            }
            _ => {}
        }
        is_first = source[at] == b'\n' || is_first && is_passed(source[at], places, at);
    }
    Ok(())
}

// Whether a byte is a blank, or one of a comment between marks, so that a line for a preprocessor may come after it.
fn is_passed(byte: u8, places: &[Within], at: usize) -> bool {
    match (places.get(at), byte) {
        (Some(Within::Comment | Within::Star), _) | (Some(Within::Slash), b'*') => true,
        (_, b'/') => places.get(at.saturating_add(2)) == Some(&Within::Comment),
        _ => byte.is_ascii_whitespace(),
    }
}

// Puts the marks of a comment around a line whose mark has so many bytes.
fn remark(draft: &mut Draft, source: &[u8], at: usize, marks: usize) -> Done {
    let end = end_of_line(source, at);
    let from = at.saturating_add(marks);
    if has_mark(between(source, from, end)) {
        return draft.note_at(at, NoteKind::Remark);
    }
    draft.put(at, from, b"/*", Row::Remark)?;
    draft.put(end, end, b" */", Row::Remark)
}

fn end_of_line(source: &[u8], at: usize) -> usize {
    for place in at..source.len() {
        if matches!(source[place], b'\n' | b'\r') {
            return place;
        }
    }
    source.len()
}

// A line that begins with `#`.
fn line(draft: &mut Draft, constants: &mut Constants, source: &[u8], at: usize) -> Done {
    let end = end_of_line(source, at);
    let text = between(source, at.saturating_add(1), end).trim_ascii_start();
    match first_word(text) {
        b"define" => define(draft, constants, source, at, end),
        b"if" | b"ifdef" | b"ifndef" => {
            draft.note_at(at, NoteKind::Branches)?;
            directive(draft, source, at, end)
        }
        b"undef" => {
            draft.note_at(at, NoteKind::Twice)?;
            directive(draft, source, at, end)
        }
        b"include" | b"else" | b"endif" | b"pragma" => directive(draft, source, at, end),
        _ => remark(draft, source, at, 1),
    }
}

fn first_word(text: &[u8]) -> &[u8] {
    for index in 0..text.len() {
        if !is_letter(text[index]) && !text[index].is_ascii_digit() {
            return between(text, 0, index);
        }
    }
    text
}

// Makes a comment of the line. A comment that begins in it ends it.
fn directive(draft: &mut Draft, source: &[u8], at: usize, end: usize) -> Done {
    let last = before_comment(source, at, end);
    let tail = between(source, last, end);
    let is_ended = tail.starts_with(b"/*");
    let is_kept = if is_ended {
        after_mark(tail).trim_ascii().is_empty()
    } else {
        !has_mark(tail)
    };
    if !is_kept || has_mark(between(source, at, last)) {
        return draft.note_at(at, NoteKind::Remark);
    }
    draft.put(at, at, b"/* ", Row::Directive)?;
    if is_ended {
        return Ok(());
    }
    draft.put(end, end, b" */", Row::Directive)
}

// What comes after the end of the comment that begins here, if it ends.
fn after_mark(tail: &[u8]) -> &[u8] {
    for place in 2..tail.len() {
        let rest = between(tail, place, tail.len());
        if rest.starts_with(b"*/") {
            return between(rest, 2, rest.len());
        }
    }
    &[]
}

// Where a comment begins in a line, not within quotes, or its end.
fn before_comment(source: &[u8], at: usize, end: usize) -> usize {
    let mut quote: u8 = 0;
    let mut is_escaped = false;
    for place in at..end.min(source.len()) {
        let byte = source[place];
        let rest = between(source, place, end);
        if is_escaped {
            is_escaped = false;
        } else if quote != 0 {
            is_escaped = begins_escape(quote, rest);
            quote = if byte == quote { 0 } else { quote };
        } else if byte == b'"' || byte == b'\'' {
            quote = byte;
        } else if matches!(rest, [b'/', b'*' | b'/', ..]) || byte == b'#' && place > at {
            return place;
        }
    }
    end
}

// A `*` right before the quote that ends a character constant stands for itself.
fn begins_escape(quote: u8, rest: &[u8]) -> bool {
    match rest {
        [b'\\', ..] | [b'*', b'\'', b'\'', ..] => true,
        [b'*', b'\'', ..] => quote != b'\'',
        [b'*', ..] => true,
        _ => false,
    }
}

fn define(
    draft: &mut Draft,
    constants: &mut Constants,
    source: &[u8],
    at: usize,
    end: usize,
) -> Done {
    let last = before_comment(source, at, end);
    let text = between(source, at.saturating_add(1), last).trim_ascii_start();
    let after = between(text, first_word(text).len(), text.len()).trim_ascii_start();
    let name = first_word(after);
    let value = between(after, name.len(), after.len());
    let is_value = !value.trim_ascii().is_empty() && !value.starts_with(b"(");
    if !is_value || between(source, at, end).ends_with(b"\\") {
        draft.note_at(at, NoteKind::Macro)?;
    } else if constants.keep(draft, at, name, value.trim_ascii())? {
        draft.note_at(at, NoteKind::Wrapped)?;
    }
    directive(draft, source, at, end)
}
