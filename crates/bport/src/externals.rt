//! Externals of an old source that are no functions.
use crate::calls::defines;
use crate::definitions::{Outline, after, after_types, types};
use crate::names::value_of_number;
use crate::pointers::{pointed, pointed_end};
use crate::row::{NoteKind, Row};
use crate::source::{Done, Draft, Source};
use crate::table::NONE;
use crate::tokens::TokenKind;
use btools::Text;
use std::alloc::AllocError;

/// Edits the definitions of externals that begin with a token, and tells the token after them.
pub(crate) fn variables(
    source: &Source<'_>,
    draft: &mut Draft,
    found: &mut Outline,
    at: usize,
    name: usize,
) -> Result<usize, AllocError> {
    let last = source.semicolon(at);
    if last == NONE {
        return Ok(name.wrapping_add(1));
    }
    if name != at {
        draft.remove(source, at, name, Row::Type)?;
        types(source, draft, at, name)?;
    }
    found.externals.push(name)?;
    text_name(source, draft, at, name)?;
    let mut own = name;
    let mut next = name;
    let mut depth: usize = 0;
    for index in name..last {
        if index < next {
            continue;
        }
        depth = match source.word(index) {
            b"{" | b"$(" => depth.saturating_add(1),
            b"}" | b"$)" => depth.saturating_sub(1),
            _ => depth,
        };
        let is_end = name != at && depth == 0 && source.is(index, b",");
        if is_end && !goes_on(source, own, index) {
            found.add(own, index)?;
            own = after_types(source, index.wrapping_add(1));
            next = another(source, draft, found, at, index)?;
        } else {
            next = value_token(source, draft, found, index, last)?;
        }
    }
    found.add(own, last)?;
    Ok(after(last))
}

// Whether another initial value comes after a comma, and no other name.
fn goes_on(source: &Source<'_>, name: usize, comma: usize) -> bool {
    let before = comma.wrapping_sub(1);
    let next = comma.wrapping_add(1);
    match source.kind(next) {
        Some(TokenKind::Number | TokenKind::Char | TokenKind::String) => true,
        Some(TokenKind::Sign) => source.is(next, b"-"),
        Some(TokenKind::Name) => {
            before != name
                && source.is_name(before)
                && matches!(source.word(next.wrapping_add(1)), b"," | b";")
                && defines(source, source.word(next))
        }
        None => false,
    }
}

// Edits the comma before another name of a type, which is an external, or a function that is declared.
fn another(
    source: &Source<'_>,
    draft: &mut Draft,
    found: &mut Outline,
    at: usize,
    comma: usize,
) -> Result<usize, AllocError> {
    let name = after_types(source, comma.wrapping_add(1));
    let open = name.wrapping_add(1);
    let close = source.partner(open);
    if source.is_open_paren(open) && matches!(source.word(close.wrapping_add(1)), b"," | b";") {
        found.take(comma, close);
        draft.comment(source, comma, close, Row::Prototype)?;
        return Ok(close.wrapping_add(1));
    }
    draft.replace(source, comma, b";", Row::Type)?;
    found.externals.push(name)?;
    text_name(source, draft, at, name)?;
    Ok(comma.wrapping_add(1))
}

// Takes the brackets out that a name of characters has before a string.
fn text_name(source: &Source<'_>, draft: &mut Draft, at: usize, name: usize) -> Done {
    let open = name.wrapping_add(1);
    if !source.is(at, b"char") || source.is(name.wrapping_sub(1), b"*") || !is_text(source, name) {
        return Ok(());
    }
    let end = source.end(open.wrapping_add(1));
    draft.put(source.start(open), end, b"", Row::Text)
}

/// Whether a name has empty brackets and one string for its value.
pub(crate) fn is_text(source: &Source<'_>, name: usize) -> bool {
    let open = name.wrapping_add(1);
    let close = open.wrapping_add(1);
    let sign = close.wrapping_add(1);
    let value = if source.is(sign, b"=") {
        sign.wrapping_add(1)
    } else {
        sign
    };
    source.is(open, b"[")
        && source.is(close, b"]")
        && source.kind(value) == Some(TokenKind::String)
        && matches!(source.word(value.wrapping_add(1)), b";" | b",")
}

// Edits a token of a definition of externals, and tells the next one.
fn value_token(
    source: &Source<'_>,
    draft: &mut Draft,
    found: &mut Outline,
    index: usize,
    last: usize,
) -> Result<usize, AllocError> {
    let next = index.wrapping_add(1);
    match source.word(index) {
        b"[" => return Ok(source.partner(index).min(last)),
        b"=" | b"{" | b"}" | b"$(" | b"$)" => {
            draft.remove(source, index, next, Row::Value)?;
            found.take(index, index);
        }
        b"*" => {
            draft.remove(source, index, next, Row::Type)?;
            found.take(index, index);
        }
        b"(" if pointed(source, index) != NONE => {
            draft.remove(source, index, next, Row::Type)?;
            found.take(index, index);
        }
        b")" if pointed(source, source.partner(index)) != NONE => {
            let end = pointed_end(source, source.partner(index));
            draft.put(source.start(index), source.end(end), b"", Row::Type)?;
            found.take(index, end);
            return Ok(end.wrapping_add(1));
        }
        b"-" if source.kind(next) == Some(TokenKind::Number) => {
            negative(source, draft, found, index)?;
        }
        _ => {}
    }
    Ok(next)
}

/// Writes a negative number as the word that it is.
pub(crate) fn negative(
    source: &Source<'_>,
    draft: &mut Draft,
    found: &mut Outline,
    index: usize,
) -> Done {
    let next = index.wrapping_add(1);
    let Some(value) = value_of_number(source.word(next)) else {
        return draft.note(source, index, NoteKind::Number);
    };
    if value == 0 || value > 32768 {
        return draft.note(source, index, NoteKind::Large);
    }
    found.take(index, next);
    let mut text = Text::new(draft.alloc);
    text.push_number(65536 - value)?;
    draft.put_text(source.start(index), source.end(next), text, Row::Number)
}
