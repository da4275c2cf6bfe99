//! Statements that are written otherwise here.
use crate::apply::rendered;
use crate::comparisons::EndValue;
use crate::definitions::{Outline, after_types, types};
use crate::edit::is_free;
use crate::externals::negative;
use crate::grids::is_grid;
use crate::lists::listed;
use crate::logic::at_level;
use crate::loops::{Loops, do_loop, for_loop, repeat, turn, while_loop};
use crate::names::{is_type, value_of};
use crate::pointers::{pointed, pointer};
use crate::row::{NoteKind, Row};
use crate::shape::case_colon;
use crate::sizes::one_size;
use crate::source::{Done, Draft, Source};
use crate::table::{NONE, slot};
use crate::tokens::TokenKind;
use crate::turned::has_body;
use btools::Text;
use bword::Edition;
use std::alloc::AllocError;

/// The most cases of a range that are written out.
const MOST_CASES: u64 = 128;

/// Edits the statement that begins with a token, if one does.
pub(crate) fn statement(
    source: &Source<'_>,
    draft: &mut Draft,
    outline: &mut Outline,
    loops: &Loops,
    index: usize,
) -> Done {
    let (before, next) = (index.wrapping_sub(1), index.wrapping_add(1));
    match source.head_word(index) {
        b"return" => {
            if ends_main(source, outline, index) {
                draft.note(source, index, NoteKind::Status)?;
            }
            return_value(source, draft, index)
        }
        b"for" => for_loop(source, draft, loops, index),
        b"do" => do_loop(source, draft, loops, index),
        b"while" if !loops.is_tail(index) => {
            while_loop(
                source,
                draft,
                loops,
                index,
                source.partner(next).wrapping_add(1),
            )
        }
        b"until" | b"unless"
            if has_body(source.text, source.tokens, source.partners, index)
                && is_owned(outline, index) => { draft.note(source, index, NoteKind::Negated) }
        b"repeat" => repeat(source, draft, loops, index),
        b"continue" | b"next" => turn(source, draft, loops, index),
        b"switch" => switch(source, draft, index),
        b"case" => case(source, draft, outline, index),
        b"break" | b"default" if source.edition == Edition::One => {
            draft.note(source, index, NoteKind::Break)
        }
        b"extern" | b"extrn" => external(source, draft, index),
        b"auto" => locals(source, draft, next, next),
        b"[" if !is_owned(outline, index) => one_size(source, draft, index, false),
        b":"
            if source.is_close_brace(next)
                && (source.is_label(before) || source.is(before.wrapping_sub(1), b"case")) => {
            draft.insert(source.end(index), b" ;", Row::Empty)
        }
        word if is_type(word) => declaration(source, draft, outline, index),
        _ => Ok(()),
    }
}

// Whether a token stands in the statement of a function.
fn is_owned(outline: &Outline, index: usize) -> bool {
    slot(&outline.owners, index) != NONE
}

// Whether a `return` of `main` has another value than 0.
fn ends_main(source: &Source<'_>, outline: &Outline, index: usize) -> bool {
    let Some(function) = outline.functions.get(slot(&outline.owners, index)) else {
        return false;
    };
    let next = index.wrapping_add(1);
    let value = if source.is(next, b"(") {
        next.wrapping_add(1)
    } else {
        next
    };
    source.is(function.name, b"main")
        && !source.is(next, b";")
        && source.end_value(value) != Some(EndValue::Zero)
}

// The value of a return, unless it is in parentheses as a whole.
fn return_value(source: &Source<'_>, draft: &mut Draft, index: usize) -> Done {
    let first = index.wrapping_add(1);
    let end = source.semicolon(first);
    let is_closed = source.is(first, b"(") && source.partner(first).wrapping_add(1) == end;
    if end == NONE || end == first || is_closed {
        return Ok(());
    }
    let from = source.end(index);
    if is_free(source.places, from, source.start(first)) {
        draft.put(from, source.start(first), b"(", Row::Return)?;
    } else {
        draft.insert(source.start(first), b"(", Row::Return)?;
    }
    draft.insert(source.end(end.wrapping_sub(1)), b")", Row::Return)
}

// Braces around the cases of a switch that has none.
fn switch(source: &Source<'_>, draft: &mut Draft, index: usize) -> Done {
    let body = source.partner(index.wrapping_add(1)).wrapping_add(1);
    let end = source.statement_end(index);
    if !source.is(body, b"case") || end == NONE {
        return Ok(());
    }
    draft.insert(source.start(body), b"{ ", Row::Switch)?;
    draft.insert(source.end(end.wrapping_sub(1)), b" }", Row::Switch)
}

// A range of cases, and negative ones.
fn case(source: &Source<'_>, draft: &mut Draft, outline: &mut Outline, index: usize) -> Done {
    let first = index.wrapping_add(1);
    let sign = first.wrapping_add(1);
    let last = sign.wrapping_add(1);
    if matches!(source.word(first), b"<" | b"<=" | b">" | b">=") {
        return draft.note(source, first, NoteKind::Range);
    }
    if source.is(first, b"-") && source.kind(sign) == Some(TokenKind::Number) {
        return negative(source, draft, outline, first);
    }
    if !matches!(source.word(sign), b":" | b"::") {
        return draft.note(source, first, NoteKind::Case);
    }
    if source.is(sign, b":") || case_colon(source, index) == NONE {
        return Ok(());
    }
    let from = constant(source, draft, first)?;
    let to = constant(source, draft, last)?;
    let (Some(low), Some(high)) = (single(from.as_slice()), single(to.as_slice())) else {
        return draft.note(source, sign, NoteKind::Range);
    };
    if high <= low || high - low >= MOST_CASES {
        return draft.note(source, sign, NoteKind::Range);
    }
    let mut text = Text::new(draft.alloc);
    for value in low.saturating_add(1)..high.saturating_add(1) {
        text.push(b": case ")?;
        push_constant(&mut text, value, from.as_slice())?;
    }
    draft.put_text(source.end(first), source.end(last), text, Row::Range)
}

// The value of a constant of one plain character, or of a number of few digits.
fn single(word: &[u8]) -> Option<u64> {
    match word {
        [b'\'', b'*' | b'\\', b'\''] => None,
        [b'\'', byte @ b' '..=b'~', b'\''] => Some(*byte as u64),
        [b'0', _, ..] => None,
        _ => value_of(10, word),
    }
}

// What stands here for a token: the value of a constant, if its name is one.
fn constant(source: &Source<'_>, draft: &Draft, index: usize) -> Result<Text, AllocError> {
    if source.is_name(index) {
        return rendered(source, draft, index, index);
    }
    let mut text = Text::new(draft.alloc);
    text.push(source.word(index))?;
    Ok(text)
}

fn push_constant(text: &mut Text, value: u64, first: &[u8]) -> Done {
    match value {
        32..=126 if first.starts_with(b"'") && value != 39 && value != 42 => {
            text.push(&[b'\'', value as u8, b'\''])
        }
        _ => text.push_number(value),
    }
}

// Names of externals in a function, without types and brackets.
fn external(source: &Source<'_>, draft: &mut Draft, index: usize) -> Done {
    let last = source.semicolon(index);
    if last == NONE || !source.begins_statement(index) {
        return Ok(());
    }
    if source.is(index, b"extern") {
        draft.replace(source, index, b"extrn", Row::External)?;
    }
    for at in index.wrapping_add(1)..last {
        let next = at.wrapping_add(1);
        match source.word(at) {
            b"[" | b"(" => {
                let close = source.partner(at).min(last);
                draft.put(source.start(at), source.end(close), b"", Row::External)?;
            }
            b"*" => draft.remove(source, at, next, Row::External)?,
            word if is_type(word) && source.is_name(next) => {
                draft.remove(source, at, next, Row::External)?;
            }
            _ => {}
        }
    }
    Ok(())
}

// `int i;` in a function is `auto i;`.
fn declaration(source: &Source<'_>, draft: &mut Draft, outline: &Outline, index: usize) -> Done {
    let name = after_types(source, index);
    let last = source.semicolon(index);
    let is_inside = is_owned(outline, index) && !outline.is_gone(index);
    let is_typed = name != index && source.is_name(name) && last != NONE;
    if !is_inside || !is_typed || !source.begins_statement(index) {
        return Ok(());
    }
    if source.is(name.wrapping_add(1), b"(") {
        return draft.comment(source, index, last, Row::Prototype);
    }
    if source.is(index, b"static") {
        draft.note(source, index, NoteKind::Static)?;
    }
    types(source, draft, index, name)?;
    if !source.is_plain(index, name) {
        return draft.note(source, index, NoteKind::Remark);
    }
    draft.put(source.start(index), source.start(name), b"auto ", Row::Type)?;
    locals(source, draft, index, name)
}

// The names of a declaration: vectors without brackets, and values as statements after it.
fn locals(source: &Source<'_>, draft: &mut Draft, first: usize, name: usize) -> Done {
    let last = source.semicolon(first);
    if last == NONE {
        return Ok(());
    }
    let mut values = Text::new(draft.alloc);
    let mut next = name;
    for at in name..last {
        if at < next {
            continue;
        }
        let end = at_level(source, at, last, b",");
        local(source, draft, &mut values, at, end)?;
        next = end.wrapping_add(1);
    }
    let place = source.end(last);
    if values.as_slice().is_empty() {
        return Ok(());
    }
    draft.put_text(place, place, values, Row::Value)
}

fn local(
    source: &Source<'_>,
    draft: &mut Draft,
    values: &mut Text,
    from: usize,
    end: usize,
) -> Done {
    let name = after_types(source, from);
    let open = name.wrapping_sub(2);
    if name != from && source.is_name(name) {
        types(source, draft, from, name)?;
        draft.remove(source, from, name, Row::Type)?;
    }
    if pointed(source, open) == name && name != NONE {
        return pointer(source, draft, values, open, end);
    }
    let sign = name.wrapping_add(1);
    match source.word(sign) {
        b"[" => vector(source, draft, values, name, end),
        b"=" if sign < end => value(source, draft, values, name, end),
        _ => Ok(()),
    }
}

// A vector without brackets, with its last index, and a statement for each of its values.
fn vector(
    source: &Source<'_>,
    draft: &mut Draft,
    values: &mut Text,
    name: usize,
    end: usize,
) -> Done {
    if is_grid(source, name) || listed(source, draft, values, name, end)? {
        return Ok(());
    }
    let size = name.wrapping_add(2);
    let close = size.wrapping_add(1);
    if source.partner(name.wrapping_add(1)) != close {
        return one_size(source, draft, name.wrapping_add(1), true);
    }
    draft.put(source.end(name), source.start(size), b" ", Row::Vector)?;
    draft.replace(source, close, b"", Row::Vector)
}

// Makes a statement of the value of a name.
fn value(
    source: &Source<'_>,
    draft: &mut Draft,
    values: &mut Text,
    name: usize,
    end: usize,
) -> Done {
    let sign = name.wrapping_add(1);
    let last = end.wrapping_sub(1);
    if !source.is_plain(name, last) {
        return draft.note(source, name, NoteKind::Loop);
    }
    let text = rendered(source, draft, name, last)?;
    values.push(b" ")?;
    values.push(text.as_slice())?;
    values.push(b";")?;
    draft.put(
        source.end(name),
        source.end(last).max(source.end(sign)),
        b"",
        Row::Value,
    )
}
