//! Character constants and strings.
use crate::edit::{between, escape_for, is_octal, octal_value};
use crate::expressions::is_callee;
use crate::names::value_of;
use crate::refusing::is_operand;
use crate::row::{NoteKind, Row};
use crate::source::{Done, Draft, Quotes, Source};
use crate::table::NONE;
use crate::tokens::TokenKind;
use btools::Text;

/// Edits the escapes of a constant or a string, and divides a constant of too many characters.
pub(crate) fn quoted(source: &Source<'_>, draft: &mut Draft, index: usize) -> Done {
    let word = source.word(index);
    let start = source.start(index);
    if matches!(word, b"'$('" | b"'$)'") {
        return draft.put(
            start.saturating_add(1),
            start.saturating_add(2),
            b"*",
            Row::Brackets,
        );
    }
    let inner = between(word, 1, word.len().saturating_sub(1));
    if let (Some(TokenKind::Char), Some(code)) = (source.kind(index), code_of(inner)) {
        let ends_string = code == 0 && !is_plain_zero(source, index);
        if ends_string || escape_for(inner).is_empty() {
            return coded(source, draft, index, code);
        }
    }
    let mut count: usize = 0;
    let mut next: usize = 1;
    for at in 1..word.len().saturating_sub(1) {
        if at < next {
            continue;
        }
        let unit = unit_at(source.quotes, word, at);
        escape(source, draft, index, unit, at)?;
        next = at.saturating_add(unit.len());
        count = count.saturating_add(1);
    }
    if count > 2 && source.kind(index) == Some(TokenKind::Char) {
        divide(source, draft, index)?;
    }
    Ok(())
}

// Whether a character 0 is written, or stored in a word that has an address or compared with one, and ends no
// string.
fn is_plain_zero(source: &Source<'_>, index: usize) -> bool {
    let sign = index.wrapping_sub(1);
    let before = index.wrapping_sub(2);
    source.is(before, b"putchar")
        || is_word_end(source, before) && matches!(source.word(sign), b"=" | b"==" | b"!=")
}

/// Whether a word that has an address ends with a token: `v[i]`, `*p` or `*p++`, also one that is stored between
/// parentheses.
pub(crate) fn is_word_end(source: &Source<'_>, last: usize) -> bool {
    let before = source.partner(last).wrapping_sub(1);
    let is_group = source.is(last, b")") && !is_callee(source, before);
    let end = if is_group { last.wrapping_sub(1) } else { last };
    word_start(source, end) != NONE
}

/// The first token of such a word that ends with this one.
pub(crate) fn word_start(source: &Source<'_>, last: usize) -> usize {
    match source.word(last) {
        b"]" => source.partner(last).wrapping_sub(1),
        b"++" | b"--" => star_before(source, last.wrapping_sub(1)),
        _ => star_before(source, last),
    }
}

// The `*` before a name that takes the word at the address in it.
fn star_before(source: &Source<'_>, name: usize) -> usize {
    let star = name.wrapping_sub(1);
    let is_pointer = source.is(star, b"*") && !is_operand(source, star.wrapping_sub(1));
    if source.is_name(name) && is_pointer {
        star
    } else {
        NONE
    }
}

/// Tells each character 0 that is the end of a string now, where a word of a vector is compared with 0, too.
pub(crate) fn tell_ends(source: &Source<'_>, draft: &mut Draft) -> Done {
    if !tests_words(source) {
        return Ok(());
    }
    for index in 0..source.tokens.len() {
        if is_zero(source, index) && !is_plain_zero(source, index) {
            draft.note(source, index, NoteKind::Ends)?;
        }
    }
    Ok(())
}

fn tests_words(source: &Source<'_>) -> bool {
    for index in 0..source.tokens.len() {
        let is_compared = is_zero(source, index) && is_word_end(source, index.wrapping_sub(2));
        if is_compared || is_word_test(source, index) {
            return true;
        }
    }
    false
}

fn is_zero(source: &Source<'_>, index: usize) -> bool {
    let word = source.word(index);
    let inner = between(word, 1, word.len().saturating_sub(1));
    source.kind(index) == Some(TokenKind::Char) && code_of(inner) == Some(0)
}

/// Whether the truth of a word that has an address, and ends with a token, is a condition.
pub(crate) fn is_word_test(source: &Source<'_>, last: usize) -> bool {
    let before = word_start(source, last).wrapping_sub(1);
    let next = last.wrapping_add(1);
    source.is(next, b")")
        && source.is_head(next)
        && matches!(source.word(before), b"(" | b"!" | b"=" | b"&&" | b"||")
}

// Writes a character by its number, or as the end of a string.
fn coded(source: &Source<'_>, draft: &mut Draft, index: usize, code: u64) -> Done {
    if code == 0 {
        if !is_end(source, index) {
            draft.note(source, index, NoteKind::Ends)?;
        }
        return draft.replace(source, index, b"'*e'", Row::StringEnd);
    }
    if code > 127 {
        draft.note(source, index, NoteKind::High)?;
    }
    let mut text = Text::new(draft.alloc);
    text.push_number(code)?;
    draft.replace_text(source, index, text, Row::Code)
}

// Whether a character 0 can only be the end of a string: it is compared, or stored by `lchar`.
fn is_end(source: &Source<'_>, index: usize) -> bool {
    let call = source.partner(index.wrapping_add(1)).wrapping_sub(1);
    matches!(source.word(index.wrapping_sub(1)), b"==" | b"!=" | b"case")
        || source.is(call, b"lchar")
}

// What an escape with a backslash stands for that has a number, or none here.
fn code_of(unit: &[u8]) -> Option<u64> {
    match unit {
        [b'\\', b'x', digits @ ..] => value_of(16, digits),
        [b'\\', b'a'] => Some(7),
        [b'\\', b'b'] => Some(8),
        [b'\\', b'v'] => Some(11),
        [b'\\', b'f'] => Some(12),
        [b'\\', b'r'] => Some(13),
        [b'\\', digits @ ..] => octal_value(digits),
        _ => None,
    }
}

// How many bytes an escape after a backslash has.
fn escape_length(rest: &[u8]) -> usize {
    let is_hexadecimal = rest.first() == Some(&b'x');
    for index in 0..rest.len().min(3) {
        let is_digit = match rest[index] {
            b'x' => index == 0,
            byte if is_hexadecimal => byte.is_ascii_hexdigit(),
            byte => is_octal(byte),
        };
        if !is_digit {
            return index.max(1);
        }
    }
    rest.len().min(3)
}

/// How many characters a constant has.
pub(crate) fn units_in(quotes: Quotes, word: &[u8]) -> usize {
    let mut count: usize = 0;
    let mut next: usize = 1;
    for at in 1..word.len().saturating_sub(1) {
        if at >= next {
            next = at.saturating_add(unit_at(quotes, word, at).len());
            count = count.saturating_add(1);
        }
    }
    count
}

// The bytes of one character in quotes: more than one where an escape begins.
fn unit_at(quotes: Quotes, word: &[u8], at: usize) -> &[u8] {
    let rest = word.get(at..).unwrap_or(&[]);
    match rest {
        [b'\\', escape @ .., _] if !escape.is_empty() => {
            between(rest, 0, escape_length(escape).saturating_add(1))
        }
        [b'*', b'*', _, ..] => rest.get(..2).unwrap_or(&[]),
        [b'*', b'\\', escape @ .., _] if is_starred(rest, escape) => {
            between(rest, 0, escape_length(escape).saturating_add(2))
        }
        [b'*', ..] if quotes == Quotes::Backslashes => rest.get(..1).unwrap_or(&[]),
        [b'*', b'N' | b'T' | b'E', _, ..] if quotes == Quotes::Stars => rest
            .get(..2)
            .unwrap_or(&[]),
        [
            b'*',
            b'0' | b'e' | b'(' | b')' | b'n' | b't' | b'\'' | b'"',
            _,
            ..
        ] => { rest.get(..2).unwrap_or(&[]) }
        _ => rest.get(..1).unwrap_or(&[]),
    }
}

// Whether a `*` that stands for itself comes before an escape with a backslash that stands for another one here.
fn is_starred(rest: &[u8], escape: &[u8]) -> bool {
    !escape.is_empty()
        && !escape_for(between(rest, 0, escape_length(escape).saturating_add(2))).is_empty()
}

/// Whether quotes have an escape with a backslash in whose place another one comes.
pub(crate) fn has_backslash(word: &[u8]) -> bool {
    let inner = between(word, 1, word.len().saturating_sub(1));
    if word.starts_with(b"'") && code_of(inner).is_some() {
        return true;
    }
    let mut next: usize = 1;
    for at in 1..word.len().saturating_sub(1) {
        if at >= next {
            let unit = unit_at(Quotes::Both, word, at);
            if unit.contains(&b'\\') && escape_for(unit).starts_with(b"*") {
                return true;
            }
            next = at.saturating_add(unit.len());
        }
    }
    false
}

// Edits what isn't written so here. A backslash that would begin an escape in what comes out is told.
fn escape(source: &Source<'_>, draft: &mut Draft, index: usize, unit: &[u8], at: usize) -> Done {
    let place = source.start(index).saturating_add(at);
    let next = place.saturating_add(unit.len());
    let text = escape_for(unit);
    if source.quotes == Quotes::Stars && begins_other(unit, source.text.get(next).copied()) {
        return draft.note_at(place, NoteKind::Escape);
    }
    match unit {
        b"**" if source.quotes != Quotes::Backslashes => return Ok(()),
        [b'\\', b'\\'] | [b'*', b'\\', b'\\'] if !is_apart(source, index, next) => {
            return draft.note_at(place, NoteKind::Backslash);
        }
        _ => {}
    }
    if matches!(text, b"*0" | b"***0") && source.kind(index) == Some(TokenKind::String) {
        draft.note(source, index, NoteKind::Ends)?;
    }
    if !text.is_empty() {
        return draft.put(place, next, text, Row::Escape);
    }
    if unit.len() > 1 && unit.get(0) == Some(&b'\\') {
        return draft.note_at(place, NoteKind::Escape);
    }
    Ok(())
}

// Whether a `*`, or a `*0`, begins an escape of another machine: for a backspace, a carriage return, or by a number.
fn begins_other(unit: &[u8], next: Option<u8>) -> bool {
    match unit {
        b"*" => matches!(
            next,
            Some(b'a' | b'b' | b'f' | b'r' | b'v' | b'\\' | b'1'..=b'7')
        ),
        b"*0" => matches!(next, Some(b'0'..=b'7')),
        _ => false,
    }
}

// Whether a backslash before a place begins no escape in any form of the language.
fn is_apart(source: &Source<'_>, index: usize, next: usize) -> bool {
    if next.saturating_add(1) == source.end(index) {
        return source.kind(index) == Some(TokenKind::Char);
    }
    match source.text.get(next).copied() {
        Some(b'a' | b'b' | b'e' | b'f' | b'n' | b'r' | b't' | b'v' | b'x' | b'0'..=b'7') => false,
        Some(b'\\' | b'*' | b'"' | b'\'') | None => false,
        Some(_) => true,
    }
}

// Makes of `putchar('abc');` two calls.
fn divide(source: &Source<'_>, draft: &mut Draft, index: usize) -> Done {
    let call = index.wrapping_sub(2);
    let is_call = source.is(call, b"putchar")
        && source.is(index.wrapping_sub(1), b"(")
        && source.is(index.wrapping_add(1), b")")
        && source.is(index.wrapping_add(2), b";");
    if !is_call {
        return draft.note(source, index, NoteKind::Characters);
    }
    let is_listed = matches!(
        source.word(call.wrapping_sub(1)),
        b";" | b"{" | b"}" | b"$(" | b"$)"
    );
    if !is_listed {
        draft.insert(source.start(call), b"{ ", Row::Characters)?;
    }
    let (word, start) = (source.word(index), source.start(index));
    let mut count: usize = 0;
    let mut next: usize = 1;
    for at in 1..word.len().saturating_sub(1) {
        if at < next {
            continue;
        }
        if count == 2 {
            let place = start.saturating_add(at);
            draft.put(place, place, b"'); putchar('", Row::Characters)?;
            count = 0;
        }
        next = at.saturating_add(unit_at(source.quotes, word, at).len());
        count = count.saturating_add(1);
    }
    if !is_listed {
        draft.insert(source.end(index.wrapping_add(2)), b" }", Row::Characters)?;
    }
    Ok(())
}
