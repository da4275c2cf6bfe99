//! Words that hold characters of texts: two here, and four or two others where an old source was written.
use crate::definitions::Outline;
use crate::flows::{Flows, is_star};
use crate::names::is_one_of;
use crate::pointers::{UNDECLARED, after_index};
use crate::quotes::is_word_end;
use crate::row::NoteKind;
use crate::source::{Done, Draft, Source};
use crate::table::{NONE, filled, put, slot};
use crate::tokens::TokenKind;

/// Calls that have the characters of a text.
const TEXTS: [&str; 7] = [
    "char", "lchar", "getstr", "putstr", "getvec", "concat", "copy",
];

/// What an operator and the number after it make of a word of characters.
#[derive(Clone, Copy)]
enum Part {
    /// What stands beside characters of nine bits.
    Nine,
    /// One of two characters, by a shift or a division.
    Half,
    /// Some of its bits.
    Bits,
    /// A character before another one.
    Sum,
    /// One of words of four characters.
    Quarter,
}

/// Which of these a source has: calls that have the characters of a text, words that are taken apart, and some of the
/// bits of words.
#[derive(Clone, Copy)]
struct Parts {
    has_text: bool,
    has_splits: bool,
    has_masks: bool,
}

/// Tells what counts on other words than those of two characters of which the first is in the low byte.
pub(crate) fn texts(
    source: &Source<'_>,
    draft: &mut Draft,
    outline: &Outline,
    flows: &Flows,
) -> Done {
    tell_words(source, draft, outline, flows)?;
    let parts = parts_in(source);
    let mut words = filled(draft.alloc, source.tokens.len())?;
    for index in 0..source.tokens.len() {
        let has_index = source.is_name(index) && source.is(index.wrapping_add(1), b"[");
        if source.is(index.wrapping_sub(1), b"=") && (has_index || source.is(index, b"*")) {
            put(&mut words, slot(source.firsts, index.wrapping_sub(2)), 0);
        }
        if let Some(kind) = part_meaning(source, parts, &words, index) {
            draft.note(source, index, kind)?;
        }
    }
    Ok(())
}

fn parts_in(source: &Source<'_>) -> Parts {
    let mut parts = Parts {
        has_text: false,
        has_splits: false,
        has_masks: false,
    };
    for index in 0..source.tokens.len() {
        let word = source.word(index);
        match part_of(word, source.word(index.wrapping_add(1))) {
            Some(Part::Nine | Part::Half) => parts.has_splits = true,
            Some(Part::Bits) => parts.has_masks = true,
            _ if source.is_call(index) && is_one_of(word, TEXTS.as_slice()) => {
                parts.has_text = true;
            }
            _ => {}
        }
    }
    parts
}

// Whether a token takes a word of a text, or goes on from its address by words.
fn has_text_word(source: &Source<'_>, flows: &Flows, index: usize) -> bool {
    let (before, next) = (index.wrapping_sub(1), index.wrapping_add(1));
    let end = after_index(source, index);
    let (has_index, has_star) = (end != next, is_star(source, before));
    if source.kind(index) == Some(TokenKind::String) {
        return has_index || has_star || matches!(source.word(next), b"+" | b"-" | b"%");
    }
    let is_step = matches!(source.word(before), b"++" | b"--")
        || matches!(
            source.word(next),
            b"++" | b"--" | b"+" | b"-" | b"=+" | b"=-" | b"+=" | b"-="
        );
    let is_doubled = has_index && (has_star || source.is(end, b"["))
        || has_star && is_star(source, before.wrapping_sub(1));
    let held = flows.held(index);
    held.is_text && (has_index || has_star || is_step) || held.is_table && is_doubled
}

// Tells each vector whose size may be that of a text with four characters in a word, and each word of a text.
fn tell_words(source: &Source<'_>, draft: &mut Draft, outline: &Outline, flows: &Flows) -> Done {
    let mut declaring = UNDECLARED;
    for index in 0..source.tokens.len() {
        declaring = declaring.at(source, index);
        let next = index.wrapping_add(1);
        let before = source.word(index.wrapping_sub(1));
        let is_declared = declaring.has_names || matches!(before, b"" | b";" | b"}" | b"$)");
        let is_sized = match source.word(next) {
            b"[" => {
                is_declared && matches!(source.word(after_index(source, index)), b";" | b",")
            }
            b"=" => source.is(next.wrapping_add(1), b"getvec"),
            _ => declaring.has_names && source.kind(next) == Some(TokenKind::Number),
        };
        if is_sized && flows.held(index).is_room {
            draft.note(source, index, NoteKind::Quarter)?;
        } else if slot(&outline.owners, index) != NONE
            && !declaring.has_names
            && has_text_word(source, flows, index)
        {
            draft.note(source, index, NoteKind::Pointer)?;
        }
    }
    Ok(())
}

fn part_of(sign: &[u8], number: &[u8]) -> Option<Part> {
    match (sign, number) {
        (
            b"<<" | b">>" | b"=<<" | b"=>>" | b"<<=" | b">>=",
            b"9" | b"011" | b"18" | b"022" | b"27" | b"033",
        ) => Some(Part::Nine),
        (b"&" | b"=&" | b"&=", b"0777" | b"511") => Some(Part::Nine),
        (b">>" | b"=>>" | b">>=", b"8" | b"010") => Some(Part::Half),
        (b"/" | b"=/" | b"/=", b"256" | b"0400" | b"512" | b"01000") => Some(Part::Half),
        (b"%" | b"=%" | b"%=", b"256" | b"0400" | b"512" | b"01000") => Some(Part::Bits),
        (b"&" | b"=&" | b"&=", b"0177" | b"0377" | b"127" | b"255") => Some(Part::Bits),
        (b"<<", b"8" | b"010") | (b"*", b"256" | b"0400" | b"512" | b"01000") => Some(Part::Sum),
        (b"/" | b"=/" | b"/=", b"4") | (b">>" | b"=>>" | b">>=", b"2") => Some(Part::Quarter),
        _ => None,
    }
}

// What such an operator may mean here.
fn part_meaning(
    source: &Source<'_>,
    parts: Parts,
    words: &[usize],
    index: usize,
) -> Option<NoteKind> {
    let before = index.wrapping_sub(1);
    let is_word = is_word_end(source, before) || slot(words, slot(source.firsts, before)) != NONE;
    match part_of(source.word(index), source.word(index.wrapping_add(1)))? {
        Part::Nine => Some(NoteKind::Pair),
        Part::Half if is_word || parts.has_masks => Some(NoteKind::Halves),
        Part::Bits if is_word || parts.has_splits => Some(NoteKind::Halves),
        Part::Sum if is_added(source, index) => Some(NoteKind::Halves),
        Part::Quarter if parts.has_text => Some(NoteKind::Quarter),
        _ => None,
    }
}

// Whether something is added to a product or to a shift by one number, also in parentheses.
fn is_added(source: &Source<'_>, sign: usize) -> bool {
    let (before, last) = (sign.wrapping_sub(2), sign.wrapping_add(1));
    let is_before = source.is(before, b"(") && source.partner(before) == last.wrapping_add(1);
    let (first, next) = if is_before {
        (before.wrapping_sub(1), last.wrapping_add(2))
    } else {
        (before, last.wrapping_add(1))
    };
    matches!(source.word(first), b"+" | b"|") || matches!(source.word(next), b"+" | b"|")
}
