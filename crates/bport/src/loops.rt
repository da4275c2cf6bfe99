//! Loops, and what goes on with their next turn.
use crate::apply::rendered;
use crate::logic::after_part;
use crate::names::is_type;
use crate::row::{NoteKind, Row};
use crate::source::{Done, Draft, Source};
use crate::table::{NONE, filled, put, slot};
use btools::Text;
use bword::Edition;
use std::alloc::{AllocError, Global};

/// Beginnings of labels, the first of which is taken that begins no name with a digit after it.
const PREFIXES: [&str; 4] = ["on", "nx", "lp", "zz"];

/// What is known of the loops of a source.
#[derive(Drop)]
pub(crate) struct Loops {
    /// For each `continue` the loop that goes on; a `do` goes by its `while`.
    pub turns: Vec<usize>,
    /// For each loop that goes on by a label any number.
    labels: Vec<usize>,
    /// For each `while` of a `do` that `do`.
    tails: Vec<usize>,
    prefix: &'static str,
}

// A loop within which a token stands: whose label goes on with it, and the token after its body.
#[derive(Clone, Copy)]
struct Around {
    label: usize,
    end: usize,
}

impl Loops {
    pub(crate) fn is_tail(&self, index: usize) -> bool {
        slot(&self.tails, index) != NONE
    }

    fn has_label(&self, index: usize) -> bool {
        slot(&self.labels, index) != NONE
    }

    /// Adds the label of a loop.
    pub(crate) fn push_label(&self, text: &mut Text, index: usize) -> Done {
        text.push(self.prefix.as_bytes())?;
        text.push_number(index as u64)
    }
}

/// Finds the loops of a source.
pub(crate) fn loops_of(alloc: Global, source: &Source<'_>) -> Result<Loops, AllocError> {
    let count = source.tokens.len();
    let mut found = Loops {
        turns: filled(alloc, count)?,
        labels: filled(alloc, count)?,
        tails: filled(alloc, count)?,
        prefix: prefix_of(source),
    };
    let mut arounds: Vec<Around> = Vec::new(alloc);
    for index in 0..count {
        leave(&mut arounds, index);
        if let Some(around) = loop_at(source, &mut found, index) {
            arounds.push(around)?;
        } else if is_continue(source, index) {
            if let Some(around) = arounds.last() {
                put(&mut found.turns, index, around.label);
                put(&mut found.labels, around.label, index);
            }
        }
    }
    Ok(found)
}

fn leave(arounds: &mut Vec<Around>, index: usize) {
    for _ in 0..arounds.len() {
        match arounds.last() {
            Some(around) if around.end <= index => {
                let _ = arounds.pop();
            }
            _ => break,
        }
    }
}

fn loop_at(source: &Source<'_>, found: &mut Loops, index: usize) -> Option<Around> {
    match source.head_word(index) {
        b"while" if found.is_tail(index) => None,
        b"while" | b"for" => Some(Around {
            label: index,
            end: source.statement_end(index),
        }),
        b"repeat" if is_repeat(source, index) => Some(Around {
            label: index,
            end: source.statement_end(index),
        }),
        b"do" => {
            let tail = source.statement_end(index.wrapping_add(1));
            put(&mut found.tails, tail, index);
            Some(Around {
                label: tail,
                end: tail,
            })
        }
        _ => None,
    }
}

fn is_repeat(source: &Source<'_>, index: usize) -> bool {
    source.begins_statement(index) && source.is_open_brace(index.wrapping_add(1))
}

fn is_continue(source: &Source<'_>, index: usize) -> bool {
    let is_word = source.is(index, b"continue") || source.is(index, b"next");
    is_word && source.is(index.wrapping_add(1), b";") && source.begins_statement(index)
}

fn prefix_of(source: &Source<'_>) -> &'static str {
    for prefix in &PREFIXES {
        if !begins_name(source, prefix.as_bytes()) {
            return prefix;
        }
    }
    "xx"
}

fn begins_name(source: &Source<'_>, prefix: &[u8]) -> bool {
    for index in 0..source.tokens.len() {
        let word = source.word(index);
        let is_numbered = matches!(word.get(prefix.len()), Some(byte) if byte.is_ascii_digit());
        if is_numbered && word.starts_with(prefix) {
            return true;
        }
    }
    false
}

/// Edits a `continue`.
pub(crate) fn turn(source: &Source<'_>, draft: &mut Draft, loops: &Loops, index: usize) -> Done {
    let label = slot(&loops.turns, index);
    if label == NONE {
        return Ok(());
    }
    let mut text = Text::new(draft.alloc);
    text.push(b"goto ")?;
    loops.push_label(&mut text, label)?;
    draft.replace_text(source, index, text, Row::Continue)
}

/// Puts the label of a loop that goes on after its body.
pub(crate) fn while_loop(
    source: &Source<'_>,
    draft: &mut Draft,
    loops: &Loops,
    index: usize,
    body: usize,
) -> Done {
    let end = source.statement_end(body);
    if !loops.has_label(index) || end == NONE {
        return Ok(());
    }
    draft.insert(source.start(body), b"{ ", Row::Continue)?;
    let mut text = Text::new(draft.alloc);
    text.push(b" ")?;
    loops.push_label(&mut text, index)?;
    text.push(b": ; }")?;
    let at = source.end(end.wrapping_sub(1));
    draft.put_text(at, at, text, Row::Continue)
}

/// `repeat S` is `while(1) S`.
pub(crate) fn repeat(source: &Source<'_>, draft: &mut Draft, loops: &Loops, index: usize) -> Done {
    if !is_repeat(source, index) {
        return Ok(());
    }
    draft.replace(source, index, b"while(1)", Row::Repeat)?;
    while_loop(source, draft, loops, index, index.wrapping_add(1))
}

// The parts of a `for`.
#[derive(Clone, Copy)]
struct Parts {
    index: usize,
    open: usize,
    first: usize,
    second: usize,
    close: usize,
    end: usize,
    has_start: bool,
    has_step: bool,
}

fn parts_of(source: &Source<'_>, index: usize) -> Option<Parts> {
    let open = index.wrapping_add(1);
    let first = source.semicolon(open.wrapping_add(1));
    let second = source.semicolon(first.wrapping_add(1));
    let close = source.partner(open);
    let parts = Parts {
        index,
        open,
        first,
        second,
        close,
        end: source.statement_end(index),
        has_start: first != open.wrapping_add(1),
        has_step: close != second.wrapping_add(1),
    };
    let is_whole = source.is_open_paren(open)
        && parts.first < parts.second
        && parts.second < parts.close;
    if is_whole && parts.end != NONE && parts.close != NONE {
        Some(parts)
    } else {
        None
    }
}

/// `for(a; b; c) S` is `{ a; while(b) { S c; } }`.
pub(crate) fn for_loop(
    source: &Source<'_>,
    draft: &mut Draft,
    loops: &Loops,
    index: usize,
) -> Done {
    let Some(parts) = parts_of(source, index) else {
        return draft.note(source, index, NoteKind::Loop);
    };
    let is_typed = is_type(source.word(parts.open.wrapping_add(1)));
    let is_plain = source.is_plain(index, parts.open) && source.is_plain(parts.second, parts.close);
    if !is_plain || is_typed {
        return draft.note(source, index, NoteKind::Loop);
    }
    for_head(source, draft, parts, loops.has_label(index))?;
    let text = for_tail(source, draft, loops, parts)?;
    if text.as_slice().is_empty() {
        return Ok(());
    }
    let at = source.end(parts.end.wrapping_sub(1));
    draft.put_text(at, at, text, Row::For)
}

fn for_head(source: &Source<'_>, draft: &mut Draft, parts: Parts, has_label: bool) -> Done {
    let test = parts.first.wrapping_add(1);
    let has_test = parts.second != test;
    let words: &[u8] = if has_test { b"while(" } else { b"while(1" };
    if parts.has_start {
        draft.put(
            source.start(parts.index),
            source.end(parts.open),
            b"{ ",
            Row::For,
        )?;
        commas(source, draft, parts)?;
        draft.insert(source.start(test), words, Row::For)?;
    } else {
        draft.put(
            source.start(parts.index),
            source.end(parts.first),
            words,
            Row::For,
        )?;
    }
    let tail: &[u8] = if parts.has_step || has_label {
        b") {"
    } else {
        b")"
    };
    draft.put(
        source.start(parts.second),
        source.end(parts.close),
        tail,
        Row::For,
    )
}

// The commas of the first part become semicolons.
fn commas(source: &Source<'_>, draft: &mut Draft, parts: Parts) -> Done {
    let mut next = parts.open.wrapping_add(1);
    for index in next..parts.first.min(source.tokens.len()) {
        if index < next {
            continue;
        }
        if source.is(index, b",") {
            draft.replace(source, index, b";", Row::For)?;
        }
        next = after_part(source, index);
    }
    Ok(())
}

// What comes after the body.
fn for_tail(
    source: &Source<'_>,
    draft: &Draft,
    loops: &Loops,
    parts: Parts,
) -> Result<Text, AllocError> {
    let mut text = Text::new(draft.alloc);
    let has_label = loops.has_label(parts.index);
    if has_label {
        text.push(b" ")?;
        loops.push_label(&mut text, parts.index)?;
        text.push(b":")?;
    }
    if parts.has_step {
        push_steps(&mut text, source, draft, parts)?;
    } else if has_label {
        text.push(b" ;")?;
    }
    if parts.has_step || has_label {
        text.push(b" }")?;
    }
    if parts.has_start {
        text.push(b" }")?;
    }
    Ok(text)
}

// The third part, each expression of it as a statement.
fn push_steps(text: &mut Text, source: &Source<'_>, draft: &Draft, parts: Parts) -> Done {
    let mut from = parts.second.wrapping_add(1);
    let mut next = from;
    for index in next..source.tokens.len() {
        if index < next {
            continue;
        }
        if source.is(index, b",") || index == parts.close {
            push_step(text, source, draft, from, index.wrapping_sub(1))?;
            from = index.wrapping_add(1);
        }
        if index == parts.close {
            break;
        }
        next = after_part(source, index);
    }
    Ok(())
}

fn push_step(
    text: &mut Text,
    source: &Source<'_>,
    draft: &Draft,
    first: usize,
    last: usize,
) -> Done {
    let step = rendered(source, draft, first, last)?;
    text.push(b" ")?;
    text.push(step.as_slice().trim_ascii())?;
    text.push(b";")
}

/// `do S while(c);` is `while(1) { S if(!(c)) break; }`, or in edition 1 `{ L: S if(c) goto L; }`.
pub(crate) fn do_loop(source: &Source<'_>, draft: &mut Draft, loops: &Loops, index: usize) -> Done {
    let tail = source.statement_end(index.wrapping_add(1));
    let close = source.partner(tail.wrapping_add(1));
    if source.statement_end(index) == NONE || close == NONE {
        return draft.note(source, index, NoteKind::Loop);
    }
    let mut test = Text::new(draft.alloc);
    if loops.has_label(tail) {
        loops.push_label(&mut test, tail)?;
        test.push(b": ")?;
    }
    let semicolon = close.wrapping_add(1);
    match source.edition {
        Edition::One => {
            let mut head = Text::new(draft.alloc);
            head.push(b"{ ")?;
            loops.push_label(&mut head, index)?;
            head.push(b":")?;
            test.push(b"if")?;
            let mut last = Text::new(draft.alloc);
            last.push(b" goto ")?;
            loops.push_label(&mut last, index)?;
            last.push(b"; }")?;
            draft.replace_text(source, index, head, Row::Do)?;
            draft.replace_text(source, semicolon, last, Row::Do)?;
        }
        Edition::Two => {
            test.push(b"if(!")?;
            draft.replace(source, index, b"while(1) {", Row::Do)?;
            draft.replace(source, semicolon, b") break; }", Row::Do)?;
        }
    }
    draft.replace_text(source, tail, test, Row::Do)
}
