//! Externals that a function has without saying so.
use crate::definitions::{Function, Outline, after_types};
use crate::logic::at_level;
use crate::names::{has_name, is_keyword, is_type};
use crate::pointers::is_typed;
use crate::row::{NoteKind, Row};
use crate::source::{Done, Draft, Source};
use crate::table::{NONE, filled, put, slot};
use btools::Text;
use std::alloc::{AllocError, Global};

/// Which names are those of externals, and for each the last function that has declared it, and where the inner braces
/// of that declaration end. They go by the first tokens with them.
#[derive(Drop)]
struct Known {
    externals: Vec<usize>,
    declared: Vec<usize>,
    ends: Vec<usize>,
    /// For each token that is called by a `*` now any number.
    starred: Vec<usize>,
}

impl Known {
    // Notes that a function declares a name, in braces that end here.
    fn declare(&mut self, first: usize, number: usize, end: usize) {
        put(&mut self.declared, first, number);
        put(&mut self.ends, first, end);
    }
}

/// Lets each function name the externals of this source that it has without a declaration.
pub(crate) fn mentions(
    source: &Source<'_>,
    draft: &mut Draft,
    outline: &Outline,
    short: &[Option<Text>],
    starred: Vec<usize>,
) -> Done {
    let alloc = draft.alloc;
    let mut known = Known {
        externals: filled(alloc, source.tokens.len())?,
        declared: filled(alloc, source.tokens.len())?,
        ends: filled(alloc, source.tokens.len())?,
        starred,
    };
    for name in &outline.externals {
        put(&mut known.externals, slot(source.firsts, *name), 0);
    }
    for number in 0..outline.functions.len() {
        let function = outline.functions[number];
        declared(alloc, source, &mut known, function, number)?;
        let words = unnamed(source, draft, outline, &mut known, number, short)?;
        if !words.as_slice().is_empty() {
            mention(source, draft, function, words.as_slice())?;
        }
    }
    Ok(())
}

// Notes what a function declares.
fn declared(
    alloc: Global,
    source: &Source<'_>,
    known: &mut Known,
    function: Function,
    number: usize,
) -> Done {
    for index in function.open.min(function.body)..function.body {
        known.declare(slot(source.firsts, index), number, NONE);
    }
    let mut blocks: Vec<usize> = Vec::new(alloc);
    for index in function.body..function.end.min(source.tokens.len()) {
        if source.is_open_brace(index) {
            let is_inner = index != function.body;
            blocks.push(if is_inner {
                source.partner(index)
            } else {
                NONE
            })?;
        } else if source.is_close_brace(index) {
            let _ = blocks.pop();
        }
        let end = blocks.last().copied().unwrap_or(NONE);
        if source.is_label(index) {
            known.declare(slot(source.firsts, index), number, NONE);
        }
        declarators(source, known, index, number, end);
    }
    Ok(())
}

// Notes the names of the declaration that begins with a token, if one does, in braces that end here.
fn declarators(source: &Source<'_>, known: &mut Known, index: usize, number: usize, end: usize) {
    let last = declaration_end(source, index);
    if last == NONE {
        return;
    }
    let is_external = matches!(source.word(index), b"extrn" | b"extern");
    let mut next = index.wrapping_add(1);
    for at in next..last {
        if at >= next {
            let name = after_types(source, at);
            known.declare(
                slot(source.firsts, name),
                number,
                if is_external { NONE } else { end },
            );
            next = at_level(source, at, last, b",").wrapping_add(1);
        }
    }
}

/// The semicolon at the end of the declaration that begins with a token, if one does.
pub(crate) fn declaration_end(source: &Source<'_>, index: usize) -> usize {
    let word = source.word(index);
    let begins = matches!(word, b"extrn" | b"extern" | b"auto")
        || is_type(word) && is_typed(source, index);
    let is_after = source.begins_statement(index) || source.is(index.wrapping_sub(1), b")");
    if begins && is_after {
        source.semicolon(index)
    } else {
        NONE
    }
}

// The names that it has and doesn't declare, between commas.
fn unnamed(
    source: &Source<'_>,
    draft: &mut Draft,
    outline: &Outline,
    known: &mut Known,
    number: usize,
    short: &[Option<Text>],
) -> Result<Text, AllocError> {
    let mut words = Text::new(draft.alloc);
    let Some(function) = outline.functions.get(number) else {
        return Ok(words);
    };
    for index in function.body..function.end.min(source.tokens.len()) {
        let first = slot(source.firsts, index);
        if slot(&known.externals, first) == NONE {
            continue;
        }
        let is_declared = slot(&known.declared, first) == number;
        if is_declared && slot(&known.ends, first) < index {
            draft.note(source, index, NoteKind::Scope)?;
        }
        let is_called = source.is_call(index) && slot(&known.starred, index) == NONE;
        let is_other = is_called || is_keyword(source.word(index));
        if is_declared || is_other || outline.is_gone(index) {
            continue;
        }
        known.declare(first, number, NONE);
        if !words.as_slice().is_empty() {
            words.push(b", ")?;
        }
        match short.get(first) {
            Some(Some(text)) => words.push(text.as_slice())?,
            _ => words.push(source.word(index))?,
        }
    }
    Ok(words)
}

/// Gives the vectors of the library their words, where a source calls `getvec` and doesn't.
pub(crate) fn heap(
    source: &Source<'_>,
    others: &Source<'_>,
    draft: &mut Draft,
    outline: &Outline,
) -> Done {
    let is_wanted = has_name(source, b"getvec") && has_name(others, b"givevec");
    if !is_wanted || has_name(source, b"givevec") || has_name(source, b"vecpool") {
        return Ok(());
    }
    for function in &outline.functions {
        if source.is(function.name, b"main") && source.is_open_brace(function.body) {
            let at = source.end(function.body);
            draft.put(
                at,
                at,
                b" extrn vecpool; givevec(vecpool, 9999);",
                Row::Heap,
            )?;
            let last = source.text.len();
            let words: &[u8] = if source.text.contains(&b'\r') {
                b"\r\nvecpool[9999];\r\n"
            } else {
                b"\nvecpool[9999];\n"
            };
            draft.put(last, last, words, Row::Heap)?;
            break;
        }
    }
    Ok(())
}

fn mention(source: &Source<'_>, draft: &mut Draft, function: Function, words: &[u8]) -> Done {
    let mut text = Text::new(draft.alloc);
    let is_braced = source.is_open_brace(function.body);
    text.push(if is_braced { b" extrn " } else { b"extrn " })?;
    text.push(words)?;
    text.push(if is_braced { b";" } else { b"; " })?;
    let at = if is_braced {
        source.end(function.body)
    } else {
        source.start(function.body)
    };
    draft.put_text(at, at, text, Row::Mention)
}
