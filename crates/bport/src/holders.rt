//! Externals whose initial values are names of functions: the addresses of the functions' words.
use crate::calls::defines;
use crate::definitions::{External, Outline};
use crate::expressions::is_assignment;
use crate::names::is_library;
use crate::pointers::{UNDECLARED, after_index, pointed, takes_addresses};
use crate::row::{NoteKind, Row};
use crate::sizes::told_size;
use crate::source::{Done, Draft, Source};
use crate::table::{NONE, filled, put, slot};
use crate::tokens::TokenKind;
use btools::Text;
use std::alloc::{AllocError, Global};

/// What is known of such externals, by the first tokens with their names.
#[derive(Drop)]
struct Holders {
    /// The tokens of their names where they are defined.
    names: Vec<usize>,
    /// The first names of functions among their initial values.
    values: Vec<usize>,
    /// Any use that is no call by `*`.
    direct: Vec<usize>,
    /// Any use where no `*` may be put.
    odd: Vec<usize>,
    /// For each token that is such a use any number.
    uses: Vec<usize>,
    /// For each name that is declared as `(*name)(..)` any number.
    pointers: Vec<usize>,
}

/// The names of such externals, and for each token before which `*` is put any number.
#[derive(Drop)]
pub(crate) struct Held {
    pub names: Vec<usize>,
    pub starred: Vec<usize>,
}

/// Puts `*` before what they hold wherever it is used, or tells it.
pub(crate) fn edit_holders(
    alloc: Global,
    source: &Source<'_>,
    others: &Source<'_>,
    draft: &mut Draft,
    outline: &Outline,
    short: &[Option<Text>],
) -> Result<Held, AllocError> {
    tell_vectors(source, draft, outline)?;
    let mut found = found_in(alloc, source, others, draft, outline)?;
    let has_addresses = takes_addresses(alloc, source, outline)?;
    let has_stars = find_uses(source, outline, &mut found) || has_addresses;
    let mut held = Held {
        names: Vec::new(alloc),
        starred: filled(alloc, source.tokens.len())?,
    };
    for index in 0..source.tokens.len() {
        let first = slot(source.firsts, index);
        let value = slot(&found.values, first);
        if value == NONE {
            continue;
        }
        let is_mended = !has_stars && slot(&found.odd, first) == NONE;
        if slot(&found.names, first) == index {
            held.names.push(index)?;
            if !is_mended && slot(&found.direct, first) != NONE {
                draft.note(source, value, NoteKind::Held)?;
            }
        }
        if is_mended && slot(&found.uses, index) != NONE {
            put(&mut held.starred, index, 0);
            starred(source, draft, short, index)?;
        }
    }
    Ok(held)
}

// Tells each vector whose name is an initial value of a pointer.
fn tell_vectors(source: &Source<'_>, draft: &mut Draft, outline: &Outline) -> Done {
    let mut vectors = filled(draft.alloc, source.tokens.len())?;
    for external in &outline.variables {
        if source.is(external.name.wrapping_add(1), b"[") {
            put(&mut vectors, slot(source.firsts, external.name), 0);
        }
    }
    for external in &outline.variables {
        let next = external.name.wrapping_add(1);
        if source.is(external.name.wrapping_sub(1), b"*") {
            for index in next..external.end.min(source.tokens.len()) {
                if slot(&vectors, slot(source.firsts, index)) != NONE {
                    draft.note(source, index, NoteKind::Vector)?;
                }
            }
        }
    }
    Ok(())
}

/// Tells those of a source that stays as it is.
pub(crate) fn tell_holders(
    alloc: Global,
    source: &Source<'_>,
    others: &Source<'_>,
    draft: &mut Draft,
    outline: &Outline,
) -> Done {
    let mut found = found_in(alloc, source, others, draft, outline)?;
    let _ = find_uses(source, outline, &mut found);
    for external in &outline.variables {
        let first = slot(source.firsts, external.name);
        let value = slot(&found.values, first);
        if value != NONE && slot(&found.direct, first) != NONE {
            draft.note(source, value, NoteKind::Held)?;
        }
    }
    Ok(())
}

fn found_in(
    alloc: Global,
    source: &Source<'_>,
    others: &Source<'_>,
    draft: &Draft,
    outline: &Outline,
) -> Result<Holders, AllocError> {
    let count = source.tokens.len();
    let mut functions = filled(alloc, count)?;
    let mut found = Holders {
        names: filled(alloc, count)?,
        values: filled(alloc, count)?,
        direct: filled(alloc, count)?,
        odd: filled(alloc, count)?,
        uses: filled(alloc, count)?,
        pointers: filled(alloc, count)?,
    };
    for function in &outline.functions {
        put(&mut functions, slot(source.firsts, function.name), 0);
    }
    for external in &outline.variables {
        values_of(source, others, draft, &functions, &mut found, *external)?;
    }
    Ok(found)
}

// Notes an external that has names of functions among its initial values, and whether it has these alone.
fn values_of(
    source: &Source<'_>,
    others: &Source<'_>,
    draft: &Draft,
    functions: &[usize],
    found: &mut Holders,
    external: External,
) -> Done {
    let name = external.name;
    let first = slot(source.firsts, name);
    let mut value = NONE;
    let mut count: u64 = 0;
    let mut has_others = false;
    for index in after_index(source, name)..external.end.min(source.tokens.len()) {
        if is_function(source, others, functions, index) {
            value = value.min(index);
            count = count.saturating_add(1);
        } else if source.kind(index) != Some(TokenKind::Sign) || source.is(index, b"-") {
            has_others = true;
        }
    }
    if value == NONE {
        return Ok(());
    }
    put(&mut found.names, first, name);
    put(&mut found.values, first, value);
    let is_function = slot(functions, first) != NONE;
    if has_others || is_function || !is_filled(source, draft, name, count)? {
        put(&mut found.odd, first, name);
    }
    Ok(())
}

fn is_function(
    source: &Source<'_>,
    others: &Source<'_>,
    functions: &[usize],
    index: usize,
) -> bool {
    let word = source.word(index);
    let is_own = slot(functions, slot(source.firsts, index)) != NONE;
    source.is_name(index) && (is_own || is_library(word) || defines(others, word))
}

// Whether as many values as these fill an external.
fn is_filled(
    source: &Source<'_>,
    draft: &Draft,
    name: usize,
    count: u64,
) -> Result<bool, AllocError> {
    let open = name.wrapping_add(1);
    let is_bare = !source.is(open, b"[") || source.partner(open) == open.wrapping_add(1);
    if is_bare {
        return Ok(true);
    }
    let size = told_size(source, draft, open)?;
    Ok(matches!(size, Some(size) if size <= count))
}

// Finds the uses of these, and tells whether anything is called by `*` but what is declared so, and these.
fn find_uses(source: &Source<'_>, outline: &Outline, found: &mut Holders) -> bool {
    let mut has_stars = false;
    let mut declaring = UNDECLARED;
    let mut is_listing = false;
    for index in 0..source.tokens.len() {
        declaring = declaring.at(source, index);
        is_listing = match source.word(index) {
            b"extrn" | b"extern" => true,
            b";" => false,
            _ => is_listing,
        };
        let pointer = slot(source.firsts, pointed(source, index));
        if declaring.has_names {
            put(&mut found.pointers, pointer, index);
        }
        if outline.is_gone(index) || is_listing {
            continue;
        }
        let is_star = !declaring.has_names && is_star_call(source, index);
        let is_known = slot(&found.pointers, pointer) != NONE
            || slot(&found.names, pointer) != NONE;
        has_stars = has_stars || is_star && !is_known;
        let first = slot(source.firsts, index);
        let name = slot(&found.names, first);
        let is_call = !declaring.has_names && pointed(source, index.wrapping_sub(2)) == index;
        if name == NONE || name == index || is_call {
            continue;
        }
        put(&mut found.direct, first, index);
        put(&mut found.uses, index, 0);
        if declaring.has_names || !is_read(source, name, index) {
            put(&mut found.odd, first, index);
        }
    }
    has_stars
}

// Whether a call of what `*` gives begins with a parenthesis.
fn is_star_call(source: &Source<'_>, open: usize) -> bool {
    let close = source.partner(open);
    source.is_open_paren(open)
        && source.is(open.wrapping_add(1), b"*")
        && source.is_open_paren(close.wrapping_add(1))
        && !source.is_head(close)
}

// Whether a word of an external, which is defined by this name, is read here or called, and nothing else.
fn is_read(source: &Source<'_>, name: usize, index: usize) -> bool {
    let next = index.wrapping_add(1);
    let end = after_index(source, index);
    let is_vector = source.is(name.wrapping_add(1), b"[");
    if is_vector != (end != next) {
        return false;
    }
    if matches!(
        source.word(index.wrapping_sub(1)),
        b"&" | b"*" | b"++" | b"--"
    ) {
        return false;
    }
    match source.word(end) {
        b"(" => true,
        b"++" | b"--" | b"[" => false,
        word => is_vector && !is_assignment(word),
    }
}

// Puts `*` before what is read, and parentheses around both.
fn starred(source: &Source<'_>, draft: &mut Draft, short: &[Option<Text>], index: usize) -> Done {
    let end = after_index(source, index);
    let mut text = Text::new(draft.alloc);
    text.push(b"(*")?;
    match short.get(slot(source.firsts, index)) {
        Some(Some(name)) => text.push(name.as_slice())?,
        _ => text.push(source.word(index))?,
    }
    let is_word = end == index.wrapping_add(1);
    if is_word {
        text.push(b")")?;
    }
    draft.replace_text(source, index, text, Row::Held)?;
    if is_word {
        return Ok(());
    }
    draft.replace(source, end.wrapping_sub(1), b"])", Row::Held)
}
