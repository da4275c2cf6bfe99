//! Names that inner braces of a function declare once more.
use crate::definitions::{Outline, after_types};
use crate::logic::at_level;
use crate::mentions::declaration_end;
use crate::row::NoteKind;
use crate::source::{Done, Draft, Source};
use crate::table::{NONE, filled, put, slot};
use crate::taken::Taken;
use btools::Text;
use std::alloc::{AllocError, Global};

/// What is known of these names.
#[derive(Drop)]
struct Scopes {
    /// For each name, by its first token, the last function that has declared it.
    declared: Vec<usize>,
    /// For each token the place of its new name.
    renamed: Vec<usize>,
}

/// Gives each such name one of its own, among the short names, and tells for each token which one.
pub(crate) fn renames(
    alloc: Global,
    source: &Source<'_>,
    outline: &Outline,
    names: &mut Taken,
    short: &mut Vec<Option<Text>>,
) -> Result<Vec<usize>, AllocError> {
    let count = source.tokens.len();
    let mut scopes = Scopes {
        declared: filled(alloc, count)?,
        renamed: filled(alloc, count)?,
    };
    for number in 0..outline.functions.len() {
        let function = outline.functions[number];
        for index in function.open.min(function.body)..function.body {
            put(&mut scopes.declared, slot(source.firsts, index), number);
        }
        let mut blocks: Vec<usize> = Vec::new(alloc);
        for index in function.body..function.end.min(count) {
            if source.is_open_brace(index) {
                blocks.push(source.partner(index))?;
            } else if source.is_close_brace(index) {
                let _ = blocks.pop();
            }
            let end = match blocks.last().copied() {
                Some(end) if end != source.partner(function.body) => end,
                _ => NONE,
            };
            declare(source, &mut scopes, names, short, (index, number, end))?;
        }
    }
    let Scopes {
        declared: _,
        renamed,
    } = scopes;
    Ok(renamed)
}

/// Tells each call of a function, and each use of an external, that has the name of a label of the same function.
pub(crate) fn tell_labels(
    alloc: Global,
    source: &Source<'_>,
    draft: &mut Draft,
    outline: &Outline,
) -> Done {
    let mut labels = filled(alloc, source.tokens.len())?;
    let mut externals = filled(alloc, source.tokens.len())?;
    for name in &outline.externals {
        put(&mut externals, slot(source.firsts, *name), 0);
    }
    for number in 0..outline.functions.len() {
        let function = outline.functions[number];
        for index in function.body..function.end.min(source.tokens.len()) {
            if source.is_label(index) {
                put(&mut labels, slot(source.firsts, index), number);
            }
        }
        for index in function.body..function.end.min(source.tokens.len()) {
            let first = slot(source.firsts, index);
            let is_external = slot(&externals, first) != NONE;
            let is_listed = matches!(source.word(index.wrapping_sub(1)), b"goto" | b"extrn");
            let is_used = source.is_call(index)
                || is_external && !is_listed && !source.is_label(index);
            if slot(&labels, first) == number && is_used {
                draft.note(source, index, NoteKind::Label)?;
            }
        }
    }
    Ok(())
}

// Notes the names of the declaration that begins with a token, and renames those that the function has, in braces that
// end here.
fn declare(
    source: &Source<'_>,
    scopes: &mut Scopes,
    names: &mut Taken,
    short: &mut Vec<Option<Text>>,
    (index, number, end): (usize, usize, usize),
) -> Done {
    let last = declaration_end(source, index);
    if last == NONE || matches!(source.word(index), b"extrn" | b"extern") {
        return Ok(());
    }
    let mut next = index.wrapping_add(1);
    for at in next..last {
        if at < next {
            continue;
        }
        let name = after_types(source, at);
        let first = slot(source.firsts, name);
        let is_function = source.is(name.wrapping_add(1), b"(");
        if slot(&scopes.declared, first) == number && end != NONE && !is_function {
            let text = names.short_name(source.word(name))?;
            short.push(text)?;
            rename(source, scopes, (name, end), short.len().wrapping_sub(1));
        }
        put(&mut scopes.declared, first, number);
        next = at_level(source, at, last, b",").wrapping_add(1);
    }
    Ok(())
}

// Notes where the new name of all tokens with a name is, from one of them up to the end of its braces.
fn rename(source: &Source<'_>, scopes: &mut Scopes, (name, end): (usize, usize), place: usize) {
    let first = slot(source.firsts, name);
    for index in name..end.min(source.tokens.len()) {
        if slot(source.firsts, index) == first {
            put(&mut scopes.renamed, index, place);
        }
    }
}
