//! Which names of a source are the same.
use crate::edit::between;
use crate::tokens::{Token, TokenKind};
use btools::Text;
use std::alloc::{AllocError, Global};

/// No token, or no function.
pub(crate) const NONE: usize = usize::MAX;

/// For each token that is a name, the first token with that name; and for each other one `NONE`.
pub(crate) fn first_names(
    alloc: Global,
    source: &[u8],
    tokens: &[Token],
) -> Result<Vec<usize>, AllocError> {
    let size = tokens.len().saturating_mul(2).saturating_add(1);
    let mut table = filled(alloc, size)?;
    let mut firsts = Vec::new(alloc);
    for index in 0..tokens.len() {
        let first = match tokens[index].kind {
            TokenKind::Name => find(source, tokens, &mut table, index),
            _ => NONE,
        };
        firsts.push(first)?;
    }
    Ok(firsts)
}

/// So many times `NONE`.
pub(crate) fn filled(alloc: Global, count: usize) -> Result<Vec<usize>, AllocError> {
    let mut slots = Vec::new(alloc);
    for _ in 0..count {
        slots.push(NONE)?;
    }
    Ok(slots)
}

/// Puts a value into a slot, if there is one.
pub(crate) fn put(slots: &mut Vec<usize>, index: usize, value: usize) {
    if let Some(slot) = slots.get_mut(index) {
        *slot = value;
    }
}

/// The value of a slot, or `NONE`.
pub(crate) fn slot(slots: &[usize], index: usize) -> usize {
    slots.get(index).copied().unwrap_or(NONE)
}

// The first token with the name of this one, which is kept where none is.
fn find(source: &[u8], tokens: &[Token], table: &mut Vec<usize>, index: usize) -> usize {
    let name = word_of(source, tokens, index);
    let size = table.len();
    if size == 0 {
        return index;
    }
    let mut place = hash_of(name) % size;
    for _ in 0..size {
        let kept = slot(table, place);
        if kept == NONE {
            put(table, place, index);
            return index;
        }
        if word_of(source, tokens, kept) == name {
            return kept;
        }
        place = place.wrapping_add(1) % size;
    }
    index
}

/// The slot of a name among the places of names, or the one where it would be.
pub(crate) fn place_in(slots: &[usize], names: &[Text], name: &[u8]) -> usize {
    let size = slots.len().max(1);
    let mut place = hash_of(name) % size;
    for _ in 0..size {
        match names.get(slot(slots, place)) {
            Some(text) if text.as_slice() != name => place = place.wrapping_add(1) % size,
            _ => break,
        }
    }
    place
}

/// The bytes of a token, or none.
pub(crate) fn word_of<'a>(source: &'a [u8], tokens: &[Token], index: usize) -> &'a [u8] {
    match tokens.get(index) {
        Some(token) => between(source, token.start, token.end),
        None => &[],
    }
}

/// What the letters of a name come to.
pub(crate) fn hash_of(name: &[u8]) -> usize {
    let mut hash: usize = 14695981039346656037;
    for byte in name {
        hash = (hash ^ *byte as usize).wrapping_mul(1099511628211);
    }
    hash
}
