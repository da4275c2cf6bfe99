//! Where the brackets and the statements of an old source end.
use crate::definitions::after;
use crate::source::Source;
use crate::table::{NONE, filled, put, slot, word_of};
use crate::tokens::Token;
use std::alloc::{AllocError, Global};

/// How many tokens before the colon of a case are looked at.
const CASE_TOKENS: usize = 8;

/// For each bracket the other one of its pair, and for each other token `NONE`.
pub(crate) fn partners_of(
    alloc: Global,
    source: &[u8],
    tokens: &[Token],
) -> Result<Vec<usize>, AllocError> {
    let mut partners = filled(alloc, tokens.len())?;
    let mut opens: Vec<usize> = Vec::new(alloc);
    for index in 0..tokens.len() {
        let word = word_of(source, tokens, index);
        if is_opening(word) {
            opens.push(index)?;
        } else if is_closing(word) {
            pair(&mut partners, &mut opens, source, tokens, index);
        }
    }
    Ok(partners)
}

fn pair(
    partners: &mut Vec<usize>,
    opens: &mut Vec<usize>,
    source: &[u8],
    tokens: &[Token],
    index: usize,
) {
    let Some(open) = opens.pop() else {
        return;
    };
    let fits = match (
        word_of(source, tokens, open),
        word_of(source, tokens, index),
    ) {
        (b"(", close) => matches!(close, b")"),
        (b"[", close) => matches!(close, b"]"),
        (_, close) => matches!(close, b"}" | b"$)"),
    };
    if fits {
        put(partners, open, index);
        put(partners, index, open);
    }
}

pub(crate) fn is_opening(word: &[u8]) -> bool {
    matches!(word, b"(" | b"[" | b"{" | b"$(")
}

pub(crate) fn is_closing(word: &[u8]) -> bool {
    matches!(word, b")" | b"]" | b"}" | b"$)")
}

/// For each token the next semicolon at its level.
pub(crate) fn semicolons_of(
    alloc: Global,
    source: &[u8],
    tokens: &[Token],
    partners: &[usize],
) -> Result<Vec<usize>, AllocError> {
    let mut semicolons = filled(alloc, tokens.len())?;
    for step in 0..tokens.len() {
        let index = tokens.len() - 1 - step;
        let word = word_of(source, tokens, index);
        let next = if matches!(word, b";") {
            index
        } else if is_opening(word) {
            slot(&semicolons, slot(partners, index).wrapping_add(1))
        } else if is_closing(word) {
            NONE
        } else {
            slot(&semicolons, index.wrapping_add(1))
        };
        put(&mut semicolons, index, next);
    }
    Ok(semicolons)
}

/// For each token the one after the statement that begins with it. A source that has no ends yet is given.
pub(crate) fn ends_of(alloc: Global, source: &Source<'_>) -> Result<Vec<usize>, AllocError> {
    let mut ends = filled(alloc, source.tokens.len())?;
    for step in 0..source.tokens.len() {
        let index = source.tokens.len() - 1 - step;
        let end = end_of(source, &ends, index);
        put(&mut ends, index, end);
    }
    Ok(ends)
}

fn end_of(source: &Source<'_>, ends: &[usize], index: usize) -> usize {
    let next = index.wrapping_add(1);
    match source.head_word(index) {
        b"{" | b"$(" => after(source.partner(index)),
        b"}" | b"$)" => index,
        b"if" => {
            let end = after_head(source, ends, next);
            if source.is(end, b"else") {
                slot(ends, end.wrapping_add(1))
            } else {
                end
            }
        }
        b"while" | b"for" | b"switch" => after_head(source, ends, next),
        b"do" => after_do(source, slot(ends, next)),
        b"else" => slot(ends, next),
        b"auto" | b"extrn" | b"extern" => slot(ends, after(source.semicolon(index))),
        b"repeat" if source.is_open_brace(next) => slot(ends, next),
        b"case" => slot(ends, after(case_colon(source, index))),
        _ if source.is(next, b":") && source.is_name(index) => slot(ends, next.wrapping_add(1)),
        _ => after(source.semicolon(index)),
    }
}

// The token after the statement with a head that begins with this token.
fn after_head(source: &Source<'_>, ends: &[usize], open: usize) -> usize {
    if source.is_open_paren(open) {
        let body = source.partner(open).wrapping_add(1);
        return slot(ends, body);
    }
    let brace = open.wrapping_add(1);
    if source.is_open_brace(brace) {
        slot(ends, brace)
    } else {
        NONE
    }
}

// The token after the `while(..);` of a do.
fn after_do(source: &Source<'_>, end: usize) -> usize {
    let open = end.wrapping_add(1);
    if !source.is(end, b"while") || !source.is_open_paren(open) {
        return NONE;
    }
    let semicolon = source.partner(open).wrapping_add(1);
    if source.is(semicolon, b";") {
        semicolon.wrapping_add(1)
    } else {
        NONE
    }
}

/// The colon of a case.
pub(crate) fn case_colon(source: &Source<'_>, index: usize) -> usize {
    for step in 1..CASE_TOKENS {
        let at = index.wrapping_add(step);
        if source.is(at, b":") {
            return at;
        }
    }
    NONE
}
