//! `&&` and `||`.
use crate::definitions::Outline;
use crate::expressions::{Exclusive, is_assignment, is_quiet};
use crate::names::{is_keyword, is_one_of, is_type};
use crate::row::{NoteKind, Row};
use crate::shape::{is_closing, is_opening};
use crate::source::{Done, Draft, Source};
use crate::table::NONE;
use std::alloc::{AllocError, Global};

pub(crate) const COMPARISONS: [&str; 6] = ["==", "!=", "<", "<=", ">", ">="];

/// Operators that bind less than these.
const LOOSER: [&str; 6] = ["&", "|", "^", "?", "&&", "||"];

// A part of a source within which operators of one level stand: the bracket around it, its first token, and whether it
// has such signs.
#[derive(Clone, Copy)]
struct Region {
    open: usize,
    first: usize,
    has_signs: bool,
}

impl Region {
    fn new(open: usize, first: usize) -> Self {
        Region {
            open,
            first,
            has_signs: false,
        }
    }
}

/// Edits these signs, and tells where an exclusive or is.
pub(crate) fn signs(
    alloc: Global,
    source: &Source<'_>,
    draft: &mut Draft,
    outline: &Outline,
) -> Result<Vec<Exclusive>, AllocError> {
    let mut exclusives = Vec::new(alloc);
    let mut regions: Vec<Region> = Vec::new(alloc);
    let mut region = Region::new(NONE, 0);
    for index in 0..source.tokens.len() {
        let next = index.wrapping_add(1);
        let word = source.word(index);
        if outline.is_gone(index) {
            region = Region::new(region.open, next);
        } else if is_opening(word) {
            regions.push(region)?;
            region = Region::new(index, next);
        } else if is_closing(word) {
            end_region(source, draft, &mut exclusives, region, index)?;
            region = match regions.pop() {
                Some(outer) if !source.is_head(index) => outer,
                Some(outer) => Region::new(outer.open, next),
                None => Region::new(NONE, next),
            };
        } else if matches!(word, b"&&" | b"||" | b"^") {
            region.has_signs = true;
        } else if (matches!(word, b"," | b";" | b"?" | b":" | b"::")
            || is_assignment(word)
            || is_keyword(word) && !(is_type(word) && source.is_call(index)))
        {
            end_region(source, draft, &mut exclusives, region, index)?;
            region = Region::new(region.open, next);
        }
    }
    Ok(exclusives)
}

fn end_region(
    source: &Source<'_>,
    draft: &mut Draft,
    exclusives: &mut Vec<Exclusive>,
    region: Region,
    end: usize,
) -> Done {
    if !region.has_signs {
        return Ok(());
    }
    let signs = signs_in(draft.alloc, source, region.first, end)?;
    let is_logical = signs
        .iter()
        .any(|sign| matches!(source.word(*sign), b"&&" | b"||"));
    if !is_logical {
        return exclusive(source, draft, exclusives, &signs, region.first, end);
    }
    for sign in &signs {
        if source.is(*sign, b"^") {
            draft.note(source, *sign, NoteKind::Exclusive)?;
        }
    }
    logical(source, draft, &signs, region, end)
}

fn exclusive(
    source: &Source<'_>,
    draft: &mut Draft,
    exclusives: &mut Vec<Exclusive>,
    signs: &[usize],
    first: usize,
    end: usize,
) -> Done {
    let Some(sign) = signs.get(0) else {
        return Ok(());
    };
    if signs.len() != 1 || at_level(source, first, end, b"|") != end {
        return draft.note(source, *sign, NoteKind::Exclusive);
    }
    exclusives.push(Exclusive {
        first,
        sign: *sign,
        end,
    })?;
    Ok(())
}

// The signs of a region at its own level.
fn signs_in(
    alloc: Global,
    source: &Source<'_>,
    first: usize,
    end: usize,
) -> Result<Vec<usize>, AllocError> {
    let mut signs = Vec::new(alloc);
    let mut next = first;
    for index in first..end.min(source.tokens.len()) {
        if index < next {
            continue;
        }
        if matches!(source.word(index), b"&&" | b"||" | b"^") {
            signs.push(index)?;
        }
        next = after_part(source, index);
    }
    Ok(signs)
}

/// The token after a token, or after the brackets that it opens.
pub(crate) fn after_part(source: &Source<'_>, index: usize) -> usize {
    let close = source.partner(index);
    if is_opening(source.word(index)) && close != NONE {
        close.wrapping_add(1)
    } else {
        index.wrapping_add(1)
    }
}

/// The first token from one on that is this word, outside of brackets that open there; or the end.
pub(crate) fn at_level(source: &Source<'_>, first: usize, end: usize, word: &[u8]) -> usize {
    let mut next = first;
    for index in first..end.min(source.tokens.len()) {
        if index < next {
            continue;
        }
        if source.is(index, word) {
            return index;
        }
        next = after_part(source, index);
    }
    end
}

// Edits the `&&` and `||` of a region.
fn logical(
    source: &Source<'_>,
    draft: &mut Draft,
    signs: &[usize],
    region: Region,
    end: usize,
) -> Done {
    let first = region.first;
    if are_comparisons(source, signs, first, end) {
        for sign in signs {
            match source.word(*sign) {
                b"&&" => draft.replace(source, *sign, b"&", Row::And)?,
                b"||" => draft.replace(source, *sign, b"|", Row::Or)?,
                _ => {}
            }
        }
        return Ok(());
    }
    let before = first.wrapping_sub(1);
    let is_test = source.is(end, b";")
        && source.is(before, b";")
        && source.is(region.open.wrapping_sub(1), b"for");
    let is_truth = is_test || is_truth(source, first, end);
    let is_filled = is_test || is_closing(source.word(end)) && source.partner(end) == before;
    disjunction(source, draft, signs, first, end, is_truth, is_filled)
}

// Whether each operand is a comparison that does nothing else.
fn are_comparisons(source: &Source<'_>, signs: &[usize], first: usize, end: usize) -> bool {
    let mut from = first;
    for sign in signs {
        if source.is(*sign, b"^") || !is_comparison(source, from, *sign) {
            return false;
        }
        from = sign.wrapping_add(1);
    }
    is_comparison(source, from, end)
}

// A word that is read by its address may be one that another operand has to see to, and a division may end the run.
fn is_comparison(source: &Source<'_>, first: usize, end: usize) -> bool {
    is_quiet(source, first, end)
        && !source.has(first, end, b"[")
        && !source.has(first, end, b"*")
        && !source.has(first, end, b"/")
        && !source.has(first, end, b"%")
        && is_boolean(source, first, end)
}

// Whether the value is 1 or 0.
fn is_boolean(source: &Source<'_>, first: usize, end: usize) -> bool {
    if source.is(first, b"(") && source.partner(first).wrapping_add(1) == end {
        return has_comparison(source, first.wrapping_add(1), end.wrapping_sub(1));
    }
    if source.is(first, b"!") {
        return !has_binary(source, first.wrapping_add(1), end);
    }
    has_comparison(source, first, end)
}

fn has_comparison(source: &Source<'_>, first: usize, end: usize) -> bool {
    let mut found = false;
    let mut next = first;
    for index in first..end.min(source.tokens.len()) {
        if index < next {
            continue;
        }
        let word = source.word(index);
        if is_one_of(word, COMPARISONS.as_slice()) {
            found = true;
        } else if is_one_of(word, LOOSER.as_slice()) || is_assignment(word) {
            return false;
        }
        next = after_part(source, index);
    }
    found
}

fn has_binary(source: &Source<'_>, first: usize, end: usize) -> bool {
    let mut next = first;
    for index in first..end.min(source.tokens.len()) {
        if index < next {
            continue;
        }
        match source.word(index) {
            b"!" | b"(" | b"[" => {}
            _ if source.is_name(index) => {}
            _ => return true,
        }
        next = after_part(source, index);
    }
    false
}

// Whether only the truth of a value counts: it is a condition.
fn is_truth(source: &Source<'_>, first: usize, end: usize) -> bool {
    let before = first.wrapping_sub(1);
    match source.word(end) {
        b"?" => true,
        b")" => {
            let open = before.wrapping_sub(1);
            source.partner(end) == before
                && matches!(source.head_word(open), b"if" | b"while" | b"!")
        }
        _ => false,
    }
}

// `a || b` is `a ? 1 : b`.
fn disjunction(
    source: &Source<'_>,
    draft: &mut Draft,
    signs: &[usize],
    first: usize,
    end: usize,
    is_truth: bool,
    is_filled: bool,
) -> Done {
    let is_whole = !signs.iter().any(|sign| source.is(*sign, b"||"));
    let is_closed = is_whole || is_filled;
    let is_bare = is_whole && is_filled;
    if !is_closed {
        draft.insert(source.start(first), b"(", Row::Or)?;
    }
    let mut from = first;
    let mut begun = 0;
    for at in 0..signs.len() {
        let sign = signs[at];
        if source.is(sign, b"||") {
            let ands = signs.get(begun..at).unwrap_or(&[]);
            conjunction(source, draft, ands, from, sign, true, is_bare)?;
            draft.replace(source, sign, b"? 1 :", Row::Or)?;
            from = sign.wrapping_add(1);
            begun = at.saturating_add(1);
        }
    }
    let ands = signs.get(begun..).unwrap_or(&[]);
    conjunction(source, draft, ands, from, end, is_truth, is_bare)?;
    if !is_closed {
        draft.insert(source.end(end.wrapping_sub(1)), b")", Row::Or)?;
    }
    Ok(())
}

// `a && b` is `(a ? b : 0)`.
fn conjunction(
    source: &Source<'_>,
    draft: &mut Draft,
    signs: &[usize],
    first: usize,
    end: usize,
    is_truth: bool,
    is_bare: bool,
) -> Done {
    let mut count: usize = 0;
    let mut from = first;
    for sign in signs {
        if source.is(*sign, b"&&") {
            if count == 0 && !is_bare {
                draft.insert(source.start(first), b"(", Row::And)?;
            }
            if count > 0 {
                draft.insert(source.start(from), b"(", Row::And)?;
            }
            draft.replace(source, *sign, b"?", Row::And)?;
            count = count.saturating_add(1);
            from = sign.wrapping_add(1);
        }
    }
    let row = if count > 0 { Row::And } else { Row::Or };
    valued(source, draft, from, end, is_truth, row)?;
    for number in 0..count {
        let is_last = number.saturating_add(1) == count;
        let words: &[u8] = if is_last && is_bare {
            b" : 0"
        } else {
            b" : 0)"
        };
        draft.insert(source.end(end.wrapping_sub(1)), words, Row::And)?;
    }
    Ok(())
}

// Makes 1 or 0 of the last operand, unless it is that, or only its truth counts.
fn valued(
    source: &Source<'_>,
    draft: &mut Draft,
    first: usize,
    end: usize,
    is_truth: bool,
    row: Row,
) -> Done {
    if is_truth || is_boolean(source, first, end) {
        return Ok(());
    }
    let is_loose = at_level(source, first, end, b"&") != end
        || at_level(source, first, end, b"|") != end;
    if is_loose {
        draft.insert(source.start(first), b"(", row)?;
        return draft.insert(source.end(end.wrapping_sub(1)), b") != 0", row);
    }
    draft.insert(source.end(end.wrapping_sub(1)), b" != 0", row)
}
