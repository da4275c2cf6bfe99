//! Vectors of vectors, of which each becomes one vector.
use crate::definitions::{Function, Outline};
use crate::lists::values_in;
use crate::logic::after_part;
use crate::pointers::UNDECLARED;
use crate::row::{NoteKind, Row};
use crate::sizes::told_size;
use crate::source::{Done, Draft, Source};
use crate::table::{NONE, filled, put, slot};
use crate::tokens::TokenKind;
use btools::Text;
use std::alloc::Global;

/// What is known of names by their first tokens, and of the tokens with them.
#[derive(Drop)]
struct Grids {
    /// For each such name how many words each of its vectors has.
    widths: Vec<usize>,
    /// For each one its first declaration.
    declared: Vec<usize>,
    /// For each one that stays any token with it.
    odd: Vec<usize>,
    /// For each one the last function whose head declares it.
    heads: Vec<usize>,
    /// For each token in a declaration of such a name, or among names of externals, what it is there.
    roles: Vec<usize>,
}

// What the name of a token is.
const EXTERNAL: usize = 0;

const LOCAL: usize = 1;

const PARAMETER: usize = 2;

/// Whether two pairs of brackets come after a name.
pub(crate) fn is_grid(source: &Source<'_>, name: usize) -> bool {
    let open = name.wrapping_add(1);
    source.is_name(name) && source.is(open, b"[") && source.is(second(source, name), b"[")
}

// The second bracket after a name.
fn second(source: &Source<'_>, name: usize) -> usize {
    source.partner(name.wrapping_add(1)).wrapping_add(1)
}

/// Makes one vector of each, or tells it.
pub(crate) fn edit_grids(
    alloc: Global,
    source: &Source<'_>,
    draft: &mut Draft,
    outline: &Outline,
) -> Done {
    let count = source.tokens.len();
    let mut found = Grids {
        widths: filled(alloc, count)?,
        declared: filled(alloc, count)?,
        odd: filled(alloc, count)?,
        heads: filled(alloc, count)?,
        roles: filled(alloc, count)?,
    };
    for number in 0..outline.functions.len() {
        parameters(source, &mut found, outline.functions[number], number);
    }
    declarations(source, draft, outline, &mut found)?;
    for index in 0..count {
        let first = slot(source.firsts, index);
        if slot(&found.widths, first) != NONE && !is_fit(source, &found, index) {
            put(&mut found.odd, first, index);
        }
    }
    for index in 0..count {
        edited(source, draft, outline, &found, index)?;
    }
    Ok(())
}

// Notes the head of a function. A parameter that isn't declared so there stays, and all with its name.
fn parameters(source: &Source<'_>, found: &mut Grids, function: Function, number: usize) {
    let first = function.open.min(function.body);
    for index in first..function.body {
        put(&mut found.roles, index, PARAMETER);
        if is_grid(source, index) {
            put(&mut found.heads, slot(source.firsts, index), number);
        }
    }
    for index in first..function.body {
        let name = slot(source.firsts, index);
        if slot(&found.heads, name) != number {
            put(&mut found.odd, name, index);
        }
    }
}

// Finds the declarations of such names.
fn declarations(
    source: &Source<'_>,
    draft: &mut Draft,
    outline: &Outline,
    found: &mut Grids,
) -> Done {
    let mut declaring = UNDECLARED;
    let mut is_listing = false;
    for index in 0..source.tokens.len() {
        declaring = declaring.at(source, index);
        is_listing = match source.word(index) {
            b"extrn" | b"extern" => true,
            b";" => false,
            _ => is_listing,
        };
        let before = source.word(index.wrapping_sub(1));
        let is_first = index == 0 || matches!(before, b";" | b"}" | b"$)");
        let is_outer = is_first && slot(&outline.owners, index) == NONE;
        let is_own = slot(&found.roles, index) == NONE;
        if is_listing || outline.is_gone(index) {
            put(&mut found.roles, index, PARAMETER);
        } else if is_own && (declaring.has_names || is_outer) && is_grid(source, index) {
            let is_local = slot(&outline.owners, index) != NONE;
            put(
                &mut found.roles,
                index,
                if is_local { LOCAL } else { EXTERNAL },
            );
        }
        if is_grid(source, index) && slot(&found.roles, index) != NONE {
            declare(source, draft, found, index)?;
        }
    }
    Ok(())
}

// Notes a declaration.
fn declare(source: &Source<'_>, draft: &mut Draft, found: &mut Grids, name: usize) -> Done {
    let first = slot(source.firsts, name);
    let width = told_size(source, draft, second(source, name))?;
    let size = told_size(source, draft, name.wrapping_add(1))?;
    let role = slot(&found.roles, name);
    let words = words_of(size, width);
    let is_sized = role == PARAMETER || words.is_some();
    let own = match width {
        Some(width @ 1..=32767) if is_sized => width as usize,
        _ => NONE,
    };
    let is_same = slot(&found.declared, first) == NONE || slot(&found.widths, first) == own;
    if slot(&found.declared, first) == NONE {
        put(&mut found.declared, first, name);
        put(&mut found.widths, first, if own == NONE { 0 } else { own });
    }
    if own == NONE || !is_same || !has_values(source, name, role, (own as u64, words)) {
        put(&mut found.odd, first, name);
    }
    Ok(())
}

// The last index of one vector for all, if there is one.
fn words_of(size: Option<u64>, width: Option<u64>) -> Option<u64> {
    match size?.checked_mul(width?)?.checked_sub(1)? {
        words @ 0..=32767 => Some(words),
        _ => None,
    }
}

// Whether the initial values of a name, if it has some, fill its words one after the other.
fn has_values(
    source: &Source<'_>,
    name: usize,
    role: usize,
    (width, words): (u64, Option<u64>),
) -> bool {
    let sign = source.partner(second(source, name)).wrapping_add(1);
    let open = if source.is(sign, b"=") {
        sign.wrapping_add(1)
    } else {
        sign
    };
    match source.word(sign) {
        b"," | b";" | b")" => true,
        b"[" => false,
        _ if role != EXTERNAL => false,
        b"=" | b"{" | b"$(" => are_rows(source, open, width),
        _ => words.map(|last| last.saturating_add(1)) == Some(values_from(source, open)),
    }
}

// How many values come from a token on, up to the end of a definition.
fn values_from(source: &Source<'_>, first: usize) -> u64 {
    let mut count: u64 = 1;
    for index in first..source.semicolon(first).min(source.tokens.len()) {
        if source.is(index, b",") {
            count = count.saturating_add(1);
        }
    }
    count
}

// Whether rows between braces have as many values as there are in a vector, or there are no rows.
fn are_rows(source: &Source<'_>, open: usize, width: u64) -> bool {
    let close = source.partner(open);
    if !source.is_open_brace(open) || close == NONE {
        return false;
    }
    let mut has_rows = false;
    let mut has_words = false;
    let mut next = open.wrapping_add(1);
    for index in next..close {
        if index < next {
            continue;
        }
        if source.is_open_brace(index) {
            has_rows = true;
            if values_in(source, index, source.partner(index)) != Some(width) {
                return false;
            }
        } else if !source.is(index, b",") {
            has_words = true;
        }
        if source.kind(index) == Some(TokenKind::String) {
            return false;
        }
        next = after_part(source, index);
    }
    !(has_rows && has_words)
}

// Whether a token with such a name declares it, has two indexes, or is an argument.
fn is_fit(source: &Source<'_>, found: &Grids, index: usize) -> bool {
    if slot(&found.roles, index) != NONE {
        return true;
    }
    let before = source.word(index.wrapping_sub(1));
    let next = source.word(index.wrapping_add(1));
    if !is_grid(source, index) {
        return matches!(before, b"(" | b",") && matches!(next, b")" | b",");
    }
    let open = second(source, index);
    let is_third = source.is(source.partner(open).wrapping_add(1), b"[");
    source.is_plain(open.wrapping_sub(1), open) && !is_third
}

// Edits a token with such a name, or tells it.
fn edited(
    source: &Source<'_>,
    draft: &mut Draft,
    outline: &Outline,
    found: &Grids,
    name: usize,
) -> Done {
    let first = slot(source.firsts, name);
    let width = slot(&found.widths, first);
    if width == NONE {
        return Ok(());
    }
    if slot(&found.odd, first) != NONE {
        if slot(&found.declared, first) == name {
            draft.note(source, name, NoteKind::Sizes)?;
        }
        return Ok(());
    }
    if outline.is_gone(name) || !is_grid(source, name) {
        return Ok(());
    }
    match slot(&found.roles, name) {
        NONE => used(source, draft, name, width),
        PARAMETER => Ok(()),
        role => sized(source, draft, name, role),
    }
}

// One size for two.
fn sized(source: &Source<'_>, draft: &mut Draft, name: usize, role: usize) -> Done {
    let (open, other) = (name.wrapping_add(1), second(source, name));
    let size = told_size(source, draft, open)?;
    let width = told_size(source, draft, other)?;
    let words = words_of(size, width).unwrap_or(0);
    let end = source.end(source.partner(other));
    let mut text = Text::new(draft.alloc);
    if role == LOCAL {
        text.push(b" ")?;
        text.push_number(words)?;
        return draft.put_text(source.end(name), end, text, Row::Vector);
    }
    text.push(b"[")?;
    text.push_number(words)?;
    text.push(b"]")?;
    draft.put_text(source.start(open), end, text, Row::Index)
}

// `v[i][k]` is `v[3 * i + k]`.
fn used(source: &Source<'_>, draft: &mut Draft, name: usize, width: usize) -> Done {
    let (open, other) = (name.wrapping_add(1), second(source, name));
    let (close, end) = (source.partner(open), source.partner(other));
    let is_first = close == open.wrapping_add(2);
    let is_second = end == other.wrapping_add(2);
    let mut head = Text::new(draft.alloc);
    head.push(b"[")?;
    head.push_number(width as u64)?;
    head.push(if is_first { b" * " } else { b" * (" })?;
    draft.replace_text(source, open, head, Row::Index)?;
    let middle: &[u8] = match (is_first, is_second) {
        (true, true) => b" + ",
        (true, false) => b" + (",
        (false, true) => b") + ",
        (false, false) => b") + (",
    };
    draft.put(source.start(close), source.end(other), middle, Row::Index)?;
    if is_second {
        return Ok(());
    }
    draft.replace(source, end, b")]", Row::Index)
}
