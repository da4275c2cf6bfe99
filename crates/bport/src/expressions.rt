//! Operators that are written otherwise here.
use crate::apply::{render, rendered};
use crate::definitions::{after_types, types};
use crate::names::is_type;
use crate::pointers::ends_operand;
use crate::row::{NoteKind, Row};
use crate::shape::is_opening;
use crate::source::{Dialect, Done, Draft, Source};
use crate::table::NONE;
use crate::tokens::TokenKind;
use btools::Text;

/// How many bytes the sides of an exclusive or have, which are evaluated twice, and what stands for a name.
pub(crate) const MOST_BYTES: usize = 1000;

/// Edits a sign.
pub(crate) fn sign(source: &Source<'_>, draft: &mut Draft, index: usize) -> Done {
    match source.word(index) {
        b"$(" => draft.replace(source, index, b"{", Row::Brackets),
        b"$)" => draft.replace(source, index, b"}", Row::Brackets),
        b"~" => complement(source, draft, index),
        b"(" if is_cast(source, index) => cast(source, draft, index),
        b"->" => draft.note(source, index, NoteKind::Structure),
        b"+=" | b"-=" | b"*=" | b"/=" | b"%=" | b"&=" | b"|=" | b"<<=" => {
            assignment(source, draft, index)
        }
        b">>=" => {
            draft.note(source, index, NoteKind::Shift)?;
            assignment(source, draft, index)
        }
        _ if is_joined(source, index) => apart(source, draft, index),
        _ => Ok(()),
    }
}

/// Whether a sign right after `=` may be that of an operand.
pub(crate) fn is_joined(source: &Source<'_>, index: usize) -> bool {
    matches!(source.word(index), b"=-" | b"=*" | b"=&") && is_tight(source, index)
}

/// Whether a parenthesis begins a type of an operand, as `(int)`.
pub(crate) fn is_cast(source: &Source<'_>, open: usize) -> bool {
    let before = open.wrapping_sub(1);
    let close = source.partner(open);
    let first = open.wrapping_add(1);
    let is_operand = ends_operand(source, before) || is_type(source.word(before));
    source.is_open_paren(open)
        && !is_operand
        && is_type(source.word(first))
        && after_types(source, first) == close
        && begins_operand(source, close.wrapping_add(1))
}

fn begins_operand(source: &Source<'_>, index: usize) -> bool {
    match source.kind(index) {
        Some(TokenKind::Sign) => {
            matches!(
                source.word(index),
                b"(" | b"-" | b"*" | b"&" | b"!" | b"~" | b"++" | b"--"
            )
        }
        Some(_) => true,
        None => false,
    }
}

// Takes the type of an operand out. Without it a sign could be that of an assignment operator.
fn cast(source: &Source<'_>, draft: &mut Draft, open: usize) -> Done {
    let first = open.wrapping_add(1);
    let close = source.partner(open);
    let next = close.wrapping_add(1);
    types(source, draft, first, close)?;
    if !source.is_plain(open, next) {
        return draft.note(source, open, NoteKind::Remark);
    }
    let words: &[u8] = match source.kind(next) {
        Some(TokenKind::Sign) if !source.is(next, b"(") => b" ",
        _ => b"",
    };
    draft.put(source.start(open), source.start(next), words, Row::Type)
}

/// Whether a token comes right after this one.
pub(crate) fn is_tight(source: &Source<'_>, index: usize) -> bool {
    source.end(index) == source.start(index.wrapping_add(1))
}

// `+=` is `=+`. A sign right after it could make it longer.
fn assignment(source: &Source<'_>, draft: &mut Draft, index: usize) -> Done {
    let word = source.word(index);
    let mut text = Text::new(draft.alloc);
    text.push(b"=")?;
    text.push(word.get(..word.len().saturating_sub(1)).unwrap_or(&[]))?;
    let next = index.wrapping_add(1);
    if is_tight(source, index) && source.kind(next) == Some(TokenKind::Sign) {
        text.push(b" ")?;
    }
    draft.replace_text(source, index, text, Row::Assignment)
}

// `x=-1` is `x = -1` in a later form. Where nothing shows the form it is told.
fn apart(source: &Source<'_>, draft: &mut Draft, index: usize) -> Done {
    let at = source.start(index).saturating_add(1);
    match source.dialect {
        Dialect::Early => Ok(()),
        Dialect::Later => draft.put(at, at, b" ", Row::Apart),
        Dialect::Either => draft.note(source, index, NoteKind::Signs),
    }
}

// `~x` is `(-x - 1)`.
fn complement(source: &Source<'_>, draft: &mut Draft, index: usize) -> Done {
    let next = index.wrapping_add(1);
    let words: &[u8] = if source.word(next).starts_with(b"-") {
        b"(- "
    } else {
        b"(-"
    };
    draft.replace(source, index, words, Row::Complement)?;
    draft.insert(
        source.end(operand_end(source, next)),
        b" - 1)",
        Row::Complement,
    )
}

/// The last token of the operand that begins with a token.
pub(crate) fn operand_end(source: &Source<'_>, first: usize) -> usize {
    let mut last = first;
    for index in first..source.tokens.len() {
        last = index;
        if !matches!(
            source.word(index),
            b"-" | b"!" | b"*" | b"&" | b"~" | b"++" | b"--"
        ) {
            break;
        }
    }
    if is_opening(source.word(last)) {
        last = source.partner(last);
    }
    for _ in 0..source.tokens.len() {
        let next = last.wrapping_add(1);
        match source.word(next) {
            b"[" | b"(" => last = source.partner(next),
            b"++" | b"--" => last = next,
            _ => break,
        }
    }
    last
}

/// An exclusive or: the first token of its left side, its sign, and the token after its right side.
#[derive(Clone, Copy)]
pub(crate) struct Exclusive {
    pub first: usize,
    pub sign: usize,
    pub end: usize,
}

/// Edits `a ^ b`, where evaluating a and b twice does no harm.
pub(crate) fn exclusive_or(source: &Source<'_>, draft: &mut Draft, found: Exclusive) -> Done {
    let last = found.end.wrapping_sub(1);
    if !is_quiet(source, found.first, found.end) || !source.is_plain(found.first, last) {
        return draft.note(source, found.sign, NoteKind::Exclusive);
    }
    let (start, end) = (source.start(found.first), source.end(last));
    let (before, after) = (
        source.end(found.sign.wrapping_sub(1)),
        source.start(found.sign.wrapping_add(1)),
    );
    let left = render(draft, source.text, start, before)?;
    let right = render(draft, source.text, after, end)?;
    if left.as_slice().len().saturating_add(right.as_slice().len()) > MOST_BYTES {
        return draft.note(source, found.sign, NoteKind::Exclusive);
    }
    let mut text = Text::new(draft.alloc);
    text.push(b") - (")?;
    text.push(left.as_slice())?;
    text.push(b" & ")?;
    text.push(right.as_slice())?;
    text.push(b"))")?;
    draft.put(start, start, b"((", Row::Exclusive)?;
    draft.replace(source, found.sign, b"|", Row::Exclusive)?;
    draft.put_text(end, end, text, Row::Exclusive)
}

/// `x ^= a;` is `x = ((x | (a)) - (x & (a)));`, where x is a name and evaluating a twice does no harm.
pub(crate) fn exclusive_assignment(source: &Source<'_>, draft: &mut Draft, sign: usize) -> Done {
    let name = sign.wrapping_sub(1);
    let first = sign.wrapping_add(1);
    let end = source.semicolon(sign);
    let is_whole = source.is_name(name) && source.begins_statement(name) && end != NONE;
    if !is_whole || !is_quiet(source, first, end) || !source.is_plain(sign, end) {
        return draft.note(source, sign, NoteKind::Exclusive);
    }
    let last = source.end(end.wrapping_sub(1));
    let value = rendered(source, draft, first, end.wrapping_sub(1))?;
    let word = rendered(source, draft, name, name)?;
    let mut head = Text::new(draft.alloc);
    head.push(b"= ((")?;
    head.push(word.as_slice())?;
    head.push(b" | (")?;
    let mut tail = Text::new(draft.alloc);
    tail.push(b")) - (")?;
    tail.push(word.as_slice())?;
    tail.push(b" & (")?;
    tail.push(value.as_slice())?;
    tail.push(b")))")?;
    draft.put_text(
        source.start(sign),
        source.start(first),
        head,
        Row::Exclusive,
    )?;
    draft.put_text(last, last, tail, Row::Exclusive)
}

/// Whether no token from one up to another calls or stores.
pub(crate) fn is_quiet(source: &Source<'_>, first: usize, end: usize) -> bool {
    for index in first..end.min(source.tokens.len()) {
        let before = index.wrapping_sub(1);
        match source.word(index) {
            b"++" | b"--" => return false,
            b"(" if index > first && is_callee(source, before) => return false,
            word if is_assignment(word) => return false,
            _ => {}
        }
    }
    true
}

/// Whether a parenthesis after a token is that of a call.
pub(crate) fn is_callee(source: &Source<'_>, index: usize) -> bool {
    source.is_name(index) || source.is(index, b")") || source.is(index, b"]")
}

/// Whether a sign assigns.
pub(crate) fn is_assignment(word: &[u8]) -> bool {
    match word {
        b"==" | b"<=" | b">=" | b"!=" => false,
        [b'=', ..] => true,
        [_, b'='] | [_, _, b'='] => true,
        _ => false,
    }
}
