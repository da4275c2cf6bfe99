//! What compiles here, and may have meant another thing where it was written.
use crate::calls::{arguments, defines};
use crate::definitions::Outline;
use crate::edit::between;
use crate::effects::{Effects, effects_of};
use crate::expressions::{is_assignment, is_callee, operand_end};
use crate::flows::{Flows, flows_of};
use crate::growth::Growing;
use crate::logic::{after_part, at_level};
use crate::names::{is_keyword, value_of_number};
use crate::quotes::units_in;
use crate::refusing::is_operand;
use crate::row::NoteKind;
use crate::source::{Dialect, Done, Draft, Quotes, Source};
use crate::table::NONE;
use crate::texts::texts;
use crate::tokens::TokenKind;

/// How many tokens of a call are looked at, on either side.
const MOST_TOKENS: usize = 64;

/// Calls that fill a vector with a text.
const FILLS: [&str; 4] = ["getstr", "concat", "lchar", "copy"];

/// What begins no item of `printf` of the library after a `%`.
const OTHERS: &[u8] = b"abefghijklmnpqrtvwyzABCDEFGHIJKLMNOPQRSTUVWXYZ.+";

/// How many calls around a token are looked at.
const MOST_CALLS: usize = 4;

/// What is known of a whole source.
#[derive(Drop)]
struct Facts {
    flows: Flows,
    effects: Effects,
    /// Whether it defines these, or what comes after it does.
    has_puts: bool,
    has_printf: bool,
    has_write: bool,
    /// Whether operators of both forms assign, or one of a later form beside types.
    is_mixed: bool,
}

/// Tells what may have meant another thing, in a source as it stands or in one of another form.
pub(crate) fn meanings(
    source: &Source<'_>,
    others: &Source<'_>,
    draft: &mut Draft,
    outline: &Outline,
    is_wide: bool,
) -> Done {
    let count = source.tokens.len();
    let mut fills: Vec<&str> = Vec::new(draft.alloc);
    for name in &FILLS {
        if !defines(source, name.as_bytes()) {
            fills.push(name)?;
        }
    }
    let facts = Facts {
        flows: flows_of(draft.alloc, source, outline, &fills)?,
        effects: effects_of(draft.alloc, source, outline)?,
        has_puts: defines(source, b"puts") || defines(others, b"puts"),
        has_printf: defines(source, b"printf"),
        has_write: defines(source, b"write") || defines(others, b"write"),
        is_mixed: source.dialect == Dialect::Either
            && (source.has(0, count, b"+=") || source.has(0, count, b"-=")),
    };
    let growing = Growing {
        source,
        outline,
        flows: &facts.flows,
        is_wide: is_wide || tells_size(source.text),
    };
    texts(source, draft, outline, &facts.flows)?;
    let mut is_told = false;
    for index in 0..count {
        if !is_told && growing.may_wrap(index) {
            draft.note(source, index, NoteKind::Wraps)?;
            is_told = true;
        }
        if let Some(kind) = form_meaning(source, &facts, index) {
            draft.note(source, index, kind)?;
        }
        if let Some(kind) = meaning(source, &facts, index) {
            draft.note(source, index, kind)?;
        }
    }
    Ok(())
}

// Whether a text tells a size of words, as 18 or 36 bits.
fn tells_size(text: &[u8]) -> bool {
    for at in 0..text.len() {
        let is_size = match between(text, at, at.saturating_add(6)) {
            [tens, units, b' ' | b'-', b'b', b'i', b't'] => {
                matches!(
                    (*tens, *units),
                    (b'1', b'8') | (b'2', b'4') | (b'3', b'2' | b'6')
                )
            }
            _ => false,
        };
        if is_size {
            return true;
        }
    }
    false
}

// What the form of `printf` may mean.
fn form_meaning(source: &Source<'_>, facts: &Facts, index: usize) -> Option<NoteKind> {
    let word = source.word(index);
    let is_form = source.kind(index) == Some(TokenKind::String)
        && source.is(index.wrapping_sub(2), b"printf")
        && source.is(index.wrapping_sub(1), b"(");
    let is_later = source.quotes == Quotes::Backslashes;
    if facts.has_printf || !is_form {
        None
    } else if has_item(word, OTHERS) || is_later && has_item(word, b"* #") {
        Some(NoteKind::Form)
    } else if has_item(word, b"oux") {
        Some(NoteKind::Octal)
    } else {
        None
    }
}

fn meaning(source: &Source<'_>, facts: &Facts, index: usize) -> Option<NoteKind> {
    let word = source.word(index);
    match source.kind(index)? {
        TokenKind::Number
            if !facts.has_write && is_nine_bits(word) && !is_argument(source, index, b"write") => {
            Some(NoteKind::Pair)
        }
        TokenKind::Char if units_in(source.quotes, word) == 2 && !is_written(source, index) => {
            Some(NoteKind::Pair)
        }
        TokenKind::String if source.quotes == Quotes::Both && has_pair(word, b'*', b"nte0()*") => {
            Some(NoteKind::Stars)
        }
        TokenKind::Number | TokenKind::Char | TokenKind::String => None,
        _ if is_ordered(source, &facts.effects, index) => Some(NoteKind::Order),
        TokenKind::Name if source.is_call(index) => call_meaning(source, facts, index),
        _ => sign_meaning(source, facts, index),
    }
}

// What a call may mean.
fn call_meaning(source: &Source<'_>, facts: &Facts, index: usize) -> Option<NoteKind> {
    let open = index.wrapping_add(1);
    let first = open.wrapping_add(1);
    let before = index.wrapping_sub(1);
    let is_library = matches!(source.word(index), b"printf" | b"getchar" | b"putchar");
    let count = if is_library {
        arguments(source, open)
    } else {
        0
    };
    let is_form = source.is(index, b"printf") && !facts.has_printf;
    let is_unit = source.kind(first) == Some(TokenKind::Number) || source.is(first, b"-");
    let is_dropped = source.begins_statement(index)
        || matches!(source.word(before), b"?" | b")" | b"}");
    match source.word(index) {
        b"puts" if !facts.has_puts => Some(NoteKind::Line),
        b"getchar" if count > 0 => Some(NoteKind::Unit),
        b"putchar" if count > 1 => Some(NoteKind::Unit),
        _ if is_form && is_unit => Some(NoteKind::Unit),
        _ if is_form && count > 10 => Some(NoteKind::Form),
        _ if is_form && !is_dropped => Some(NoteKind::Given),
        b"char" | b"getbyte" if takes_length(source, index) => Some(NoteKind::Length),
        _ => None,
    }
}

// Whether the first character of a string is taken for its length.
fn takes_length(source: &Source<'_>, index: usize) -> bool {
    let close = source.partner(index.wrapping_add(1));
    let last = close.wrapping_sub(1);
    let (before, next) = (index.wrapping_sub(1), close.wrapping_add(1));
    if !source.is(last, b"0") || !source.is(last.wrapping_sub(1), b",") {
        return false;
    }
    let name = source.word(before.wrapping_sub(1));
    let is_stored = source.is(before, b"=");
    for at in index..index.saturating_add(MOST_TOKENS) {
        let (left, right) = (at.wrapping_sub(1), at.wrapping_add(1));
        if is_stored && source.is(at, name) && is_limit(source, left, right) {
            return true;
        }
    }
    source.is(index, b"getbyte") || is_limit(source, before, next)
}

// Whether another name is counted up or down to what stands between two tokens.
fn is_limit(source: &Source<'_>, before: usize, next: usize) -> bool {
    let is_less = matches!(source.word(before), b"<" | b"<=");
    let is_more = matches!(source.word(next), b">" | b">=");
    is_less || is_more && source.is_name(next.wrapping_add(1)) || source.is(next, b"--")
}

fn sign_meaning(source: &Source<'_>, facts: &Facts, index: usize) -> Option<NoteKind> {
    let (before, next) = (index.wrapping_sub(1), index.wrapping_add(1));
    let sign = before.wrapping_sub(1);
    let is_below = matches!(source.word(sign), b"-" | b"~")
        && !is_operand(source, sign.wrapping_sub(1));
    let is_shifted = source.kind(before) != Some(TokenKind::Number) || is_below;
    let is_part = facts.flows.held(before).is_text || source.is(next, b"0");
    match source.word(index) {
        b">>" | b"=>>" if is_shifted => Some(NoteKind::Shift),
        b"*" if copies_string(source, index) => Some(NoteKind::Ends),
        b"=+" | b"=-" if facts.is_mixed => Some(NoteKind::Signs),
        b"%" if is_part => Some(NoteKind::Taking),
        b"!" if takes_word(source, &facts.flows, index) => Some(NoteKind::Taking),
        _ => None,
    }
}

// Whether `!` makes no condition of what is an address, or of a sum.
fn takes_word(source: &Source<'_>, flows: &Flows, index: usize) -> bool {
    let (before, next) = (index.wrapping_sub(1), index.wrapping_add(1));
    let name = before.wrapping_sub(1);
    let last = operand_end(source, next);
    let is_value = match source.word(before) {
        b"=" | b"," | b"return" => true,
        b"(" => {
            source.is(name, b"return") || source.is_name(name) && !is_keyword(source.word(name))
        }
        _ => false,
    };
    let is_again = source.is(before, b"=") && source.word(name) == source.word(next);
    let is_sum = source.is(next, b"(")
        && at_level(source, next.wrapping_add(1), last, b"+") != last;
    let held = flows.held(next);
    is_value && (held.is_address || is_again && !held.is_number)
        || is_sum
        || matches!(
            source.word(last.wrapping_add(1)),
            b"==" | b"!=" | b"<" | b"<=" | b">" | b">=" | b"+" | b"-"
        )
}

// Whether an octal number has two characters of nine bits.
fn is_nine_bits(word: &[u8]) -> bool {
    let value = value_of_number(word).unwrap_or(0);
    word.starts_with(b"0") && matches!(value / 512, 8..=126) && matches!(value % 512, 8..=126)
}

// Whether a constant is all that is written by a call.
fn is_written(source: &Source<'_>, index: usize) -> bool {
    matches!(source.word(index), b"'$('" | b"'$)'")
        || is_argument(source, index, b"putchar")
        || is_argument(source, index, b"write")
}

// Whether a token is all that a function with this name gets.
fn is_argument(source: &Source<'_>, index: usize, name: &[u8]) -> bool {
    source.is(index.wrapping_sub(2), name)
        && source.is(index.wrapping_sub(1), b"(")
        && source.is(index.wrapping_add(1), b")")
}

// Whether an item of a form goes on with one of these bytes.
fn has_item(form: &[u8], bytes: &[u8]) -> bool {
    let mut is_item = false;
    for byte in form {
        if is_item && bytes.contains(byte) {
            return true;
        }
        is_item = match *byte {
            b'%' => !is_item,
            b'-' | b'0'..=b'9' => is_item,
            _ => false,
        };
    }
    false
}

/// Whether one of these bytes comes after a mark.
pub(crate) fn has_pair(word: &[u8], mark: u8, bytes: &[u8]) -> bool {
    let mut is_marked = false;
    for byte in word {
        if is_marked && bytes.contains(byte) {
            return true;
        }
        is_marked = *byte == mark && !is_marked;
    }
    false
}

// Whether `while(*` or `if(*` begins here, and one word is copied to another and compared with 0.
fn copies_string(source: &Source<'_>, index: usize) -> bool {
    let open = index.wrapping_sub(1);
    let close = source.partner(open);
    let is_test = source.is(open, b"(") && source.is_head(close);
    let end = close.min(open.saturating_add(MOST_TOKENS));
    is_test && source.has(open, end, b"=") && !source.has(open, end, b"!=")
}

// Whether a call gets in one argument what a token changes, and the same name in another one, or an expression has what
// `++`, `--` or a call changes, and the same name or another such call once more.
fn is_ordered(source: &Source<'_>, effects: &Effects, index: usize) -> bool {
    let is_call = is_bare_call(source, index) || effects.is_acting(source, index);
    let name = if is_call {
        index
    } else {
        changed(source, index)
    };
    if !source.is_name(name) {
        return false;
    }
    let is_step = matches!(source.word(index), b"++" | b"--") || is_call;
    if is_step && is_repeated(source, effects, name) {
        return true;
    }
    let mut at = name;
    for _ in 0..MOST_CALLS {
        at = open_before(source, at);
        let callee = at.wrapping_sub(1);
        let is_call = is_callee(source, callee) && !is_keyword(source.word(callee));
        if is_call && is_elsewhere(source, effects, at, name) {
            return true;
        }
    }
    false
}

// The name that a token changes, or the call of what reads the input.
fn changed(source: &Source<'_>, index: usize) -> usize {
    let (before, next) = (index.wrapping_sub(1), index.wrapping_add(1));
    match source.word(index) {
        b"++" | b"--" if source.is_name(next) => next,
        b"++" | b"--" if source.is(before, b"]") => source.partner(before).wrapping_sub(1),
        b"++" | b"--" if source.is(before, b")") => source.partner(before).wrapping_add(2),
        b"++" | b"--" => before,
        b"getchar" | b"read" | b"getnum" | b"getc" if source.is_call(index) => index,
        word if is_assignment(word) => before,
        _ => NONE,
    }
}

fn is_bare_call(source: &Source<'_>, index: usize) -> bool {
    let open = index.wrapping_add(1);
    source.is_call(index) && source.partner(open) == open.wrapping_add(1)
}

// Whether the expression around a name has it again, as a call if it is one.
fn is_repeated(source: &Source<'_>, effects: &Effects, name: usize) -> bool {
    let is_call = is_bare_call(source, name);
    for is_after in [false, true] {
        let mut at = name;
        for _ in 0..MOST_TOKENS {
            at = if is_after {
                at.wrapping_add(1)
            } else {
                at.wrapping_sub(1)
            };
            if ends_expression(source, at) {
                break;
            }
            let is_same = source.word(at) == source.word(name)
                && is_bare_call(source, at) == is_call;
            let is_read = !source.is(at.wrapping_add(1), b"=");
            if is_same || is_read && effects.is_changed(source, at, name) {
                return true;
            }
        }
    }
    false
}

// Whether an expression ends with a token, or what was evaluated before is over.
fn ends_expression(source: &Source<'_>, index: usize) -> bool {
    let word = source.word(index);
    match word {
        b";" | b"{" | b"}" | b"$(" | b"$)" | b"&&" | b"||" | b"?" | b":" | b"," | b"" => true,
        b"(" => is_over(source, source.partner(index)),
        b")" => is_over(source, index),
        _ => is_keyword(word),
    }
}

// Whether a parenthesis ends the head of a statement, or stands before a name, as that of none here does.
fn is_over(source: &Source<'_>, close: usize) -> bool {
    source.is_head(close) || source.is_name(close.wrapping_add(1))
}

/// The bracket that is open before a token.
pub(crate) fn open_before(source: &Source<'_>, index: usize) -> usize {
    let mut at = index;
    for _ in 0..MOST_TOKENS {
        at = at.wrapping_sub(1);
        match source.word(at) {
            b"(" | b"[" => return at,
            b")" | b"]" => at = source.partner(at),
            b";" | b"{" | b"}" | b"" => return NONE,
            _ => {}
        }
    }
    NONE
}

// Whether another argument of a call than that of a token has the same name, or what a call with this name changes.
fn is_elsewhere(source: &Source<'_>, effects: &Effects, open: usize, name: usize) -> bool {
    let end = source.partner(open).min(open.saturating_add(MOST_TOKENS));
    let mut first = open.saturating_add(1);
    let mut next = first;
    for at in first..end.saturating_add(1) {
        if at < next {
            continue;
        }
        if at == end || source.is(at, b",") {
            let is_own = first <= name && name < at;
            if !is_own && effects.has_changed(source, (first, at), name) {
                return true;
            }
            first = at.saturating_add(1);
        }
        next = after_part(source, at);
    }
    false
}
