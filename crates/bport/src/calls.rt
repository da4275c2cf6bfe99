//! Calls of the library that mean something else here.
use crate::comparisons::{Comparison, EndValue, comparison_of};
use crate::definitions::Outline;
use crate::expressions::is_callee;
use crate::inputs::{inputs, is_next};
use crate::logic::at_level;
use crate::row::{NoteKind, Row};
use crate::source::{Done, Draft, Source};
use crate::streams::is_called_so;
use std::alloc::Global;

/// How many parentheses after a call are looked past.
const MOST_PARENTHESES: usize = 4;

/// Edits calls of `printn` without a base, and what compares a character with the end of a string or of the input.
pub(crate) fn calls(
    alloc: Global,
    source: &Source<'_>,
    others: &Source<'_>,
    draft: &mut Draft,
    outline: &Outline,
) -> Done {
    let has_base = !is_defined(source, others, b"printn");
    let has_input = !is_defined(source, others, b"getchar");
    let has_read = !defines(others, b"read") && is_called_so(source, b"read", 0);
    let has_strings = !is_defined(source, others, b"char");
    let has_stores = !is_defined(source, others, b"lchar");
    for index in 0..source.tokens.len() {
        let open = index.wrapping_add(1);
        match source.word(index) {
            b"printn" if has_base && source.is_open_paren(open) && arguments(source, open) == 1 => {
                draft.insert(source.start(source.partner(open)), b", 10", Row::Base)?;
            }
            b"getchar" if has_input => ended(source, draft, index, Row::InputEnd)?,
            b"read" if has_read => ended(source, draft, index, Row::InputEnd)?,
            b"char" if has_strings => ended(source, draft, index, Row::StringEnd)?,
            b"lchar" if has_stores => stored(source, draft, index)?,
            _ => {}
        }
    }
    if has_input {
        inputs(alloc, source, draft, outline, has_read)?;
    }
    Ok(())
}

fn is_defined(source: &Source<'_>, others: &Source<'_>, name: &[u8]) -> bool {
    defines(source, name) || defines(others, name)
}

// A 0 that `lchar` stores is `'*e'`.
fn stored(source: &Source<'_>, draft: &mut Draft, index: usize) -> Done {
    let open = index.wrapping_add(1);
    let value = source.partner(open).wrapping_sub(1);
    let is_zero = source.end_value(value) == Some(EndValue::Zero);
    let is_last = is_zero && source.is(value.wrapping_sub(1), b",");
    if source.is_open_paren(open) && is_last {
        return draft.replace(source, value, b"'*e'", Row::StringEnd);
    }
    Ok(())
}

/// Whether a source defines a function.
pub(crate) fn defines(source: &Source<'_>, name: &[u8]) -> bool {
    for index in 0..source.tokens.len() {
        let open = index.wrapping_add(1);
        if source.is(index, name) && source.is_open_paren(open) {
            let body = source.partner(open).wrapping_add(1);
            if source.is_open_brace(body) || source.is_name(body) {
                return true;
            }
        }
    }
    false
}

/// How many arguments a call has.
pub(crate) fn arguments(source: &Source<'_>, open: usize) -> usize {
    let close = source.partner(open);
    let mut count: usize = 0;
    let mut next = open.wrapping_add(1);
    for index in next..close.min(source.tokens.len()) {
        if index == next {
            count = count.saturating_add(1);
            next = at_level(source, index, close, b",").wrapping_add(1);
        }
    }
    count
}

// A call, or what stores its value, with the parentheses around it: its first and its last token, and whether these are
// those of an assignment.
#[derive(Clone, Copy)]
struct Unit {
    first: usize,
    last: usize,
    is_bare: bool,
}

// Edits what the value of a call is compared with, or makes a comparison of it where it is a condition.
fn ended(source: &Source<'_>, draft: &mut Draft, index: usize, row: Row) -> Done {
    let open = index.wrapping_add(1);
    if !source.is_open_paren(open) {
        return Ok(());
    }
    let unit = unit_of(source, index, source.partner(open));
    if row == Row::InputEnd && is_next(source, unit.first, unit.last) {
        draft.note(source, index, NoteKind::Zero)?;
    }
    // No statement is a character of a string: between semicolons it is the test of a `for`.
    let is_test = row == Row::StringEnd
        && source.is(unit.first.wrapping_sub(1), b";")
        && source.is(unit.last.wrapping_add(1), b";");
    if is_test || is_truth(source, unit) {
        return alone(source, draft, unit, row);
    }
    compared(source, draft, (unit.first, unit.last), row, true)
}

fn unit_of(source: &Source<'_>, index: usize, close: usize) -> Unit {
    let open = source.partner(close.wrapping_add(1));
    let first = open.wrapping_add(1);
    let is_bare = source.is(index.wrapping_sub(1), b"=")
        && source.is_open_paren(open)
        && at_level(source, first, index, b",") == index;
    let mut unit = Unit {
        first: if is_bare { first } else { index },
        last: close,
        is_bare,
    };
    for _ in 0..MOST_PARENTHESES {
        let open = unit.first.wrapping_sub(1);
        let last = unit.last.wrapping_add(1);
        let is_group = source.is_open_paren(open) && source.partner(open) == last;
        if is_group && !is_callee(source, open.wrapping_sub(1)) {
            unit = Unit {
                first: open,
                last,
                is_bare: false,
            };
        }
    }
    unit
}

// Whether only the truth of its value counts.
fn is_truth(source: &Source<'_>, unit: Unit) -> bool {
    let before = unit.first.wrapping_sub(1);
    let next = source.word(unit.last.wrapping_add(1));
    match source.word(before) {
        b"!" => true,
        b"&&" | b"||" => matches!(next, b")" | b"&&" | b"||" | b"?" | b":" | b";" | b","),
        b"(" if matches!(source.head_word(before.wrapping_sub(1)), b"if" | b"while") => {
            matches!(next, b")" | b"&&" | b"||" | b"?")
        }
        b"(" | b"=" | b"," | b"?" | b":" => matches!(next, b"&&" | b"||" | b"?"),
        _ => false,
    }
}

// Makes the comparison.
fn alone(source: &Source<'_>, draft: &mut Draft, unit: Unit, row: Row) -> Done {
    let is_negated = source.is(unit.first.wrapping_sub(1), b"!");
    if unit.is_bare || is_negated {
        draft.insert(source.start(unit.first), b"(", row)?;
    }
    let words: &[u8] = match (unit.is_bare, is_negated) {
        (true, _) => b") != '*e'",
        (false, true) => b" != '*e')",
        (false, false) => b" != '*e'",
    };
    draft.insert(source.end(unit.last), words, row)
}

/// Edits a comparison with -1, or with 0, of what stands between two tokens.
pub(crate) fn compared(
    source: &Source<'_>,
    draft: &mut Draft,
    (first, last): (usize, usize),
    row: Row,
    is_value: bool,
) -> Done {
    let Some(found) = comparison_of(source, first, last) else {
        return Ok(());
    };
    let is_zero = found.word.value == EndValue::Zero;
    if is_zero && !is_value && matches!(found.operator, b"==" | b"!=") {
        return draft.note(source, found.sign, NoteKind::Zero);
    }
    let is_end = is_value || !is_zero;
    let is_least = is_zero && row == Row::InputEnd;
    let is_equal = match found.operator {
        b"==" | b"<=" if is_end => true,
        b"!=" | b">" if is_end => false,
        b">=" if is_least => false,
        b"<" if is_least => true,
        _ => return Ok(()),
    };
    end_test(source, draft, found, is_equal, row)
}

// Makes a comparison with `'*e'` of one with another value.
fn end_test(
    source: &Source<'_>,
    draft: &mut Draft,
    found: Comparison<'_>,
    is_equal: bool,
    row: Row,
) -> Done {
    let (sign, word) = (found.sign, found.word);
    let words: &[u8] = match (word.first > sign, is_equal) {
        (true, true) => b"== '*e'",
        (true, false) => b"!= '*e'",
        (false, true) => b"'*e' ==",
        (false, false) => b"'*e' !=",
    };
    let start = source.start(sign.min(word.first));
    let end = source.end(sign.max(word.last));
    draft.put(start, end, words, row)
}
