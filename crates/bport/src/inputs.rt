//! Words that hold what `getchar` gave, and what they are compared with.
use crate::calls::compared;
use crate::comparisons::{
    Asked, EndValue, comparison_after, comparison_before, comparison_of, end_word,
};
use crate::definitions::{Function, Outline};
use crate::expressions::is_assignment;
use crate::names::is_keyword;
use crate::refusing::is_operand;
use crate::row::{NoteKind, Row};
use crate::source::{Done, Draft, Source};
use crate::table::{NONE, filled, put, slot};
use crate::tokens::TokenKind;
use std::alloc::Global;

/// For each name, by its first token, the last function that stores what `getchar` gave in it, and the last one that
/// may store something else there.
#[derive(Drop)]
struct Stores {
    inputs: Vec<usize>,
    others: Vec<usize>,
    /// For each name of an external any number.
    externals: Vec<usize>,
    /// The same of what `char` gave.
    strings: Vec<usize>,
    /// The same of what any other call gave.
    calls: Vec<usize>,
    /// Where it is asked whether such a word is below 0.
    signed: Vec<usize>,
    /// Whether what `getchar` gave is somewhere else, too.
    is_spread: bool,
    /// Whether `read` is the `getchar` of the first B.
    has_read: bool,
}

impl Stores {
    // Whether a word of a function holds nothing but that.
    fn is_alone(&self, first: usize, number: usize) -> bool {
        slot(&self.others, first) != number && slot(&self.externals, first) == NONE
    }
}

/// Edits comparisons of words that hold nothing else, and tells the others where the end of the input may come.
pub(crate) fn inputs(
    alloc: Global,
    source: &Source<'_>,
    draft: &mut Draft,
    outline: &Outline,
    has_read: bool,
) -> Done {
    let count = source.tokens.len();
    let mut stores = Stores {
        inputs: filled(alloc, count)?,
        others: filled(alloc, count)?,
        externals: filled(alloc, count)?,
        strings: filled(alloc, count)?,
        calls: filled(alloc, count)?,
        signed: Vec::new(alloc),
        is_spread: false,
        has_read,
    };
    for external in &outline.variables {
        put(&mut stores.externals, slot(source.firsts, external.name), 0);
    }
    let mut edited = filled(alloc, count)?;
    for number in 0..outline.functions.len() {
        let function = outline.functions[number];
        stores_in(source, &mut stores, function, number);
        comparisons(source, draft, &mut stores, &mut edited, function, number)?;
    }
    if stores.is_spread {
        for sign in &stores.signed {
            draft.note(source, *sign, NoteKind::Zero)?;
        }
        tell(source, draft, &edited)?;
    }
    Ok(())
}

// Notes what a function stores.
fn stores_in(source: &Source<'_>, stores: &mut Stores, function: Function, number: usize) {
    for index in function.open.min(function.body)..function.end.min(source.tokens.len()) {
        let first = slot(source.firsts, index);
        if first == NONE {
            continue;
        }
        let call = index.wrapping_add(2);
        if gets(source, index, b"char") {
            put(&mut stores.strings, first, number);
        }
        if source.is_call(call) && source.is(index.wrapping_add(1), b"=") {
            put(&mut stores.calls, first, number);
        }
        let is_read = stores.has_read && gets(source, index, b"read");
        if is_read || gets(source, index, b"getchar") {
            put(&mut stores.inputs, first, number);
        } else if index < function.body || is_set(source, index) && !is_character(source, index) {
            put(&mut stores.others, first, number);
        }
        stores.is_spread = stores.is_spread || hands_on(source, index);
    }
}

// Whether a name gets what a function gives, and nothing is made of it before.
fn gets(source: &Source<'_>, name: usize, function: &[u8]) -> bool {
    let call = name.wrapping_add(2);
    let close = source.partner(call.wrapping_add(1));
    source.is(name.wrapping_add(1), b"=")
        && source.is(call, function)
        && source.is_call(call)
        && matches!(
            source.word(close.wrapping_add(1)),
            b")" | b";" | b"," | b"]"
        )
}

/// Whether a name is set, or its address is taken.
pub(crate) fn is_set(source: &Source<'_>, name: usize) -> bool {
    let next = name.wrapping_add(1);
    let before = name.wrapping_sub(1);
    match source.word(before) {
        b"++" | b"--" => true,
        b"&" if !is_operand(source, before.wrapping_sub(1)) => true,
        _ => is_assignment(source.word(next)) || matches!(source.word(next), b"++" | b"--"),
    }
}

// Whether a name gets a number, a character constant, or a character of a string: none of these is below 0.
fn is_character(source: &Source<'_>, name: usize) -> bool {
    let value = name.wrapping_add(2);
    let last = match source.kind(value) {
        Some(TokenKind::Number | TokenKind::Char) => value,
        _ if source.is(value, b"char") => source.partner(value.wrapping_add(1)),
        _ => return false,
    };
    source.is(name.wrapping_add(1), b"=")
        && matches!(source.word(last.wrapping_add(1)), b")" | b";" | b"," | b"]")
}

// Whether a call of `getchar` is a value of a function, a `switch` or a call, or is stored in what is no name.
fn hands_on(source: &Source<'_>, index: usize) -> bool {
    if !source.is(index, b"getchar") || !source.is_call(index) {
        return false;
    }
    let before = index.wrapping_sub(1);
    let head = before.wrapping_sub(1);
    match source.word(before) {
        b"return" | b"," => true,
        b"(" => {
            let is_other = !is_keyword(source.word(head)) && !source.is(head, b"putchar");
            matches!(source.word(head), b"return" | b"switch") || source.is_name(head) && is_other
        }
        b"=" => !source.is_name(head) || source.is(head.wrapping_sub(2), b"switch"),
        _ => false,
    }
}

// Edits the comparisons of a function with -1 and 0, where the word holds nothing else, and tells them else.
fn comparisons(
    source: &Source<'_>,
    draft: &mut Draft,
    stores: &mut Stores,
    edited: &mut Vec<usize>,
    function: Function,
    number: usize,
) -> Done {
    for index in function.body..function.end.min(source.tokens.len()) {
        let first = slot(source.firsts, index);
        if first == NONE {
            continue;
        }
        let is_zero = is_zero_test(source, index);
        if is_zero && slot(&stores.strings, first) == number {
            draft.note(source, index, NoteKind::Ends)?;
        }
        if slot(&stores.inputs, first) != number {
            if slot(&stores.calls, first) == number {
                if let Some(sign) = sign_test(source, index) {
                    stores.signed.push(sign)?;
                }
            }
            continue;
        }
        if is_zero || is_next(source, index, index) {
            draft.note(source, index, NoteKind::Zero)?;
        }
        if stores.is_alone(first, number) {
            put(edited, index, 0);
            compared(source, draft, (index, index), Row::InputEnd, false)?;
        } else if sign_test(source, index).is_some() {
            draft.note(source, index, NoteKind::Zero)?;
        }
        let before = source.word(index.wrapping_sub(1));
        let head = source.word(index.wrapping_sub(2));
        let is_handed = matches!(before, b"(") && matches!(head, b"return" | b"switch");
        if is_handed || matches!(before, b"return") || !stores.is_alone(first, number) {
            stores.is_spread = true;
        }
    }
    Ok(())
}

/// Whether 1 is added to what stands between two tokens, or its bits are turned: -1 gave 0 so.
pub(crate) fn is_next(source: &Source<'_>, first: usize, last: usize) -> bool {
    let sign = last.wrapping_add(1);
    source.is(first.wrapping_sub(1), b"~")
        || source.is(sign, b"+") && source.is(sign.wrapping_add(1), b"1")
}

// The sign by which it is asked whether a word is below 0, as the end of the input was.
fn sign_test(source: &Source<'_>, index: usize) -> Option<usize> {
    let found = comparison_of(source, index, index)?;
    if found.asked() == Some(Asked::Sign) {
        Some(found.sign)
    } else {
        None
    }
}

// Whether a word is compared with 0, or only its truth counts.
fn is_zero_test(source: &Source<'_>, index: usize) -> bool {
    if let Some(found) = comparison_of(source, index, index) {
        return found.asked() == Some(Asked::Zero);
    }
    let sign = index.wrapping_add(1);
    match (source.word(index.wrapping_sub(1)), source.word(sign)) {
        (b"!", _) | (b"(" | b"&&" | b"||", b"&&" | b"||" | b"?") | (b"&&" | b"||", b")") => true,
        (b"(", b")") => source.is_head(sign) && !source.is(index.wrapping_sub(2), b"switch"),
        _ => false,
    }
}

// Tells what stays: each comparison with -1, each case of it, and each test of what a call has given for what is
// below 0.
fn tell(source: &Source<'_>, draft: &mut Draft, edited: &[usize]) -> Done {
    for index in 0..source.tokens.len() {
        let value = end_word(source, index.wrapping_add(1));
        let is_case = source.is(index, b"case")
            && matches!(value, Some(word) if word.value == EndValue::MinusOne);
        if is_case || is_test(source, edited, index) {
            draft.note(source, index, NoteKind::Zero)?;
        }
    }
    Ok(())
}

// Whether a sign compares with -1, or with 0 what a call has given, and stays.
fn is_test(source: &Source<'_>, edited: &[usize], sign: usize) -> bool {
    let (before, next) = (sign.wrapping_sub(1), sign.wrapping_add(1));
    if let Some(found) = comparison_after(source, sign) {
        let stays = slot(edited, before) == NONE && !is_of_call(source, before);
        let is_given = is_stored(source, before) && is_bare_call(source, before.wrapping_sub(1));
        return stays
            && match found.asked() {
                Some(Asked::MinusOne) => true,
                Some(Asked::Sign) => is_given || is_bare_call(source, before),
                Some(Asked::Zero) => is_given,
                None => false,
            };
    }
    match comparison_before(source, sign) {
        Some(found) if found.asked() == Some(Asked::MinusOne) => {
            let open = if source.is_open_paren(next) {
                next
            } else {
                next.wrapping_add(1)
            };
            slot(edited, next) == NONE && !is_of_call(source, source.partner(open))
        }
        _ => false,
    }
}

// Whether a call without arguments ends with a parenthesis.
fn is_bare_call(source: &Source<'_>, close: usize) -> bool {
    let open = source.partner(close);
    source.is_call(open.wrapping_sub(1)) && open.wrapping_add(1) == close
}

// Whether a parenthesis ends in which the value of a call is stored.
fn is_stored(source: &Source<'_>, close: usize) -> bool {
    let call = source.partner(close.wrapping_sub(1)).wrapping_sub(1);
    source.is_call(call) && source.is(call.wrapping_sub(1), b"=")
}

// Whether the value of `getchar` is compared itself, also where it is stored.
fn is_of_call(source: &Source<'_>, close: usize) -> bool {
    let end = if is_stored(source, close) {
        close.wrapping_sub(1)
    } else {
        close
    };
    source.is(source.partner(end).wrapping_sub(1), b"getchar")
}
