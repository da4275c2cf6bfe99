//! Vectors of functions that have lists of values.
use crate::apply::rendered;
use crate::row::{NoteKind, Row};
use crate::sizes::told_size;
use crate::source::{Done, Draft, Source};
use crate::table::NONE;
use btools::Text;
use std::alloc::AllocError;

/// How many words without values get 0.
const MOST_ZEROS: u64 = 16;

/// A list of values: its braces, and how many values there are.
#[derive(Clone, Copy)]
struct ValueList {
    open: usize,
    close: usize,
    count: u64,
}

/// The size of a vector in the place of its brackets and its list, and a statement for each value, where the list is
/// all that comes before the end of its declaration, and lacks few values. Tells whether it is so.
pub(crate) fn listed(
    source: &Source<'_>,
    draft: &mut Draft,
    values: &mut Text,
    name: usize,
    end: usize,
) -> Result<bool, AllocError> {
    let Some(list) = list_of(source, name, end) else {
        return Ok(false);
    };
    let told = told_size(source, draft, name.wrapping_add(1))?;
    let size = told.unwrap_or(list.count.saturating_sub(1));
    if size > list.count.saturating_add(MOST_ZEROS) {
        draft.note(source, name, NoteKind::Fewer)?;
        return Ok(false);
    }
    let own = rendered(source, draft, name, name)?;
    push_values(source, draft, values, list, own.as_slice())?;
    for index in list.count..size {
        push_value(values, own.as_slice(), index, b"0")?;
    }
    let mut text = Text::new(draft.alloc);
    text.push(b" ")?;
    text.push_number(size)?;
    draft.put_text(source.end(name), source.end(list.close), text, Row::Value)?;
    Ok(true)
}

// The list of a vector, if no comment, no string and no call is among its values.
fn list_of(source: &Source<'_>, name: usize, end: usize) -> Option<ValueList> {
    let after = source.partner(name.wrapping_add(1)).wrapping_add(1);
    let open = if source.is(after, b"=") {
        after.wrapping_add(1)
    } else {
        after
    };
    let close = source.partner(open);
    let is_last = source.is_open_brace(open) && close.wrapping_add(1) == end;
    if !is_last || close == NONE || !source.is_plain(name, close) {
        return None;
    }
    Some(ValueList {
        open,
        close,
        count: values_in(source, open, close)?,
    })
}

/// How many values are between braces, if these are all alike: none is empty, and none has brackets.
pub(crate) fn values_in(source: &Source<'_>, open: usize, close: usize) -> Option<u64> {
    let mut count: u64 = 0;
    let mut first = open.wrapping_add(1);
    for index in first..close.wrapping_add(1) {
        if matches!(source.word(index), b"(" | b"[" | b"{" | b"$(" | b"?") {
            return None;
        }
        if index == close || source.is(index, b",") {
            if index == first {
                return None;
            }
            count = count.saturating_add(1);
            first = index.wrapping_add(1);
        }
    }
    Some(count)
}

// Adds a statement for each value.
fn push_values(
    source: &Source<'_>,
    draft: &Draft,
    values: &mut Text,
    list: ValueList,
    name: &[u8],
) -> Done {
    let mut first = list.open.wrapping_add(1);
    let mut count: u64 = 0;
    for index in first..list.close.wrapping_add(1) {
        if index == list.close || source.is(index, b",") {
            let value = rendered(source, draft, first, index.wrapping_sub(1))?;
            push_value(values, name, count, value.as_slice())?;
            count = count.saturating_add(1);
            first = index.wrapping_add(1);
        }
    }
    Ok(())
}

fn push_value(values: &mut Text, name: &[u8], index: u64, value: &[u8]) -> Done {
    values.push(b" ")?;
    values.push(name)?;
    values.push(b"[")?;
    values.push_number(index)?;
    values.push(b"] = ")?;
    values.push(value)?;
    values.push(b";")
}
