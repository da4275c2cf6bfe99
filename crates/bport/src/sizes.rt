//! Sizes of vectors, of which several numbers may be told.
use crate::apply::render;
use crate::row::Row;
use crate::source::{Done, Draft, Source};
use crate::table::NONE;
use btools::Text;
use std::alloc::AllocError;

/// One number for the size of a vector, where several tokens stand between its brackets; in a function without these.
pub(crate) fn one_size(
    source: &Source<'_>,
    draft: &mut Draft,
    open: usize,
    is_local: bool,
) -> Done {
    let close = source.partner(open);
    let told = told_size(source, draft, open)?;
    let size = match told {
        Some(size) if close > open.saturating_add(2) => size,
        _ => return Ok(()),
    };
    let mut text = Text::new(draft.alloc);
    text.push(if is_local { b" " } else { b"[" })?;
    text.push_number(size)?;
    if is_local {
        let start = source.end(open.wrapping_sub(1));
        return draft.put_text(start, source.end(close), text, Row::Vector);
    }
    text.push(b"]")?;
    draft.put_text(source.start(open), source.end(close), text, Row::Size)
}

/// The number that is told between brackets, with the edits so far, if one is.
pub(crate) fn told_size(
    source: &Source<'_>,
    draft: &Draft,
    open: usize,
) -> Result<Option<u64>, AllocError> {
    let close = source.partner(open);
    if close == NONE {
        return Ok(None);
    }
    let (start, end) = (source.end(open), source.start(close));
    let told = render(draft, source.text, start, end)?;
    Ok(total(told.as_slice()))
}

/// A sum of products, as far as it was read.
#[derive(Clone, Copy)]
struct Sum {
    total: u64,
    is_taken: bool,
    product: u64,
    number: Option<u64>,
}

// The value of decimal numbers with `+`, `-` and `*` between them.
fn total(text: &[u8]) -> Option<u64> {
    let mut sum = Sum {
        total: 0,
        is_taken: false,
        product: 1,
        number: None,
    };
    for byte in text {
        sum = after(sum, *byte)?;
    }
    whole(sum)
}

fn after(sum: Sum, byte: u8) -> Option<Sum> {
    match byte {
        b'0'..=b'9' => Some(Sum {
            number: Some(with_digit(sum.number, byte)?),
            ..sum
        }),
        b' ' => Some(sum),
        b'*' => Some(Sum {
            product: sum.product.checked_mul(sum.number?)?,
            number: None,
            ..sum
        }),
        b'+' | b'-' => Some(Sum {
            total: whole(sum)?,
            is_taken: byte == b'-',
            product: 1,
            number: None,
        }),
        _ => None,
    }
}

// A number with one more digit. One that begins with 0 is octal, and none is told of it.
fn with_digit(number: Option<u64>, digit: u8) -> Option<u64> {
    match number {
        None => Some((digit as u64).saturating_sub(48)),
        Some(0) => None,
        Some(number) => number
            .checked_mul(10)?
            .checked_add((digit as u64).saturating_sub(48)),
    }
}

fn whole(sum: Sum) -> Option<u64> {
    let product = sum.product.checked_mul(sum.number?)?;
    if sum.is_taken {
        sum.total.checked_sub(product)
    } else {
        sum.total.checked_add(product)
    }
}
