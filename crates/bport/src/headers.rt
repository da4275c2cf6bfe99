//! The parameters of functions.
use crate::definitions::types;
use crate::names::is_type;
use crate::pointers::{is_typed, pointed, pointed_end};
use crate::row::Row;
use crate::source::{Done, Draft, Source};
use crate::table::NONE;
use std::alloc::AllocError;

/// How many declarations of parameters are looked at.
const MOST_DECLARATIONS: usize = 64;

/// Takes types out of a list of parameters.
pub(crate) fn parameters(
    source: &Source<'_>,
    draft: &mut Draft,
    open: usize,
    close: usize,
) -> Done {
    for index in open.saturating_add(1)..close.min(source.tokens.len()) {
        let next = index.wrapping_add(1);
        let word = source.word(index);
        if matches!(word, b"(") && pointed(source, index) != NONE {
            draft.remove(source, index, next, Row::Parameters)?;
        } else if matches!(word, b")") && pointed(source, source.partner(index)) != NONE {
            let end = source.end(pointed_end(source, source.partner(index)));
            draft.put(source.start(index), end, b"", Row::Parameters)?;
        } else if matches!(word, b"[") {
            let end = source.partner(index).min(close);
            draft.put(source.start(index), source.end(end), b"", Row::Parameters)?;
        } else if matches!(word, b"*") || is_type(word) {
            types(source, draft, index, next)?;
            draft.remove(source, index, next, Row::Parameters)?;
        }
    }
    Ok(())
}

/// Makes comments of the declarations of parameters that come after them, and tells the token after these.
pub(crate) fn knr(
    source: &Source<'_>,
    draft: &mut Draft,
    from: usize,
) -> Result<usize, AllocError> {
    let mut at = from;
    for _ in 0..MOST_DECLARATIONS {
        let last = source.semicolon(at);
        if !is_type(source.word(at)) || !is_typed(source, at) || last == NONE {
            break;
        }
        types(source, draft, at, at.wrapping_add(1))?;
        draft.comment(source, at, last, Row::Parameters)?;
        at = last.wrapping_add(1);
    }
    Ok(at)
}
