//! What is around a token with which no program goes on.
use crate::compiled::Extent;
use crate::kinds::{closes_bracket, opens_bracket};
use crate::spans::{Spans, lexeme_at};
use blex::Lexeme;
use btree::{Construct, Sort, Tag, tags_of};
use std::alloc::{AllocError, Global};

/// In which part of a definition a token is.
#[derive(Clone, Copy, PartialEq, Eq)]
pub(crate) enum Region {
    /// It is the first one.
    Start,
    /// In an external.
    External,
    /// In the parentheses of a function's parameters.
    Header,
    /// In the body of a function.
    Body,
}

/// A token, and what is around it.
#[derive(Clone, Copy)]
pub(crate) struct Around {
    pub token: usize,
    pub part: Region,
    /// The first token of the outermost statement that is open in its block, or of its definition; and that of the
    /// innermost one.
    pub first: usize,
    pub own: usize,
    /// The innermost bracket that is open before it.
    pub opener: Option<usize>,
    /// Whether a `?` of its statement has no `:`.
    pub is_asked: bool,
}

/// What is around a token of a definition.
pub(crate) fn look_around(
    alloc: Global,
    spans: &Spans,
    extent: Extent,
    token: usize,
) -> Result<Around, AllocError> {
    let (first, own) = statements_before(alloc, spans, extent.first, token)?;
    Ok(Around {
        token,
        part: part_of(spans, extent, token),
        first,
        own,
        opener: opener_of(spans, token),
        is_asked: is_asked(spans, first, token),
    })
}

// Where the outermost statement begins that is open before a token in its block, and where the innermost one does; the
// token itself, if there is none.
fn statements_before(
    alloc: Global,
    spans: &Spans,
    first: usize,
    token: usize,
) -> Result<(usize, usize), AllocError> {
    let mut sorts = Vec::new(alloc);
    for at in first..token {
        sorts.push(Sort::of(lexeme_at(spans, at)))?;
    }
    let mut at = first;
    let mut open: Vec<(Construct, usize)> = Vec::new(alloc);
    let tags = tags_of(alloc, sorts.as_slice())?;
    for tag in &tags {
        match tag {
            Tag::Begins(construct) => open.push((*construct, at))?,
            Tag::Token => at = at.saturating_add(1),
            Tag::Ends => {
                let _ = open.pop();
            }
        }
    }
    let mut outermost = token;
    let innermost = match open.last() {
        None | Some((Construct::Block, _)) => token,
        Some((_, begin)) => *begin,
    };
    for _ in first..token {
        match open.pop() {
            None | Some((Construct::Block, _)) => break,
            Some((_, begin)) => outermost = begin,
        }
    }
    Ok((outermost, innermost))
}

// Whether a `?` between two tokens has no `:`.
fn is_asked(spans: &Spans, first: usize, end: usize) -> bool {
    let mut asked: u64 = 0;
    for at in first..end {
        match lexeme_at(spans, at) {
            Lexeme::Question => asked = asked.saturating_add(1),
            Lexeme::Colon => asked = asked.saturating_sub(1),
            _ => {}
        }
    }
    asked > 0
}

fn part_of(spans: &Spans, extent: Extent, token: usize) -> Region {
    if token == extent.first {
        return Region::Start;
    }
    let second = extent.first.saturating_add(1);
    if lexeme_at(spans, second) != Lexeme::OpenParen {
        return Region::External;
    }
    for at in second..token {
        if lexeme_at(spans, at) == Lexeme::CloseParen {
            return Region::Body;
        }
    }
    Region::Header
}

impl Around {
    /// The token before the bracket that is open.
    pub(crate) fn head(&self) -> usize {
        match self.opener {
            Some(opener) => opener.wrapping_sub(1),
            None => usize::MAX,
        }
    }

    /// Whether the bracket that is open is this one.
    pub(crate) fn is_in(&self, spans: &Spans, opener: Lexeme) -> bool {
        match self.opener {
            Some(token) => lexeme_at(spans, token) == opener,
            None => false,
        }
    }
}

/// The opening bracket that a closing one is the end of.
pub(crate) fn opener_of(spans: &Spans, closer: usize) -> Option<usize> {
    let mut depth: u64 = 0;
    for back in 0..closer.saturating_sub(spans.first) {
        let at = closer.saturating_sub(back).saturating_sub(1);
        let lexeme = lexeme_at(spans, at);
        if closes_bracket(&lexeme) {
            depth = depth.saturating_add(1);
        } else if opens_bracket(&lexeme) {
            if depth == 0 {
                return Some(at);
            }
            depth = depth.saturating_sub(1);
        }
    }
    None
}
