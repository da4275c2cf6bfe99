//! What is known of a source before anything of it is edited.
use crate::edit::between;
use crate::quotes::has_backslash;
use crate::shape::{partners_of, semicolons_of};
use crate::source::{Dialect, Quotes, Source};
use crate::table::{first_names, word_of};
use crate::tokens::{Token, TokenKind, tokens_of};
use crate::turned::Turned;
use crate::within::{Within, places_of};
use bword::Edition;
use std::alloc::{AllocError, Global};

/// In what each byte of a source stands, its tokens, and what is known of each of these.
#[derive(Drop)]
pub(crate) struct SourceParts {
    places: Vec<Within>,
    tokens: Vec<Token>,
    partners: Vec<usize>,
    semicolons: Vec<usize>,
    firsts: Vec<usize>,
}

impl SourceParts {
    pub(crate) fn of(alloc: Global, text: &[u8]) -> Result<Self, AllocError> {
        let places = places_of(alloc, text)?;
        let tokens = tokens_of(alloc, text, &places)?;
        let partners = partners_of(alloc, text, &tokens)?;
        let semicolons = semicolons_of(alloc, text, &tokens, &partners)?;
        let firsts = first_names(alloc, text, &tokens)?;
        Ok(SourceParts {
            places,
            tokens,
            partners,
            semicolons,
            firsts,
        })
    }

    /// The text that has these parts, without the ends of its statements.
    pub(crate) fn source<'a>(&'a self, text: &'a [u8], edition: Edition) -> Source<'a> {
        Source {
            text,
            places: &self.places,
            tokens: &self.tokens,
            partners: &self.partners,
            semicolons: &self.semicolons,
            ends: &[],
            firsts: &self.firsts,
            end_values: &[],
            edition,
            dialect: dialect_of(text, &self.tokens),
            quotes: quotes_of(text, &self.places, &self.tokens),
            turned: Turned::of(text, &self.tokens, &self.partners),
        }
    }
}

// By its escapes with a backslash, in whose place others come, and by types and comments up to the end of a line.
fn quotes_of(text: &[u8], places: &[Within], tokens: &[Token]) -> Quotes {
    let has_escape = tokens.iter().any(|token| {
        matches!(token.kind, TokenKind::Char | TokenKind::String)
            && has_backslash(between(text, token.start, token.end))
    });
    if !has_escape {
        return Quotes::Stars;
    }
    let has_remark = text
        .iter()
        .zip(places.iter())
        .any(|(byte, place)| *byte == b'/' && *place == Within::Slash);
    if has_remark || has_types(text, tokens) {
        Quotes::Backslashes
    } else {
        Quotes::Both
    }
}

// Whether types are there, and no constant of one character that a `*` escapes.
fn has_types(text: &[u8], tokens: &[Token]) -> bool {
    let mut is_typed = false;
    for index in 0..tokens.len() {
        match word_of(text, tokens, index) {
            b"int" => is_typed = true,
            [b'\'', b'*', _, b'\''] => return false,
            _ => {}
        }
    }
    is_typed
}

// By its assignment operators. Where types are there, nothing early is certain.
fn dialect_of(text: &[u8], tokens: &[Token]) -> Dialect {
    let mut is_later = false;
    let mut is_early = false;
    let mut is_typed = false;
    for index in 0..tokens.len() {
        match word_of(text, tokens, index) {
            b"+=" | b"-=" | b"*=" | b"/=" | b"%=" | b"<<=" | b">>=" => is_later = true,
            b"int" => is_typed = true,
            b"=+" | b"=-" | b"=*" | b"=&" | b"=/" | b"=|" => {
                if matches!(text.get(tokens[index].end), Some(b' ')) {
                    is_early = true;
                }
            }
            _ => {}
        }
    }
    match (is_early, is_later) {
        (true, false) if !is_typed => Dialect::Early,
        (false, true) => Dialect::Later,
        _ => Dialect::Either,
    }
}
