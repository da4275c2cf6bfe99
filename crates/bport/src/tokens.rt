//! The tokens of an old source.
use crate::edit::between;
use crate::staying::is_fraction_at;
use crate::within::Within;
use std::alloc::{AllocError, Global};

/// What a token is.
#[derive(Clone, Copy, PartialEq, Eq)]
pub(crate) enum TokenKind {
    Name,
    Number,
    Char,
    String,
    Sign,
}

/// A token, and the places of its first byte and of the byte after it.
#[derive(Clone, Copy)]
pub(crate) struct Token {
    pub kind: TokenKind,
    pub start: usize,
    pub end: usize,
}

/// Signs of more than one byte, the longest first.
const SIGNS: [&str; 40] = [
    "<<=", ">>=", "=<<", "=>>", "=<=", "=>=", "===", "=!=", "++", "--", "<<", ">>", "<=", ">=",
    "==", "!=", "&&", "||", "+=", "-=", "*=", "/=", "%=", "&=", "|=", "^=", "=+", "=-", "=*", "=/",
    "=%", "=&", "=|", "=<", "=>", "=^", "$(", "$)", "::", "->",
];

/// The tokens of a source, whose bytes stand in these.
pub(crate) fn tokens_of(
    alloc: Global,
    source: &[u8],
    places: &[Within],
) -> Result<Vec<Token>, AllocError> {
    let mut tokens = Vec::new(alloc);
    let mut next: usize = 0;
    for at in 0..source.len() {
        if at < next {
            continue;
        }
        let (kind, end) = piece_at(source, places, at);
        if let Some(kind) = kind {
            tokens.push(Token {
                kind,
                start: at,
                end,
            })?;
        }
        next = end;
    }
    Ok(tokens)
}

// What begins at a place, and where it ends; nothing for blanks, comments and what begins these.
fn piece_at(source: &[u8], places: &[Within], at: usize) -> (Option<TokenKind>, usize) {
    let rest = source.get(at..).unwrap_or(&[]);
    let next = at.saturating_add(1);
    if is_within(places, at) {
        return (None, next);
    }
    match rest.get(0) {
        Some(b'"') => (Some(TokenKind::String), end_of_quotes(source, places, next)),
        Some(b'\'') => (Some(TokenKind::Char), end_of_quotes(source, places, next)),
        Some(b'/') if matches!(rest.get(1), Some(b'*' | b'/')) => (None, at.saturating_add(2)),
        Some(b'#') if is_remark(source, places, at) => (None, next),
        Some(b' ' | b'\t' | b'\n' | b'\r' | 0x0C) => (None, next),
        Some(_) if matches!(rest, [b'.', byte, ..] | [byte, ..] if byte.is_ascii_digit()) => {
            (
                Some(TokenKind::Number),
                at.saturating_add(word_length(rest, true)),
            )
        }
        Some(byte) if is_letter(*byte) => (
            Some(TokenKind::Name),
            at.saturating_add(word_length(rest, false)),
        ),
        _ => (Some(TokenKind::Sign), at.saturating_add(sign_length(rest))),
    }
}

// Whether a byte stands in a comment or in quotes, or begins a comment up to the end of the line.
fn is_within(places: &[Within], at: usize) -> bool {
    match places.get(at) {
        Some(Within::Start | Within::Code | Within::Slash | Within::CharQuote) | None => false,
        Some(_) => true,
    }
}

// Whether a `#` begins a comment or a line for a preprocessor: it begins its line, comes after a comment, or is no
// operator.
fn is_remark(source: &[u8], places: &[Within], at: usize) -> bool {
    let before = between(source, 0, at).trim_ascii_end().len();
    let is_after = places.get(before.wrapping_sub(1)) == Some(&Within::Star);
    places.get(at) == Some(&Within::Start) || is_after || !is_fraction_at(source, at)
}

// The place after quotes whose first byte is before this place.
fn end_of_quotes(source: &[u8], places: &[Within], from: usize) -> usize {
    for at in from..source.len() {
        let is_last = !is_within(places, at);
        let is_quote = places.get(at) == Some(&Within::CharQuote) && source[at] == b'\'';
        if is_last && !is_quote {
            return at;
        }
    }
    source.len()
}

/// Whether a name may begin with a byte.
pub(crate) fn is_letter(byte: u8) -> bool {
    byte.is_ascii_alphabetic() || byte == b'_' || byte == b'.'
}

// How long a name or a number is.
fn word_length(rest: &[u8], is_number: bool) -> usize {
    for index in 0..rest.len() {
        let byte = rest[index];
        let goes_on = byte.is_ascii_digit() || is_letter(byte) && !(is_number && byte == b'_');
        if !goes_on {
            return index.max(1);
        }
    }
    rest.len()
}

fn sign_length(rest: &[u8]) -> usize {
    for sign in &SIGNS {
        if rest.starts_with(sign.as_bytes()) {
            return sign.len();
        }
    }
    1
}
