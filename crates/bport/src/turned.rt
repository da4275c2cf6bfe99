//! Statements that begin with `until` or `unless`.
use crate::row::Row;
use crate::source::{Done, Draft, Source};
use crate::table::{NONE, slot, word_of};
use crate::tokens::{Token, TokenKind};

/// Which of these words begin statements wherever they stand.
#[derive(Clone, Copy)]
pub(crate) struct Turned {
    pub until: bool,
    pub unless: bool,
}

impl Turned {
    pub(crate) fn of(text: &[u8], tokens: &[Token], partners: &[usize]) -> Self {
        Turned {
            until: is_always_head(text, tokens, partners, b"until"),
            unless: is_always_head(text, tokens, partners, b"unless"),
        }
    }
}

// Whether a word is there, and begins a statement wherever it stands.
fn is_always_head(text: &[u8], tokens: &[Token], partners: &[usize], word: &[u8]) -> bool {
    let mut is_found = false;
    let mut depth: usize = 0;
    for index in 0..tokens.len() {
        let found = word_of(text, tokens, index);
        match found {
            b"{" | b"$(" => depth = depth.saturating_add(1),
            b"}" | b"$)" => depth = depth.saturating_sub(1),
            _ => {}
        }
        if found == word {
            let before = word_of(text, tokens, index.wrapping_sub(1));
            let is_inside = depth > 0 || matches!(before, b")" | b"else");
            if !is_inside || !has_body(text, tokens, partners, index) {
                return false;
            }
            is_found = true;
        }
    }
    is_found
}

/// Whether parentheses come after a word, and then what only a statement begins with.
pub(crate) fn has_body(text: &[u8], tokens: &[Token], partners: &[usize], index: usize) -> bool {
    let open = index.wrapping_add(1);
    let close = slot(partners, open);
    if !matches!(word_of(text, tokens, open), b"(") || close == NONE {
        return false;
    }
    let body = close.wrapping_add(1);
    match tokens.get(body) {
        Some(token) if token.kind == TokenKind::Name => true,
        _ => matches!(word_of(text, tokens, body), b"{" | b"$(" | b"++" | b"--"),
    }
}

/// `until(x) S` is `while(!(x)) S`, and `unless(x) S` is `if(!(x)) S`.
pub(crate) fn turned_head(source: &Source<'_>, draft: &mut Draft, index: usize) -> Done {
    let open = index.wrapping_add(1);
    draft.replace(source, index, source.head_word(index), Row::Negated)?;
    draft.replace(source, open, b"(!(", Row::Negated)?;
    draft.replace(source, source.partner(open), b"))", Row::Negated)
}
