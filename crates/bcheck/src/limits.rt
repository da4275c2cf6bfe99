//! Which limit of size a definition is past.
ghost use Rattle.std.specs.List.{list_all};
ghost use Rattle.std.specs.Prelude.{◌∷◌, [], IsTrue};
ghost use Rattle.bcheck.specs.Checks.{is_on_line};

use crate::compiled::Extent;
use crate::spans::{Spans, lexeme_at};
use blang::{Keyword, MAX_STRING_WORDS, MAX_VALUES, MAX_WORDS};
use blex::Lexeme;

/// A limit of size.
#[derive(Clone, Copy)]
pub(crate) enum Limit {
    Strings,
    Values,
    Vector,
    Frame,
    Instructions,
}

impl Limit {
    /// One sentence on it, and how to fix it.
    #[rattlefmt::skip]
    pub(crate) fn advice(self) -> (&'static str, &'static str)
        ensures { IsTrue (list_all is_on_line (result.0.now ∷ result.1.now ∷ [])) }
    {
        match self {
            Limit::Strings => ("a definition has at most 1024 words of strings", "make two definitions of it"),
            Limit::Values => ("a definition has at most 1024 initial values", "make two definitions of it"),
            Limit::Vector => ("an external vector has at most 32767 words", "v[32766]; is the largest"),
            Limit::Frame => ("a function has at most 32767 words of its own", "make its vectors smaller, or external"),
            Limit::Instructions => ("a function has at most 4096 instructions", "make two functions of it"),
        }
    }
}

/// How many words of strings, initial values and words of its own a definition has.
#[derive(Clone, Copy)]
struct WordCounts {
    strings: usize,
    values: usize,
    words: u64,
}

/// The limit that a definition is past.
pub(crate) fn limit_of(source: &[u8], spans: &Spans, extent: Extent) -> Limit {
    let is_function = lexeme_at(spans, extent.first.wrapping_add(1)) == Lexeme::OpenParen;
    let sizes = sizes_of(source, spans, extent);
    if sizes.strings > MAX_STRING_WORDS {
        Limit::Strings
    } else if is_function && sizes.words > u64::from(MAX_WORDS) {
        Limit::Frame
    } else if is_function {
        Limit::Instructions
    } else if sizes.values > MAX_VALUES {
        Limit::Values
    } else {
        Limit::Vector
    }
}

fn sizes_of(source: &[u8], spans: &Spans, extent: Extent) -> WordCounts {
    let mut sizes = WordCounts {
        strings: 0,
        values: 1,
        words: 0,
    };
    let mut is_auto = true;
    for token in extent.first.saturating_add(1)..extent.end {
        match lexeme_at(spans, token) {
            Lexeme::String => sizes.strings = sizes
                .strings
                .saturating_add(words_of(source, spans, token)),
            Lexeme::Comma => sizes.values = sizes.values.saturating_add(1),
            Lexeme::Keyword(Keyword::Auto) => is_auto = true,
            Lexeme::Semicolon | Lexeme::CloseParen => is_auto = false,
            Lexeme::Name(_) if is_auto => sizes.words = sizes.words.saturating_add(1),
            Lexeme::Number(size) if is_auto => {
                sizes.words = sizes
                    .words
                    .saturating_add(u64::from(size))
                    .saturating_add(1);
            }
            _ => {}
        }
    }
    sizes
}

// How many words a string has.
fn words_of(source: &[u8], spans: &Spans, token: usize) -> usize {
    let Some(span) = spans.get(token) else {
        return 0;
    };
    let text = source.get(span.place.start..span.end()).unwrap_or(&[]);
    let mut count: usize = 0;
    let mut is_escaped = false;
    for byte in text {
        is_escaped = !is_escaped && *byte == b'*';
        if !is_escaped {
            count = count.saturating_add(1);
        }
    }
    // Both quotes were counted, which makes up for the end of the string and for rounding down.
    count / 2
}
