//! In what the bytes of an old source stand.
ghost use Rattle.std.specs.Prelude.{◌≡◌, ◌==◌, IfOk, if◌then◌else◌};
ghost use Rattle.bport.specs.Places.{after, after_quoted, is_own_text, is_within_text, places_of};
ghost use Rattle.bport.specs.declared.within.Within.TheVariants as within;

use std::alloc::{AllocError, Global};

/// In what a byte of an old source stands.
#[derive(Clone, Copy, PartialEq, Eq)]
pub enum Within {
    /// Blanks at the beginning of a line.
    Start,
    Code,
    /// Code after a `/`, with which a comment may begin.
    Slash,
    /// A comment up to `*/`.
    Comment,
    /// The same after a `*`.
    Star,
    /// A comment up to the end of the line.
    Line,
    String,
    /// A string after a mark of an escape.
    StringEscape,
    /// A character constant.
    Char,
    /// The same after a mark of an escape.
    CharEscape,
    /// After such a mark and a quote, which may be escaped or the last one.
    CharQuote,
}

impl Within {
    /// In what the byte after this one stands.
    pub(crate) fn after(self, byte: u8) -> Within
        ensures { result ≡ after self byte }
    {
        match self {
            Within::Star if byte == b'/' => Within::Code,
            Within::Comment | Within::Star if byte == b'*' => Within::Star,
            Within::Comment | Within::Star => Within::Comment,
            Within::Line => in_line(byte, Within::Line),
            Within::String => in_quotes(byte, b'"', Within::StringEscape, Within::String),
            Within::StringEscape => in_line(byte, Within::String),
            Within::Char => in_quotes(byte, b'\'', Within::CharEscape, Within::Char),
            Within::CharEscape if byte == b'\'' => Within::CharQuote,
            Within::CharEscape => in_line(byte, Within::Char),
            Within::CharQuote if byte == b'\'' => Within::Code,
            Within::Slash if byte == b'*' => Within::Comment,
            Within::Slash if byte == b'/' => Within::Line,
            Within::Start if byte == b' ' || byte == b'\t' => Within::Start,
            Within::Start | Within::Code | Within::Slash | Within::CharQuote => in_code(byte),
        }
    }

    /// Whether a byte is a comment's or a string's own.
    pub(crate) fn is_own_text(self) -> bool
        ensures { result ≡ is_own_text self }
    {
        matches!(
            self,
            Within::Comment | Within::Star | Within::Line | Within::String | Within::StringEscape
        )
    }

    /// Whether the place before a byte is within a comment or a string.
    pub(crate) fn is_within_text(self, byte: u8) -> bool
        ensures { result ≡ is_within_text self byte }
    {
        match self {
            Within::Line => byte != b'\n' && byte != b'\r',
            Within::Slash => byte == b'*' || byte == b'/',
            _ => self.is_own_text(),
        }
    }
}

fn in_code(byte: u8) -> Within
    ensures { result ≡ after within.Code byte }
{
    match byte {
        b'\n' => Within::Start,
        b'/' => Within::Slash,
        b'#' => Within::Line,
        b'"' => Within::String,
        b'\'' => Within::Char,
        _ => Within::Code,
    }
}

fn in_line(byte: u8, otherwise: Within) -> Within
    ensures { result ≡ (if byte == 10 then within.Start else otherwise) }
{
    if byte == b'\n' {
        Within::Start
    } else {
        otherwise
    }
}

fn in_quotes(byte: u8, quote: u8, escape: Within, otherwise: Within) -> Within
    ensures { result ≡ after_quoted quote escape otherwise byte }
{
    match byte {
        b'\n' => Within::Start,
        _ if byte == quote => Within::Code,
        b'*' | b'\\' => escape,
        _ => otherwise,
    }
}

/// In what each byte of a source stands.
pub(crate) fn places_of(alloc: Global, source: &[u8]) -> Result<Vec<Within>, AllocError>
    ensures { IfOk result (λ places. places.items ≡ places_of within.Start source.now) }
{
    let mut places = Vec::new(alloc);
    let mut place = Within::Start;
    for byte in source {
        places.push(place)?;
        place = place.after(*byte);
    }
    Ok(places)
}
