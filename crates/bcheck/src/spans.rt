//! The tokens of a source, and where each stands.
use crate::compiled::Extent;
use crate::finding::Place;
use crate::places::parts;
use blang::Letters;
use blex::{Lexeme, Scanner};
use bword::{Edition, Name};
use std::alloc::{AllocError, Global};

/// A token and where it stands.
#[derive(Clone, Copy)]
pub(crate) struct Span {
    pub lexeme: Lexeme,
    pub place: Place,
}

impl Span {
    fn new(text: &[u8], lexeme: Lexeme, line: u64, first: usize, end: usize) -> Self {
        let (_, rest) = parts(text, first);
        let len = marked(&lexeme, rest, end.saturating_sub(first));
        Span {
            lexeme,
            place: Place {
                line,
                start: first,
                len,
            },
        }
    }

    /// The place of the first byte after it.
    pub(crate) fn end(&self) -> usize {
        self.place.start.saturating_add(self.place.len)
    }
}

/// A source in its edition.
#[derive(Clone, Copy)]
pub(crate) struct SourceText<'a> {
    pub text: &'a [u8],
    pub edition: Edition,
}

/// The tokens of a source in turn.
#[derive(Drop)]
pub(crate) struct SpanReader<'a> {
    text: &'a [u8],
    scanner: Scanner<'a>,
    /// The end, once it has been given.
    last: Option<Span>,
}

impl<'a> SpanReader<'a> {
    pub(crate) fn new(source: SourceText<'a>) -> Self {
        SpanReader {
            text: source.text,
            scanner: Scanner::new(source.text, source.edition),
            last: None,
        }
    }

    /// The next token. After the end it comes again.
    pub(crate) fn next(&mut self) -> Span {
        if let Some(last) = self.last {
            return last;
        }
        let span = self.next_span();
        if span.lexeme == Lexeme::End {
            self.last = Some(span);
        }
        span
    }

    fn next_span(&mut self) -> Span {
        for _ in 0..self.text.len() {
            let piece = self.scanner.next();
            let (line, first, end) = (piece.line, piece.first, piece.end);
            if let Some(lexeme) = piece.lexeme {
                return Span::new(self.text, lexeme, line, first, end);
            }
        }
        let end = self.text.len();
        Span::new(self.text, Lexeme::End, self.scanner.next().line, end, end)
    }

    /// Passes so many tokens.
    pub(crate) fn pass(&mut self, count: usize) {
        for _ in 0..count {
            self.next();
        }
    }
}

/// DefinitionTokens that stand one after another, each by its place among all tokens of the source.
#[derive(Drop)]
pub(crate) struct Spans {
    /// The place of the first one.
    pub first: usize,
    all: Vec<Span>,
}

impl Spans {
    /// No tokens.
    pub(crate) fn new(alloc: Global) -> Self {
        Spans {
            first: 0,
            all: Vec::new(alloc),
        }
    }

    /// The tokens of a source from this place to that one, or to the last one.
    pub(crate) fn between(
        alloc: Global,
        source: SourceText<'_>,
        extent: Extent,
    ) -> Result<Self, AllocError> {
        let mut reader = SpanReader::new(source);
        reader.pass(extent.first);
        let mut spans = Spans::new(alloc);
        spans.refill(&mut reader, extent)?;
        Ok(spans)
    }

    /// Takes the next tokens in the place of those that were there.
    pub(crate) fn refill(
        &mut self,
        reader: &mut SpanReader<'_>,
        extent: Extent,
    ) -> Result<(), AllocError> {
        self.first = extent.first;
        self.all.clear();
        for _ in extent.first..extent.end {
            let span = reader.next();
            self.all.push(span)?;
            if span.lexeme == Lexeme::End {
                break;
            }
        }
        Ok(())
    }

    pub(crate) fn get(&self, token: usize) -> Option<&Span> {
        self.all.get(token.checked_sub(self.first)?)
    }

    /// The place after the last one.
    pub(crate) fn end(&self) -> usize {
        self.first.saturating_add(self.all.len())
    }
}

/// The token at a place among the tokens, or the end of the source.
pub(crate) fn lexeme_at(spans: &Spans, token: usize) -> Lexeme {
    match spans.get(token) {
        Some(span) => span.lexeme,
        None => Lexeme::End,
    }
}

/// The name at a place among the tokens, if one is there.
pub(crate) fn name_at(spans: &Spans, token: usize) -> Option<Name> {
    match lexeme_at(spans, token) {
        Lexeme::Name(name) => Some(name),
        _ => None,
    }
}

/// Whether the next token stands directly after this one.
pub(crate) fn is_joined(spans: &Spans, token: usize) -> bool {
    matches!(
        (spans.get(token), spans.get(token.wrapping_add(1))),
        (Some(span), Some(next)) if span.end() == next.place.start
    )
}

/// Whether the next token stands on another line.
pub(crate) fn is_next_line(spans: &Spans, token: usize) -> bool {
    matches!(
        (spans.get(token), spans.get(token.wrapping_add(1))),
        (Some(span), Some(next)) if span.place.line != next.place.line
    )
}

/// Where a token stands. The end of the source stands after the token before it.
pub(crate) fn place_of(spans: &Spans, token: usize) -> Place {
    match (spans.get(token), spans.get(token.wrapping_sub(1))) {
        (Some(span), Some(before)) if span.lexeme == Lexeme::End => Place {
            line: before.place.line,
            start: before.end(),
            len: 1,
        },
        (Some(span), _) => span.place,
        (None, _) => Place {
            line: 1,
            start: 0,
            len: 1,
        },
    }
}

// How many bytes of a token are marked that has so many. Of a wrong one it may be a part.
fn marked(lexeme: &Lexeme, text: &[u8], len: usize) -> usize {
    let Lexeme::Bad(letters) = lexeme else {
        return len;
    };
    match (*letters, text.first()) {
        (Letters::OpenComment, _) => 2,
        (Letters::Constant, Some(b'\'' | b'"')) => 1,
        (Letters::Character, Some(0x80..)) => utf8_length(text),
        _ => len,
    }
}

// The bytes of a letter beyond ASCII, if the text is UTF-8.
pub(crate) fn utf8_length(text: &[u8]) -> usize {
    for index in 1..text.len().min(4) {
        if !matches!(text[index], 0x80..=0xBF) {
            return index;
        }
    }
    text.len().min(4)
}
