//! Edits as they are put together, of words and of tokens of the source.
use crate::edit::Proposal;
use crate::finding::Finding;
use crate::kinds::Like;
use crate::mends::{Site, token_at};
use crate::number_mends::after_operand;
use crate::own_parts::push_filled;
use crate::spans::{Spans, lexeme_at};
use crate::syntax_mends::after_brackets;
use blex::Lexeme;
use btools::Text;
use bword::Name;
use std::alloc::{AllocError, AllocFailed, Global};

/// Why a mend goes no further: it doesn't fit what stands there, or memory ran out.
#[derive(Drop)]
pub(crate) enum Stop {
    Unfit,
    Memory,
}

impl From<AllocError> for Stop {
    fn from(_error: AllocError) -> Stop {
        Stop::Memory
    }
}

impl<T: Drop> From<AllocFailed<T>> for Stop {
    fn from(_failed: AllocFailed<T>) -> Stop {
        Stop::Memory
    }
}

/// Nothing, or why a mend goes no further.
pub(crate) type Drafted = Result<(), Stop>;

/// Goes on only where this holds.
pub(crate) fn only_if(holds: bool) -> Drafted {
    if holds { Ok(()) } else { Err(Stop::Unfit) }
}

/// Where the words of a row go, among what its kinds fit.
#[derive(Clone, Copy)]
pub(crate) enum Spot {
    Before(usize),
    After(usize),
    /// In the place of all from one to another; and of that with the blanks before it, but without the first one.
    For(usize, usize),
    Past(usize, usize),
}

/// An edit by the kinds of tokens: how many come before the one that is told, the kinds, where words go, and these. In
/// them `%` and a digit stand for what fits a kind, without the brackets of a group, and `%*` for all that they replace.
#[derive(Clone, Copy)]
pub(crate) struct Row(pub usize, pub [Like; 5], pub Spot, pub &'static str);

/// Proposals for what is found among these tokens of a source.
#[derive(Drop)]
pub(crate) struct Draft<'a> {
    alloc: Global,
    pub source: &'a [u8],
    pub spans: &'a Spans,
    pub finding: &'a Finding,
    pub site: Site,
    /// What is so of what is proposed from now on.
    pub is_choice: bool,
    pub is_guess: bool,
    pub is_sure: bool,
    pub all: Vec<Proposal>,
}

impl<'a> Draft<'a> {
    /// No proposals for what is found at this site.
    pub(crate) fn new(
        alloc: Global,
        source: &'a [u8],
        spans: &'a Spans,
        finding: &'a Finding,
        site: Site,
    ) -> Self {
        Draft {
            alloc,
            source,
            spans,
            finding,
            site,
            is_choice: false,
            is_guess: false,
            is_sure: false,
            all: Vec::new(alloc),
        }
    }

    /// An empty text.
    pub(crate) fn text(&self) -> Text {
        Text::new(self.alloc)
    }

    /// The token at a place among the tokens, or the end of the source.
    pub(crate) fn at(&self, token: usize) -> Lexeme {
        lexeme_at(self.spans, token)
    }

    /// Whether the token at a place is of a kind.
    pub(crate) fn is(&self, token: usize, kind: &Like) -> bool {
        kind.fits(&self.at(token))
    }

    /// Whether one of the tokens from one place up to another is of a kind.
    pub(crate) fn has(&self, first: usize, end: usize, kind: &Like) -> bool {
        (first..end).any(|token| self.is(token, kind))
    }

    /// The first one of the tokens from one place up to another that is of a kind.
    pub(crate) fn find(&self, first: usize, end: usize, kind: &Like) -> Option<usize> {
        (first..end).find(|token| self.is(*token, kind))
    }

    /// The last one of them.
    pub(crate) fn find_back(&self, first: usize, end: usize, kind: &Like) -> Option<usize> {
        (first..end).rev().find(|token| self.is(*token, kind))
    }

    /// How many of them are of a kind.
    pub(crate) fn count(&self, first: usize, end: usize, kind: &Like) -> usize {
        (first..end).filter(|token| self.is(*token, kind)).count()
    }

    /// The name that a token is.
    pub(crate) fn name_at(&self, token: usize) -> Result<Name, Stop> {
        match self.at(token) {
            Lexeme::Name(name) => Ok(name),
            _ => Err(Stop::Unfit),
        }
    }

    /// The name that was found fault with.
    pub(crate) fn name(&self) -> Result<Name, Stop> {
        self.finding.name.ok_or(Stop::Unfit)
    }

    /// The token at the second place.
    pub(crate) fn second(&self) -> Result<usize, Stop> {
        let place = self.finding.related.ok_or(Stop::Unfit)?;
        Ok(token_at(self.spans, place.start))
    }

    /// What was drafted, up to where it went no further.
    pub(crate) fn proposals(self, drafted: Drafted) -> Result<Vec<Proposal>, AllocError> {
        match drafted {
            Err(Stop::Memory) => Err(AllocError),
            _ => Ok(self.all),
        }
    }

    /// Where a token begins.
    pub(crate) fn start(&self, token: usize) -> usize {
        match self.spans.get(token) {
            Some(span) => span.place.start,
            None => self.source.len(),
        }
    }

    /// Where a token ends.
    pub(crate) fn end(&self, token: usize) -> usize {
        match self.spans.get(token) {
            Some(span) => span.end(),
            None => self.source.len(),
        }
    }

    /// The line of a token.
    pub(crate) fn line(&self, token: usize) -> u64 {
        match self.spans.get(token) {
            Some(span) => span.place.line,
            None => 0,
        }
    }

    /// The bytes of the source from one place to another.
    pub(crate) fn slice(&self, start: usize, end: usize) -> &'a [u8] {
        self.source.get(start..end).unwrap_or(&[])
    }

    /// What stands in the source from one token to another.
    pub(crate) fn bytes(&self, first: usize, last: usize) -> &'a [u8] {
        self.slice(self.start(first), self.end(last))
    }

    /// Proposes a text in the place of the bytes from here to there.
    pub(crate) fn put_text(&mut self, start: usize, end: usize, text: Text) -> Drafted {
        let len = end.saturating_sub(start);
        self.all.push(Proposal {
            start,
            len,
            text,
            name: self.finding.name,
            is_choice: self.is_choice,
            is_guess: self.is_guess,
            is_sure: self.is_sure,
        })?;
        Ok(())
    }

    /// Proposes words in the place of the bytes from here to there.
    pub(crate) fn put(&mut self, start: usize, end: usize, words: &[u8]) -> Drafted {
        let mut text = self.text();
        text.push(words)?;
        self.put_text(start, end, text)
    }

    /// The same, where in the words `%` and a digit stand for a part, and `%*` for what is there.
    pub(crate) fn fill(
        &mut self,
        start: usize,
        end: usize,
        words: &str,
        parts: &[&[u8]],
    ) -> Drafted {
        let mut text = self.text();
        push_filled(&mut text, words, parts, self.slice(start, end))?;
        self.put_text(start, end, text)
    }

    /// Proposes a number in the place of the tokens from one to another.
    pub(crate) fn number(&mut self, first: usize, last: usize, number: u64) -> Drafted {
        let mut text = self.text();
        text.push_number(number)?;
        self.put_text(self.start(first), self.end(last), text)
    }

    /// Proposes words in the place of the tokens from one to another.
    pub(crate) fn replace(&mut self, first: usize, last: usize, words: &[u8]) -> Drafted {
        self.put(self.start(first), self.end(last), words)
    }

    /// Proposes words, with what is there for each `%*`, in the place of the tokens from one to another.
    pub(crate) fn around(&mut self, first: usize, last: usize, words: &str) -> Drafted {
        self.fill(self.start(first), self.end(last), words, &[])
    }

    /// Proposes words in the place of a token.
    pub(crate) fn rename(&mut self, token: usize, words: &[u8]) -> Drafted {
        self.replace(token, token, words)
    }

    /// Proposes words before a token.
    pub(crate) fn before(&mut self, token: usize, words: &[u8]) -> Drafted {
        let start = self.start(token);
        self.put(start, start, words)
    }

    /// Proposes words after a token.
    pub(crate) fn after(&mut self, token: usize, words: &[u8]) -> Drafted {
        let end = self.end(token);
        self.put(end, end, words)
    }

    /// Proposes what the first row says whose tokens are there.
    pub(crate) fn by_rows(&mut self, token: usize, rows: &[Row]) -> Drafted {
        for row in rows {
            let first = token.wrapping_sub(row.0);
            if self.after_kinds(first, &row.1, 5).is_some() {
                return self.by_row(first, row);
            }
        }
        Ok(())
    }

    // Proposes what a row says whose first token this is.
    fn by_row(&mut self, first: usize, row: &Row) -> Drafted {
        let mut parts = Vec::new(self.alloc);
        for index in 0..5 {
            let (begin, last) = self.run(first, &row.1, index);
            let inside = match row.1.get(index) {
                Some(Like::Group(_)) => 1,
                _ => 0,
            };
            parts.push(self.bytes(begin.wrapping_add(inside), last.wrapping_sub(inside)))?;
        }
        let (start, end) = match row.2 {
            Spot::Before(at) => {
                let place = self.start(self.run(first, &row.1, at).0);
                (place, place)
            }
            Spot::After(at) => {
                let place = self.end(self.run(first, &row.1, at).1);
                (place, place)
            }
            Spot::For(one, other) => (
                self.start(self.run(first, &row.1, one).0),
                self.end(self.run(first, &row.1, other).1),
            ),
            Spot::Past(one, other) => (
                self.end(self.run(first, &row.1, one).1),
                self.end(self.run(first, &row.1, other).1),
            ),
        };
        self.fill(start, end, row.3, parts.as_slice())
    }

    // The first and the last token of those that fit the kind at this place.
    fn run(&self, first: usize, kinds: &[Like; 5], index: usize) -> (usize, usize) {
        let begin = self.after_kinds(first, kinds, index).unwrap_or(first);
        let next = index.saturating_add(1);
        let end = self.after_kinds(first, kinds, next).unwrap_or(begin);
        (begin, end.wrapping_sub(1))
    }

    // The token after those from one on that fit so many kinds, if they do.
    fn after_kinds(&self, first: usize, kinds: &[Like; 5], count: usize) -> Option<usize> {
        let mut at = first;
        for index in 0..count.min(5) {
            at = self.after_kind(at, &kinds[index])?;
        }
        Some(at)
    }

    // The token after those that fit a kind from one on, if some do.
    fn after_kind(&self, at: usize, kind: &Like) -> Option<usize> {
        let end = match kind {
            Like::Group(opener) if self.at(at) == *opener => after_brackets(self, at),
            Like::Value => after_operand(self, at),
            Like::Until(lexeme) => self.on_line(at, *lexeme).ok()?,
            _ if kind.fits(&self.at(at)) => at.wrapping_add(1),
            _ => at,
        };
        if end > at { Some(end) } else { None }
    }

    /// Proposes to take tokens out, with the blanks after them.
    pub(crate) fn remove(&mut self, first: usize, last: usize) -> Drafted {
        let next = last.saturating_add(1);
        let end = if self.line(next) == self.line(last) {
            self.start(next)
        } else {
            self.end(last)
        };
        self.put(self.start(first), end, b"")
    }

    /// The next token of this kind from a token on, that stands on the same line.
    pub(crate) fn on_line(&self, from: usize, lexeme: Lexeme) -> Result<usize, Stop> {
        let found = (from..self.spans.end()).find(|at| self.line(*at) != self.line(from)
            || self.at(*at) == lexeme);
        match found {
            Some(token) if self.line(token) == self.line(from) => Ok(token),
            _ => Err(Stop::Unfit),
        }
    }
}
