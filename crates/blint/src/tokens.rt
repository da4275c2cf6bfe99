//! The tokens of a source.
ghost use Rattle.std.specs.Prelude.{◌≡◌, ◌+◌, slice_get};
ghost use Rattle.bmatch.specs.Asking.{are_joined, bytes_at};
ghost use Rattle.bmatch.specs.Trees.{lexeme_at};

use blex::Lexeme;
use bmatch::TokenPlace;
use bword::Name;

/// The tokens of a source, which are counted from 0, and where each stands.
#[derive(Clone, Copy)]
pub(crate) struct Tokens<'a> {
    pub text: &'a [u8],
    pub lexemes: &'a [Lexeme],
    pub places: &'a [TokenPlace],
}

impl<'a> Tokens<'a> {
    /// The token of this number, or the end of the source.
    pub(crate) fn at(&self, token: usize) -> Lexeme
        ensures { result ≡ lexeme_at self.now.lexemes.now token }
    {
        self.lexemes.get(token).copied().unwrap_or(Lexeme::End)
    }

    /// The one after it.
    pub(crate) fn after(&self, token: usize) -> Lexeme
        ensures { result ≡ lexeme_at self.now.lexemes.now (token + 1) }
    {
        if token < self.lexemes.len() {
            self.at(token + 1)
        } else {
            Lexeme::End
        }
    }

    /// The name that a token is, if it is one.
    pub(crate) fn name(&self, token: usize) -> Option<Name> {
        match self.at(token) {
            Lexeme::Name(name) => Some(name),
            _ => None,
        }
    }

    pub(crate) fn place(&self, token: usize) -> TokenPlace {
        self.places.get(token).copied().unwrap_or(TokenPlace {
            line: 1,
            start: 0,
            len: 1,
        })
    }

    /// Whether the next token stands directly after this one.
    pub(crate) fn is_joined(&self, token: usize) -> bool
        ensures { result
            ≡ are_joined (slice_get self.now.places.now token) (slice_get self.now.places.now (token + 1)) }
    {
        let Some(here) = self.places.get(token) else {
            return false;
        };
        match self.places.get(token + 1) {
            Some(next) => next.start >= here.start && next.start - here.start == here.len,
            None => false,
        }
    }

    /// The bytes of a token.
    pub(crate) fn bytes(&self, token: usize) -> &'a [u8]
        ensures { result.now ≡ bytes_at self.now.text.now (slice_get self.now.places.now token) }
    {
        match self.places.get(token) {
            Some(place) => {
                let rest = self.text.get(place.start..).unwrap_or(&[]);
                rest.get(..place.len).unwrap_or(rest)
            }
            None => &[],
        }
    }

    /// The blanks before a token that is the first one of its line.
    pub(crate) fn indentation(&self, token: usize) -> Option<&'a [u8]> {
        let start = self.place(token).start;
        let blanks = self.line_blanks(token);
        if line_start(self.text, start).saturating_add(blanks.len()) == start {
            Some(blanks)
        } else {
            None
        }
    }

    /// The blanks at the beginning of the line of a token.
    pub(crate) fn line_blanks(&self, token: usize) -> &'a [u8] {
        let start = self.place(token).start;
        let first = line_start(self.text, start);
        for end in first..start {
            if !matches!(self.text.get(end), Some(b' ' | b'\t')) {
                return self.text.get(first..end).unwrap_or(&[]);
            }
        }
        self.text.get(first..start).unwrap_or(&[])
    }
}

// Where the line of a place begins.
fn line_start(text: &[u8], place: usize) -> usize {
    for count in 0..place {
        let before = place.saturating_sub(count);
        if text.get(before.saturating_sub(1)) == Some(&b'\n') {
            return before;
        }
    }
    0
}
