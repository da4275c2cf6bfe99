//! An old source, its tokens, and the edits that are made of it.
use crate::comparisons::EndValue;
use crate::edit::{Edit, between, is_free};
use crate::row::{Note, NoteKind, Row};
use crate::table::{NONE, slot, word_of};
use crate::tokens::{Token, TokenKind};
use crate::turned::Turned;
use crate::within::Within;
use btools::Text;
use bword::Edition;
use std::alloc::{AllocError, Global};

/// It is done, or memory was refused.
pub(crate) type Done = Result<(), AllocError>;

/// An old source, as far as it is known.
#[derive(Clone, Copy)]
pub(crate) struct Source<'a> {
    pub text: &'a [u8],
    pub places: &'a [Within],
    pub tokens: &'a [Token],
    /// For each bracket the other one of its pair.
    pub partners: &'a [usize],
    /// For each token the next semicolon at its level.
    pub semicolons: &'a [usize],
    /// For each token the one after the statement that begins with it.
    pub ends: &'a [usize],
    /// For each name the first token with it.
    pub firsts: &'a [usize],
    /// For each first token with a name, whether that is a constant that ends an input or a string.
    pub end_values: &'a [Option<EndValue>],
    pub edition: Edition,
    pub dialect: Dialect,
    pub quotes: Quotes,
    pub turned: Turned,
}

/// Of which form of the language a source is.
#[derive(Clone, Copy, PartialEq, Eq)]
pub(crate) enum Dialect {
    Early,
    Later,
    /// Nothing shows it, or both are there.
    Either,
}

/// What begins an escape in quotes.
#[derive(Clone, Copy, PartialEq, Eq)]
pub(crate) enum Quotes {
    /// A `*`.
    Stars,
    /// A backslash, and a `*` as well.
    Both,
    /// A backslash alone.
    Backslashes,
}

impl<'a> Source<'a> {
    /// The bytes of a token, or none.
    pub(crate) fn word(&self, index: usize) -> &'a [u8] {
        word_of(self.text, self.tokens, index)
    }

    /// The same, where `until` and `unless` that begin statements are `while` and `if`.
    pub(crate) fn head_word(&self, index: usize) -> &'a [u8] {
        match self.word(index) {
            b"until" if self.turned.until => b"while",
            b"unless" if self.turned.unless => b"if",
            word => word,
        }
    }

    pub(crate) fn is(&self, index: usize, word: &[u8]) -> bool {
        self.word(index) == word
    }

    /// Whether a token from one up to another is this word.
    pub(crate) fn has(&self, first: usize, end: usize, word: &[u8]) -> bool {
        for index in first..end.min(self.tokens.len()) {
            if self.is(index, word) {
                return true;
            }
        }
        false
    }

    pub(crate) fn kind(&self, index: usize) -> Option<TokenKind> {
        Some(self.tokens.get(index)?.kind)
    }

    pub(crate) fn is_name(&self, index: usize) -> bool {
        self.kind(index) == Some(TokenKind::Name)
    }

    /// The place of the first byte of a token, or the end of the source.
    pub(crate) fn start(&self, index: usize) -> usize {
        match self.tokens.get(index) {
            Some(token) => token.start,
            None => self.text.len(),
        }
    }

    /// The place after the last byte of a token.
    pub(crate) fn end(&self, index: usize) -> usize {
        match self.tokens.get(index) {
            Some(token) => token.end,
            None => self.text.len(),
        }
    }

    pub(crate) fn partner(&self, index: usize) -> usize {
        slot(self.partners, index)
    }

    pub(crate) fn semicolon(&self, index: usize) -> usize {
        slot(self.semicolons, index)
    }

    /// The token after the statement that begins with this one.
    pub(crate) fn statement_end(&self, index: usize) -> usize {
        slot(self.ends, index)
    }

    /// Which of these values a token is: 0, or a constant that is 0 or -1.
    pub(crate) fn end_value(&self, index: usize) -> Option<EndValue> {
        if matches!(self.word(index), b"0" | b"'*0'") {
            return Some(EndValue::Zero);
        }
        *self.end_values.get(slot(self.firsts, index))?
    }

    pub(crate) fn is_open_paren(&self, index: usize) -> bool {
        self.is(index, b"(") && self.partner(index) != NONE
    }

    pub(crate) fn is_open_brace(&self, index: usize) -> bool {
        (self.is(index, b"{") || self.is(index, b"$(")) && self.partner(index) != NONE
    }

    pub(crate) fn is_close_brace(&self, index: usize) -> bool {
        self.is(index, b"}") || self.is(index, b"$)")
    }

    /// Whether no comment and no string stands between two tokens, these included.
    pub(crate) fn is_plain(&self, first: usize, last: usize) -> bool {
        is_free(self.places, self.start(first), self.end(last))
    }

    /// Whether a token is the first one of a statement, by the token before it.
    pub(crate) fn begins_statement(&self, index: usize) -> bool {
        let before = index.wrapping_sub(1);
        match self.word(before) {
            b";" | b"{" | b"}" | b":" | b"$(" | b"$)" | b"else" | b"do" | b"repeat" => true,
            b")" => self.is_head(before),
            _ => false,
        }
    }

    /// Whether a name is a label of the statement after it.
    pub(crate) fn is_label(&self, index: usize) -> bool {
        self.is_name(index) && self.is(index.wrapping_add(1), b":") && self.begins_statement(index)
    }

    /// Whether a name has a parenthesis after it.
    pub(crate) fn is_call(&self, index: usize) -> bool {
        self.is_name(index) && self.is(index.wrapping_add(1), b"(")
    }

    /// Whether a parenthesis ends the head of a statement.
    pub(crate) fn is_head(&self, close: usize) -> bool {
        let open = self.partner(close);
        matches!(
            self.head_word(open.wrapping_sub(1)),
            b"if" | b"while" | b"for" | b"switch"
        )
    }
}

/// The edits and the notes that were made.
#[derive(Drop)]
pub(crate) struct Draft {
    pub alloc: Global,
    pub edits: Vec<Edit>,
    pub notes: Vec<Note>,
    /// How many of the edits are in order, from the first one on, if that is known.
    pub ordered: Option<usize>,
}

impl Draft {
    pub(crate) fn new(alloc: Global) -> Self {
        Draft {
            alloc,
            edits: Vec::new(alloc),
            notes: Vec::new(alloc),
            ordered: None,
        }
    }

    /// The edits among which those of a place and after it are, but for those that came after the others were in order.
    pub(crate) fn edits_from(&self, start: usize) -> &[Edit] {
        let edits = self.edits.as_slice();
        let Some(count) = self.ordered else {
            return edits;
        };
        let (ordered, _) = edits.split_at(count.min(edits.len()));
        ordered.get(first_from(ordered, start)..).unwrap_or(&[])
    }

    /// Puts the edits in order.
    pub(crate) fn order(&mut self) -> Done {
        self.edits.sort_by_key(|edit| key_of(edit))?;
        self.ordered = Some(self.edits.len());
        Ok(())
    }

    /// Puts a text in the place of some bytes.
    pub(crate) fn put(&mut self, start: usize, end: usize, words: &[u8], row: Row) -> Done {
        let mut text = Text::new(self.alloc);
        text.push(words)?;
        self.put_text(start, end, text, row)
    }

    pub(crate) fn put_text(&mut self, start: usize, end: usize, text: Text, row: Row) -> Done {
        self.edits.push(Edit {
            start,
            end,
            text,
            row,
        })?;
        Ok(())
    }

    /// Puts a text at a place.
    pub(crate) fn insert(&mut self, at: usize, words: &[u8], row: Row) -> Done {
        self.put(at, at, words, row)
    }

    /// Puts a text in the place of a token.
    pub(crate) fn replace(
        &mut self,
        source: &Source<'_>,
        index: usize,
        words: &[u8],
        row: Row,
    ) -> Done {
        self.put(source.start(index), source.end(index), words, row)
    }

    pub(crate) fn replace_text(
        &mut self,
        source: &Source<'_>,
        index: usize,
        text: Text,
        row: Row,
    ) -> Done {
        self.put_text(source.start(index), source.end(index), text, row)
    }

    /// Takes the bytes out from a token up to another one, unless a comment stands between them.
    pub(crate) fn remove(
        &mut self,
        source: &Source<'_>,
        first: usize,
        next: usize,
        row: Row,
    ) -> Done {
        let start = source.start(first);
        let mut end = source.start(next);
        if !is_free(source.places, start, end) {
            end = source.end(first);
        }
        self.put(start, end, b"", row)
    }

    /// Makes a comment of all from a token up to the end of another one. Where a comment stands there, it is told.
    pub(crate) fn comment(
        &mut self,
        source: &Source<'_>,
        first: usize,
        last: usize,
        row: Row,
    ) -> Done {
        let (start, end) = (source.start(first), source.end(last));
        let stood = source.places.get(start..end).unwrap_or(&[]);
        if has_mark(between(source.text, start, end)) || stood.contains(&Within::Line) {
            return self.note(source, first, NoteKind::Remark);
        }
        self.insert(source.start(first), b"/* ", row)?;
        for index in first..last.saturating_add(1).min(source.tokens.len()) {
            if is_other(source.word(index)) {
                self.replace(source, index, source.word(index), row)?;
            }
        }
        self.insert(source.end(last), b" */", row)
    }

    pub(crate) fn note(&mut self, source: &Source<'_>, index: usize, kind: NoteKind) -> Done {
        self.note_at(source.start(index), kind)
    }

    /// Tells this of a place.
    pub(crate) fn note_at(&mut self, start: usize, kind: NoteKind) -> Done {
        self.notes.push(Note { start, kind })?;
        Ok(())
    }
}

/// Edits go by their places; at one place those that take nothing out come first.
pub(crate) fn key_of(edit: &Edit) -> (usize, bool) {
    (edit.start, edit.end > edit.start)
}

// The first of these edits, which are in order, that doesn't begin before a place.
fn first_from(edits: &[Edit], start: usize) -> usize {
    let (mut low, mut high) = (0, edits.len());
    for _ in 0..64 {
        let middle = low / 2 + high / 2;
        match edits.get(middle) {
            Some(edit) if low < high && edit.start < start => low = middle.saturating_add(1),
            Some(_) if middle < high => high = middle,
            _ => break,
        }
    }
    low
}

// Whether a sign is one of another form.
fn is_other(word: &[u8]) -> bool {
    matches!(
        word,
        b"$(" | b"$)" | b"&&" | b"||" | b"+=" | b"-=" | b"*=" | b"/=" | b"%="
    )
}

/// Whether the end of a comment is among bytes.
pub(crate) fn has_mark(bytes: &[u8]) -> bool {
    let mut before: u8 = 0;
    for byte in bytes {
        if before == b'*' && *byte == b'/' {
            return true;
        }
        before = *byte;
    }
    false
}
