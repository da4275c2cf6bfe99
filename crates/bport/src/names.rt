//! Names and numbers that are written otherwise here.
use crate::apply::apply;
use crate::calls::defines;
use crate::comparisons::{EndValue, end_word};
use crate::definitions::Outline;
use crate::edit::between;
use crate::expressions::MOST_BYTES;
use crate::inputs::is_set;
use crate::quotes::quoted;
use crate::row::{NoteKind, Row};
use crate::source::{Dialect, Done, Draft, Quotes, Source};
use crate::table::{NONE, filled, place_in, put, slot, word_of};
use crate::taken::{NAME_LETTERS, Taken};
use crate::tokens::{Token, TokenKind, tokens_of};
use crate::turned::Turned;
use crate::within::{Within, places_of};
use crate::words::is_of_word;
use btools::Text;
use bword::Edition;
use std::alloc::{AllocError, Global};

const LIBRARY: [&str; 6] = ["char", "lchar", "getchar", "putchar", "printn", "exit"];

/// Keywords of this language and of other forms of it.
const KEYWORDS: [&str; 16] = [
    "auto", "extrn", "case", "if", "else", "while", "switch", "goto", "return", "break", "default",
    "for", "do", "continue", "extern", "repeat",
];

const TYPES: [&str; 15] = [
    "int", "char", "long", "short", "unsigned", "signed", "register", "static", "const", "void",
    "float", "double", "struct", "union", "typedef",
];

/// What stands for a name: its text, and whether it is several tokens that got parentheses.
#[derive(Drop)]
struct Value {
    text: Text,
    is_wrapped: bool,
}

/// Constants with names.
#[derive(Drop)]
pub(crate) struct Constants {
    alloc: Global,
    names: Vec<Text>,
    values: Vec<Text>,
    /// The places of names, by what their letters come to.
    slots: Vec<usize>,
}

impl Constants {
    /// Room for those of a source of so many bytes.
    pub(crate) fn new(alloc: Global, size: usize) -> Result<Self, AllocError> {
        Ok(Constants {
            alloc,
            names: Vec::new(alloc),
            values: Vec::new(alloc),
            slots: filled(alloc, (size / 4).saturating_add(1))?,
        })
    }

    /// Keeps a constant, unless it is no value, or its name stands for another one: this is told. What stands for it is
    /// ported, and in parentheses if it is more than a token. Tells whether it is three tokens or more that had none.
    pub(crate) fn keep(
        &mut self,
        draft: &mut Draft,
        at: usize,
        name: &[u8],
        value: &[u8],
    ) -> Result<bool, AllocError> {
        let value: &[u8] = if matches!(name, b"EOF") {
            b"'*e'"
        } else {
            value
        };
        let ported = self.ported(draft, at, value)?;
        let Some(Value { text, is_wrapped }) = ported else {
            draft.note_at(at, NoteKind::Macro)?;
            return Ok(false);
        };
        if text.as_slice().len() > MOST_BYTES {
            draft.note_at(at, NoteKind::Macro)?;
            return Ok(false);
        }
        match self.value_of(name) {
            Some(other) if other == text.as_slice() => Ok(false),
            Some(_) => {
                draft.note_at(at, NoteKind::Twice)?;
                Ok(false)
            }
            None => {
                self.add(name, text)?;
                Ok(is_wrapped)
            }
        }
    }

    fn add(&mut self, name: &[u8], value: Text) -> Done {
        let place = place_in(&self.slots, &self.names, name);
        put(&mut self.slots, place, self.names.len());
        let mut kept = Text::new(self.alloc);
        kept.push(name)?;
        self.names.push(kept)?;
        self.values.push(value)?;
        Ok(())
    }

    // What a value is here, if it is one.
    fn ported(
        &self,
        told: &mut Draft,
        at: usize,
        value: &[u8],
    ) -> Result<Option<Value>, AllocError> {
        let value = without_remarks(self.alloc, value)?;
        let places = places_of(self.alloc, value)?;
        let tokens = tokens_of(self.alloc, value, &places)?;
        let has_remark = places
            .iter()
            .any(|place| matches!(place, Within::Comment | Within::Line));
        if has_remark || !is_value(value, &tokens) {
            return Ok(None);
        }
        let source = Source {
            text: value,
            places: &places,
            tokens: &tokens,
            partners: &[],
            semicolons: &[],
            ends: &[],
            firsts: &[],
            end_values: &[],
            edition: Edition::One,
            dialect: Dialect::Either,
            quotes: Quotes::Both,
            turned: Turned {
                until: false,
                unless: false,
            },
        };
        let mut draft = Draft::new(self.alloc);
        for index in 0..tokens.len() {
            self.value_token(&source, &mut draft, index)?;
        }
        for note in &draft.notes {
            told.note_at(at, note.kind)?;
        }
        let plain = apply(self.alloc, value, &draft.edits)?;
        let is_bare = tokens.len() < 2 || is_closed(value, &tokens);
        let mut text = Text::new(self.alloc);
        if let Some(byte) = sign_in(plain.as_slice()) {
            text.push_number(byte as u64)?;
        } else if plain.as_slice().iter().any(|byte| is_of_word(*byte)) {
            text.push(if is_bare { b"" } else { b"(" })?;
            text.push(plain.as_slice())?;
            text.push(if is_bare { b"" } else { b")" })?;
        } else {
            return Ok(None);
        }
        Ok(Some(Value {
            text,
            is_wrapped: tokens.len() > 2 && !is_bare,
        }))
    }

    fn value_token(&self, source: &Source<'_>, draft: &mut Draft, index: usize) -> Done {
        match source.kind(index) {
            Some(TokenKind::Name) => match self.value_of(source.word(index)) {
                Some(value) => draft.replace(source, index, value, Row::Constant),
                None => Ok(()),
            },
            Some(TokenKind::Number) => number(source, draft, index),
            Some(TokenKind::Char | TokenKind::String) => quoted(source, draft, index),
            _ => Ok(()),
        }
    }

    /// What stands for a name.
    pub(crate) fn value_of(&self, name: &[u8]) -> Option<&[u8]> {
        let place = place_in(&self.slots, &self.names, name);
        Some(self.values.get(slot(&self.slots, place))?.as_slice())
    }
}

/// For each first token with a name, whether that is a constant that ends an input or a string, or a variable that
/// never gets anything but -1.
pub(crate) fn end_values(
    alloc: Global,
    source: &Source<'_>,
    constants: &Constants,
    outline: &Outline,
) -> Result<Vec<Option<EndValue>>, AllocError> {
    let mut values: Vec<Option<EndValue>> = Vec::new(alloc);
    let stored = stored_values(alloc, source, outline)?;
    for index in 0..source.tokens.len() {
        let is_first = slot(source.firsts, index) == index;
        values.push(match constants.value_of(source.word(index)) {
            Some(b"0") if is_first => Some(EndValue::Zero),
            Some(b"(-1)") if is_first => Some(EndValue::MinusOne),
            None if slot(&stored, index) == MINUS_ONE => Some(EndValue::MinusOne),
            _ => None,
        })?;
    }
    Ok(values)
}

const MINUS_ONE: usize = 1;

const OTHER: usize = 0;

// For each first token with a name that gets a value, whether that is -1 wherever it does.
fn stored_values(
    alloc: Global,
    source: &Source<'_>,
    outline: &Outline,
) -> Result<Vec<usize>, AllocError> {
    let mut stored = filled(alloc, source.tokens.len())?;
    for function in &outline.functions {
        for index in function.open.min(function.body)..function.body {
            put(&mut stored, slot(source.firsts, index), OTHER);
        }
    }
    for external in &outline.variables {
        let value = end_word(source, external.name.wrapping_add(1));
        let is_same = matches!(value, Some(word) if word.value == EndValue::MinusOne);
        let next = external.name.wrapping_add(1);
        if next != external.end && !source.is(next, b"=") {
            let kept = if is_same { MINUS_ONE } else { OTHER };
            put(&mut stored, slot(source.firsts, external.name), kept);
        }
    }
    for index in 0..source.tokens.len() {
        let first = slot(source.firsts, index);
        if first != NONE && is_set(source, index) {
            let is_same = slot(&stored, first) != OTHER && gets_minus_one(source, index);
            put(&mut stored, first, if is_same { MINUS_ONE } else { OTHER });
        }
    }
    Ok(stored)
}

// Whether -1 and nothing else is stored in a name.
fn gets_minus_one(source: &Source<'_>, name: usize) -> bool {
    match end_word(source, name.wrapping_add(2)) {
        Some(word) if word.value == EndValue::MinusOne => {
            let next = source.word(word.last.wrapping_add(1));
            source.is(name.wrapping_add(1), b"=") && matches!(next, b";" | b"," | b")")
        }
        _ => false,
    }
}

// The character of a constant that has no letter and no digit: its number stands for a name.
fn sign_in(constant: &[u8]) -> Option<u8> {
    match constant {
        [b'\'', b'*', b'(', b'\''] => Some(b'{'),
        [b'\'', b'*', b')', b'\''] => Some(b'}'),
        [b'\'', b'*', byte, b'\''] | [b'\'', byte, b'\''] if !is_of_word(*byte) => Some(*byte),
        _ => None,
    }
}

// A value without comments before it and after it.
fn without_remarks(alloc: Global, value: &[u8]) -> Result<&[u8], AllocError> {
    let places = places_of(alloc, value)?;
    let tokens = tokens_of(alloc, value, &places)?;
    let start = tokens.first().map_or(0, |token| token.start);
    let end = tokens.last().map_or(0, |token| token.end);
    Ok(between(value, start, end))
}

// Whether tokens are an expression whose signs are those of this language, and whose brackets fit.
fn is_value(source: &[u8], tokens: &[Token]) -> bool {
    let mut depth: usize = 0;
    let mut is_operand = false;
    for index in 0..tokens.len() {
        let word = word_of(source, tokens, index);
        let is_after_sign = !is_operand;
        is_operand = match word {
            b"(" => {
                depth = depth.saturating_add(1);
                false
            }
            b")" if depth == 0 || is_after_sign => return false,
            b")" => {
                depth = depth.saturating_sub(1);
                true
            }
            b"-" | b"!" | b"*" | b"&" => false,
            b"+" | b"/" | b"%" | b"|" | b"<<" | b">>" | b"==" | b"!=" if is_operand => false,
            b"<" | b"<=" | b">" | b">=" | b"?" | b":" if is_operand => false,
            _ if is_after_sign && tokens[index].kind != TokenKind::Sign && !is_keyword(word) =>
                true,
            _ => return false,
        };
    }
    is_operand && depth == 0
}

// Whether tokens are in parentheses as a whole.
fn is_closed(source: &[u8], tokens: &[Token]) -> bool {
    let mut depth: usize = 0;
    for index in 0..tokens.len() {
        match word_of(source, tokens, index) {
            b"(" => depth = depth.saturating_add(1),
            b")" => depth = depth.saturating_sub(1),
            _ => {}
        }
        if depth == 0 {
            return index.saturating_add(1) == tokens.len();
        }
    }
    false
}

/// Edits a name: a constant, a name of the end of the input, or one with too many letters.
pub(crate) fn name(
    source: &Source<'_>,
    draft: &mut Draft,
    constants: &Constants,
    short: &[Option<Text>],
    renamed: &[usize],
    index: usize,
) -> Done {
    let word = source.word(index);
    if let Some(Some(text)) = short.get(slot(renamed, index)) {
        return draft.replace(source, index, text.as_slice(), Row::Scope);
    }
    if matches!(word, b"EOF") {
        return end_name(source, draft, index);
    }
    if let Some(value) = constants.value_of(word) {
        return draft.replace(source, index, value, Row::Constant);
    }
    match word {
        b"NULL" => draft.replace(source, index, b"0", Row::Constant),
        _ => match short.get(slot(source.firsts, index)) {
            Some(Some(text)) => {
                let row = if is_short(word) {
                    Row::Taken
                } else {
                    Row::Name
                };
                draft.replace(source, index, text.as_slice(), row)
            }
            _ => Ok(()),
        },
    }
}

// The name of the end of the input, which was below each character.
fn end_name(source: &Source<'_>, draft: &mut Draft, index: usize) -> Done {
    let sign = index.wrapping_sub(1);
    let words: &[u8] = match source.word(sign) {
        b">" => b"!= '*e'",
        b"<=" => b"== '*e'",
        _ => {
            if !is_test(source, sign) && !is_test(source, index.wrapping_add(1)) {
                draft.note(source, index, NoteKind::End)?;
            }
            return draft.replace(source, index, b"'*e'", Row::InputEnd);
        }
    };
    draft.put(source.start(sign), source.end(index), words, Row::InputEnd)
}

// Whether a token compares.
fn is_test(source: &Source<'_>, index: usize) -> bool {
    matches!(source.word(index), b"==" | b"!=" | b"case")
}

/// For each token that is the first one with a name of too many letters, of letters that none has, or of a function
/// that the other files have, too, another name.
pub(crate) fn short_names(
    alloc: Global,
    source: &Source<'_>,
    others: &Source<'_>,
    outline: &Outline,
    names: &mut Taken,
) -> Result<Vec<Option<Text>>, AllocError> {
    let mut taken = filled(alloc, source.tokens.len())?;
    for function in &outline.functions {
        let word = source.word(function.name);
        if !matches!(word, b"main") && defines(others, word) {
            put(&mut taken, slot(source.firsts, function.name), 0);
        }
    }
    let mut short: Vec<Option<Text>> = Vec::new(alloc);
    for index in 0..source.tokens.len() {
        let mut found = None;
        let is_free = is_short(source.word(index)) && slot(&taken, index) == NONE;
        if slot(source.firsts, index) == index && !is_free {
            found = names.short_name(source.word(index))?;
        }
        short.push(found)?;
    }
    Ok(short)
}

fn is_short(word: &[u8]) -> bool {
    word.len() <= NAME_LETTERS && !word.contains(&b'.')
}

/// Whether a source has a name.
pub(crate) fn has_name(source: &Source<'_>, name: &[u8]) -> bool {
    for index in 0..source.tokens.len() {
        if slot(source.firsts, index) == index && source.is(index, name) {
            return true;
        }
    }
    is_reserved(name)
}

/// Whether a word is a keyword here, or a function of the library.
pub(crate) fn is_reserved(word: &[u8]) -> bool {
    word.is_empty() || is_keyword(word) || is_library(word)
}

/// Whether a word is the name of a function of the library.
pub(crate) fn is_library(word: &[u8]) -> bool {
    is_one_of(word, LIBRARY.as_slice())
}

/// Whether a word is a keyword here, or in another form of the language.
pub(crate) fn is_keyword(word: &[u8]) -> bool {
    is_one_of(word, KEYWORDS.as_slice()) || is_type(word)
}

/// Whether a word begins a type.
pub(crate) fn is_type(word: &[u8]) -> bool {
    is_one_of(word, TYPES.as_slice())
}

/// Whether a word is one of these.
pub(crate) fn is_one_of(word: &[u8], words: &[&str]) -> bool {
    for one in words {
        if word == one.as_bytes() {
            return true;
        }
    }
    false
}

/// Edits a number to the base 16, or one to the base 8 with other digits.
pub(crate) fn number(source: &Source<'_>, draft: &mut Draft, index: usize) -> Done {
    let word = source.word(index);
    if word.contains(&b'.') {
        return draft.note(source, index, NoteKind::Floating);
    }
    let (base, digits) = digits_of(word);
    let Some(value) = value_of(base, digits) else {
        return draft.note(source, index, NoteKind::Number);
    };
    if value > 65535 {
        return draft.note(source, index, NoteKind::Large);
    }
    if base != 8 && value > 32767 {
        draft.note(source, index, NoteKind::Wraps)?;
    }
    if base == 16 || !is_plain(base, digits) {
        let mut text = Text::new(draft.alloc);
        text.push_number(value)?;
        return draft.replace_text(source, index, text, Row::Number);
    }
    Ok(())
}

/// The value of a number to its base.
pub(crate) fn value_of_number(word: &[u8]) -> Option<u64> {
    let (base, digits) = digits_of(word);
    value_of(base, digits)
}

// The base of a number, and its digits.
fn digits_of(word: &[u8]) -> (u64, &[u8]) {
    match word {
        [b'0', b'x' | b'X', rest @ ..] => (16, rest),
        [b'0', ..] => (8, word),
        _ => (10, word),
    }
}

fn is_plain(base: u64, digits: &[u8]) -> bool {
    for digit in digits {
        if !digit.is_ascii_digit() || base == 8 && *digit >= b'8' {
            return false;
        }
    }
    true
}

/// The value of digits. An L or U after them says nothing.
pub(crate) fn value_of(base: u64, digits: &[u8]) -> Option<u64> {
    let mut value: u64 = 0;
    let mut has_digit = false;
    let mut is_over = false;
    for byte in digits {
        match digit_of(base, *byte) {
            Some(digit) if !is_over => {
                value = value.saturating_mul(base).saturating_add(digit);
                has_digit = true;
            }
            _ if matches!(*byte, b'l' | b'L' | b'u' | b'U') => is_over = true,
            _ => return None,
        }
    }
    if has_digit { Some(value) } else { None }
}

fn digit_of(base: u64, byte: u8) -> Option<u64> {
    match byte {
        b'0'..=b'9' => Some((byte - b'0') as u64),
        b'a'..=b'f' if base == 16 => Some((byte - b'a') as u64 + 10),
        b'A'..=b'F' if base == 16 => Some((byte - b'A') as u64 + 10),
        _ => None,
    }
}
