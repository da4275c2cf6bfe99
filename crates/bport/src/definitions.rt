//! The definitions of an old source.
use crate::edit::between;
use crate::expressions::is_assignment;
use crate::externals::{is_text, variables};
use crate::headers::{knr, parameters};
use crate::names::{Constants, is_type, value_of_number};
use crate::pointers::pointed;
use crate::quotes::quoted;
use crate::row::{NoteKind, Row};
use crate::source::{Done, Draft, Source};
use crate::table::{NONE, filled, put, slot};
use crate::tokens::TokenKind;
use std::alloc::{AllocError, Global};

/// How many tokens after a declaration are looked at.
const MOST_TOKENS: usize = 512;

/// A function: its name, the parenthesis before its parameters, and its statement.
#[derive(Clone, Copy)]
pub(crate) struct Function {
    pub name: usize,
    pub open: usize,
    pub body: usize,
    pub end: usize,
}

/// An external: its name, and the token after its sizes and its initial values.
#[derive(Clone, Copy)]
pub(crate) struct External {
    pub name: usize,
    pub end: usize,
}

/// What is known of the definitions of a source.
#[derive(Drop)]
pub(crate) struct Outline {
    pub functions: Vec<Function>,
    /// For each token the number of the function in whose statement it stands.
    pub owners: Vec<usize>,
    /// For each token that is taken out, or stands in a comment now, any number.
    pub gone: Vec<usize>,
    /// The names of externals and functions.
    pub externals: Vec<usize>,
    /// The externals that are no functions.
    pub variables: Vec<External>,
}

impl Outline {
    pub(crate) fn is_gone(&self, index: usize) -> bool {
        slot(&self.gone, index) != NONE
    }

    /// Adds an external, with the token after its values.
    pub(crate) fn add(&mut self, name: usize, end: usize) -> Done {
        self.variables.push(External { name, end })?;
        Ok(())
    }

    /// Notes that tokens are taken out.
    pub(crate) fn take(&mut self, first: usize, last: usize) {
        for index in first..last.saturating_add(1).min(self.gone.len()) {
            put(&mut self.gone, index, 0);
        }
    }
}

/// Edits the heads of definitions, and tells what is known of them.
pub(crate) fn outline_of(
    alloc: Global,
    source: &Source<'_>,
    draft: &mut Draft,
    constants: &mut Constants,
) -> Result<Outline, AllocError> {
    let count = source.tokens.len();
    let mut found = Outline {
        functions: Vec::new(alloc),
        owners: filled(alloc, count)?,
        gone: filled(alloc, count)?,
        externals: Vec::new(alloc),
        variables: Vec::new(alloc),
    };
    let mut next: usize = 0;
    for at in 0..count {
        if at >= next {
            next = definition(source, draft, constants, &mut found, at)?;
        }
    }
    Ok(found)
}

// Edits the definition that begins with a token, and tells the token after it.
fn definition(
    source: &Source<'_>,
    draft: &mut Draft,
    constants: &mut Constants,
    found: &mut Outline,
    at: usize,
) -> Result<usize, AllocError> {
    let next = at.wrapping_add(1);
    match source.word(at) {
        b"%" => return included(source, draft, found, at),
        b"extern" | b"extrn" => return elsewhere(source, draft, found, at),
        b"{" | b"$(" if source.is_open_brace(at) => return Ok(after(source.partner(at))),
        b"struct" | b"union" | b"typedef" => {
            draft.note(source, at, NoteKind::Structure)?;
            return Ok(after(source.semicolon(at)));
        }
        b"manifest" if source.is_open_brace(next) || source.is(next.wrapping_add(1), b"=") => {
            return constant(source, draft, constants, found, at);
        }
        _ => {}
    }
    let name = after_types(source, at);
    if !source.is_name(name) || source.is(at, b"(") {
        return Ok(next);
    }
    let sign = name.wrapping_add(1);
    match source.word(sign) {
        b"(" => function_head(source, draft, found, at, name),
        b"{" | b"$(" if !has_values(source, sign) => headless(source, draft, found, name),
        b"=" if name == at => constant(source, draft, constants, found, at),
        _ => variables(source, draft, found, at, name),
    }
}

/// The token after one, if there is that one.
pub(crate) fn after(index: usize) -> usize {
    if index == NONE {
        NONE
    } else {
        index.wrapping_add(1)
    }
}

/// The first token after types and stars, or the name in `(*name)(..)` after these.
pub(crate) fn after_types(source: &Source<'_>, at: usize) -> usize {
    if source.is(at, b"(") && pointed(source, at) != NONE {
        return pointed(source, at);
    }
    for index in at..source.tokens.len() {
        let word = source.word(index);
        let next = index.wrapping_add(1);
        let is_call = source.is(next, b"(");
        if is_call && (matches!(word, b"*") || is_type(word)) && pointed(source, next) != NONE {
            return pointed(source, next);
        }
        if !matches!(word, b"*") && (!is_type(word) || is_call) {
            return index;
        }
    }
    source.tokens.len()
}

// Whether braces after a name have initial values.
fn has_values(source: &Source<'_>, open: usize) -> bool {
    let close = source.partner(open);
    let is_value = matches!(
        source.kind(open.wrapping_add(1)),
        Some(TokenKind::Number | TokenKind::Char | TokenKind::String)
    );
    (is_value || source.is(open.wrapping_add(1), b"-")) && source.is(close.wrapping_add(1), b";")
}

// A line that names another file.
fn included(
    source: &Source<'_>,
    draft: &mut Draft,
    found: &mut Outline,
    at: usize,
) -> Result<usize, AllocError> {
    let mut last = at;
    for index in at..source.tokens.len() {
        if between(source.text, source.start(at), source.start(index)).contains(&b'\n') {
            break;
        }
        last = index;
    }
    found.take(at, last);
    draft.comment(source, at, last, Row::Directive)?;
    Ok(after(last))
}

// A declaration of what is defined elsewhere.
fn elsewhere(
    source: &Source<'_>,
    draft: &mut Draft,
    found: &mut Outline,
    at: usize,
) -> Result<usize, AllocError> {
    let last = source.semicolon(at);
    if last == NONE {
        return Ok(NONE);
    }
    found.take(at, last);
    draft.comment(source, at, last, Row::Prototype)?;
    Ok(after(last))
}

// `NAME = 5;`, and `manifest` with such values up to a semicolon or in braces.
fn constant(
    source: &Source<'_>,
    draft: &mut Draft,
    constants: &mut Constants,
    found: &mut Outline,
    at: usize,
) -> Result<usize, AllocError> {
    let next = at.wrapping_add(1);
    let (first, last) = if source.is_open_brace(next) {
        (next.wrapping_add(1), source.partner(next))
    } else {
        (at, source.semicolon(at))
    };
    if last == NONE {
        return Ok(NONE);
    }
    let mut from = first;
    for index in first..last.saturating_add(1).min(source.tokens.len()) {
        if index == last || matches!(source.word(index), b"," | b";") {
            keep(source, draft, constants, from, index)?;
            from = index.wrapping_add(1);
        }
    }
    let after_last = last.wrapping_add(1);
    let is_longer = !source.is(last, b";") && source.is(after_last, b";");
    let end = if is_longer { after_last } else { last };
    found.take(at, end);
    draft.comment(source, at, end, Row::Constant)?;
    for index in at..end.min(source.tokens.len()) {
        if matches!(
            source.kind(index),
            Some(TokenKind::Char | TokenKind::String)
        ) {
            quoted(source, draft, index)?;
        }
    }
    Ok(after(end))
}

// Keeps the value from a name, or the word before it, up to the end of it.
fn keep(
    source: &Source<'_>,
    draft: &mut Draft,
    constants: &mut Constants,
    from: usize,
    end: usize,
) -> Done {
    let name = if source.is(from.wrapping_add(1), b"=") {
        from
    } else {
        from.wrapping_add(1)
    };
    let sign = name.wrapping_add(1);
    if !source.is_name(name) || !source.is(sign, b"=") || sign >= end {
        return Ok(());
    }
    let value = between(source.text, source.end(sign), source.start(end));
    constants.keep(
        draft,
        source.start(name),
        source.word(name),
        value.trim_ascii(),
    )?;
    Ok(())
}

// A function, or a declaration of one.
fn function_head(
    source: &Source<'_>,
    draft: &mut Draft,
    found: &mut Outline,
    at: usize,
    name: usize,
) -> Result<usize, AllocError> {
    let open = name.wrapping_add(1);
    let close = source.partner(open);
    let next = close.wrapping_add(1);
    if close == NONE {
        return Ok(open);
    }
    if name != at && (source.is(next, b";") || source.is(next, b",")) {
        return elsewhere(source, draft, found, at);
    }
    if name != at {
        draft.remove(source, at, name, Row::Type)?;
        found.take(at, name.wrapping_sub(1));
    }
    parameters(source, draft, open, close)?;
    let body = knr(source, draft, next)?;
    found.take(next, body.wrapping_sub(1));
    let first = open.wrapping_add(1);
    let is_void = source.is(first, b"void") && close == first.wrapping_add(1);
    if source.is(name, b"main") && close != first && !is_void {
        draft.note(source, name, NoteKind::Arguments)?;
    }
    add_function(source, found, name, open, body)
}

fn add_function(
    source: &Source<'_>,
    found: &mut Outline,
    name: usize,
    open: usize,
    body: usize,
) -> Result<usize, AllocError> {
    let end = source.statement_end(body).min(source.tokens.len());
    let number = found.functions.len();
    for index in body..end {
        put(&mut found.owners, index, number);
    }
    found.functions.push(Function {
        name,
        open,
        body,
        end,
    })?;
    found.externals.push(name)?;
    Ok(end)
}

// A function without parentheses.
fn headless(
    source: &Source<'_>,
    draft: &mut Draft,
    found: &mut Outline,
    name: usize,
) -> Result<usize, AllocError> {
    draft.insert(source.end(name), b"()", Row::Head)?;
    add_function(source, found, name, NONE, name.wrapping_add(1))
}

/// Tells what types say that isn't so here.
pub(crate) fn types(source: &Source<'_>, draft: &mut Draft, at: usize, name: usize) -> Done {
    for index in at..name.min(source.tokens.len()) {
        let kind = match source.word(index) {
            b"float" | b"double" => NoteKind::Floating,
            b"long" | b"unsigned" => NoteKind::Wide,
            b"struct" | b"union" => NoteKind::Structure,
            b"char" if source.is(index.wrapping_add(1), b"*") || is_text(source, name) => {
                NoteKind::Pointer
            }
            b"char" if source.is(name.wrapping_add(1), b"[") => NoteKind::Words,
            b"char" if is_counted(source, name) => NoteKind::High,
            b"char" if source.is(name, b")") => match source.word(name.wrapping_add(1)) {
                [b'\'', ..] | b"char" | b"getchar" => continue,
                _ => NoteKind::Wide,
            },
            _ => continue,
        };
        draft.note(source, index, kind)?;
    }
    Ok(())
}

// Whether a sum, a product or a number past 127 is stored in a name near by.
fn is_counted(source: &Source<'_>, name: usize) -> bool {
    for index in name..name.saturating_add(MOST_TOKENS).min(source.tokens.len()) {
        let next = index.wrapping_add(1);
        let value = next.wrapping_add(1);
        let end = source.semicolon(next).min(value.saturating_add(8));
        let is_large = value_of_number(source.word(value)) > Some(127)
            || source.has(value, end, b"+")
            || source.has(value, end, b"*")
            || source.has(value, end, b"<<");
        let is_stored = match source.word(next) {
            b"=" => is_large,
            b"++" => true,
            word => is_assignment(word),
        };
        if is_stored && source.is_name(name) && source.word(index) == source.word(name) {
            return true;
        }
    }
    false
}
