//! The text of B that a pattern is where names stand for its holes, and where these stand.
use crate::classes::{Classes, part};
use crate::faults::{FaultReason, Stop};
use crate::holes::{Holes, sort_of};
use crate::text::letters;
use bmatch::Sort;
use bword::Name;
use std::alloc::Global;

/// What stands at a place of a pattern.
#[derive(Clone, Copy)]
pub(crate) enum Sign {
    Hole(u8, Sort),
    /// Any statement.
    Statement(u8),
    Dots,
}

/// A sign and its place.
#[derive(Clone, Copy)]
pub(crate) struct Mark {
    pub at: usize,
    pub sign: Sign,
}

/// How far a pattern is cleaned.
#[derive(Drop)]
pub(crate) struct Cleaning {
    // How many bytes were read and written.
    at: usize,
    // The quote that is open, or 0.
    quote: u8,
    pub out: Vec<u8>,
    pub marks: Vec<Mark>,
    /// Before which place the token stands that is told.
    pub told: Option<usize>,
}

/// Cleans a pattern in one of the choices of its operators.
pub(crate) fn cleaned(
    alloc: Global,
    text: &[u8],
    classes: &Classes<'_>,
    choice: usize,
    holes: &mut Holes,
) -> Result<Cleaning, Stop> {
    let mut cleaning = Cleaning {
        at: 0,
        quote: 0,
        out: Vec::new(alloc),
        marks: Vec::new(alloc),
        told: None,
    };
    for _ in 0..text.len() {
        cleaning.step(text, classes, choice, holes)?;
    }
    if cleaning.quote != 0 {
        return Err(Stop::Fault(FaultReason::OpenQuote, text.len()));
    }
    Ok(cleaning)
}

impl Cleaning {
    fn step(
        &mut self,
        text: &[u8],
        classes: &Classes<'_>,
        choice: usize,
        holes: &mut Holes,
    ) -> Result<(), Stop> {
        let rest = part(text, self.at, text.len());
        let Some(first) = rest.first() else {
            return Ok(());
        };
        if self.quote != 0 {
            return self.quoted(rest, *first);
        }
        match *first {
            b'$' => self.hole(rest, holes),
            b'^' => self.mark(rest),
            b'`' => self.class(rest, classes, choice),
            b'.' if rest.starts_with(b"...") => self.sign(Sign::Dots, b"_", 3),
            b'\'' | b'"' => {
                self.quote = *first;
                self.put(&rest[..1], 1)
            }
            _ => self.put(&rest[..1], 1),
        }
    }

    // A byte between quotes. After a star comes any byte.
    fn quoted(&mut self, rest: &[u8], first: u8) -> Result<(), Stop> {
        let len = if first == b'*' { 2 } else { 1 };
        if first == self.quote {
            self.quote = 0;
        }
        let bytes = part(rest, 0, len);
        self.put(bytes, bytes.len())
    }

    // Writes these bytes, and blanks up to so many.
    fn put(&mut self, bytes: &[u8], len: usize) -> Result<(), Stop> {
        for index in 0..len {
            let byte = bytes.get(index).copied().unwrap_or(b' ');
            self.out.push(byte)?;
        }
        self.at = self.at.saturating_add(len);
        Ok(())
    }

    fn sign(&mut self, sign: Sign, bytes: &[u8], len: usize) -> Result<(), Stop> {
        self.marks.push(Mark { at: self.at, sign })?;
        self.put(bytes, len)
    }

    fn mark(&mut self, rest: &[u8]) -> Result<(), Stop> {
        if self.told.is_some() {
            return Err(Stop::Fault(FaultReason::ManyMarks, rest.len()));
        }
        self.told = Some(self.at);
        self.put(b" ", 1)
    }

    fn class(&mut self, rest: &[u8], classes: &Classes<'_>, choice: usize) -> Result<(), Stop> {
        let after = part(rest, 1, rest.len());
        let len = backquote(after).unwrap_or(after.len());
        let text = part(after, 0, len);
        self.put(classes.operator(text, choice), len.saturating_add(2))
    }

    fn hole(&mut self, rest: &[u8], holes: &mut Holes) -> Result<(), Stop> {
        if let [b'$', b'$', after @ ..] = rest {
            let (number, len) = hole_number(after, holes)?;
            return self.sign(Sign::Statement(number), b"_;", len.saturating_add(2));
        }
        let after = part(rest, 1, rest.len());
        let (number, len) = hole_number(after, holes)?;
        let (sort, more) = sort_at(part(after, len, after.len()))?;
        let all = len.saturating_add(more).saturating_add(1);
        let stands = match sort {
            Sort::Number => b"1",
            _ => b"_",
        };
        self.sign(Sign::Hole(number, sort), stands, all)
    }
}

fn backquote(text: &[u8]) -> Option<usize> {
    text.iter().position(|byte| *byte == b'`')
}

/// The number of the hole whose name a text begins with, and how long that is.
pub(crate) fn hole_number(text: &[u8], holes: &mut Holes) -> Result<(u8, usize), Stop> {
    let len = letters(text);
    let Some(name) = Name::from_bytes(part(text, 0, len)) else {
        return Err(Stop::Fault(FaultReason::HoleName, text.len()));
    };
    match holes.number(name)? {
        Some(number) => Ok((number, len)),
        None => Err(Stop::Fault(FaultReason::TooManyHoles, text.len())),
    }
}

// The sort that a hole has by what comes after its name, and how long that is.
fn sort_at(after: &[u8]) -> Result<(Sort, usize), Stop> {
    let [b':', word @ ..] = after else {
        return Ok((Sort::Any, 0));
    };
    let len = letters(word);
    if len == 0 {
        return Ok((Sort::Any, 0));
    }
    match sort_of(part(word, 0, len)) {
        Some(sort) => Ok((sort, len.saturating_add(1))),
        None => Err(Stop::Fault(FaultReason::HoleSort, word.len())),
    }
}
