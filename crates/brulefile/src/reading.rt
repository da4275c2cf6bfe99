//! Reading a text of rules.
use crate::cleaning::hole_number;
use crate::conditions::{Conditions, Named, number_of};
use crate::faults::{FaultReason, RuleFault, Stop};
use crate::holes::Holes;
use crate::patterns::read_patterns;
use crate::text::{after_blanks, after_word, first_word, is_blank};
use bmatch::{Claim, NO_HOLE, Rule, RuleTable, Step};
use std::alloc::{AllocError, Global};

/// The most bytes of a line.
pub const MOST_LINE: usize = 400;

/// The most letters of the name of a rule.
pub const MOST_NAME: usize = 24;

/// The most words of a condition that join others.
const MOST_JOINED: usize = 14;

/// The name of a rule.
#[derive(Clone, Copy)]
pub struct RuleName {
    bytes: [u8; MOST_NAME],
    len: usize,
}

impl RuleName {
    pub fn as_bytes(&self) -> &[u8] {
        self.bytes.get(..self.len).unwrap_or(&[])
    }
}

/// Rules with their steps and claims, and their names. The number of a rule is its place.
#[derive(Drop)]
pub struct Rules<'t> {
    pub steps: Vec<Step>,
    pub claims: Vec<Claim>,
    pub rules: Vec<Rule>,
    pub names: Vec<RuleName>,
    /// What each says of a place where it fits; nothing where no line of it tells that.
    pub says: Vec<&'t [u8]>,
}

impl Rules<'_> {
    /// The rules as the engine takes them.
    pub fn table(&self) -> RuleTable<'_> {
        RuleTable {
            steps: self.steps.as_slice(),
            claims: self.claims.as_slice(),
            rules: self.rules.as_slice(),
        }
    }
}

/// The rules of a text, or what is wrong in it first.
///
/// # Errors
///
/// If memory was refused.
pub fn read_rules<'t>(
    alloc: Global,
    text: &'t [u8],
) -> Result<Result<Rules<'t>, RuleFault>, AllocError> {
    let mut reading = Reading {
        conditions: Conditions::new(alloc),
        rules: Vec::new(alloc),
        names: Vec::new(alloc),
        says: Vec::new(alloc),
        draft: None,
        naming: None,
    };
    let mut number: u64 = 0;
    for line in text.split(|byte| *byte == b'\n') {
        number = number.saturating_add(1);
        if let Err(stop) = reading.line(line, number) {
            return stopped(stop, number, line.len());
        }
    }
    match reading.end() {
        Ok(()) => Ok(Ok(reading.done()?)),
        Err(stop) => stopped(stop, number, 0),
    }
}

// What is said where a line of so many bytes is read no further.
fn stopped<'t>(
    stop: Stop,
    line: u64,
    len: usize,
) -> Result<Result<Rules<'t>, RuleFault>, AllocError> {
    match stop {
        Stop::Memory => Err(AllocError),
        Stop::Fault(reason, left) => Ok(Err(RuleFault {
            line,
            column: (len.saturating_sub(left) as u64).saturating_add(1),
            reason,
        })),
        Stop::Empty(line) => Ok(Err(RuleFault {
            line,
            column: 1,
            reason: FaultReason::NothingFound,
        })),
    }
}

/// A rule that is being read.
#[derive(Drop)]
struct Draft {
    // The steps of its patterns, and where the last one begins.
    pattern: Vec<Step>,
    last: Option<usize>,
    named: u8,
    beside: u8,
    // Whether a pattern or a condition was read.
    is_begun: bool,
    line: u64,
}

/// What was read of a text.
#[derive(Drop)]
struct Reading<'t> {
    // The steps and the claims of all rules, and the conditions that have names.
    conditions: Conditions<'t>,
    rules: Vec<Rule>,
    names: Vec<RuleName>,
    says: Vec<&'t [u8]>,
    draft: Option<Draft>,
    // The name of the condition that is being read.
    naming: Option<&'t [u8]>,
}

impl<'t> Reading<'t> {
    fn done(self) -> Result<Rules<'t>, AllocError> {
        let Reading {
            conditions,
            mut rules,
            names,
            says,
            ..
        } = self;
        let claims = conditions.last_first()?;
        // Each rule has how many claims there were up to the end of its own, which begin so many before the end now.
        for rule in &mut rules {
            let begin = claims.len().saturating_sub(rule.condition as usize);
            rule.condition = begin.min(65_535) as u16;
        }
        let Conditions { steps, .. } = conditions;
        Ok(Rules {
            steps,
            claims,
            rules,
            names,
            says,
        })
    }

    fn line(&mut self, line: &'t [u8], number: u64) -> Result<(), Stop> {
        if line.len() > MOST_LINE {
            return Err(Stop::Fault(FaultReason::LongLine, line.len()));
        }
        let line = line.trim_ascii_end();
        let text = after_blanks(line);
        match text {
            [] | [b'-', b'-', ..] => Ok(()),
            _ if text.len() < line.len() => self.inner(text),
            _ => self.heading(text, number),
        }
    }

    // The first line of a rule, or of a condition with a name.
    fn heading(&mut self, text: &'t [u8], number: u64) -> Result<(), Stop> {
        if first_word(text) == b"let".as_slice() {
            return self.name_condition(after_word(text));
        }
        if first_word(text) != b"rule".as_slice() {
            return Err(Stop::Fault(FaultReason::RuleWord, text.len()));
        }
        self.end()?;
        let name = after_word(text);
        match name_of(name) {
            Some(name) => {
                self.names.push(name)?;
                self.says.push(b"".as_slice())?;
            }
            None => return Err(Stop::Fault(FaultReason::RuleName, name.len())),
        }
        let alloc = self.conditions.alloc;
        self.conditions.begin_all()?;
        self.draft = Some(Draft {
            pattern: Vec::new(alloc),
            last: None,
            named: NO_HOLE,
            beside: NO_HOLE,
            is_begun: false,
            line: number,
        });
        Ok(())
    }

    // The name of a condition, and its own names of the holes that it is given.
    fn name_condition(&mut self, text: &'t [u8]) -> Result<(), Stop> {
        self.end()?;
        let name = first_word(text);
        if !are_letters(name) {
            return Err(Stop::Fault(FaultReason::RuleName, text.len()));
        }
        self.naming = Some(name);
        self.conditions.begin_named(name, after_word(text))
    }

    // A line of a rule, or of a condition with a name, after the first one.
    fn inner(&mut self, text: &'t [u8]) -> Result<(), Stop> {
        if self.draft.is_some() {
            self.note_says(text);
        }
        if let Some(draft) = &mut self.draft {
            return draft.line(text, &mut self.conditions);
        }
        match self.naming {
            Some(_) => self.conditions.read(text, MOST_JOINED),
            None => Err(Stop::Fault(FaultReason::NoRule, text.len())),
        }
    }

    // What the last rule says, where a line tells that.
    fn note_says(&mut self, text: &'t [u8]) {
        if first_word(text) != b"says".as_slice() {
            return;
        }
        if let Some(says) = self.says.last_mut() {
            *says = after_word(text);
        }
    }

    // The rule or the condition with a name that is being read is over.
    fn end(&mut self) -> Result<(), Stop> {
        if let Some(name) = self.naming.take() {
            self.end_named(name)?;
        }
        match self.draft.take() {
            Some(draft) => self.end_rule(draft),
            None => Ok(()),
        }
    }

    fn end_named(&mut self, name: &'t [u8]) -> Result<(), Stop> {
        let conditions = &mut self.conditions;
        let end = conditions.end_all()?;
        conditions.named.push(Named {
            name,
            end,
            looks_around: conditions.looks_around,
            looks_far: conditions.looks_far,
        })?;
        Ok(())
    }

    fn end_rule(&mut self, draft: Draft) -> Result<(), Stop> {
        if draft.last.is_none() {
            return Err(Stop::Empty(draft.line));
        }
        let conditions = &mut self.conditions;
        let condition = conditions.end_all()?;
        let pattern = number_of(conditions.steps.len(), 0)?;
        conditions
            .steps
            .extend_from_slice(draft.pattern.as_slice())?;
        self.rules.push(Rule {
            number: self.rules.len(),
            pattern,
            condition,
            named: draft.named,
            beside: draft.beside,
            is_loose: self.conditions.is_loose,
            looks_around: self.conditions.looks_around,
            looks_far: self.conditions.looks_far,
        })?;
        Ok(())
    }
}

impl Draft {
    fn line(&mut self, text: &[u8], conditions: &mut Conditions<'_>) -> Result<(), Stop> {
        let rest = after_word(text);
        match first_word(text) {
            b"find" => self.find(rest, conditions),
            b"where" => {
                self.is_begun = true;
                conditions.read(rest, MOST_JOINED)
            }
            b"names" => {
                self.named = hole_in(rest, &mut conditions.holes)?;
                Ok(())
            }
            b"beside" => {
                self.beside = hole_in(rest, &mut conditions.holes)?;
                Ok(())
            }
            b"exact" if rest.is_empty() && !self.is_begun => {
                conditions.is_loose = false;
                Ok(())
            }
            b"exact" => Err(Stop::Fault(FaultReason::LateExact, text.len())),
            b"found" | b"silent" | b"says" | b"fix" | b"mend" => Ok(()),
            _ => Err(Stop::Fault(FaultReason::LineWord, text.len())),
        }
    }

    // One more pattern.
    fn find(&mut self, text: &[u8], conditions: &mut Conditions<'_>) -> Result<(), Stop> {
        self.is_begun = true;
        self.last = read_patterns(
            conditions.alloc,
            text,
            conditions.is_loose,
            &mut conditions.holes,
            &mut self.pattern,
            self.last,
        )?;
        Ok(())
    }
}

// The hole that a text is.
fn hole_in(text: &[u8], holes: &mut Holes) -> Result<u8, Stop> {
    match text {
        [b'$', name @ ..] => {
            let (number, len) = hole_number(name, holes)?;
            if len == name.len() {
                Ok(number)
            } else {
                Err(Stop::Fault(FaultReason::UnknownHole, text.len()))
            }
        }
        _ => Err(Stop::Fault(FaultReason::UnknownHole, text.len())),
    }
}

fn name_of(text: &[u8]) -> Option<RuleName> {
    if text.is_empty() || text.len() > MOST_NAME || !are_letters(text) {
        return None;
    }
    let mut bytes = [0; MOST_NAME];
    bytes[..text.len()].copy_from_slice(text);
    Some(RuleName {
        bytes,
        len: text.len(),
    })
}

fn are_letters(text: &[u8]) -> bool {
    text.iter().all(|byte| byte.is_ascii_alphabetic())
}
