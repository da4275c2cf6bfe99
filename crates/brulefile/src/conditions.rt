//! Reading a condition.
use crate::classes::part;
use crate::cleaning::hole_number;
use crate::cutting::cut;
use crate::drawing::bytes_of;
use crate::faults::{FaultReason, Stop};
use crate::holes::Holes;
use crate::patterns::read_patterns;
use crate::text::{after_blanks, after_word, first_word, place_of};
use bmatch::{Claim, Leaf, Measure, NO_HOLE, Relation, Scope, Step, Test, Word, sign_number};
use bword::Name;
use std::alloc::{AllocError, Global};

/// A condition that has a name. It speaks of the holes that it is given.
#[derive(Clone, Copy)]
pub(crate) struct Named<'t> {
    pub name: &'t [u8],
    /// How many claims there are up to its end.
    pub end: u16,
    pub looks_around: bool,
    pub looks_far: bool,
}

/// What reads conditions, into claims and the steps of patterns.
#[derive(Drop)]
pub(crate) struct Conditions<'t> {
    pub alloc: Global,
    /// The holes of the rule or of the condition with a name that is read.
    pub holes: Holes,
    pub is_loose: bool,
    /// Whether its claims look at more than what was found, and at the whole source.
    pub looks_around: bool,
    pub looks_far: bool,
    /// The conditions that have names.
    pub named: Vec<Named<'t>>,
    pub steps: Vec<Step>,
    /// The claims of rules and of conditions with names, and where those of each begin. A call in what is read has how
    /// many claims there are up to the end of what it calls.
    pub claims: Vec<Claim>,
    pub begins: Vec<usize>,
}

impl<'t> Conditions<'t> {
    pub(crate) fn new(alloc: Global) -> Self {
        Conditions {
            alloc,
            holes: Holes::new(alloc),
            is_loose: true,
            looks_around: false,
            looks_far: false,
            named: Vec::new(alloc),
            steps: Vec::new(alloc),
            claims: Vec::new(alloc),
            begins: Vec::new(alloc),
        }
    }

    /// The claims of a rule begin, or those of a condition with a name.
    pub(crate) fn begin_all(&mut self) -> Result<(), AllocError> {
        self.holes = Holes::new(self.alloc);
        self.is_loose = true;
        self.looks_around = false;
        self.looks_far = false;
        self.begins.push(self.claims.len())?;
        Ok(())
    }

    /// Those of a condition with this name begin, which is given these holes. It holds, too, where the one before it does
    /// that has this name.
    pub(crate) fn begin_named(&mut self, name: &[u8], given: &[u8]) -> Result<(), Stop> {
        self.begin_all()?;
        self.given(given)?;
        if let Some(named) = self.find(name) {
            self.claims.push(Claim::Either(2))?;
            self.call(named, [0, 1, 2, 3])?;
            self.claims.push(Claim::End)?;
        }
        Ok(())
    }

    /// They end here. Gives how many claims there are now.
    pub(crate) fn end_all(&mut self) -> Result<u16, Stop> {
        self.claims.push(Claim::End)?;
        let begin = self.begins.last().copied().unwrap_or(0);
        let end = self.claims.len();
        for at in begin..end {
            self.link(at, begin, end);
        }
        number_of(end, 0)
    }

    // A call gets how many claims it passes over, where the claims of what comes last stand first.
    fn link(&mut self, at: usize, begin: usize, end: usize) {
        if let Some(Claim::Call(called, _, _, _, _)) = self.claims.get_mut(at) {
            let before = begin.saturating_sub(*called as usize);
            let after = end.saturating_sub(at.saturating_add(1));
            *called = before.saturating_add(after).min(65_535) as u16;
        }
    }

    /// The claims, those of what comes last first.
    pub(crate) fn last_first(&self) -> Result<Vec<Claim>, AllocError> {
        let mut claims = Vec::new(self.alloc);
        let mut end = self.claims.len();
        for begin in self.begins.iter().rev() {
            claims.extend_from_slice(self.claims.get(*begin..end).unwrap_or(&[]))?;
            end = *begin;
        }
        Ok(claims)
    }

    /// Reads the condition that a text is. It has so many words at most that join others.
    #[cycle(conditions)]
    pub(crate) fn read(&mut self, text: &[u8], fuel: usize) -> Result<(), Stop> {
        if fuel == 0 {
            return Err(Stop::Fault(FaultReason::TooDeep, text.len()));
        }
        if let Some((one, other)) = parted(text, b" or ") {
            return self.one_of(one, other, fuel - 1);
        }
        match first_word(text) {
            b"not" => self.negated(after_word(text), fuel - 1),
            b"some" => self.sought(after_word(text), fuel - 1),
            b"no" => {
                let not = self.begin(Claim::Not(0))?;
                self.sought(after_word(text), fuel - 1)?;
                self.end(not)
            }
            b"begun" => self.begun(after_word(text)),
            [b'$', ..] => self.of_hole(text),
            word => {
                if self.called(word, after_word(text))? {
                    return Ok(());
                }
                let test = self.test(text)?;
                self.claims.push(Claim::Test(test))?;
                Ok(())
            }
        }
    }

    // Two conditions, of which one holds.
    #[cycle(conditions)]
    fn one_of(&mut self, one: &[u8], other: &[u8], fuel: usize) -> Result<(), Stop> {
        let either = self.begin(Claim::Either(0))?;
        self.read(one, fuel)
            .map_err(|stop| moved(stop, other.len() + 4))?;
        let jump = self.begin(Claim::Jump(0))?;
        let count = self.after(either);
        self.set(either, Claim::Either(count));
        self.read(other, fuel)?;
        let count = self.after(jump);
        self.set(jump, Claim::Jump(count));
        Ok(())
    }

    // Adds a claim that is set later, and gives its place.
    fn begin(&mut self, claim: Claim) -> Result<usize, AllocError> {
        let at = self.claims.len();
        self.claims.push(claim)?;
        Ok(at)
    }

    // The claims that don't hold end here.
    fn end(&mut self, not: usize) -> Result<(), Stop> {
        self.claims.push(Claim::End)?;
        let count = self.after(not);
        self.set(not, Claim::Not(count));
        Ok(())
    }

    // How many claims come after this one.
    fn after(&self, at: usize) -> u16 {
        self.claims
            .len()
            .saturating_sub(at.saturating_add(1))
            .min(65_535) as u16
    }

    fn set(&mut self, at: usize, claim: Claim) {
        if let Some(old) = self.claims.get_mut(at) {
            *old = claim;
        }
    }

    // A condition that has a name, if one has this.
    fn called(&mut self, name: &[u8], text: &[u8]) -> Result<bool, Stop> {
        let Some(named) = self.find(name) else {
            return Ok(false);
        };
        let given = self.given(text)?;
        self.call(named, given)?;
        Ok(true)
    }

    // The last condition of this name.
    fn find(&self, name: &[u8]) -> Option<Named<'t>> {
        self.named.iter().rfind(|it| it.name == name).copied()
    }

    fn call(&mut self, named: Named<'t>, given: [u8; 4]) -> Result<(), AllocError> {
        let [first, second, third, fourth] = given;
        self.looks_around = self.looks_around || named.looks_around;
        self.looks_far = self.looks_far || named.looks_far;
        self.claims
            .push(Claim::Call(named.end, first, second, third, fourth))?;
        Ok(())
    }

    // The holes that a text is, of which there are four at most.
    fn given(&mut self, text: &[u8]) -> Result<[u8; 4], Stop> {
        let (first, text) = self.given_hole(text)?;
        let (second, text) = self.given_hole(text)?;
        let (third, text) = self.given_hole(text)?;
        let (fourth, text) = self.given_hole(text)?;
        if text.is_empty() {
            Ok([first, second, third, fourth])
        } else {
            Err(Stop::Fault(FaultReason::TooManyGiven, text.len()))
        }
    }

    fn given_hole<'p>(&mut self, text: &'p [u8]) -> Result<(u8, &'p [u8]), Stop> {
        if text.is_empty() {
            Ok((NO_HOLE, text))
        } else {
            self.hole_and_rest(text)
        }
    }

    // `begun $x is PATTERN`: what changes a name last, before what was found.
    fn begun(&mut self, text: &[u8]) -> Result<(), Stop> {
        let (hole, rest) = self.hole_and_rest(text)?;
        if first_word(rest) != b"is".as_slice() {
            return Err(Stop::Fault(FaultReason::ConditionWord, rest.len()));
        }
        let pattern = self.pattern(after_word(rest))?;
        self.looks_around = true;
        self.claims.push(Claim::Begun(hole, pattern))?;
        Ok(())
    }

    #[cycle(conditions)]
    fn negated(&mut self, text: &[u8], fuel: usize) -> Result<(), Stop> {
        let not = self.begin(Claim::Not(0))?;
        self.read(text, fuel)?;
        self.end(not)
    }

    // A pattern, where it is sought, and what else holds there.
    #[cycle(conditions)]
    fn sought(&mut self, text: &[u8], fuel: usize) -> Result<(), Stop> {
        match parted(text, b" but ") {
            None => self.in_scope(text),
            Some((head, tail)) => {
                self.in_scope(head)
                    .map_err(|stop| moved(stop, tail.len() + 5))?;
                self.all_of(tail, fuel)
            }
        }
    }

    // Conditions with `but` between them, which all hold.
    #[cycle(conditions)]
    fn all_of(&mut self, text: &[u8], fuel: usize) -> Result<(), Stop> {
        if fuel == 0 {
            return Err(Stop::Fault(FaultReason::TooDeep, text.len()));
        }
        match parted(text, b" but ") {
            None => self.read(text, fuel - 1),
            Some((head, tail)) => {
                self.read(head, fuel - 1)
                    .map_err(|stop| moved(stop, tail.len() + 5))?;
                self.all_of(tail, fuel - 1)
            }
        }
    }

    fn in_scope(&mut self, text: &[u8]) -> Result<(), Stop> {
        let (pattern, scope) = self.scope(text)?;
        let more = text.len().saturating_sub(pattern.len());
        let (pattern, hole) = self.as_hole(pattern)?;
        let scope = scope_of(pattern, scope);
        let pattern = self
            .sought_pattern(pattern)
            .map_err(|stop| moved(stop, more))?;
        self.looks_around = true;
        self.looks_far = self.looks_far || matches!(scope, Scope::Program | Scope::Definitions);
        self.claims.push(Claim::Some(scope, hole, pattern))?;
        Ok(())
    }

    // The first step of a pattern, or of `change of $x`.
    fn sought_pattern(&mut self, text: &[u8]) -> Result<u16, Stop> {
        match text.strip_prefix(b"change of $") {
            Some(name) => {
                let hole = self.only_hole(name)?;
                let at = number_of(self.steps.len(), text.len())?;
                self.steps.push(Step::Leaf(Leaf::Change(hole)))?;
                self.steps.push(Step::Done)?;
                Ok(at)
            }
            None => self.pattern(text),
        }
    }

    // Adds a pattern, and gives its first step.
    fn pattern(&mut self, text: &[u8]) -> Result<u16, Stop> {
        let at = number_of(self.steps.len(), text.len())?;
        read_patterns(
            self.alloc,
            text,
            self.is_loose,
            &mut self.holes,
            &mut self.steps,
            None,
        )?;
        Ok(at)
    }

    // A pattern without `as $x` after it, and that hole.
    fn as_hole<'p>(&mut self, text: &'p [u8]) -> Result<(&'p [u8], u8), Stop> {
        match parted(text, b" as $") {
            Some((pattern, name)) => Ok((pattern, self.only_hole(name)?)),
            None => Ok((text, NO_HOLE)),
        }
    }

    // A pattern without the scope after it, and that.
    fn scope<'p>(&mut self, text: &'p [u8]) -> Result<(&'p [u8], Scope), Stop> {
        if let Some((pattern, scope)) = named_scope(text) {
            return Ok((pattern, scope));
        }
        if let Some((pattern, name)) = parted(text, b" in own $") {
            return Ok((pattern, Scope::Own(self.only_hole(name)?)));
        }
        match parted(text, b" in $") {
            Some((pattern, name)) => Ok((pattern, Scope::Hole(self.only_hole(name)?))),
            None => Err(Stop::Fault(FaultReason::Scope, text.len())),
        }
    }

    // The hole of this name, after which nothing stands.
    fn only_hole(&mut self, text: &[u8]) -> Result<u8, Stop> {
        let (number, len) = hole_number(text, &mut self.holes)?;
        if len == text.len() {
            Ok(number)
        } else {
            Err(Stop::Fault(FaultReason::UnknownHole, text.len()))
        }
    }

    // A condition that begins with a hole: `$x is PATTERN`, or `$x == 0`.
    fn of_hole(&mut self, text: &[u8]) -> Result<(), Stop> {
        let (hole, rest) = self.hole_and_rest(text)?;
        if first_word(rest) == b"is".as_slice() {
            let pattern = self.pattern(after_word(rest))?;
            self.claims.push(Claim::Is(hole, pattern))?;
            return Ok(());
        }
        let relation = relation_of(rest)?;
        let other = self.measure(after_word(rest))?;
        let test = Test::Compares(Measure::Value(hole), relation, other);
        self.claims.push(Claim::Test(test))?;
        Ok(())
    }

    // A number, the value of a hole, or what is counted of one.
    fn measure(&mut self, text: &[u8]) -> Result<Measure, Stop> {
        if let [b'$', name @ ..] = text {
            return Ok(Measure::Value(self.only_hole(name)?));
        }
        match self.counted(text)? {
            Some((measure, [])) => Ok(measure),
            Some((_, rest)) => Err(Stop::Fault(FaultReason::ConditionWord, rest.len())),
            None => Ok(Measure::Number(number_in(text)?)),
        }
    }

    // What is counted of holes, if a text begins with the word for it, and what stands after that.
    fn counted<'p>(&mut self, text: &'p [u8]) -> Result<Option<(Measure, &'p [u8])>, Stop> {
        let word = first_word(text);
        let takes = count_of_holes(word);
        if takes == 0 {
            return Ok(None);
        }
        let (one, mut rest) = self.hole_and_rest(after_word(text))?;
        let (mut other, mut third) = (NO_HOLE, NO_HOLE);
        if takes > 1 {
            (other, rest) = self.hole_and_rest(rest)?;
        }
        if takes > 2 {
            (third, rest) = self.hole_and_rest(rest)?;
        }
        let measure = match word {
            b"product" => Measure::Product(one, other),
            b"sum" => Measure::Sum(one, other),
            b"modulo" => Measure::Remainder(one, other),
            b"remains" => Measure::Remains(one, other, third),
            b"place" => Measure::Place(one, other),
            b"size" => Measure::Size(one),
            b"given" => Measure::Given(one),
            b"bytes" => Measure::Bytes(one),
            b"arguments" => Measure::Arguments(one),
            b"room" => Measure::Room(one),
            b"letters" => Measure::Letters(one),
            b"token" => Measure::Token(one),
            b"line" => Measure::Line(one),
            _ => Measure::Indent(one),
        };
        Ok(Some((measure, rest)))
    }

    // The hole that a text begins with, and what stands after it.
    fn hole_and_rest<'p>(&mut self, text: &'p [u8]) -> Result<(u8, &'p [u8]), Stop> {
        let [b'$', name @ ..] = text else {
            return Err(Stop::Fault(FaultReason::UnknownHole, text.len()));
        };
        let (number, len) = hole_number(name, &mut self.holes)?;
        Ok((number, after_blanks(part(name, len, name.len()))))
    }

    fn test(&mut self, text: &[u8]) -> Result<Test, Stop> {
        if let Some((measure, rest)) = self.counted(text)? {
            return self.compared(measure, rest);
        }
        let rest = after_word(text);
        match first_word(text) {
            b"quiet" => Ok(Test::Quiet(self.last_hole(rest)?)),
            b"backslash" => Ok(Test::Backslash(self.last_hole(rest)?)),
            b"parameter" => Ok(Test::Parameter(self.last_hole(rest)?)),
            b"defines" => Ok(Test::Defines(self.last_hole(rest)?)),
            b"own" if first_word(rest) == b"name".as_slice() => {
                Ok(Test::OwnName(self.last_hole(after_word(rest))?))
            }
            b"heading" => Ok(Test::Heading(self.last_hole(rest)?)),
            b"next" => {
                let (hole, rest) = self.hole_and_rest(rest)?;
                Ok(Test::Next(hole, self.token(rest)?))
            }
            b"spelled" => {
                let (hole, rest) = self.hole_and_rest(rest)?;
                match Name::from_bytes(rest) {
                    Some(name) => {
                        let (bytes, len) = bytes_of(name);
                        Ok(Test::Spelled(hole, bytes, len))
                    }
                    None => Err(Stop::Fault(FaultReason::Token, rest.len())),
                }
            }
            b"inside" => {
                let (one, rest) = self.hole_and_rest(rest)?;
                Ok(Test::Inside(one, self.last_hole(rest)?))
            }
            b"precedes" => {
                let (one, rest) = self.hole_and_rest(rest)?;
                Ok(Test::Precedes(one, self.last_hole(rest)?))
            }
            b"negative" => Ok(Test::Negative(self.last_hole(rest)?)),
            b"dropped" => Ok(Test::Dropped(self.last_hole(rest)?)),
            b"first" => {
                let (hole, rest) = self.hole_and_rest(rest)?;
                Ok(Test::Begins(hole, word_of(rest)?))
            }
            b"joined" if rest.is_empty() => Ok(Test::Joined),
            b"after" if rest == b"operator".as_slice() => Ok(Test::AfterOperator),
            b"followed" => Ok(Test::Followed(self.token(rest)?)),
            _ => Err(Stop::Fault(FaultReason::ConditionWord, text.len())),
        }
    }

    // A number with a relation to another one.
    fn compared(&mut self, one: Measure, text: &[u8]) -> Result<Test, Stop> {
        let relation = relation_of(text)?;
        let other = self.measure(after_word(text))?;
        Ok(Test::Compares(one, relation, other))
    }

    // The only hole of a text.
    fn last_hole(&mut self, text: &[u8]) -> Result<u8, Stop> {
        let (hole, rest) = self.hole_and_rest(text)?;
        if rest.is_empty() {
            Ok(hole)
        } else {
            Err(Stop::Fault(FaultReason::ConditionWord, rest.len()))
        }
    }

    // The sign number of the only token of a text.
    fn token(&self, text: &[u8]) -> Result<u16, Stop> {
        let cut = cut(self.alloc, text)?;
        match cut.lexemes.as_slice() {
            [lexeme] if cut.is_whole => Ok(sign_number(lexeme)),
            _ => Err(Stop::Fault(FaultReason::Token, text.len())),
        }
    }
}

// A definition is sought among definitions alone.
fn scope_of(pattern: &[u8], scope: Scope) -> Scope {
    match scope {
        Scope::Program if pattern.starts_with(b"define ") => Scope::Definitions,
        _ => scope,
    }
}

// Of how many holes a measure of this name speaks; 0 if it is none.
fn count_of_holes(word: &[u8]) -> u8 {
    match word {
        b"remains" => 3,
        b"product" | b"sum" | b"modulo" | b"place" => 2,
        b"bytes"
        | b"arguments"
        | b"room"
        | b"letters"
        | b"token"
        | b"line"
        | b"indent"
        | b"size"
        | b"given" => 1,
        _ => 0,
    }
}

// What stands before the first of these words, and after it.
fn parted<'t>(text: &'t [u8], words: &[u8]) -> Option<(&'t [u8], &'t [u8])> {
    match place_of(text, words) {
        Some(at) => Some((
            part(text, 0, at),
            after_blanks(part(text, at.saturating_add(words.len()), text.len())),
        )),
        None => None,
    }
}

// The same, where more of the line is left.
fn moved(stop: Stop, more: usize) -> Stop {
    match stop {
        Stop::Fault(reason, left) => Stop::Fault(reason, left.saturating_add(more)),
        _ => stop,
    }
}

fn word_of(text: &[u8]) -> Result<Word, Stop> {
    match text {
        b";" => Ok(Word::Nothing),
        b"return" => Ok(Word::Return),
        b"break" => Ok(Word::Break),
        b"auto" => Ok(Word::Auto),
        b"extrn" => Ok(Word::Extrn),
        _ => Err(Stop::Fault(FaultReason::Token, text.len())),
    }
}

// A pattern without the word for a scope after it, and that scope.
fn named_scope(text: &[u8]) -> Option<(&[u8], Scope)> {
    if let Some(pattern) = text.strip_suffix(b" in program") {
        return Some((pattern, Scope::Program));
    }
    if let Some(pattern) = text.strip_suffix(b" in loop") {
        return Some((pattern, Scope::Loop));
    }
    if let Some(pattern) = text.strip_suffix(b" in function") {
        return Some((pattern, Scope::Function));
    }
    if let Some(pattern) = text.strip_suffix(b" before") {
        return Some((pattern, Scope::Before));
    }
    if let Some(pattern) = text.strip_suffix(b" after") {
        return Some((pattern, Scope::After));
    }
    match text.strip_suffix(b" around") {
        Some(pattern) => Some((pattern, Scope::Around)),
        None => None,
    }
}

fn relation_of(text: &[u8]) -> Result<Relation, Stop> {
    match first_word(text) {
        b"==" => Ok(Relation::Equal),
        b"!=" => Ok(Relation::Unequal),
        b"<" => Ok(Relation::Less),
        b"<=" => Ok(Relation::AtMost),
        b">" => Ok(Relation::Greater),
        b">=" => Ok(Relation::AtLeast),
        _ => Err(Stop::Fault(FaultReason::Relation, text.len())),
    }
}

/// The number of a step or of a claim, where so many bytes of the line are left.
pub(crate) fn number_of(count: usize, left: usize) -> Result<u16, Stop> {
    match u16::try_from(count) {
        Ok(number) => Ok(number),
        Err(_) => Err(Stop::Fault(FaultReason::ManySteps, left)),
    }
}

// The number that a text is.
fn number_in(text: &[u8]) -> Result<u16, Stop> {
    let mut number: u16 = 0;
    for byte in text {
        match with_digit(number, *byte) {
            Some(more) => number = more,
            None => return Err(Stop::Fault(FaultReason::Number, text.len())),
        }
    }
    if text.is_empty() {
        return Err(Stop::Fault(FaultReason::Number, 0));
    }
    Ok(number)
}

fn with_digit(number: u16, byte: u8) -> Option<u16> {
    if !byte.is_ascii_digit() {
        return None;
    }
    number.checked_mul(10)?.checked_add(u16::from(byte - b'0'))
}
