//! The steps of the pattern that the branches of a text are, where signs stand for some of them.

use crate::cleaning::{Mark, Sign};
use blang::Keyword;
use blex::Lexeme;
use bmatch::{Branch, Kind, Leaf, Sort, Spot, Step, Word, branch_at, lexeme_at};
use btree::{Construct, Node};
use bword::{BinOp, NAME_LEN, Name};
use std::alloc::AllocError;

/// How many bytes stand before a pattern in the text that is cut: `f(){`.
pub(crate) const BEFORE: usize = 4;

/// The branches of a text, and what stands for some of them.
#[derive(Clone, Copy)]
pub(crate) struct Sheet<'a> {
    pub rows: &'a [Branch],
    pub lexemes: &'a [Lexeme],
    pub starts: &'a [usize],
    pub marks: &'a [Mark],
    /// The token that is told.
    pub told: Option<usize>,
    pub is_loose: bool,
}

impl<'a> Sheet<'a> {
    /// Adds the steps for the branches from one number up to another, the last one first.
    #[cycle(drawing)]
    pub(crate) fn row(
        &self,
        begin: usize,
        end: usize,
        steps: &mut Vec<Step>,
        fuel: usize,
    ) -> Result<(), AllocError> {
        if fuel == 0 || begin >= end {
            return Ok(());
        }
        let index = end - 1;
        let first = self.begin_in(index, begin);
        self.branch(index, first, steps, fuel - 1)?;
        self.row(begin, first, steps, fuel - 1)
    }

    // Where the parts of a branch begin, in a row that begins here.
    fn begin_in(&self, index: usize, begin: usize) -> usize {
        let own = branch_at(self.rows, index).begin;
        if own < begin {
            begin
        } else if index < own {
            index
        } else {
            own
        }
    }

    #[cycle(drawing)]
    fn branch(
        &self,
        index: usize,
        first: usize,
        steps: &mut Vec<Step>,
        fuel: usize,
    ) -> Result<(), AllocError> {
        if self.is_after_told_else(index) {
            steps.push(Step::Told(Spot::Else))?;
        }
        match self.step_at(index, first) {
            Some(leaf) => {
                if self.is_told(index) {
                    steps.push(Step::Told(Spot::First))?;
                }
                steps.push(Step::Leaf(leaf))?;
                Ok(())
            }
            None if self.is_dots(index, first) => {
                steps.push(Step::Dots)?;
                Ok(())
            }
            None => self.spelled(index, first, steps, fuel),
        }
    }

    // The leaf that a branch is, or for which a sign stands.
    fn step_at(&self, index: usize, first: usize) -> Option<Leaf> {
        match self.sign_of(index, first) {
            Some(Sign::Hole(hole, sort)) => Some(Leaf::Hole(hole, sort)),
            Some(Sign::Statement(hole)) => Some(Leaf::Hole(hole, Sort::Any)),
            Some(Sign::Dots) => None,
            None => self.leaf_at(index, first),
        }
    }

    // Whether a branch is made by the token that is told.
    fn is_told(&self, index: usize) -> bool {
        match self.told {
            Some(told) => told == branch_at(self.rows, index).token,
            None => false,
        }
    }

    // Whether the `else` before a branch is the token that is told.
    fn is_after_told_else(&self, index: usize) -> bool {
        match self.told {
            Some(told) => {
                matches!(
                    lexeme_at(self.lexemes, told),
                    Lexeme::Keyword(Keyword::Else)
                ) && told + 1 == branch_at(self.rows, index).first
            }
            None => false,
        }
    }

    // The pattern that a branch without parts is.
    fn leaf_at(&self, index: usize, first: usize) -> Option<Leaf> {
        let branch = branch_at(self.rows, index);
        let lexeme = lexeme_at(self.lexemes, branch.token);
        match branch.kind {
            Kind::Node(Node::Name | Node::Constant) => leaf_of(lexeme),
            Kind::Construct(Construct::Plain) => {
                if first == index {
                    word_of(lexeme)
                } else {
                    None
                }
            }
            _ => None,
        }
    }

    // What stands for a branch: for a name, or for a statement that is one.
    fn sign_of(&self, index: usize, first: usize) -> Option<Sign> {
        match branch_at(self.rows, index).kind {
            Kind::Node(Node::Name | Node::Constant) => self.sign_at(index),
            Kind::Construct(Construct::Plain) => {
                if first == index.saturating_sub(2) {
                    of_statement(self.sign_at(first))
                } else {
                    None
                }
            }
            _ => None,
        }
    }

    // What stands for a branch that is a name.
    fn sign_at(&self, index: usize) -> Option<Sign> {
        let branch = branch_at(self.rows, index);
        match branch.kind {
            Kind::Node(Node::Name | Node::Constant) => {
                let start = self.starts.get(branch.token).copied().unwrap_or(0);
                sign_in(self.marks, start.saturating_sub(BEFORE))
            }
            _ => None,
        }
    }

    // A branch with parts. A condition may be spelled without `!= 0`, too.
    #[cycle(drawing)]
    fn spelled(
        &self,
        index: usize,
        first: usize,
        steps: &mut Vec<Step>,
        fuel: usize,
    ) -> Result<(), AllocError> {
        let kind = branch_at(self.rows, index).kind;
        if may_exchange(kind) {
            return self.in_sides(index, first, steps, fuel);
        }
        let is_nonzero = matches!(kind, Kind::Node(Node::Tested))
            && self.is_nonzero(index.saturating_sub(1));
        if !self.is_loose || !is_nonzero {
            return self.tree(index, first, index, steps, fuel);
        }
        let either = steps.len();
        steps.push(Step::Either(0))?;
        self.tree(index, first, index, steps, fuel)?;
        let jump = steps.len();
        steps.push(Step::Jump(0))?;
        set(steps, either, Step::Either(steps_after(steps, either)));
        let end = self.begin_in(index.saturating_sub(2), first);
        self.tree(index, first, end, steps, fuel)?;
        set(steps, jump, Step::Jump(steps_after(steps, jump)));
        Ok(())
    }

    // A branch of its kind with these parts.
    #[cycle(drawing)]
    fn tree(
        &self,
        index: usize,
        first: usize,
        end: usize,
        steps: &mut Vec<Step>,
        fuel: usize,
    ) -> Result<(), AllocError> {
        steps.push(Step::Tree(branch_at(self.rows, index).kind))?;
        if self.is_told(index) {
            steps.push(Step::Told(Spot::Maker))?;
        }
        self.row(first, end, steps, fuel)?;
        steps.push(Step::Done)?;
        Ok(())
    }

    // A branch whose sides may stand in either order: the right one, and then the left one.
    #[cycle(drawing)]
    fn in_sides(
        &self,
        index: usize,
        first: usize,
        steps: &mut Vec<Step>,
        fuel: usize,
    ) -> Result<(), AllocError> {
        let kind = branch_at(self.rows, index).kind;
        let middle = self.begin_in(index.saturating_sub(1), first);
        steps.push(Step::Sides(kind, kind, self.is_told(index)))?;
        self.row(middle, index, steps, fuel)?;
        steps.push(Step::Done)?;
        self.row(first, middle, steps, fuel)?;
        steps.push(Step::Done)?;
        Ok(())
    }

    // Whether it is a comparison by `!=` with 0.
    fn is_nonzero(&self, index: usize) -> bool {
        let right = branch_at(self.rows, index.saturating_sub(1));
        is_unequal(branch_at(self.rows, index).kind)
            && (is_constant(right.kind) && is_zero(lexeme_at(self.lexemes, right.token)))
    }

    fn is_dots(&self, index: usize, begin: usize) -> bool {
        matches!(
            self.sign_of(index, self.begin_in(index, begin)),
            Some(Sign::Dots)
        )
    }
}

fn leaf_of(lexeme: Lexeme) -> Option<Leaf> {
    match lexeme {
        Lexeme::Name(name) => {
            let (bytes, len) = bytes_of(name);
            Some(Leaf::Name(bytes, len))
        }
        Lexeme::Number(value) | Lexeme::Character(value) => Some(Leaf::Value(value)),
        _ => None,
    }
}

/// The bytes of a name, and how many it has.
pub(crate) fn bytes_of(name: Name) -> ([u8; NAME_LEN], u8) {
    let mut bytes = [0; NAME_LEN];
    let own = name.as_bytes();
    let len = own.len().min(NAME_LEN);
    bytes[..len].copy_from_slice(&own[..len]);
    (bytes, len as u8)
}

// The statement of one word that begins with a token.
fn word_of(lexeme: Lexeme) -> Option<Leaf> {
    match lexeme {
        Lexeme::Semicolon => Some(Leaf::Word(Word::Nothing)),
        Lexeme::Keyword(Keyword::Return) => Some(Leaf::Word(Word::Return)),
        Lexeme::Keyword(Keyword::Break) => Some(Leaf::Word(Word::Break)),
        _ => None,
    }
}

fn sign_in(marks: &[Mark], place: usize) -> Option<Sign> {
    for mark in marks {
        if mark.at == place {
            return Some(mark.sign);
        }
    }
    None
}

// A hole for an expression stands for no statement.
fn of_statement(sign: Option<Sign>) -> Option<Sign> {
    match sign {
        Some(Sign::Hole(_, _)) => None,
        _ => sign,
    }
}

fn is_unequal(kind: Kind) -> bool {
    matches!(kind, Kind::Node(Node::Binary(BinOp::Ne)))
}

fn is_constant(kind: Kind) -> bool {
    matches!(kind, Kind::Node(Node::Constant))
}

fn is_zero(lexeme: Lexeme) -> bool {
    match lexeme {
        Lexeme::Number(value) | Lexeme::Character(value) => value == 0,
        _ => false,
    }
}

// Whether an operator says the same with its sides exchanged, or another one does.
fn may_exchange(kind: Kind) -> bool {
    match kind {
        Kind::Node(Node::Binary(op)) => !matches!(
            op,
            BinOp::Sub | BinOp::Div | BinOp::Rem | BinOp::Shl | BinOp::Shr
        ),
        _ => false,
    }
}

/// Puts a step into the place of another one.
pub(crate) fn set(steps: &mut Vec<Step>, at: usize, step: Step) {
    if let Some(old) = steps.get_mut(at) {
        *old = step;
    }
}

/// How many steps come after this one.
pub(crate) fn steps_after(steps: &[Step], at: usize) -> u16 {
    steps.len().saturating_sub(at.saturating_add(1)).min(65_535) as u16
}
