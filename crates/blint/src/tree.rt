//! The branches of a source, and of what each is a part.
use crate::tokens::Tokens;
use bmatch::{Branch, Kind, branch_at};
use btree::{Construct, Node};
use bword::Name;
use std::alloc::{AllocError, Global};

/// In the place of a branch: there is none.
pub(crate) const NONE: usize = usize::MAX;

/// A source with its branches.
#[derive(Drop)]
pub(crate) struct Tree<'a> {
    pub tokens: &'a Tokens<'a>,
    pub rows: &'a [Branch],
    /// For each branch the one of which it is a part, and for each token the last branch that it makes, but for plain
    /// statements.
    parents: Vec<usize>,
    made: Vec<usize>,
}

impl<'a> Tree<'a> {
    pub(crate) fn new(
        alloc: Global,
        tokens: &'a Tokens<'a>,
        rows: &'a [Branch],
    ) -> Result<Self, AllocError> {
        let mut tree = Tree {
            tokens,
            rows,
            parents: Vec::new(alloc),
            made: Vec::new(alloc),
        };
        for _ in 0..tokens.lexemes.len() {
            tree.made.push(NONE)?;
        }
        for index in 0..rows.len() {
            tree.parents.push(NONE)?;
            tree.place(index);
        }
        Ok(tree)
    }

    // Notes what a branch makes, and that its parts are its own.
    fn place(&mut self, index: usize) {
        let branch = self.at(index);
        if !matches!(branch.kind, Kind::Construct(Construct::Plain)) {
            if let Some(made) = self.made.get_mut(branch.token) {
                *made = index;
            }
        }
        let mut part = self.last_part(index);
        for _ in 0..index {
            let Some(inner) = part else {
                return;
            };
            if let Some(parent) = self.parents.get_mut(inner) {
                *parent = index;
            }
            part = self.part_before(index, inner);
        }
    }

    /// The branch of this number.
    pub(crate) fn at(&self, index: usize) -> Branch {
        branch_at(self.rows, index)
    }

    /// The last part of a branch.
    pub(crate) fn last_part(&self, index: usize) -> Option<usize> {
        self.part_before(index, index)
    }

    /// The part of a branch that stands right before another one.
    pub(crate) fn part_before(&self, index: usize, part: usize) -> Option<usize> {
        let end = if part == index {
            part
        } else {
            self.at(part).begin
        };
        if self.at(index).begin < end {
            Some(end.wrapping_sub(1))
        } else {
            None
        }
    }

    /// The branch of which one is a part.
    pub(crate) fn parent(&self, index: usize) -> usize {
        self.parents.get(index).copied().unwrap_or(NONE)
    }

    /// Whether a branch without parts is the first part of another one.
    pub(crate) fn is_left(&self, index: usize, parent: usize) -> bool {
        self.at(parent).begin == index && self.parent(index) == parent
    }

    /// The branch that a token makes.
    pub(crate) fn made_by(&self, token: usize) -> usize {
        self.made.get(token).copied().unwrap_or(NONE)
    }

    /// The name that a branch is in an expression.
    pub(crate) fn name(&self, index: usize) -> Option<Name> {
        let branch = self.at(index);
        match (branch.kind, self.at(self.parent(index)).kind) {
            (_, Kind::Construct(Construct::Heading | Construct::Definition)) => None,
            (Kind::Node(Node::Name), _) => self.tokens.name(branch.token),
            _ => None,
        }
    }

    /// Whether a name is a label, with its `:`.
    pub(crate) fn is_label(&self, token: usize) -> bool {
        let made = self.at(self.made_by(token)).kind;
        matches!(made, Kind::Construct(Construct::Heading))
    }

    /// The first part of a branch.
    pub(crate) fn first_part(&self, index: usize) -> usize {
        let mut part = index;
        for _ in 0..index {
            match self.part_before(index, part) {
                Some(before) => part = before,
                None => break,
            }
        }
        part
    }

    /// Whether a branch is a call of the name of these letters.
    pub(crate) fn is_call_of(&self, index: usize, word: &str) -> bool {
        let call = self.at(index);
        let callee = match call.kind {
            Kind::Node(Node::Called) if self.is_left(call.begin, index) => self.name(call.begin),
            _ => None,
        };
        matches!(callee, Some(name) if name.as_str() == word)
    }

    /// The arguments of a call of a name. They stand after those of which there are none yet.
    pub(crate) fn arguments(&self, alloc: Global, call: usize) -> Result<Vec<usize>, AllocError> {
        let mut all = Vec::new(alloc);
        for index in self.at(call).begin.saturating_add(2)..call {
            if self.parent(index) == call {
                all.push(index)?;
            }
        }
        Ok(all)
    }
}
