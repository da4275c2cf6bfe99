//! The names that a function declares, and what it does with them.
use crate::tree::{NONE, Tree};
use blang::Keyword;
use blex::Lexeme;
use bmatch::{Branch, Kind};
use btree::Node;
use bword::{BinOp, Name};
use std::alloc::{AllocError, Global};

/// How many assignments one after another are looked at.
const MOST_CHAINED: usize = 8;

/// A name that a function declares.
#[derive(Clone, Copy)]
pub(crate) struct Local {
    pub name: Name,
    /// The token that declares it.
    pub token: usize,
    /// Whether its address is taken.
    pub has_address: bool,
    /// How often a value is assigned to it, or its address is taken.
    pub sets: u64,
    /// How often a number of one digit is assigned to it.
    pub digits: u64,
    /// Whether it is compared with a number above a digit's.
    pub is_large: bool,
    /// How often a character of the input is assigned to it, one of a string, and a string.
    pub inputs: u64,
    pub characters: u64,
    pub strings: u64,
    /// The first token before which something has set it.
    pub set_from: usize,
    /// Whether it is used before that.
    pub is_unset: bool,
}

impl Local {
    // Counts a mention.
    fn count(&mut self, tree: &Tree<'_>, mention: usize) {
        let parent = tree.parent(mention);
        let is_left = tree.is_left(mention, parent);
        match tree.at(parent).kind {
            Kind::Node(Node::Address) => {
                self.has_address = true;
                self.sets = self.sets.saturating_add(1);
            }
            Kind::Node(Node::Assigned(_)) if is_left => self.count_given(tree, parent),
            Kind::Node(Node::Binary(_)) if is_left => {
                let other = tree.at(parent.wrapping_sub(1)).token;
                self.is_large = self.is_large
                    || matches!(
                        tree.tokens.at(other),
                        Lexeme::Number(32..) | Lexeme::Character(_)
                    );
            }
            _ => {}
        }
    }

    // Counts what is assigned to it.
    fn count_given(&mut self, tree: &Tree<'_>, assigned: usize) {
        if sets(tree, assigned) {
            self.sets = self.sets.saturating_add(1);
        }
        let given = given_by(tree, assigned);
        if given == assigned {
            return;
        }
        if matches!(tree.tokens.at(tree.at(given).token), Lexeme::Number(0..=9)) {
            self.digits = self.digits.saturating_add(1);
        }
        if let Kind::Node(Node::Text) = tree.at(given).kind {
            self.strings = self.strings.saturating_add(1);
        } else if tree.is_call_of(given, "getchar") {
            self.inputs = self.inputs.saturating_add(1);
        } else if tree.is_call_of(given, "char") {
            self.characters = self.characters.saturating_add(1);
        }
    }

    /// Whether nothing but strings is assigned to it.
    pub(crate) fn is_string(&self) -> bool {
        self.strings > 0 && self.strings == self.sets
    }

    /// Whether nothing but characters of strings, or of the input, is assigned to it.
    pub(crate) fn is_character(&self) -> bool {
        let is_of_string = self.characters > 0 && self.characters == self.sets;
        is_of_string || self.inputs > 0 && self.inputs == self.sets
    }

    /// Whether it counts from a number of one digit on, and no character is among its values.
    pub(crate) fn is_small(&self) -> bool {
        self.digits > 0 && self.digits == self.sets && !self.is_large && !self.has_address
    }
}

// What an assignment gives, where others come after it: `a = b = 0`. One that also computes gives itself.
fn given_by(tree: &Tree<'_>, assigned: usize) -> usize {
    let mut given = assigned;
    for _ in 0..=MOST_CHAINED {
        match tree.at(given).kind {
            Kind::Node(Node::Assigned(None)) => given = given.wrapping_sub(1),
            _ => return given,
        }
    }
    given
}

/// Whether an assignment gives its name a value. `x=-1` is told of in another way.
pub(crate) fn sets(tree: &Tree<'_>, assigned: usize) -> bool {
    let branch = tree.at(assigned);
    match branch.kind {
        Kind::Node(Node::Assigned(None)) => true,
        Kind::Node(Node::Assigned(Some(BinOp::Sub | BinOp::Mul | BinOp::And))) => {
            tree.tokens.is_joined(branch.token)
        }
        _ => false,
    }
}

/// The names that a function declares, at most 128.
#[derive(Drop)]
pub(crate) struct Locals {
    pub all: Vec<Local>,
}

impl Locals {
    /// Those of a definition.
    pub(crate) fn new(
        alloc: Global,
        tree: &Tree<'_>,
        definition: &Branch,
        end: usize,
    ) -> Result<Self, AllocError> {
        let mut locals = Locals {
            all: Vec::new(alloc),
        };
        locals.declare_all(tree, definition)?;
        for index in definition.begin..end {
            if let Some(name) = tree.name(index) {
                if let Some(local) = locals.find_mut(&name) {
                    local.count(tree, index);
                }
            }
        }
        Ok(locals)
    }

    fn declare_all(&mut self, tree: &Tree<'_>, definition: &Branch) -> Result<(), AllocError> {
        let (mut declares, mut is_auto) = (true, false);
        for token in definition.first.saturating_add(1)..=definition.last {
            match tree.tokens.at(token) {
                Lexeme::Keyword(Keyword::Auto) => (declares, is_auto) = (true, true),
                Lexeme::Keyword(Keyword::Extrn) => (declares, is_auto) = (true, false),
                Lexeme::Semicolon | Lexeme::CloseParen => declares = false,
                _ if declares => self.declare(tree, token, is_auto)?,
                _ => {}
            }
        }
        Ok(())
    }

    fn declare(&mut self, tree: &Tree<'_>, token: usize, is_auto: bool) -> Result<(), AllocError> {
        let Some(name) = tree.tokens.name(token) else {
            return Ok(());
        };
        let is_vector = matches!(tree.tokens.after(token), Lexeme::Number(_));
        self.all.push(Local {
            name,
            token,
            has_address: false,
            sets: 0,
            digits: 0,
            is_large: false,
            inputs: 0,
            characters: 0,
            strings: 0,
            set_from: if is_auto && !is_vector { NONE } else { 0 },
            is_unset: false,
        })?;
        Ok(())
    }

    // The place of a name among them.
    fn place(&self, name: &Name) -> Option<usize> {
        self.all.iter().position(|local| local.name == *name)
    }

    /// The one of this name, to note something of it.
    pub(crate) fn find_mut(&mut self, name: &Name) -> Option<&mut Local> {
        let place = self.place(name)?;
        self.all.get_mut(place)
    }

    /// The one whose name a branch is.
    pub(crate) fn of(&self, tree: &Tree<'_>, index: usize) -> Option<Local> {
        self.all.get(self.place(&tree.name(index)?)?).copied()
    }
}
