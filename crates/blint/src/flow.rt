//! Automatics that are used before anything has set them.
use crate::defined::Defined;
use crate::locals::{Local, Locals, sets};
use crate::remarks::{Remark, Remarks};
use crate::tree::Tree;
use crate::warnings::{Slip, Warning};
use blang::Keyword;
use blex::Lexeme;
use bmatch::{Branch, Kind};
use btree::{Construct, Node};
use bword::Name;

/// How many levels around a name are looked at.
const MOST_LEVELS: usize = 32;

/// How far the judgement of a function has come.
#[derive(Clone, Copy, Default)]
struct Flow {
    /// Whether a label or an address has ended it.
    is_over: bool,
    /// The tokens of the loop around.
    loop_first: usize,
    loop_end: usize,
    /// Tokens in this loop that a turn may leave out.
    branch_first: usize,
    branch_end: usize,
}

/// Says of the automatics of a function where each is used before anything has set it, and notes it of them.
pub(crate) fn unset_in(
    tree: &Tree<'_>,
    definition: &Branch,
    locals: &mut Locals,
    defined: &Defined,
    remarks: &mut Remarks,
) {
    let mut flow = Flow::default();
    for token in definition.first.saturating_add(1)..=definition.last {
        if flow.is_over {
            return;
        }
        if let Some(name) = tree.tokens.name(token) {
            let remark = flow.meets(tree, locals, token, &name);
            // Of a word that hides an external that is told.
            if defined.first_token(&name).is_none() {
                remarks.say(remark);
            }
        } else {
            flow.passes(tree, token);
        }
    }
}

impl Flow {
    fn passes(&mut self, tree: &Tree<'_>, token: usize) {
        let made = tree.made_by(token);
        match tree.tokens.at(token) {
            Lexeme::Keyword(Keyword::Goto) if token < self.loop_end => self.is_over = true,
            Lexeme::Keyword(Keyword::If | Keyword::While | Keyword::Switch) => {
                let (first, end) = (after(tree, tree.first_part(made)), after(tree, made));
                let is_loop = tree.tokens.at(token) == Lexeme::Keyword(Keyword::While);
                if is_loop && token >= self.loop_end {
                    self.loop_first = first;
                    self.loop_end = end;
                }
                self.leaves_out(token, first, end);
            }
            Lexeme::Question => self.leaves_out(token, token, after(tree, statement(tree, made))),
            _ => {}
        }
    }

    // Takes note of tokens that a turn of the loop may leave out, if it comes to this one, after which a part may be
    // left out.
    fn leaves_out(&mut self, token: usize, first: usize, end: usize) {
        if token >= self.loop_first && token < self.loop_end && token >= self.branch_end {
            self.branch_first = first;
            self.branch_end = end;
        }
    }

    // What a mention of a name does, and what is said of it.
    fn meets(
        &mut self,
        tree: &Tree<'_>,
        locals: &mut Locals,
        token: usize,
        name: &Name,
    ) -> Option<Remark> {
        self.is_over = self.is_over || tree.is_label(token);
        let mention = tree.made_by(token);
        let local = locals.find_mut(name)?;
        if self.is_over || tree.name(mention).is_none() || token >= local.set_from {
            return None;
        }
        let is_left_out = token >= self.branch_first && token < self.branch_end;
        if is_left_out && local.sets > 0 {
            local.set_from = 0;
            return None;
        }
        self.takes(tree, local, mention)
    }

    fn takes(&mut self, tree: &Tree<'_>, local: &mut Local, mention: usize) -> Option<Remark> {
        let parent = tree.parent(mention);
        let is_address = matches!(tree.at(parent).kind, Kind::Node(Node::Address));
        if is_address && !tree.is_call_of(tree.parent(parent), "getnum") {
            self.is_over = true;
            return None;
        }
        if is_address || sets(tree, parent) && tree.is_left(mention, parent) {
            local.set_from = after(tree, parent);
            return None;
        }
        local.set_from = 0;
        local.is_unset = true;
        unset(tree, parent, mention)
    }
}

// The token after a branch.
fn after(tree: &Tree<'_>, index: usize) -> usize {
    tree.at(index).last.wrapping_add(1)
}

// The statement around a branch of an expression.
fn statement(tree: &Tree<'_>, index: usize) -> usize {
    let mut around = index;
    for _ in 0..tree.rows.len() {
        match tree.at(around).kind {
            Kind::Node(_) | Kind::Construct(Construct::Parens) => around = tree.parent(around),
            Kind::Construct(_) => return around,
        }
    }
    around
}

fn unset(tree: &Tree<'_>, parent: usize, mention: usize) -> Option<Remark> {
    let token = tree.at(mention).token;
    let is_indexed = matches!(tree.at(parent).kind, Kind::Node(Node::Indexed));
    if is_indexed && tree.is_left(mention, parent) {
        return Remark::new(token, Warning::UnsetVector);
    }
    match set_after(tree, mention) {
        Some(other) => Remark::beside(token, Warning::Slip(Slip::SetLater), other),
        None => Remark::new(token, Warning::Unset),
    }
}

// Where a name is set after a mention that doesn't change it, and no loop comes from there to the mention again.
fn set_after(tree: &Tree<'_>, mention: usize) -> Option<usize> {
    let name = tree.name(mention)?;
    if is_in_own_change(tree, mention, &name) {
        return None;
    }
    for other in mention.saturating_add(1)..tree.rows.len() {
        if let Kind::Construct(Construct::Definition) = tree.at(other).kind {
            return None;
        }
        if tree.name(other) == Some(name) {
            if sets_anew(tree, other, &name) {
                let token = tree.at(other).token;
                let is_again = is_in_loop_with(tree, mention, token);
                return if is_again { None } else { Some(token) };
            }
            if is_in_own_change(tree, other, &name) {
                return None;
            }
        }
    }
    None
}

// Whether a mention takes the address of a name, or assigns it what doesn't hang on it.
fn sets_anew(tree: &Tree<'_>, mention: usize, name: &Name) -> bool {
    let parent = tree.parent(mention);
    match tree.at(parent).kind {
        Kind::Node(Node::Address) => true,
        Kind::Node(Node::Assigned(None)) => {
            let mut right = mention.saturating_add(1)..parent;
            tree.is_left(mention, parent) && right.all(|index| tree.name(index) != Some(*name))
        }
        _ => false,
    }
}

// Whether a mention of a name is in a change of it that hangs on what it was.
fn is_in_own_change(tree: &Tree<'_>, mention: usize, name: &Name) -> bool {
    let mut around = tree.parent(mention);
    for _ in 0..MOST_LEVELS {
        match tree.at(around).kind {
            Kind::Node(
                Node::PreIncrement | Node::PreDecrement | Node::PostIncrement | Node::PostDecrement,
            ) => return true,
            Kind::Node(Node::Assigned(_)) => {
                let right = tree.at(around.wrapping_sub(1)).begin;
                return tree.name(right.wrapping_sub(1)) == Some(*name);
            }
            _ => around = tree.parent(around),
        }
    }
    false
}

// Whether a branch and a token are in one loop.
fn is_in_loop_with(tree: &Tree<'_>, index: usize, later: usize) -> bool {
    let mut around = index;
    for _ in 0..tree.rows.len() {
        let branch = tree.at(around);
        match branch.kind {
            Kind::Construct(Construct::While) if later <= branch.last => return true,
            Kind::Construct(Construct::Definition) => return false,
            _ => around = tree.parent(around),
        }
    }
    false
}
