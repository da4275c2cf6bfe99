//! The branches of a source, from its tags and its nodes.
ghost use Rattle.std.specs.Prelude.{◌≡◌, ◌+◌, ◌<◌, ◌≤◌, ◌^◌, ◌∷◌, [], IfOk, MatchOption, map};
ghost use Rattle.btree.specs.Machine.{sort_of_lexeme};
ghost use Rattle.bmatch.specs.Growing.{AreRows, acts_by, branch_of, called, closed, core_of, growth_of, is_in_heading, leaf};
ghost use Rattle.bmatch.specs.Growing.{leaf_node, loops_in, loops_with, made, parts_of, passed, rows_by, step, token_of};
ghost use Rattle.bmatch.specs.Growing.{tokens_before, with_open, with_row};

use crate::tree::{Branch, Kind, branch_at, lexeme_at};
use blex::Lexeme;
use btree::{Construct, Node, NodeTag, Sort, Tag, nodes_of, tags_of};
use std::alloc::{AllocError, Global};
use std::marker::Model;

/// The branches of a source with these tokens.
///
/// # Errors
///
/// If memory was refused.
pub fn grown(alloc: Global, lexemes: &[Lexeme]) -> Result<Vec<Branch>, AllocError>
    ensures { IfOk result (λ rows. AreRows lexemes.now rows.items) }
{
    let sorts = sorts_of(alloc, lexemes)?;
    let tags = tags_of(alloc, sorts.as_slice())?;
    let nodes = nodes_of(alloc, lexemes)?;
    rows_by(alloc, lexemes, nodes.as_slice(), tags.as_slice())
}

fn sorts_of(alloc: Global, lexemes: &[Lexeme]) -> Result<Vec<Sort>, AllocError>
    ensures { IfOk result (λ sorts. sorts.items ≡ map sort_of_lexeme lexemes.now) }
{
    lexemes
        .iter()
        .map(|lexeme| Sort::of(*lexeme))
        .collect(alloc)
}

// The branches that come of these nodes and tags.
fn rows_by(
    alloc: Global,
    lexemes: &[Lexeme],
    nodes: &[NodeTag],
    tags: &[Tag],
) -> Result<Vec<Branch>, AllocError>
    ensures { IfOk result (λ rows. rows.items ≡ rows_by lexemes.now nodes.now tags.now) }
{
    let mut growing = Growing {
        made: 0,
        tagged: 0,
        place: 0,
        opens: Opens::new(alloc),
        rows: Vec::new(alloc),
    };
    for _ in 0..nodes.len() + tags.len() {
        growing.step(lexemes, nodes, tags)?;
    }
    let Growing { rows, .. } = growing;
    Ok(rows)
}

/// What has grown so far.
#[derive(Drop)]
pub(crate) struct Growing {
    /// How many nodes, tags and tokens were passed.
    made: usize,
    tagged: usize,
    place: usize,
    opens: Opens,
    rows: Vec<Branch>,
}

impl Growing {
    // A node, or else a tag. A token stands in both rows.
    fn step(
        &mut self,
        lexemes: &[Lexeme],
        nodes: &[NodeTag],
        tags: &[Tag],
    ) -> Result<(), AllocError>
        requires { self.old.place + 1 < 2 ^ 64 }
        ensures grown { IfOk result (λ done.
            growth_of self.new ≡ step lexemes.now nodes.now tags.now (growth_of self.old)) }
        ensures place { IfOk result (λ done. self.new.place ≤ self.old.place + 1) }
    {
        if let Some(NodeTag::Made(node)) = nodes.get(self.made) {
            self.made += 1;
            return self.make(*node);
        }
        let Some(tag) = tags.get(self.tagged) else {
            return Ok(());
        };
        self.tagged += 1;
        match *tag {
            Tag::Begins(construct) => self.open(construct, self.place),
            Tag::Ends => self.close(),
            Tag::Token => {
                if self.made < nodes.len() {
                    self.made += 1;
                }
                self.pass(lexemes)
            }
        }
    }

    fn make(&mut self, node: Node) -> Result<(), AllocError>
        ensures grown { IfOk result (λ done. growth_of self.new ≡ made node (growth_of self.old)) }
        ensures place { self.new.place ≡ self.old.place }
    {
        match node {
            Node::Argument | Node::Switched => Ok(()),
            Node::NoArguments => {
                let (token, index) = (self.place.saturating_sub(1), self.rows.len());
                self.open(Construct::Parens, token)?;
                let loops = self.opens.loops();
                self.push(leaf(node, token, index, loops))
            }
            Node::Called => self.call(),
            _ => {
                let loops = self.opens.loops();
                let branch = branch_of(node, self.place, self.rows.as_slice(), loops);
                self.push(branch)
            }
        }
    }

    // The arguments stand after what is called, and after those of which there are none yet.
    fn call(&mut self) -> Result<(), AllocError>
        ensures grown { IfOk result (λ done. growth_of self.new ≡ called (growth_of self.old)) }
        ensures place { self.new.place ≡ self.old.place }
    {
        let Some(open) = self.opens.pop() else {
            return Ok(());
        };
        let callee = branch_at(self.rows.as_slice(), open.begin.saturating_sub(1));
        let (core, loops) = (self.rows.len(), self.opens.loops());
        self.push(Branch {
            kind: Kind::Node(Node::Called),
            token: open.token,
            first: callee.first,
            last: self.place.saturating_sub(1),
            begin: callee.begin,
            core,
            acts: true,
            loops,
        })
    }

    // A construct begins, or the parentheses of a call.
    fn open(&mut self, construct: Construct, token: usize) -> Result<(), AllocError>
        ensures grown { IfOk result (λ done. growth_of self.new ≡ with_open construct token (growth_of self.old)) }
        ensures place { self.new.place ≡ self.old.place }
    {
        let (begin, around) = (self.rows.len(), self.opens.loops());
        self.opens.push(Open {
            construct,
            token,
            begin,
            loops: loops_with(construct, around),
        })
    }

    // The innermost construct is over.
    fn close(&mut self) -> Result<(), AllocError>
        ensures grown { IfOk result (λ done. growth_of self.new ≡ closed (growth_of self.old)) }
        ensures place { self.new.place ≡ self.old.place }
    {
        let Some(open) = self.opens.pop() else {
            return Ok(());
        };
        let (core, loops) = (self.rows.len(), self.opens.loops());
        self.push(Branch {
            kind: Kind::Construct(open.construct),
            token: open.token,
            first: open.token,
            last: self.place.saturating_sub(1),
            begin: open.begin,
            core,
            acts: false,
            loops,
        })
    }

    // A token. A name or a constant of a heading is a branch.
    fn pass(&mut self, lexemes: &[Lexeme]) -> Result<(), AllocError>
        requires { self.old.place + 1 < 2 ^ 64 }
        ensures grown { IfOk result (λ done. growth_of self.new ≡ passed lexemes.now (growth_of self.old)) }
        ensures place { self.new.place ≡ self.old.place + 1 }
    {
        let token = self.place;
        self.place += 1;
        if !self.opens.is_in_heading() {
            return Ok(());
        }
        let (index, loops) = (self.rows.len(), self.opens.loops());
        match leaf_node(lexeme_at(lexemes, token)) {
            Some(node) => self.push(leaf(node, token, index, loops)),
            None => Ok(()),
        }
    }

    fn push(&mut self, branch: Branch) -> Result<(), AllocError>
        ensures grown { IfOk result (λ done. growth_of self.new ≡ with_row branch (growth_of self.old)) }
        ensures place { self.new.place ≡ self.old.place }
    {
        self.rows.push(branch)?;
        Ok(())
    }
}

// The node that a token of a heading is, if it is one.
fn leaf_node(lexeme: Lexeme) -> Option<Node>
    ensures { result ≡ leaf_node lexeme }
{
    match lexeme {
        Lexeme::Name(_) => Some(Node::Name),
        Lexeme::Number(_) | Lexeme::Character(_) => Some(Node::Constant),
        Lexeme::String => Some(Node::Text),
        _ => None,
    }
}

// A branch that is one token, after so many branches.
fn leaf(node: Node, token: usize, index: usize, loops: usize) -> Branch
    ensures { result ≡ leaf node token index loops }
{
    Branch {
        kind: Kind::Node(node),
        token,
        first: token,
        last: token,
        begin: index,
        core: index,
        acts: false,
        loops,
    }
}

// The branch of a node whose parts are the last of these, after so many tokens.
fn branch_of(node: Node, place: usize, rows: &[Branch], loops: usize) -> Branch
    ensures { result ≡ branch_of node place rows.now loops }
{
    let index = rows.len();
    let last = place.saturating_sub(1);
    let right = branch_at(rows, index.saturating_sub(1));
    let middle = branch_at(rows, right.begin.saturating_sub(1));
    let left = branch_at(rows, middle.begin.saturating_sub(1));
    match parts_of(node) {
        Parts::None => leaf(node, last, index, loops),
        Parts::One => Branch {
            kind: Kind::Node(node),
            token: token_of(node, right.first, last),
            first: right.first.saturating_sub(tokens_before(node)),
            last,
            begin: right.begin,
            core: core_of(node, right.core, index),
            acts: acts_by(node) || right.acts,
            loops,
        },
        Parts::Two => Branch {
            kind: Kind::Node(node),
            token: right.first.saturating_sub(1),
            first: middle.first,
            last,
            begin: middle.begin,
            core: index,
            acts: acts_by(node) || (middle.acts || right.acts),
            loops,
        },
        Parts::Three => Branch {
            kind: Kind::Node(node),
            token: middle.first.saturating_sub(1),
            first: left.first,
            last,
            begin: left.begin,
            core: index,
            acts: left.acts || (middle.acts || right.acts),
            loops,
        },
    }
}

/// How many parts a node has.
#[derive(Clone, Copy)]
pub(crate) enum Parts {
    None,
    One,
    Two,
    Three,
}

fn parts_of(node: Node) -> Parts
    ensures { result ≡ parts_of node }
{
    match node {
        Node::Name | Node::Constant | Node::Text => Parts::None,
        Node::Indexed | Node::Binary(_) | Node::Assigned(_) => Parts::Two,
        Node::Conditional => Parts::Three,
        _ => Parts::One,
    }
}

// How many tokens stand before the only part.
fn tokens_before(node: Node) -> usize
    ensures { result ≡ tokens_before node }
{
    match node {
        Node::Tested | Node::Returned => 2,
        Node::PostIncrement | Node::PostDecrement | Node::Evaluated => 0,
        _ => 1,
    }
}

// The token that makes a node with one part, which begins with the first of these, where the second is the last one.
fn token_of(node: Node, first: usize, last: usize) -> usize
    ensures { result ≡ token_of node first last }
{
    match node {
        Node::PostIncrement | Node::PostDecrement | Node::Evaluated => last,
        _ => first.saturating_sub(tokens_before(node)),
    }
}

fn core_of(node: Node, inner: usize, index: usize) -> usize
    ensures { result ≡ core_of node inner index }
{
    match node {
        Node::Grouped => inner,
        _ => index,
    }
}

fn acts_by(node: Node) -> bool
    ensures { result ≡ acts_by node }
{
    matches!(
        node,
        Node::Assigned(_)
            | Node::PostIncrement
            | Node::PostDecrement
            | Node::PreIncrement
            | Node::PreDecrement
    )
}

// In how many loops and switches what stands in a construct is.
fn loops_with(construct: Construct, around: usize) -> usize
    ensures { result ≡ loops_with construct around }
{
    match construct {
        Construct::While | Construct::Switch if around < 65_535 => around + 1,
        _ => around,
    }
}

/// A construct that isn't over yet, or the parentheses of a call.
#[derive(Clone, Copy)]
pub(crate) struct Open {
    pub construct: Construct,
    /// Its first token.
    pub token: usize,
    /// How many branches there were.
    pub begin: usize,
    /// How many loops and switches what stands in it is in.
    pub loops: usize,
}

/// What isn't over yet, the innermost on top.
#[derive(Drop)]
pub(crate) struct Opens {
    all: Vec<Open>,
}

impl Model for Opens {
    ghost use Rattle.std.specs.Prelude.{List, reverse};
    ghost use Rattle.bmatch.specs.declared.growing.Open.{Open};

    ghost Value = { List Open };

    ghost view = { λ it. reverse it.all.items };
}

impl Opens {
    fn new(alloc: Global) -> Self
        ensures { result ≡ [] }
    {
        Opens {
            all: Vec::new(alloc),
        }
    }

    fn push(&mut self, opened: Open) -> Result<(), AllocError>
        ensures { IfOk result (λ done. self.new ≡ opened ∷ self.old) }
    {
        self.all.push(opened)?;
        Ok(())
    }

    fn pop(&mut self) -> Option<Open>
        ensures { MatchOption result ((self.old ≡ []) × (self.new ≡ [])) (λ o. self.old ≡ o ∷ self.new) }
    {
        self.all.pop()
    }

    // In how many loops and switches what comes now is.
    fn loops(&self) -> usize
        ensures { result ≡ loops_in self.now }
    {
        match self.all.as_slice() {
            [.., opened] => opened.loops,
            [] => 0,
        }
    }

    // Whether the innermost is a heading, or a definition whose statements haven't begun.
    fn is_in_heading(&self) -> bool
        ensures { result ≡ is_in_heading self.now }
    {
        match self.all.as_slice() {
            [.., opened] => matches!(opened.construct, Construct::Heading | Construct::Definition),
            [] => false,
        }
    }
}
