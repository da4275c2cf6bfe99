//! The tree of a source, whose branches stand in a row.
ghost use Rattle.std.specs.Prelude.{◌≡◌};
ghost use Rattle.bmatch.specs.Trees.{branch_at, kind_number, lexeme_at, operator_number};

use blex::Lexeme;
use btree::{Construct, Node};
use bword::BinOp;

/// What a branch is.
#[derive(Clone, Copy)]
pub enum Kind {
    /// A node of an expression, or what an expression is for. The name and the constants of a declaration, of a label,
    /// of a case and of a definition's heading are nodes, too.
    Node(Node),
    Construct(Construct),
}

/// A branch of a tree. It comes after its parts, and the branches in it stand right before it.
#[derive(Clone, Copy)]
pub struct Branch {
    pub kind: Kind,
    /// The token that makes it: its operator, its keyword, the bracket that opens, or the token that it is.
    pub token: usize,
    /// Its first token, from 0, and its last one.
    pub first: usize,
    pub last: usize,
    /// The first branch in it; its own number where it has no parts.
    pub begin: usize,
    /// Its own number, or that of what stands in its parentheses.
    pub core: usize,
    /// Whether something is called or changed in it.
    pub acts: bool,
    /// How many loops and switches are around it.
    pub loops: usize,
}

/// Where a token or a comment stands.
#[derive(Clone, Copy)]
pub struct TokenPlace {
    pub line: u64,
    /// The place of its first byte in the source, from 0.
    pub start: usize,
    /// How many bytes it has.
    pub len: usize,
}

/// A source, its tokens with their places, and its branches.
#[derive(Clone, Copy)]
pub struct Tree<'a> {
    pub text: &'a [u8],
    pub lexemes: &'a [Lexeme],
    pub places: &'a [TokenPlace],
    pub rows: &'a [Branch],
}

/// The token of this number, or the end of the source.
pub fn lexeme_at(lexemes: &[Lexeme], token: usize) -> Lexeme
    ensures { result ≡ lexeme_at lexemes.now token }
{
    lexemes.get(token).copied().unwrap_or(Lexeme::End)
}

/// The branch of this number. Where there is none, arguments of which there are none stand in.
pub fn branch_at(rows: &[Branch], index: usize) -> Branch
    ensures { result ≡ branch_at rows.now index }
{
    match rows.get(index) {
        Some(branch) => *branch,
        None => Branch {
            kind: Kind::Node(Node::NoArguments),
            token: 0,
            first: 0,
            last: 0,
            begin: 0,
            core: 0,
            acts: false,
            loops: 0,
        },
    }
}

/// The kind of a branch, and the number of what stands in its parentheses.
pub(crate) fn kind_at(rows: &[Branch], index: usize) -> Kind
    ensures { result ≡ (branch_at rows.now index).kind }
{
    match rows.get(index) {
        Some(branch) => branch.kind,
        None => Kind::Node(Node::NoArguments),
    }
}

pub(crate) fn core_at(rows: &[Branch], index: usize) -> usize
    ensures { result ≡ (branch_at rows.now index).core }
{
    match rows.get(index) {
        Some(branch) => branch.core,
        None => 0,
    }
}

/// A number for each kind, by which kinds are compared.
pub(crate) fn kind_number(kind: Kind) -> u16
    ensures { result ≡ kind_number kind }
{
    match kind {
        Kind::Node(node) => node_number(node),
        Kind::Construct(construct) => match construct {
            Construct::Definition => 60,
            Construct::Block => 61,
            Construct::If => 62,
            Construct::IfElse => 63,
            Construct::While => 64,
            Construct::Switch => 65,
            Construct::Heading => 66,
            Construct::Plain => 67,
            Construct::Parens => 68,
        },
    }
}

fn node_number(node: Node) -> u16
    ensures { result ≡ kind_number (Kind.Node node) }
{
    match node {
        Node::Name => 0,
        Node::Constant => 1,
        Node::Text => 2,
        Node::Grouped => 3,
        Node::Indexed => 4,
        Node::NoArguments => 5,
        Node::Argument => 6,
        Node::Called => 7,
        Node::PostIncrement => 8,
        Node::PostDecrement => 9,
        Node::Negate => 10,
        Node::Not => 11,
        Node::Indirection => 12,
        Node::Address => 13,
        Node::PreIncrement => 14,
        Node::PreDecrement => 15,
        Node::Conditional => 16,
        Node::Evaluated => 17,
        Node::Tested => 18,
        Node::Switched => 19,
        Node::Returned => 20,
        Node::Target => 21,
        Node::Assigned(None) => 22,
        Node::Binary(op) => 25 + operator_number(op),
        Node::Assigned(Some(op)) => 40 + operator_number(op),
    }
}

/// A number for each binary operator.
pub(crate) fn operator_number(op: BinOp) -> u16
    ensures { result ≡ operator_number op }
{
    match op {
        BinOp::Or => 0,
        BinOp::And => 1,
        BinOp::Eq => 2,
        BinOp::Ne => 3,
        BinOp::Lt => 4,
        BinOp::Le => 5,
        BinOp::Gt => 6,
        BinOp::Ge => 7,
        BinOp::Shl => 8,
        BinOp::Shr => 9,
        BinOp::Sub => 10,
        BinOp::Add => 11,
        BinOp::Rem => 12,
        BinOp::Mul => 13,
        BinOp::Div => 14,
    }
}
