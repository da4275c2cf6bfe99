//! The nodes of expressions.
ghost use Rattle.std.specs.Prelude.{◌≡◌};
ghost use Rattle.blang.specs.WellFormed.{rank};
ghost use Rattle.btree.specs.NodeMachine.{looseness};

use bword::BinOp;

/// A node of the tree of an expression, or what the expression is for. It comes after its parts.
#[derive(Clone, Copy, PartialEq, Eq)]
pub enum Node {
    /// A name. It has no parts, and neither has a constant or a string.
    Name,
    Constant,
    Text,
    /// An expression in parentheses: one part.
    Grouped,
    /// A vector and its index: two parts.
    Indexed,
    /// Arguments of which there are none yet. It has no parts.
    NoArguments,
    /// The arguments before one, and that one: two parts.
    Argument,
    /// What is called, and its arguments: two parts.
    Called,
    /// `++` after its operand, which is its part.
    PostIncrement,
    PostDecrement,
    /// `-` before its operand, which is its part.
    Negate,
    Not,
    Indirection,
    Address,
    PreIncrement,
    PreDecrement,
    /// Two operands.
    Binary(BinOp),
    /// A condition, and the two parts of which it takes one: three parts.
    Conditional,
    /// An lvalue, and what is assigned to it: two parts.
    Assigned(Option<BinOp>),
    /// An expression that is a statement: one part, as of the nodes below.
    Evaluated,
    /// The condition of an `if` or a `while`, in its parentheses.
    Tested,
    /// What a `switch` looks at.
    Switched,
    /// What is returned, in its parentheses.
    Returned,
    /// Where a `goto` goes.
    Target,
}

/// A tag of the row: a token, or a node whose last token and parts came before.
#[derive(Clone, Copy)]
pub enum NodeTag {
    Token,
    Made(Node),
}

/// What waits for an expression, or for the end of a block.
#[derive(Clone, Copy)]
pub(crate) enum Pending {
    /// An operator, up to the end of its last operand.
    Operator(Node),
    /// A `?`, up to its `:`.
    Choice,
    /// Parentheses around an expression.
    Group,
    /// The brackets of an index.
    Index,
    /// The parentheses of arguments.
    Call,
    /// The parentheses of an `if` or a `while`.
    Condition,
    /// The parentheses of a `return`.
    Result,
    /// A `goto`, up to its `;`.
    Goto,
    /// The braces of a block.
    Block,
}

/// How far the reading of statements and expressions has come.
#[derive(Clone, Copy)]
pub(crate) enum Stage {
    /// A statement begins with the next token.
    Start,
    /// A statement is over, or a definition.
    Over,
    /// What is left of a definition after its name, up to the `;` of its values or the `(` of its parameters; or what is
    /// left of a `break` or a `return`, up to its `;`.
    Rest,
    /// A declaration, a label, a case or parameters, up to the `;`, `:` or `)`.
    Heading,
    /// Before the `(` of an `if`, a `while` or a `return`.
    Parenthesis,
    /// An operand begins with the next token.
    Operand,
    /// An operand is over.
    Operated,
}

impl Node {
    /// How loosely an operator binds that waits for its last operand.
    pub(crate) fn looseness(self) -> u8
        ensures { result ≡ looseness self }
    {
        match self {
            Node::Binary(op) => rank_of(op),
            Node::Conditional => 8,
            Node::Assigned(_) => 9,
            _ => 0,
        }
    }
}

/// How loosely a binary operator binds.
pub(crate) fn rank_of(op: BinOp) -> u8
    ensures { result ≡ rank op }
{
    match op {
        BinOp::Mul | BinOp::Div | BinOp::Rem => 1,
        BinOp::Add | BinOp::Sub => 2,
        BinOp::Shl | BinOp::Shr => 3,
        BinOp::Lt | BinOp::Le | BinOp::Gt | BinOp::Ge => 4,
        BinOp::Eq | BinOp::Ne => 5,
        BinOp::And => 6,
        BinOp::Or => 7,
    }
}
