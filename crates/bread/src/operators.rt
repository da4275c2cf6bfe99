//! Operators by their tokens.
ghost use Rattle.std.specs.Prelude.{ℕ, List, ◌≡◌};
ghost use Rattle.blex.specs.Lexemes.{token_of_lexeme};
ghost use Rattle.blang.specs.WellFormed.{rank};
ghost use Rattle.bgrammar.specs.ExpressionReader.{prefix_op, suffix};
ghost use Rattle.bread.specs.Parsers.{op_within, some_prefix, some_suffix};

use blex::Lexeme;
use bword::BinOp;

/// An operator before its operand.
#[derive(Clone, Copy)]
pub(crate) enum Prefix {
    Negate,
    Not,
    Indirection,
    Address,
    Increment,
    Decrement,
}

/// How a postfix expression goes on.
#[derive(Clone, Copy)]
pub(crate) enum Suffix {
    Index,
    Call,
    Increment,
    Decrement,
}

/// The operator before an operand that a token is.
pub(crate) fn prefix_of(lexeme: Lexeme) -> Option<Prefix>
    ensures { (text : List ℕ) → some_prefix result ≡ prefix_op (token_of_lexeme lexeme text) }
{
    match lexeme {
        Lexeme::Operator(BinOp::Sub) => Some(Prefix::Negate),
        Lexeme::Operator(BinOp::Mul) => Some(Prefix::Indirection),
        Lexeme::Operator(BinOp::And) => Some(Prefix::Address),
        Lexeme::Not => Some(Prefix::Not),
        Lexeme::Increment => Some(Prefix::Increment),
        Lexeme::Decrement => Some(Prefix::Decrement),
        _ => None,
    }
}

/// How a postfix expression goes on by a token.
pub(crate) fn suffix_of(lexeme: Lexeme) -> Option<Suffix>
    ensures { (text : List ℕ) → some_suffix result ≡ suffix (token_of_lexeme lexeme text) }
{
    match lexeme {
        Lexeme::OpenBracket => Some(Suffix::Index),
        Lexeme::OpenParen => Some(Suffix::Call),
        Lexeme::Increment => Some(Suffix::Increment),
        Lexeme::Decrement => Some(Suffix::Decrement),
        _ => None,
    }
}

/// How loosely an operator binds.
pub(crate) fn rank_of(op: BinOp) -> u8
    ensures { result ≡ rank op }
{
    match op {
        BinOp::Mul | BinOp::Div | BinOp::Rem => 1,
        BinOp::Add | BinOp::Sub => 2,
        BinOp::Shl | BinOp::Shr => 3,
        BinOp::Lt | BinOp::Le | BinOp::Gt | BinOp::Ge => 4,
        BinOp::Eq | BinOp::Ne => 5,
        BinOp::And => 6,
        BinOp::Or => 7,
    }
}

/// The binary operator that a token is, if it binds at most so loosely.
pub(crate) fn operator_within(loosest: u8, lexeme: Lexeme) -> Option<BinOp>
    ensures { (text : List ℕ) → result ≡ op_within loosest (token_of_lexeme lexeme text) }
{
    match lexeme {
        Lexeme::Operator(op) if rank_of(op) <= loosest => Some(op),
        _ => None,
    }
}
