//! Tokens and diagnostics.
use arrayvec::ArrayVec;
use bword::{BinOp, Name};

/// The most characters of a string.
pub const STRING_LEN: usize = 254;

/// The words that are no names.
#[derive(Clone, Copy, PartialEq, Eq)]
pub enum Keyword {
    Auto,
    Extrn,
    Case,
    If,
    Else,
    While,
    Switch,
    Goto,
    Return,
    Break,
    Default,
}

/// The two letters by which a diagnostic says what is wrong. A token has one of the first four alone.
#[derive(Clone, Copy, PartialEq, Eq)]
pub enum Letters {
    /// `*/`: a comment without an end.
    OpenComment,
    /// `ch`: a byte that begins no token.
    Character,
    /// `nm`: a name of more than eight characters.
    LongName,
    /// `ct`: a wrong constant.
    Constant,
    /// `sx`: a token with which no program goes on.
    Syntax,
    /// `rd`: a name or a case that is there already.
    Redeclared,
    /// `lv`: an operand that is no lvalue.
    NotLvalue,
    /// `>s`: a name too many in a function.
    TooManyNames,
    /// `>c`: a case too many in a function.
    TooManyCases,
    /// `un`: a name without a label.
    Undefined,
    /// `>e`: a definition that is too large.
    TooLarge,
}

/// A token.
#[derive(Clone, PartialEq, Eq, Drop)]
pub enum Token {
    Name(Name),
    Keyword(Keyword),
    Number(u16),
    /// One character in the low byte, or the first of two in the high byte.
    Character(u16),
    /// The characters between the quotes, each escape as its byte.
    String(ArrayVec<u8, STRING_LEN>),
    /// One of the fifteen binary operators; `-`, `*` and `&` may come before an operand, too.
    Operator(BinOp),
    /// `=`, or `=` and a binary operator.
    Assign(Option<BinOp>),
    /// `!`
    Not,
    /// `++`
    Increment,
    /// `--`
    Decrement,
    Question,
    Colon,
    Comma,
    Semicolon,
    OpenParen,
    CloseParen,
    OpenBracket,
    CloseBracket,
    OpenBrace,
    CloseBrace,
    /// A piece that fits nothing, which ends the tokens.
    Bad(Letters),
    End,
}

/// A token and the line of its first byte, from 1.
#[derive(Clone, Drop)]
pub struct Placed {
    pub token: Token,
    pub line: u64,
}

/// What a diagnostic is about, beside its letters.
#[derive(Clone, Copy)]
pub enum About {
    /// The token on its line.
    Nothing,
    /// A `case`.
    Case,
    /// A `break`.
    Break,
    /// A `default`.
    Default,
    /// This name.
    Name(Name),
}

/// Why a source has no code: the parts of the one line that says so.
#[derive(Clone, Copy)]
pub struct Diagnostic {
    pub letters: Letters,
    pub about: About,
    /// The line of the source, from 1.
    pub line: u64,
}
