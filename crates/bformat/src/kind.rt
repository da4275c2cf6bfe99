//! What a piece of a source is for its layout.
use blang::Keyword;
use blex::Lexeme;
use bword::BinOp;

/// A comment or a token, as far as the layout tells them apart.
#[derive(Clone, Copy, PartialEq, Eq)]
pub(crate) enum ItemKind {
    Comment,
    /// A name or a constant.
    Word,
    /// A keyword that none of the others is.
    Keyword,
    If,
    Else,
    /// `case` or `default`
    Arm,
    /// `-`, `*` or `&`, before one operand or between two.
    Sign,
    /// `!`
    Not,
    /// `++` or `--`
    Step,
    /// An operator between two operands, or an assignment.
    Operator,
    Question,
    Colon,
    Comma,
    Semicolon,
    OpenParen,
    CloseParen,
    OpenBracket,
    CloseBracket,
    OpenBrace,
    CloseBrace,
}

impl ItemKind {
    /// What a token is, or what is none.
    pub(crate) fn of(lexeme: Option<Lexeme>) -> Self {
        match lexeme {
            None => ItemKind::Comment,
            Some(Lexeme::Keyword(keyword)) => ItemKind::of_keyword(keyword),
            Some(Lexeme::Operator(BinOp::Sub | BinOp::Mul | BinOp::And)) => ItemKind::Sign,
            Some(Lexeme::Operator(_) | Lexeme::Assign(_)) => ItemKind::Operator,
            Some(Lexeme::Increment | Lexeme::Decrement) => ItemKind::Step,
            Some(lexeme) => ItemKind::of_mark(lexeme),
        }
    }

    fn of_keyword(keyword: Keyword) -> Self {
        match keyword {
            Keyword::If => ItemKind::If,
            Keyword::Else => ItemKind::Else,
            Keyword::Case | Keyword::Default => ItemKind::Arm,
            _ => ItemKind::Keyword,
        }
    }

    fn of_mark(lexeme: Lexeme) -> Self {
        match lexeme {
            Lexeme::Not => ItemKind::Not,
            Lexeme::Question => ItemKind::Question,
            Lexeme::Colon => ItemKind::Colon,
            Lexeme::Comma => ItemKind::Comma,
            Lexeme::Semicolon => ItemKind::Semicolon,
            Lexeme::OpenParen => ItemKind::OpenParen,
            Lexeme::CloseParen => ItemKind::CloseParen,
            Lexeme::OpenBracket => ItemKind::OpenBracket,
            Lexeme::CloseBracket => ItemKind::CloseBracket,
            Lexeme::OpenBrace => ItemKind::OpenBrace,
            Lexeme::CloseBrace => ItemKind::CloseBrace,
            _ => ItemKind::Word,
        }
    }
}
