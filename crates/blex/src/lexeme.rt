//! Tokens with the characters of a string kept apart.
ghost use Rattle.std.specs.Prelude.{ℕ, List, ◌≡◌, ◌≢◌};
ghost use Rattle.blex.specs.declared.lexeme.Lexeme.TheVariants as lexeme;
ghost use Rattle.blex.specs.Lexemes.{token_of_lexeme, IsLexemeOf};
ghost use Rattle.blex.specs.Lasts.{last_of, token_of};

use arrayvec::ArrayVec;
use blang::{Keyword, Letters, STRING_LEN, Token};
use bword::{BinOp, Name};

/// A token with the characters of a string kept apart, so that it is small and `Copy`.
#[derive(Clone, Copy, PartialEq, Eq)]
pub enum Lexeme {
    Name(Name),
    Keyword(Keyword),
    Number(u16),
    /// One character in the low byte, or the first of two in the high byte.
    Character(u16),
    /// A string, whose characters the lexer has.
    String,
    /// One of the fifteen binary operators; `-`, `*` and `&` may come before an operand, too.
    Operator(BinOp),
    /// `=`, or `=` and a binary operator.
    Assign(Option<BinOp>),
    /// `!`
    Not,
    /// `++`
    Increment,
    /// `--`
    Decrement,
    Question,
    Colon,
    Comma,
    Semicolon,
    OpenParen,
    CloseParen,
    OpenBracket,
    CloseBracket,
    OpenBrace,
    CloseBrace,
    /// A piece that fits nothing, which ends the tokens.
    Bad(Letters),
    End,
}

/// A lexeme and the line of its first byte, from 1.
#[derive(Clone, Copy)]
pub struct Seen {
    pub lexeme: Lexeme,
    pub line: u64,
}

/// A token that no other comes after.
#[derive(Clone, Copy)]
pub enum Last {
    Bad(Letters),
    End,
}

impl Lexeme {
    /// The token, which for a string takes the characters.
    pub(crate) fn token(self, characters: &mut ArrayVec<u8, STRING_LEN>) -> Token
        ensures token { result ≡ token_of_lexeme self characters.old.items }
        ensures kept { self ≢ lexeme.String → characters.new ≡ characters.old }
    {
        match self {
            Lexeme::Name(name) => Token::Name(name),
            Lexeme::Keyword(keyword) => Token::Keyword(keyword),
            Lexeme::Number(value) => Token::Number(value),
            Lexeme::Character(value) => Token::Character(value),
            Lexeme::String => Token::String(characters.take()),
            Lexeme::Operator(op) => Token::Operator(op),
            Lexeme::Assign(op) => Token::Assign(op),
            Lexeme::Not => Token::Not,
            Lexeme::Increment => Token::Increment,
            Lexeme::Decrement => Token::Decrement,
            Lexeme::Question => Token::Question,
            Lexeme::Colon => Token::Colon,
            Lexeme::Comma => Token::Comma,
            Lexeme::Semicolon => Token::Semicolon,
            Lexeme::OpenParen => Token::OpenParen,
            Lexeme::CloseParen => Token::CloseParen,
            Lexeme::OpenBracket => Token::OpenBracket,
            Lexeme::CloseBracket => Token::CloseBracket,
            Lexeme::OpenBrace => Token::OpenBrace,
            Lexeme::CloseBrace => Token::CloseBrace,
            Lexeme::Bad(letters) => Token::Bad(letters),
            Lexeme::End => Token::End,
        }
    }

    /// This one, if no other token comes after it.
    pub(crate) fn last(self) -> Option<Last>
        ensures { (characters : List ℕ) → result ≡ last_of (token_of_lexeme self characters) }
    {
        match self {
            Lexeme::Bad(letters) => Some(Last::Bad(letters)),
            Lexeme::End => Some(Last::End),
            _ => None,
        }
    }
}

/// The last token as a lexeme.
pub(crate) fn lexeme_of(last: Last) -> Lexeme
    ensures { IsLexemeOf result (token_of last) }
{
    match last {
        Last::Bad(letters) => Lexeme::Bad(letters),
        Last::End => Lexeme::End,
    }
}
