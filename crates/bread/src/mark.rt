//! Tokens that a program has at fixed places.
ghost use Rattle.std.specs.Prelude.{ℕ, List, ◌≡◌};
ghost use Rattle.blex.specs.Lexemes.{token_of_lexeme};
ghost use Rattle.bread.specs.Marks.{is_mark};

use blang::Keyword;
use blex::Lexeme;

/// A token by which alone reading goes on.
#[derive(Clone, Copy)]
pub enum Mark {
    OpenParen,
    CloseParen,
    OpenBracket,
    CloseBracket,
    OpenBrace,
    CloseBrace,
    Question,
    Colon,
    Comma,
    Semicolon,
    Else,
}

impl Mark {
    /// Whether a token is this one.
    #[inline(always)]
    pub fn is(self, lexeme: Lexeme) -> bool
        ensures { (text : List ℕ) → result ≡ is_mark self (token_of_lexeme lexeme text) }
    {
        match self {
            Mark::OpenParen => matches!(lexeme, Lexeme::OpenParen),
            Mark::CloseParen => matches!(lexeme, Lexeme::CloseParen),
            Mark::OpenBracket => matches!(lexeme, Lexeme::OpenBracket),
            Mark::CloseBracket => matches!(lexeme, Lexeme::CloseBracket),
            Mark::OpenBrace => matches!(lexeme, Lexeme::OpenBrace),
            Mark::CloseBrace => matches!(lexeme, Lexeme::CloseBrace),
            Mark::Question => matches!(lexeme, Lexeme::Question),
            Mark::Colon => matches!(lexeme, Lexeme::Colon),
            Mark::Comma => matches!(lexeme, Lexeme::Comma),
            Mark::Semicolon => matches!(lexeme, Lexeme::Semicolon),
            Mark::Else => matches!(lexeme, Lexeme::Keyword(Keyword::Else)),
        }
    }
}
