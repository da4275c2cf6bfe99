//! What a token is for the constructs.
ghost use Rattle.std.specs.Prelude.{◌≡◌};
ghost use Rattle.btree.specs.Machine.{sort_of_keyword, sort_of_lexeme};

use blang::Keyword;
use blex::Lexeme;

/// What a token is, as far as constructs begin or end with it.
#[derive(Clone, Copy, PartialEq, Eq)]
pub enum Sort {
    Name,
    If,
    Else,
    While,
    Switch,
    /// `case` or `default`
    Arm,
    /// `auto` or `extrn`
    Declares,
    Colon,
    Semicolon,
    OpenParen,
    CloseParen,
    OpenBrace,
    CloseBrace,
    /// A token that stands within constructs alone.
    Other,
}

impl Sort {
    /// The sort of a token.
    pub fn of(lexeme: Lexeme) -> Self
        ensures { result ≡ sort_of_lexeme lexeme }
    {
        match lexeme {
            Lexeme::Name(_) => Sort::Name,
            Lexeme::Keyword(keyword) => Sort::of_keyword(keyword),
            Lexeme::Colon => Sort::Colon,
            Lexeme::Semicolon => Sort::Semicolon,
            Lexeme::OpenParen => Sort::OpenParen,
            Lexeme::CloseParen => Sort::CloseParen,
            Lexeme::OpenBrace => Sort::OpenBrace,
            Lexeme::CloseBrace => Sort::CloseBrace,
            _ => Sort::Other,
        }
    }

    fn of_keyword(keyword: Keyword) -> Self
        ensures { result ≡ sort_of_keyword keyword }
    {
        match keyword {
            Keyword::If => Sort::If,
            Keyword::Else => Sort::Else,
            Keyword::While => Sort::While,
            Keyword::Switch => Sort::Switch,
            Keyword::Case | Keyword::Default => Sort::Arm,
            Keyword::Auto | Keyword::Extrn => Sort::Declares,
            _ => Sort::Other,
        }
    }
}
