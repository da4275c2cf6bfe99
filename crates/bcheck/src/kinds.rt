//! Kinds of tokens, of which patterns consist.
ghost use Rattle.std.specs.List.{list_any};
ghost use Rattle.std.specs.Prelude.{◌≡◌};
ghost use Rattle.bword.specs.Words.{same_name};
ghost use Rattle.bcheck.specs.UndefinedNames.{type_words};

use blang::Keyword;
use blex::Lexeme;
use bword::{BinOp, Name};

/// Which tokens fit a place of a pattern.
#[derive(Clone, Copy)]
pub(crate) enum Like {
    Any,
    /// This one alone.
    Is(Lexeme),
    /// One of these two.
    Either(Lexeme, Lexeme),
    /// A name of these letters.
    Word(&'static str),
    /// A name that C has for a type.
    Type,
    Name,
    Number,
    /// A number or a character.
    Constant,
    /// A name, a constant or a string.
    Operand,
    /// The last token of an operand.
    Ended,
    Keyword,
    Op(BinOp),
    Operator,
    /// `=`, with an operator or alone.
    Assigns,
    /// An operator, an assignment or a mark that an operand comes after.
    Waits,
    /// `==` and `!=`.
    Compares,
    /// `<`, `<=`, `>` and `>=`.
    Relates,
    /// All of these.
    Comparison,
    /// `)`, `]`, `,`, `;`, `:` and `}`.
    Closes,
    /// `;`, `{` and `}`, between which a statement is.
    Border,
    /// What a statement may come after: these, and the `)` of a heading.
    Opening,
    /// An assignment, `++` and `--`.
    Sets,
    /// In a row of an edit all from this bracket to the one that closes it, a whole operand, or what stands before this
    /// on its line. A token alone fits where one of these begins.
    Group(Lexeme),
    Value,
    Until(Lexeme),
}

pub(crate) const ANY: Like = Like::Any;

pub(crate) const STRING: Like = Like::Is(Lexeme::String);

pub(crate) const COMMA: Like = Like::Is(Lexeme::Comma);

pub(crate) const OPEN_PAREN: Like = Like::Is(Lexeme::OpenParen);

pub(crate) const CLOSE_PAREN: Like = Like::Is(Lexeme::CloseParen);

/// What C calls its types and their parts, and some words that come before them.
const TYPES: [&str; 20] = [
    "int", "char", "void", "long", "short", "unsigned", "signed", "float", "double", "bool",
    "const", "static", "struct", "boolean", "byte", "enum", "integer", "register", "string",
    "typedef",
];

impl Like {
    /// Whether a token fits.
    pub(crate) fn fits(&self, lexeme: &Lexeme) -> bool {
        match self {
            Like::Any => true,
            Like::Is(one) => *lexeme == *one,
            Like::Either(one, other) => *lexeme == *one || *lexeme == *other,
            Like::Word(word) => is_word(lexeme, word),
            Like::Type => is_type(lexeme),
            Like::Name => matches!(lexeme, Lexeme::Name(_)),
            Like::Number => matches!(lexeme, Lexeme::Number(_)),
            Like::Constant => matches!(lexeme, Lexeme::Number(_) | Lexeme::Character(_)),
            Like::Operand => is_operand(lexeme),
            Like::Ended => is_ended(lexeme),
            Like::Keyword => matches!(lexeme, Lexeme::Keyword(_)),
            Like::Op(op) => *lexeme == Lexeme::Operator(*op),
            Like::Operator => matches!(lexeme, Lexeme::Operator(_)),
            Like::Assigns => matches!(lexeme, Lexeme::Assign(_)),
            Like::Waits => waits(lexeme),
            Like::Compares => matches!(lexeme, Lexeme::Operator(BinOp::Eq | BinOp::Ne)),
            Like::Relates => matches!(
                lexeme,
                Lexeme::Operator(BinOp::Lt | BinOp::Le | BinOp::Gt | BinOp::Ge)
            ),
            Like::Comparison => matches!(
                lexeme,
                Lexeme::Operator(
                    BinOp::Eq | BinOp::Ne | BinOp::Lt | BinOp::Le | BinOp::Gt | BinOp::Ge
                )
            ),
            Like::Closes => closes(lexeme),
            Like::Border => is_border(lexeme),
            Like::Opening => is_border(lexeme) || *lexeme == Lexeme::CloseParen,
            Like::Sets => matches!(
                lexeme,
                Lexeme::Assign(_) | Lexeme::Increment | Lexeme::Decrement
            ),
            Like::Group(opener) => *lexeme == *opener,
            Like::Value => is_operand(lexeme),
            Like::Until(end) => *lexeme != *end,
        }
    }

    /// Whether each token is of its kind.
    pub(crate) fn fit(kinds: &[Like; 5], tokens: &[Lexeme; 5]) -> bool {
        for index in 0..5 {
            if !kinds[index].fits(&tokens[index]) {
                return false;
            }
        }
        true
    }
}

/// Whether a token is the name of these letters.
pub(crate) fn is_word(lexeme: &Lexeme, word: &str) -> bool {
    match lexeme {
        Lexeme::Name(name) => name.as_str() == word,
        _ => false,
    }
}

/// Whether C has a type of this name.
pub(crate) fn is_type_name(name: &Name) -> bool
    ensures { result ≡ list_any (same_name name.now) type_words }
{
    is_among(name, &TYPES)
}

/// Whether a name is one of these words.
pub(crate) fn is_among(name: &Name, words: &[&str]) -> bool
    ensures { result ≡ list_any (λ word. same_name name.now word.now) words.now }
{
    for word in words {
        if name.as_str() == *word {
            return true;
        }
    }
    false
}

fn is_type(lexeme: &Lexeme) -> bool {
    match lexeme {
        Lexeme::Name(name) => is_type_name(name),
        _ => false,
    }
}

/// Whether a token compares.
pub(crate) fn is_comparison(lexeme: &Lexeme) -> bool {
    Like::Comparison.fits(lexeme)
}

/// Whether a token is an operand.
pub(crate) fn is_operand(lexeme: &Lexeme) -> bool {
    matches!(
        lexeme,
        Lexeme::Name(_) | Lexeme::Number(_) | Lexeme::Character(_) | Lexeme::String
    )
}

/// Whether an operand may end with this token.
pub(crate) fn is_ended(lexeme: &Lexeme) -> bool {
    is_operand(lexeme)
        || matches!(
            lexeme,
            Lexeme::CloseParen | Lexeme::CloseBracket | Lexeme::Increment | Lexeme::Decrement
        )
}

fn waits(lexeme: &Lexeme) -> bool {
    matches!(
        lexeme,
        Lexeme::Operator(_)
            | Lexeme::Assign(_)
            | Lexeme::Not
            | Lexeme::Question
            | Lexeme::Comma
            | Lexeme::OpenParen
            | Lexeme::OpenBracket
            | Lexeme::Keyword(Keyword::Goto | Keyword::Switch)
    )
}

fn is_border(lexeme: &Lexeme) -> bool {
    matches!(
        lexeme,
        Lexeme::Semicolon | Lexeme::OpenBrace | Lexeme::CloseBrace
    )
}

fn closes(lexeme: &Lexeme) -> bool {
    matches!(
        lexeme,
        Lexeme::CloseParen
            | Lexeme::CloseBracket
            | Lexeme::CloseBrace
            | Lexeme::Comma
            | Lexeme::Semicolon
            | Lexeme::Colon
    )
}

/// How many brackets are open after a token, if so many were before it.
pub(crate) fn depth_after(depth: u64, lexeme: &Lexeme) -> u64 {
    if opens_bracket(lexeme) {
        depth.saturating_add(1)
    } else if closes_bracket(lexeme) {
        depth.saturating_sub(1)
    } else {
        depth
    }
}

/// Whether a bracket opens.
pub(crate) fn opens_bracket(lexeme: &Lexeme) -> bool {
    matches!(
        lexeme,
        Lexeme::OpenParen | Lexeme::OpenBracket | Lexeme::OpenBrace
    )
}

/// Whether a bracket closes.
pub(crate) fn closes_bracket(lexeme: &Lexeme) -> bool {
    matches!(
        lexeme,
        Lexeme::CloseParen | Lexeme::CloseBracket | Lexeme::CloseBrace
    )
}
