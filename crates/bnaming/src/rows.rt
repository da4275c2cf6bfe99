//! The constructs and tokens of a source, in a row.
ghost use Rattle.std.specs.Prelude.{◌≡◌, ◌+◌, ◌^◌, ◌<◌, ◌≤◌, ◌∷◌, ◌++◌, [], List, IfOk, OnOk};
ghost use Rattle.btree.specs.declared.tags.Tag.{Tag};
ghost use Rattle.btree.specs.declared.tags.Tag.TheVariants as tags;
ghost use Rattle.bnaming.specs.declared.roles.Mode.TheVariants as mode;
ghost use Rattle.bnaming.specs.declared.rows.Content.TheVariants as contents;
ghost use Rattle.bnaming.specs.Rows.{content_of, first_of, is_before_paren, opens_after, other_of, row, rows_from};
ghost use Rattle.bnaming.specs.Spots.{first_spot};

use crate::places::Spot;
use crate::reading::PlacedToken;
use crate::roles::{Mode, Role};
use blex::Lexeme;
use btree::{Construct, Tag};
use bword::Name;
use std::alloc::{AllocError, Global};

/// What is in a row.
#[derive(Clone, Copy)]
pub(crate) enum Content {
    /// A construct begins.
    Begins(Construct),
    /// The innermost one ends.
    Ends,
    /// A name, and what it is.
    Name(Role, Name),
    Other(OtherToken),
}

/// A token that is no name.
#[derive(Clone, Copy)]
pub(crate) enum OtherToken {
    Keyword,
    Number,
    Character,
    String,
    /// Any operator but those of a condition.
    Operator,
    Question,
    Colon,
    Comma,
    Semicolon,
    OpenParen,
    CloseParen,
    OpenBracket,
    CloseBracket,
    OpenBrace,
    CloseBrace,
}

impl OtherToken {
    fn of(lexeme: Lexeme) -> Self
        ensures { result ≡ other_of lexeme }
    {
        match lexeme {
            Lexeme::Keyword(_) => OtherToken::Keyword,
            Lexeme::Number(_) => OtherToken::Number,
            Lexeme::Character(_) => OtherToken::Character,
            Lexeme::String => OtherToken::String,
            Lexeme::Question => OtherToken::Question,
            Lexeme::Colon => OtherToken::Colon,
            Lexeme::Comma => OtherToken::Comma,
            Lexeme::Semicolon => OtherToken::Semicolon,
            Lexeme::OpenParen => OtherToken::OpenParen,
            Lexeme::CloseParen => OtherToken::CloseParen,
            Lexeme::OpenBracket => OtherToken::OpenBracket,
            Lexeme::CloseBracket => OtherToken::CloseBracket,
            Lexeme::OpenBrace => OtherToken::OpenBrace,
            Lexeme::CloseBrace => OtherToken::CloseBrace,
            _ => OtherToken::Operator,
        }
    }
}

/// A row, and what it takes of the source.
#[derive(Clone, Copy)]
pub(crate) struct Row {
    pub content: Content,
    pub first: Spot,
    pub end: Spot,
}

impl Row {
    /// How many constructs are open after it, of as many as were before.
    pub(crate) fn opens_after(&self, opens: usize) -> usize
        requires { opens + 1 < 2 ^ 64 }
        ensures is { result ≡ opens_after opens self.now.content }
        ensures more { result ≤ opens + 1 }
    {
        match self.content {
            Content::Begins(_) => opens + 1,
            Content::Ends => opens.saturating_sub(1),
            _ => opens,
        }
    }
}

/// The rows of tokens with these tags.
pub(crate) fn rows_of(
    alloc: Global,
    tokens: &[PlacedToken],
    tags: &[Tag],
) -> Result<Vec<Row>, AllocError>
    ensures { IfOk result (λ rows. rows.items ≡ rows_from mode.Statement first_spot tokens.now tags.now) }
{
    let mut rows = Vec::new(alloc);
    let mut reader = Reader {
        mode: Mode::Statement,
        last: Spot {
            line: 1,
            column: 1,
            unit: 1,
        },
        rest: tokens,
    };
    for tag in tags {
        let Row {
            content,
            first,
            end,
        } = reader.take(*tag);
        add(&mut rows, content, first, end)?;
    }
    Ok(rows)
}

fn add(rows: &mut Vec<Row>, content: Content, first: Spot, end: Spot) -> Result<(), AllocError>
    ensures { OnOk result (rows.new.items ≡ rows.old.items ++ row content first end ∷ []) }
{
    rows.push(Row {
        content,
        first,
        end,
    })?;
    Ok(())
}

/// What a name would be here, where the last token ended, and the tokens to come.
#[derive(Clone, Copy)]
struct Reader<'a> {
    mode: Mode,
    last: Spot,
    rest: &'a [PlacedToken],
}

impl Reader<'_> {
    // The row of the next tag.
    fn take(&mut self, tag: Tag) -> Row
        ensures { (others : List Tag) → rows_from self.old.mode self.old.last self.old.rest.now (tag ∷ others)
            ≡ result ∷ rows_from self.new.mode self.new.last self.new.rest.now others }
    {
        match tag {
            Tag::Begins(construct) => {
                self.mode = Mode::of(construct);
                let at = first_of(self.rest, self.last);
                Row {
                    content: Content::Begins(construct),
                    first: at,
                    end: at,
                }
            }
            Tag::Ends => {
                self.mode = Mode::Statement;
                self.end()
            }
            Tag::Token => self.take_token(),
        }
    }

    fn take_token(&mut self) -> Row
        ensures { (others : List Tag) → rows_from self.old.mode self.old.last self.old.rest.now (tags.Token ∷ others)
            ≡ result ∷ rows_from self.new.mode self.new.last self.new.rest.now others }
    {
        let [token, rest @ ..] = self.rest else {
            return Row {
                content: Content::Other(OtherToken::Operator),
                first: self.last,
                end: self.last,
            };
        };
        let is_before = is_before_paren(rest);
        let content = content_of(self.mode, token.lexeme, is_before);
        self.mode = self.mode.after(token.lexeme, is_before);
        self.last = token.end;
        self.rest = rest;
        Row {
            content,
            first: token.first,
            end: token.end,
        }
    }

    // A construct ends after the last token.
    fn end(&self) -> Row
        ensures { result ≡ row contents.Ends self.now.last self.now.last }
    {
        Row {
            content: Content::Ends,
            first: self.last,
            end: self.last,
        }
    }
}

// Where the next token begins, or else the last one ended.
fn first_of(rest: &[PlacedToken], last: Spot) -> Spot
    ensures { result ≡ first_of rest.now last }
{
    match rest {
        [] => last,
        [token, ..] => token.first,
    }
}

// Whether the next token is a `(`.
fn is_before_paren(rest: &[PlacedToken]) -> bool
    ensures { result ≡ is_before_paren rest.now }
{
    match rest {
        [] => false,
        [token, ..] => matches!(token.lexeme, Lexeme::OpenParen),
    }
}

fn content_of(mode: Mode, lexeme: Lexeme, is_before: bool) -> Content
    ensures { result ≡ content_of mode lexeme is_before }
{
    match lexeme {
        Lexeme::Name(name) => Content::Name(mode.role(is_before), name),
        _ => Content::Other(OtherToken::of(lexeme)),
    }
}
