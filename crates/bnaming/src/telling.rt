//! Rows as objects of JSON.
ghost use Rattle.std.specs.Prelude.{◌≡◌, ◌++◌, OnOk};
ghost use Rattle.bsources.specs.Files.{files_shown};
ghost use Rattle.bnaming.specs.Texts.{at_text, comment_text, construct_word, content_kind, content_text, declared_text, end_text, kind_word};
ghost use Rattle.bnaming.specs.Texts.{member_text, name_text, place_text, role_word, row_text, span_text, spot_text, token_word};
ghost use Rattle.bnaming.specs.Texts.{unit_text, units_text};

use crate::fragments::{Fragment, push_all};
use crate::places::Spot;
use crate::reading::Comment;
use crate::roles::Role;
use crate::rows::{Content, OtherToken, Row};
use bsources::SourceFiles;
use btools::Text;
use btree::Construct;
use bword::Name;
use std::alloc::AllocError;

/// Adds a comment.
pub(crate) fn push_comment(
    text: &mut Text,
    files: &SourceFiles<'_>,
    comment: &Comment,
) -> Result<(), AllocError>
    ensures { OnOk result (text.new ≡ text.old ++ comment_text (files_shown files.now) comment.now) }
{
    text.push(b"{\"comment\":1")?;
    push_span(text, files, comment.first, comment.end)?;
    text.push(b"}\n")
}

/// Adds a row, and where its name is declared.
pub(crate) fn push_row(
    text: &mut Text,
    files: &SourceFiles<'_>,
    row: &Row,
    bound: Option<Row>,
) -> Result<(), AllocError>
    ensures { OnOk result (text.new ≡ text.old ++ row_text (files_shown files.now) row.now bound) }
{
    push_content(text, row.content, &bound)?;
    push_at(text, files, row.content, row.first, row.end)?;
    push_declared(text, files, row.first, bound)?;
    text.push(b"}\n")
}

fn push_content(text: &mut Text, content: Content, bound: &Option<Row>) -> Result<(), AllocError>
    ensures { OnOk result (text.new ≡ text.old ++ content_text content bound.now) }
{
    match content {
        Content::Begins(construct) => push_member(
            text,
            b"{\"begins\":\"",
            construct_word(construct),
        ),
        Content::Ends => text.push(b"{\"ends\":1"),
        Content::Other(token) => push_member(text, b"{\"token\":\"", token_word(token)),
        Content::Name(role, name) => push_name(text, role, &name, bound),
    }
}

fn push_member<'a>(text: &mut Text, head: &'a [u8], word: &'a [u8]) -> Result<(), AllocError>
    ensures { OnOk result (text.new ≡ text.old ++ member_text head.now word.now) }
{
    push_all(
        text,
        &[
            Fragment::Words(head),
            Fragment::Words(word),
            Fragment::Words(b"\""),
        ],
    )
}

fn push_name(
    text: &mut Text,
    role: Role,
    name: &Name,
    bound: &Option<Row>,
) -> Result<(), AllocError>
    ensures { OnOk result (text.new ≡ text.old ++ name_text role name.now bound.now) }
{
    push_all(
        text,
        &[
            Fragment::Words(b"{\"name\":\""),
            Fragment::Words(name.as_bytes()),
            Fragment::Words(b"\",\"role\":\""),
            Fragment::Words(role_word(role)),
            Fragment::Words(b"\",\"kind\":\""),
            Fragment::Words(kind_word(bound)),
            Fragment::Words(b"\""),
        ],
    )
}

// Adds where what is in a row stands.
fn push_at(
    text: &mut Text,
    files: &SourceFiles<'_>,
    content: Content,
    first: Spot,
    end: Spot,
) -> Result<(), AllocError>
    ensures { OnOk result (text.new ≡ text.old ++ at_text (files_shown files.now) content first end) }
{
    match content {
        Content::Begins(_) | Content::Ends => push_spot(text, files, b",\"at\":[", first),
        Content::Name(_, _) | Content::Other(_) => push_span(text, files, first, end),
    }
}

// Adds where something begins, and where it ends.
fn push_span(
    text: &mut Text,
    files: &SourceFiles<'_>,
    first: Spot,
    end: Spot,
) -> Result<(), AllocError>
    ensures { OnOk result (text.new ≡ text.old ++ span_text (files_shown files.now) first end) }
{
    push_place(text, files, b",\"at\":[", first)?;
    push_end(text, files, first, end)?;
    push_units(text, first, end)
}

fn push_declared(
    text: &mut Text,
    files: &SourceFiles<'_>,
    here: Spot,
    bound: Option<Row>,
) -> Result<(), AllocError>
    ensures { OnOk result (text.new ≡ text.old ++ declared_text (files_shown files.now) here bound) }
{
    let Some(row) = bound else {
        return Ok(());
    };
    if here.line == row.first.line && here.column == row.first.column {
        return Ok(());
    }
    push_spot(text, files, b",\"declared\":[", row.first)
}

// Adds a place, after the beginning of its list.
fn push_spot<'a>(
    text: &mut Text,
    files: &SourceFiles<'a>,
    head: &'a [u8],
    spot: Spot,
) -> Result<(), AllocError>
    ensures { OnOk result (text.new ≡ text.old ++ spot_text (files_shown files.now) head.now spot) }
{
    push_place(text, files, head, spot)?;
    push_unit(text, spot)
}

// Adds the file, the line in that and the column of a place.
fn push_place<'a>(
    text: &mut Text,
    files: &SourceFiles<'a>,
    head: &'a [u8],
    spot: Spot,
) -> Result<(), AllocError>
    ensures { OnOk result (text.new ≡ text.old ++ place_text (files_shown files.now) head.now spot) }
{
    let at = files.own_line(u64::from(spot.line));
    push_all(
        text,
        &[
            Fragment::Words(head),
            Fragment::Quoted(at.file.as_bytes()),
            Fragment::Words(b","),
            Fragment::Number(at.line),
            Fragment::Words(b","),
            Fragment::Number(u64::from(spot.column)),
        ],
    )
}

// Ends the list of a place.
fn push_unit(text: &mut Text, spot: Spot) -> Result<(), AllocError>
    ensures { OnOk result (text.new ≡ text.old ++ unit_text spot) }
{
    if spot.column == spot.unit {
        return text.push(b"]");
    }
    push_all(
        text,
        &[
            Fragment::Words(b","),
            Fragment::Number(u64::from(spot.unit)),
            Fragment::Words(b"]"),
        ],
    )
}

// Ends the list of where something begins and ends.
fn push_end(
    text: &mut Text,
    files: &SourceFiles<'_>,
    first: Spot,
    end: Spot,
) -> Result<(), AllocError>
    ensures { OnOk result (text.new ≡ text.old ++ end_text (files_shown files.now) first end) }
{
    let column = Fragment::Number(u64::from(end.column));
    if first.line == end.line {
        return push_all(
            text,
            &[Fragment::Words(b","), column, Fragment::Words(b"]")],
        );
    }
    let at = files.own_line(u64::from(end.line));
    push_all(
        text,
        &[
            Fragment::Words(b","),
            Fragment::Number(at.line),
            Fragment::Words(b","),
            column,
            Fragment::Words(b"]"),
        ],
    )
}

// Adds both columns in units of UTF-16, where one is another one.
fn push_units(text: &mut Text, first: Spot, end: Spot) -> Result<(), AllocError>
    ensures { OnOk result (text.new ≡ text.old ++ units_text first end) }
{
    if first.column == first.unit && end.column == end.unit {
        return Ok(());
    }
    push_all(
        text,
        &[
            Fragment::Words(b",\"utf16\":["),
            Fragment::Number(u64::from(first.unit)),
            Fragment::Words(b","),
            Fragment::Number(u64::from(end.unit)),
            Fragment::Words(b"]"),
        ],
    )
}

// What the declaration of a name makes it.
fn kind_word(bound: &Option<Row>) -> &'static [u8]
    ensures { result.now ≡ kind_word bound.now }
{
    match bound {
        Some(row) => kind_of_row(row),
        None => b"undefined",
    }
}

fn kind_of_row(row: &Row) -> &'static [u8]
    ensures { result.now ≡ content_kind row.now.content }
{
    match row.content {
        Content::Name(role, _) => role_word(role),
        _ => b"",
    }
}

fn role_word(role: Role) -> &'static [u8]
    ensures { result.now ≡ role_word role }
{
    match role {
        Role::Function => b"function",
        Role::External => b"external",
        Role::Parameter => b"parameter",
        Role::Automatic => b"automatic",
        Role::Import => b"extrn",
        Role::Label => b"label",
        Role::Mention => b"mention",
        Role::Value => b"value",
    }
}

fn construct_word(construct: Construct) -> &'static [u8]
    ensures { result.now ≡ construct_word construct }
{
    match construct {
        Construct::Definition => b"definition",
        Construct::Block => b"block",
        Construct::If => b"if",
        Construct::IfElse => b"else",
        Construct::While => b"while",
        Construct::Switch => b"switch",
        Construct::Heading => b"heading",
        Construct::Plain => b"statement",
        Construct::Parens => b"parentheses",
    }
}

fn token_word(token: OtherToken) -> &'static [u8]
    ensures { result.now ≡ token_word token }
{
    match token {
        OtherToken::Keyword => b"keyword",
        OtherToken::Number => b"number",
        OtherToken::Character => b"character",
        OtherToken::String => b"string",
        OtherToken::Operator => b"operator",
        OtherToken::Question => b"?",
        OtherToken::Colon => b":",
        OtherToken::Comma => b",",
        OtherToken::Semicolon => b";",
        OtherToken::OpenParen => b"(",
        OtherToken::CloseParen => b")",
        OtherToken::OpenBracket => b"[",
        OtherToken::CloseBracket => b"]",
        OtherToken::OpenBrace => b"{",
        OtherToken::CloseBrace => b"}",
    }
}
