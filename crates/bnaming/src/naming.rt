//! Telling the names and constructs of a source.
ghost use Rattle.std.specs.Prelude.{◌≡◌, ◌++◌, IfOk, OnOk};
ghost use Rattle.std.specs.List.{flat_map};
ghost use Rattle.bsources.specs.Files.{files_shown};
ghost use Rattle.bnaming.specs.Laws.{BindingsOfProgram, KindsOfScan, NamesOfProgram, TokensOfSource};
ghost use Rattle.bnaming.specs.Names.{Names, bindings_of, names_text, rows_of, texts_of};
ghost use Rattle.bnaming.specs.Texts.{comment_text};

use crate::binding::{Reach, around, bound, index};
use crate::reading::{Comment, PlacedToken, comments_of, pieces_of, sorts_of, tokens_of};
use crate::rows::{Row, rows_of};
use crate::telling::{push_comment, push_row};
use blang::status::{self, Status};
use bnames::NameTable;
use bsources::SourceFiles;
use btools::{Text, tell};
use btree::{tags_are_those_of_the_tree, tags_of};
use bword::{ByteOut, Edition};
use std::alloc::{AllocError, Global};

/// Writes an object of JSON a line: one for each comment of a source, and then, in the order of the source, one where
/// each construct begins, one where it ends, and one for each token. A name is told with what it is there, and with
/// its kind and its place where it is declared.
///
/// Each source has them, also one at fault; what is wrong is no token. All is written by one call of the stream, and nothing if memory runs out.
pub fn tell_names<O: ByteOut>(
    alloc: Global,
    source: &[u8],
    edition: Edition,
    files: &SourceFiles<'_>,
    out: &mut O,
) -> Status
    ensures names { Names (record {
      edition = edition;
      files = files_shown files.now;
      source = source.now;
      out = O.outgoing out.old;
      out_after = O.outgoing out.new;
      status = result;
    }) }
    ensures out_lender { O.lender out.new ≡ O.lender out.old }
{
    match names_text(alloc, source, edition, files) {
        Ok(text) => tell(text.as_slice(), status::DONE, out),
        Err(_) => status::MEMORY,
    }
}

fn names_text(
    alloc: Global,
    source: &[u8],
    edition: Edition,
    files: &SourceFiles<'_>,
) -> Result<Text, AllocError>
    ensures { IfOk result (λ text. text ≡ names_text edition (files_shown files.now) source.now) }
{
    let pieces = pieces_of(alloc, source, edition)?;
    let comments = comments_of(alloc, &pieces)?;
    let tokens = tokens_of(alloc, &pieces)?;
    drop(pieces);
    let rows = tagged_rows(alloc, &tokens)?;
    drop(tokens);
    let mut text = Text::new(alloc);
    push_comments(&mut text, files, &comments)?;
    push_rows(alloc, &mut text, files, &rows)?;
    Ok(text)
}

// The rows of tokens, with the constructs that they make.
fn tagged_rows(alloc: Global, tokens: &[PlacedToken]) -> Result<Vec<Row>, AllocError>
    ensures { IfOk result (λ rows. rows.items ≡ rows_of tokens.now) }
{
    let sorts = sorts_of(alloc, tokens)?;
    let tags = tags_of(alloc, &sorts)?;
    rows_of(alloc, tokens, &tags)
}

fn push_comments(
    text: &mut Text,
    files: &SourceFiles<'_>,
    comments: &[Comment],
) -> Result<(), AllocError>
    ensures { OnOk result (text.new ≡ text.old ++ flat_map (comment_text (files_shown files.now)) comments.now) }
{
    for comment in comments {
        push_comment(text, files, comment)?;
    }
    Ok(())
}

fn push_rows(
    alloc: Global,
    text: &mut Text,
    files: &SourceFiles<'_>,
    rows: &[Row],
) -> Result<(), AllocError>
    ensures { OnOk result (text.new ≡ text.old ++ texts_of (files_shown files.now) (bindings_of rows.now)) }
{
    let all = index(alloc, rows, 0, 0, Reach::Source)?;
    let mut own = NameTable::new(alloc);
    let mut opens = 0;
    for place in 0..rows.len() {
        let row = rows[place];
        own = around(alloc, rows, place, opens, own)?;
        opens = row.opens_after(opens);
        push_row(text, files, &row, bound(&row, rows, &own, &all))?;
    }
    Ok(())
}

/// The names of a source that begins with whole definitions are those of the definitions: each is what the scan finds
/// there, and there is no other.
pub fn names_are_those_of_definitions()
    ensures { NamesOfProgram }
{
    tags_are_those_of_the_tree();
}

/// In a source that begins with whole definitions, a name of one is looked for among the names of that definition.
pub fn names_are_looked_for_in_definitions()
    ensures { BindingsOfProgram }
{
    tags_are_those_of_the_tree();
}

/// Where the compiler reads definitions first in a source, the tokens of its rows begin with theirs.
pub fn tokens_are_those_of_the_source()
    ensures { TokensOfSource }
{}

/// A function in which the scan finds no fault declares each name as the scan's table says, and no other.
pub fn names_are_declared_as_scanned()
    ensures { KindsOfScan }
{}
