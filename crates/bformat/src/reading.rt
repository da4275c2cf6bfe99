//! The comments and tokens of a source, and what stands between them.
ghost use Rattle.std.specs.Prelude.{◌≡◌, ◌≤◌, true, IfOk, IsTrue, MatchOption, length, slice_range};
ghost use Rattle.bformat.specs.Formats.{has_wrong_token};
ghost use Rattle.bformat.specs.Pieces.{is_end, pieces_of};
ghost use Rattle.bformat.specs.Readings.{AreRead, is_bad, texts};

use crate::kind::ItemKind;
use blex::{Lexeme, PlacedPiece, Scanner};
use btree::Sort;
use bword::Edition;
use std::alloc::{AllocError, Global};

/// A comment or a token.
#[derive(Clone, Copy)]
pub(crate) struct SourceItem<'a> {
    pub text: &'a [u8],
    pub kind: ItemKind,
    /// What a token is for the constructs.
    pub sort: Option<Sort>,
    /// How many lines end between the piece before and this one.
    pub breaks: usize,
    /// How many blanks and tabs stand before it on its line.
    pub blanks: usize,
}

/// The pieces of a source, unless a token of it is wrong.
pub(crate) fn read(
    alloc: Global,
    source: &[u8],
    edition: Edition,
) -> Result<Option<Vec<SourceItem<'_>>>, AllocError>
    ensures { IfOk result (λ found. MatchOption found (has_wrong_token edition source.now ≡ true)
        (λ pieces. AreRead edition source.now pieces.items)) }
{
    let mut pieces = Vec::new(alloc);
    let mut scanner = Scanner::new(source, edition);
    let mut at = 0;
    loop {
        let found = scanner.next();
        if is_end(found.lexeme) {
            return Ok(Some(pieces));
        }
        if is_bad(found.lexeme) {
            return Ok(None);
        }
        pieces.push(piece_after(source, at, &found))?;
        at = found.end;
    }
}

// A piece, where the one before it ended at a place.
fn piece_after<'a>(source: &'a [u8], at: usize, found: &PlacedPiece) -> SourceItem<'a>
    requires order { (at ≤ found.now.first) × (found.now.first ≤ found.now.end) }
    requires within { found.now.end ≤ length source.now }
    ensures { result.text.now ≡ slice_range source.now found.now.first found.now.end }
{
    let gap = &source[at..found.first];
    SourceItem {
        text: &source[found.first..found.end],
        kind: ItemKind::of(found.lexeme),
        sort: found.lexeme.map(Sort::of),
        breaks: breaks(gap),
        blanks: blanks(gap),
    }
}

fn is_end(lexeme: Option<Lexeme>) -> bool
    ensures { result ≡ is_end lexeme }
{
    matches!(lexeme, Some(Lexeme::End))
}

fn is_bad(lexeme: Option<Lexeme>) -> bool
    ensures { result ≡ is_bad lexeme }
{
    matches!(lexeme, Some(Lexeme::Bad(_)))
}

/// Whether these are the pieces of a text.
pub(crate) fn has_pieces(text: &[u8], edition: Edition, pieces: &[SourceItem<'_>]) -> bool
    ensures { IsTrue result → pieces_of edition text.now ≡ texts pieces.now }
{
    let mut scanner = Scanner::new(text, edition);
    for piece in pieces {
        let found = scanner.next();
        if is_end(found.lexeme) || &text[found.first..found.end] != piece.text {
            return false;
        }
    }
    is_end(scanner.next().lexeme)
}

// How many lines end in a gap between pieces.
fn breaks(gap: &[u8]) -> usize {
    gap.iter().filter(|byte| **byte == b'\n').count()
}

// How many bytes stand after the last newline.
fn blanks(gap: &[u8]) -> usize {
    let after = gap.iter().rev().position(|byte| *byte == b'\n');
    after.unwrap_or(gap.len())
}
