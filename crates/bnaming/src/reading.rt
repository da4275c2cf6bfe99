//! The comments and tokens of a source, with their places.
ghost use Rattle.std.specs.Prelude.{◌≡◌, IfOk, filter, map};
ghost use Rattle.std.specs.List.{filter_map};
ghost use Rattle.bnaming.specs.Pieces.{comment_in, is_end, pieces_of, placed, sort_in, token_in};
ghost use Rattle.bnaming.specs.Spots.{IsMark};

use crate::places::{Mark, Spot};
use blex::{Lexeme, PlacedPiece, Scanner};
use btree::Sort;
use bword::Edition;
use std::alloc::{AllocError, Global};

/// A comment, which has no lexeme, or a token, or what is wrong.
#[derive(Clone, Copy)]
pub(crate) struct Piece {
    pub lexeme: Option<Lexeme>,
    pub first: Spot,
    /// After its last byte.
    pub end: Spot,
}

/// A token.
#[derive(Clone, Copy)]
pub(crate) struct PlacedToken {
    pub lexeme: Lexeme,
    pub first: Spot,
    pub end: Spot,
}

/// A comment.
#[derive(Clone, Copy)]
pub(crate) struct Comment {
    pub first: Spot,
    pub end: Spot,
}

impl Piece {
    fn token(&self) -> Option<PlacedToken>
        ensures { result ≡ token_in self.now }
    {
        match self.lexeme {
            None | Some(Lexeme::Bad(_)) => None,
            Some(lexeme) => Some(PlacedToken {
                lexeme,
                first: self.first,
                end: self.end,
            }),
        }
    }

    fn comment(&self) -> Option<Comment>
        ensures { result ≡ comment_in self.now }
    {
        match self.lexeme {
            Some(_) => None,
            None => Some(Comment {
                first: self.first,
                end: self.end,
            }),
        }
    }
}

/// The comments and tokens of a source, also those that are wrong.
pub(crate) fn pieces_of(
    alloc: Global,
    source: &[u8],
    edition: Edition,
) -> Result<Vec<Piece>, AllocError>
    ensures { IfOk result (λ pieces. pieces.items ≡ pieces_of edition source.now) }
{
    let mut pieces = Vec::new(alloc);
    let mut scanner = Scanner::new(source, edition);
    let mut mark = Mark::first(source);
    loop {
        let found = scanner.next();
        if is_end(found.lexeme) {
            return Ok(pieces);
        }
        let first = mark.to(source, found.first);
        mark = first.to(source, found.end);
        pieces.push(placed(source, &found, first, mark)?)?;
    }
}

// A piece between two marks.
fn placed(source: &[u8], found: &PlacedPiece, first: Mark, end: Mark) -> Result<Piece, AllocError>
    requires first { IsMark source.now first }
    requires end { IsMark source.now end }
    requires begins { first.at ≡ found.now.first }
    requires ends { end.at ≡ found.now.end }
    ensures { IfOk result (λ piece. piece ≡ placed source.now found.now) }
{
    Ok(Piece {
        lexeme: found.lexeme,
        first: first.spot(source)?,
        end: end.spot(source)?,
    })
}

fn is_end(lexeme: Option<Lexeme>) -> bool
    ensures { result ≡ is_end lexeme }
{
    matches!(lexeme, Some(Lexeme::End))
}

/// The tokens among pieces, without what is wrong.
pub(crate) fn tokens_of(alloc: Global, pieces: &[Piece]) -> Result<Vec<PlacedToken>, AllocError>
    ensures { IfOk result (λ tokens. tokens.items ≡ filter_map token_in pieces.now) }
{
    let mut tokens = Vec::new(alloc);
    for piece in pieces {
        if let Some(token) = piece.token() {
            tokens.push(token)?;
        }
    }
    Ok(tokens)
}

/// The comments among pieces.
pub(crate) fn comments_of(alloc: Global, pieces: &[Piece]) -> Result<Vec<Comment>, AllocError>
    ensures { IfOk result (λ comments. comments.items ≡ filter_map comment_in pieces.now) }
{
    let mut comments = Vec::new(alloc);
    for piece in pieces {
        if let Some(comment) = piece.comment() {
            comments.push(comment)?;
        }
    }
    Ok(comments)
}

/// What tokens are for the constructs.
pub(crate) fn sorts_of(alloc: Global, tokens: &[PlacedToken]) -> Result<Vec<Sort>, AllocError>
    ensures { IfOk result (λ sorts. sorts.items ≡ map sort_in tokens.now) }
{
    tokens
        .iter()
        .map(|token| Sort::of(token.lexeme))
        .collect(alloc)
}
