//! The comments and strings of a source, which stay.
ghost use Rattle.std.specs.Prelude.{◌≡◌, ◌≤◌, ◌++◌, IfOk, OnOk, length, map};
ghost use Rattle.bfix.specs.Keeping.{are_among, is_kept, is_over, kept_of, kept_text, Passes};

use blex::{Lexeme, PlacedPiece, Scanner};
use bword::Edition;
use std::alloc::{AllocError, Global};

/// Whether the comments and strings of a source are among those of another one, in their order.
pub(crate) fn keeps(
    alloc: Global,
    edition: Edition,
    old: &[u8],
    new: &[u8],
) -> Result<bool, AllocError>
    ensures { IfOk result (λ is. is ≡ are_among (kept_of edition old.now) (kept_of edition new.now)) }
{
    let texts = kept(alloc, edition, old)?;
    let others = kept(alloc, edition, new)?;
    Ok(are_among(texts.as_slice(), others.as_slice()))
}

fn kept(alloc: Global, edition: Edition, source: &[u8]) -> Result<Vec<&[u8]>, AllocError>
    ensures { IfOk result (λ texts. map (λ t. t.now) texts.items ≡ kept_of edition source.now) }
{
    let mut texts = Vec::new(alloc);
    let mut scanner = Scanner::new(source, edition);
    loop {
        let piece = scanner.next();
        if is_over(piece.lexeme) {
            return Ok(texts);
        }
        push_kept(&mut texts, source, &piece)?;
    }
}

// Adds a piece of a source if it is a comment or a string.
fn push_kept<'a>(
    texts: &mut Vec<&'a [u8]>,
    source: &'a [u8],
    piece: &PlacedPiece,
) -> Result<(), AllocError>
    requires order { piece.now.first ≤ piece.now.end }
    requires within { piece.now.end ≤ length source.now }
    ensures { OnOk result (map (λ t. t.now) texts.new.items
        ≡ map (λ t. t.now) texts.old.items ++ kept_text source.now piece.now) }
{
    if is_kept(piece.lexeme) {
        texts.push(&source[piece.first..piece.end])?;
    }
    Ok(())
}

fn is_over(lexeme: Option<Lexeme>) -> bool
    ensures { result ≡ is_over lexeme }
{
    matches!(lexeme, Some(Lexeme::End))
}

// Whether it is a comment or a string.
fn is_kept(lexeme: Option<Lexeme>) -> bool
    ensures { result ≡ is_kept lexeme }
{
    matches!(lexeme, None | Some(Lexeme::String))
}

fn are_among(texts: &[&[u8]], others: &[&[u8]]) -> bool
    ensures { result ≡ are_among (map (λ t. t.now) texts.now) (map (λ t. t.now) others.now) }
{
    let mut count = 0;
    for other in others {
        count = passed(texts, count, other);
    }
    count == texts.len()
}

// How many of the texts are found after another one, where so many were before.
fn passed(texts: &[&[u8]], count: usize, other: &[u8]) -> usize
    requires { count ≤ length texts.now }
    ensures { Passes (map (λ t. t.now) texts.now) count other.now result }
{
    if count < texts.len() && texts[count] == other {
        count + 1
    } else {
        count
    }
}
