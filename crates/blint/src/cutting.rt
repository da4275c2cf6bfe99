//! Cutting a source into its tokens, once.
ghost use Rattle.std.specs.Prelude.{◌≡◌, IfOk};
ghost use Rattle.blint.specs.Cutting.{Cuts, TakesPiece};
ghost use Rattle.blint.specs.SourceTokens.{is_end, place_of, token_of, tokens_of};

use crate::cautions::Program;
use blex::{Lexeme, PlacedPiece, Scanner};
use bmatch::TokenPlace;
use std::alloc::{AllocError, Global};

/// The tokens of a source, and where each stands.
#[derive(Drop)]
pub struct CutSource {
    pub lexemes: Vec<Lexeme>,
    pub places: Vec<TokenPlace>,
    /// The comment that begins in the first file and ends in another one: it is the last of that file.
    pub across: Option<TokenPlace>,
}

/// Cuts a source.
pub fn cut(alloc: Global, program: &Program<'_>) -> Result<CutSource, AllocError>
    ensures { IfOk result (Cuts (tokens_of program.now.edition program.now.text.now)) }
{
    let mut scanner = Scanner::new(program.text, program.edition);
    let mut cut = CutSource {
        lexemes: Vec::new(alloc),
        places: Vec::new(alloc),
        across: None,
    };
    loop {
        let found = scanner.next();
        if is_end(found.lexeme) {
            return Ok(cut);
        }
        cut.take(program, &found)?;
    }
}

impl CutSource {
    fn take(&mut self, program: &Program<'_>, found: &PlacedPiece) -> Result<(), AllocError>
        ensures { IfOk result (λ done. TakesPiece found.now self.old self.new) }
    {
        match token_of(found) {
            Some((lexeme, place)) => {
                self.lexemes.push(lexeme)?;
                self.places.push(place)?;
            }
            None if ends_elsewhere(program, found) => self.across = Some(opening(found)),
            None => {}
        }
        Ok(())
    }
}

fn is_end(lexeme: Option<Lexeme>) -> bool
    ensures { result ≡ is_end lexeme }
{
    matches!(lexeme, Some(Lexeme::End))
}

// A piece as a token; a comment is none, and neither is what is wrong.
fn token_of(found: &PlacedPiece) -> Option<(Lexeme, TokenPlace)>
    ensures { result ≡ token_of found.now }
{
    match found.lexeme {
        None | Some(Lexeme::Bad(_)) => None,
        Some(lexeme) => Some((lexeme, place_of(found))),
    }
}

fn place_of(found: &PlacedPiece) -> TokenPlace
    ensures { result ≡ place_of found.now }
{
    TokenPlace {
        line: found.line,
        start: found.first,
        len: found.end.saturating_sub(found.first),
    }
}

// Whether a comment of the first file ends in another one.
fn ends_elsewhere(program: &Program<'_>, comment: &PlacedPiece) -> bool {
    let files = &program.files;
    if files.rest.is_empty() || files.beyond_first(comment.line).is_some() {
        return false;
    }
    let text = program.text.get(comment.first..comment.end).unwrap_or(&[]);
    let newlines = text.iter().filter(|byte| **byte == b'\n').count();
    let last = comment.line.saturating_add(newlines as u64);
    files.beyond_first(last).is_some()
}

// The two bytes with which a comment begins.
fn opening(comment: &PlacedPiece) -> TokenPlace {
    TokenPlace {
        line: comment.line,
        start: comment.first,
        len: 2,
    }
}
