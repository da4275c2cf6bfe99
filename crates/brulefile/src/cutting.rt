//! Cutting a text of B into its tokens.
use blex::{Lexeme, PlacedPiece, Scanner};
use bword::Edition;
use std::alloc::{AllocError, Global};

/// The tokens of a text, and where each begins.
#[derive(Drop)]
pub(crate) struct CutPattern {
    pub lexemes: Vec<Lexeme>,
    pub starts: Vec<usize>,
    /// Whether each piece of the text is a token.
    pub is_whole: bool,
}

/// Cuts a text, each piece of which has a byte at least.
pub(crate) fn cut(alloc: Global, text: &[u8]) -> Result<CutPattern, AllocError> {
    let mut scanner = Scanner::new(text, Edition::Two);
    let mut cut = CutPattern {
        lexemes: Vec::new(alloc),
        starts: Vec::new(alloc),
        is_whole: true,
    };
    for _ in 0..text.len() {
        let found = scanner.next();
        if matches!(found.lexeme, Some(Lexeme::End)) {
            return Ok(cut);
        }
        cut.take(&found)?;
    }
    Ok(cut)
}

impl CutPattern {
    fn take(&mut self, found: &PlacedPiece) -> Result<(), AllocError> {
        match found.lexeme {
            None | Some(Lexeme::Bad(_)) => self.is_whole = false,
            Some(lexeme) => {
                self.lexemes.push(lexeme)?;
                self.starts.push(found.first)?;
            }
        }
        Ok(())
    }
}
