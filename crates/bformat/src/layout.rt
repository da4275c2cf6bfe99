//! The text of a source that is laid out.
use crate::gaps::{Gap, joins};
use crate::kind::ItemKind;
use crate::reading::SourceItem;
use crate::structure::{END, TokenLayout, spots};
use btools::Text;
use std::alloc::{AllocError, Global};

/// How many blanks a level has.
const LEVEL: usize = 4;

/// How many levels are indented at most. What is deeper stands as this level does, so a layout has at most some 160
/// bytes for each byte of its source.
const DEEPEST: usize = 40;

/// The pieces in the style of the house.
pub(crate) fn lay_out(alloc: Global, pieces: &[SourceItem<'_>]) -> Result<Text, AllocError> {
    let spots = spots(alloc, pieces)?;
    let mut spots = spots.as_slice();
    let mut layout = Layout::new(alloc);
    for index in 0..pieces.len() {
        let piece = &pieces[index];
        let spot = spots.first().unwrap_or(&END);
        if piece.kind == ItemKind::Comment {
            layout.put_comment(piece, spot, ends_line(pieces.get(index + 1)))?;
        } else {
            layout.put_token(piece, spot)?;
            spots = spots.get(1..).unwrap_or(&[]);
        }
    }
    layout.finish()
}

// Whether a line ends before the next piece.
fn ends_line(next: Option<&SourceItem<'_>>) -> bool {
    match next {
        Some(piece) => piece.breaks > 0,
        None => true,
    }
}

/// What was laid out so far.
#[derive(Drop)]
struct Layout {
    text: Text,
    before: Before,
}

/// What stands before the next piece.
#[derive(Clone, Copy, PartialEq, Eq)]
enum Before {
    /// Nothing.
    Start,
    /// A token, with its last byte.
    Token(u8),
    /// A comment, which a token comes after.
    Comment {
        /// The level of its line, if it began one.
        level: Option<usize>,
    },
}

impl Layout {
    fn new(alloc: Global) -> Self {
        Layout {
            text: Text::new(alloc),
            before: Before::Start,
        }
    }

    fn finish(self) -> Result<Text, AllocError> {
        let Layout { mut text, before } = self;
        if before != Before::Start {
            text.push(b"\n")?;
        }
        Ok(text)
    }

    fn put_token(&mut self, piece: &SourceItem<'_>, spot: &TokenLayout) -> Result<(), AllocError> {
        let first = piece.text.first().copied().unwrap_or(b' ');
        match self.before {
            Before::Start => {}
            Before::Token(last) => self.put_gap(piece, spot, joins(last, first))?,
            Before::Comment { level } => self.put_gap_after_comment(piece, spot, level)?,
        }
        let last = piece.text.last().copied().unwrap_or(b' ');
        self.before = Before::Token(last);
        self.text.push(piece.text)
    }

    fn put_gap(
        &mut self,
        piece: &SourceItem<'_>,
        spot: &TokenLayout,
        is_joined: bool,
    ) -> Result<(), AllocError> {
        match spot.gap {
            Gap::Nothing if !is_joined => Ok(()),
            Gap::Soft if piece.breaks > 0 => self.end_line(spot.level),
            Gap::Nothing | Gap::Blank | Gap::Soft => self.text.push(b" "),
            Gap::Line => self.end_line(spot.level),
            Gap::Paragraph => self.end_paragraph(piece, spot.level),
        }
    }

    // A comment that began a line may have the first token of a statement after it on the same line.
    fn put_gap_after_comment(
        &mut self,
        piece: &SourceItem<'_>,
        spot: &TokenLayout,
        level: Option<usize>,
    ) -> Result<(), AllocError> {
        let begins_line = matches!(spot.gap, Gap::Line | Gap::Paragraph);
        if piece.breaks == 0 && (!begins_line || level == Some(spot.level)) {
            return self.text.push(b" ");
        }
        if spot.gap == Gap::Paragraph {
            return self.end_paragraph(piece, spot.level);
        }
        self.end_line(spot.level)
    }

    fn put_comment(
        &mut self,
        piece: &SourceItem<'_>,
        spot: &TokenLayout,
        ends_line: bool,
    ) -> Result<(), AllocError> {
        let begins_line = piece.breaks > 0 || self.before == Before::Start;
        if self.before != Before::Start {
            if begins_line {
                self.end_paragraph(piece, spot.comments)?;
            } else if ends_line {
                self.text.push_blanks(piece.blanks.max(1))?;
            } else {
                self.text.push(b" ")?;
            }
        }
        self.before = Before::Comment {
            level: if begins_line {
                Some(spot.comments)
            } else {
                None
            },
        };
        self.text.push(piece.text)
    }

    // Ends the line, and leaves one empty where the source has one, but not at the beginning of a block.
    fn end_paragraph(&mut self, piece: &SourceItem<'_>, level: usize) -> Result<(), AllocError> {
        if piece.breaks > 1 && self.before != Before::Token(b'{') {
            self.text.push(b"\n")?;
        }
        self.end_line(level)
    }

    fn end_line(&mut self, level: usize) -> Result<(), AllocError> {
        self.text.push(b"\n")?;
        self.text
            .push_blanks(level.min(DEEPEST).saturating_mul(LEVEL))
    }
}
