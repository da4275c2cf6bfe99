//! The text of a source with its edits.
ghost use Rattle.std.specs.Prelude.{◌≡◌, ◌++◌, IfOk};
ghost use Rattle.bport.specs.Edits.{edited};

use crate::edit::{Edit, between};
use crate::source::{Draft, Source};
use btools::Text;
use std::alloc::{AllocError, Global};

/// A source with edits.
pub(crate) fn apply(alloc: Global, source: &[u8], edits: &[Edit]) -> Result<Text, AllocError>
    ensures { IfOk result (λ text. text ≡ edited source.now 0 edits.now) }
{
    let mut text = Text::new(alloc);
    let mut at: usize = 0;
    for edit in edits {
        text.push(between(source, at, edit.start))?;
        text.push(edit.text.as_slice())?;
        at = edit.end;
    }
    text.push(between(source, at, source.len()))?;
    Ok(text)
}

/// A text before another one.
pub fn joined(alloc: Global, own: &[u8], rest: &[u8]) -> Result<Text, AllocError>
    ensures { IfOk result (λ text. text ≡ own.now ++ rest.now) }
{
    let mut text = Text::new(alloc);
    text.push(own)?;
    text.push(rest)?;
    Ok(text)
}

/// The bytes between two places, with those of the edits that are among them.
pub(crate) fn render(
    draft: &Draft,
    source: &[u8],
    start: usize,
    end: usize,
) -> Result<Text, AllocError> {
    let mut text = Text::new(draft.alloc);
    let mut at = start;
    for edit in draft.edits_from(start) {
        if draft.ordered.is_some() && edit.start > end {
            break;
        }
        if edit.start >= at && edit.end <= end {
            text.push(between(source, at, edit.start))?;
            text.push(edit.text.as_slice())?;
            at = edit.end;
        }
    }
    text.push(between(source, at, end))?;
    Ok(text)
}

/// The text from a token up to the end of another one, with the edits so far.
pub(crate) fn rendered(
    source: &Source<'_>,
    draft: &Draft,
    first: usize,
    last: usize,
) -> Result<Text, AllocError> {
    render(draft, source.text, source.start(first), source.end(last))
}
