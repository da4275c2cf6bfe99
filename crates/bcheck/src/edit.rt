//! Edits of a source, and where each stands.
ghost use Rattle.std.specs.List.{All};
ghost use Rattle.std.specs.Prelude.{◌≡◌, ◌+◌, ◌<◌, ◌++◌, IfSome, drop, is_some, min, not, take, true};
ghost use Rattle.bword.specs.ByteEnds.{most};
ghost use Rattle.bsources.specs.Files.{files_shown};
ghost use Rattle.bcheck.specs.Checks.{goes_on, is_in_line, is_on_line};
ghost use Rattle.bword.specs.Words.{same_name};
ghost use Rattle.bcheck.specs.Findings.{IsEdit, IsMilestone, IsPlaced, changes_line};

use crate::excerpt::{left_length, line_length};
use crate::places::{Milestone, parts, position};
use bsources::{FileLine, SourceFiles};
use btools::Text;
use bword::Name;

/// The most bytes that are shown of a line with an edit, and of those before its text. A mark tells that it goes on.
const SHOWN_BYTES: usize = 57;

const SHOWN_BEFORE: usize = 30;

/// A text in the place of some bytes of a source.
#[derive(Drop)]
pub(crate) struct Proposal {
    /// The place of the first byte that it takes out, and how many it takes out.
    pub start: usize,
    pub len: usize,
    pub text: Text,
    /// The name that was found fault with.
    pub name: Option<Name>,
    /// Whether it is for a person to choose it.
    pub is_choice: bool,
    /// Whether it mends nothing if something else on its line is wrong.
    pub is_guess: bool,
    /// Whether it mends a fault whatever else its line has.
    pub is_sure: bool,
}

/// An edit within a line of a source, and the bytes that are shown before its text and after it.
#[derive(Clone, Copy)]
pub(crate) struct Edit<'a> {
    pub at: FileLine<'a>,
    /// Whether the source has several files.
    pub is_of_several: bool,
    pub column: usize,
    /// The column, and the one after the bytes that it takes out, in units of UTF-16.
    pub unit: usize,
    pub unit_end: usize,
    pub start: usize,
    pub len: usize,
    pub left: &'a [u8],
    pub text: &'a [u8],
    pub right: &'a [u8],
    /// Whether the line goes on after what is shown.
    pub is_cut: bool,
}

impl Edit<'_> {
    /// The column after the bytes that it takes out.
    pub(crate) fn end(&self) -> u64
        ensures { result ≡ min (self.now.column + self.now.len) most }
    {
        (self.column as u64).saturating_add(self.len as u64)
    }
}

/// The edit that a proposal is, if it changes something, within one line, and its text can be printed.
pub(crate) fn edit_of<'a>(
    source: &'a [u8],
    files: &SourceFiles<'a>,
    milestones: &[Milestone],
    proposal: &'a Proposal,
) -> Option<Edit<'a>>
    requires { All (IsMilestone source.now) milestones.now }
    ensures edit { IfSome result (IsEdit (files_shown files.now) source.now
        (take proposal.now.start source.now
        ++ (proposal.now.text ++ drop proposal.now.len (drop proposal.now.start source.now)))) }
    ensures places { IfSome result (IsPlaced source.now proposal.now) }
    ensures some { changes_line (take proposal.now.len (drop proposal.now.start source.now)) proposal.now.text ≡ true
        → is_some result ≡ true }
{
    let (before, rest) = parts(source, proposal.start);
    let (old, after) = parts(rest, proposal.len);
    let text = proposal.text.as_slice();
    if !is_in_line(old) || !is_on_line(text) || !differs(text, old) {
        return None;
    }
    let (line, column, units) = position(source, milestones, proposal.start);
    let wanted = left_length(column, text.len(), SHOWN_BYTES, SHOWN_BEFORE);
    let left_len = wanted.min(before.len());
    let (_, left) = before.split_at(before.len() - left_len);
    let room = SHOWN_BYTES.saturating_sub(left_len.saturating_add(text.len()));
    let (right, following) = after.split_at(line_length(after, room));
    Some(Edit {
        at: files.own_line(line),
        is_of_several: !files.rest.is_empty(),
        column,
        unit: units.column,
        unit_end: units.along(rest, old.len()).column,
        start: before.len(),
        len: old.len(),
        left,
        text,
        right,
        is_cut: goes_on(following),
    })
}

fn differs(text: &[u8], old: &[u8]) -> bool
    ensures { result ≡ not (same_name text.now old.now) }
{
    text != old
}

// Whether a line goes on with these bytes.
fn goes_on(bytes: &[u8]) -> bool
    ensures { result ≡ goes_on bytes.now }
{
    match bytes.first() {
        Some(byte) => *byte != b'\n',
        None => false,
    }
}

// Whether no newline is among bytes.
fn is_in_line(bytes: &[u8]) -> bool
    ensures { result ≡ is_in_line bytes.now }
{
    bytes.iter().all(|byte| *byte != b'\n')
}

// Whether a text is one on a line, of ASCII that can be printed.
fn is_on_line(text: &[u8]) -> bool
    ensures { result ≡ is_on_line text.now }
{
    text.iter().all(|byte| matches!(*byte, b' '..=b'~'))
}
