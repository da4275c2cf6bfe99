//! The changes of a source, one after another.
ghost use Rattle.std.specs.Prelude.{◌≡◌, ◌≤◌, ◌++◌, IfOk, IfSome, None, OnOk, false, true};
ghost use Rattle.bcheck.specs.Checks.{status_told};
ghost use Rattle.bsources.specs.Files.{files_shown};
ghost use Rattle.bfix.specs.FixExcluded.{WrongFixes};
ghost use Rattle.bfix.specs.declared.fixing.TheConstants.{MOST_CHANGES};
ghost use Rattle.bfix.specs.Due.{IsSettled, are_all};
ghost use Rattle.bfix.specs.Fixes.{Fixes, IsFixed, IsFollowed, IsMade, setting_of};
ghost use Rattle.bfix.specs.LeftText.{left_text, left_words};
ghost use Rattle.bfix.specs.OwnText.{TellsBoth};

use crate::due::due;
use crate::edits::{edited, own_length};
use crate::keeping::keeps;
use crate::porting::verdict;
use bcheck::{Change, Tally, next_change, tally_on};
use blang::status::{self, Status};
use bport::joined;
use bsources::SourceFiles;
use btools::{Text, tell};
use bword::{ByteOut, Edition};
use std::alloc::{AllocError, Global};

/// The most changes of a source.
pub const MOST_CHANGES: usize = 1000;

/// How many bytes are looked at for one source, at most, each byte once for each change.
pub const LOOKED_BYTES: usize = 16777216;

/// A text that was fixed.
#[derive(Drop)]
pub struct FixedText {
    pub text: Text,
    /// A line for each change, the line of the first fault that is left, and a line that tells how many are.
    pub told: Text,
    /// The status of a check of it.
    pub status: Status,
}

/// A text, and the lines that tell how it came of another one.
#[derive(Drop)]
pub(crate) struct Led {
    pub text: Text,
    pub lines: Text,
}

/// What a text is fixed in: what comes after it in the source, and the most bytes that it may have.
#[derive(Clone, Copy)]
pub(crate) struct Frame<'a> {
    pub edition: Edition,
    pub files: SourceFiles<'a>,
    pub rest: &'a [u8],
    pub most: usize,
    /// Whether it is what an old source became, in which what looks like a call may be a statement.
    pub is_ported: bool,
}

/// Mends the first file of a source wherever that needs no choice, and writes it. The changes are told beside it, and
/// after them the first fault that is left, and how many faults or warnings are.
///
/// The status is that of a check of what was written. If memory runs out nothing is written.
pub fn fix<O: ByteOut, D: ByteOut>(
    alloc: Global,
    source: &[u8],
    edition: Edition,
    files: SourceFiles<'_>,
    out: &mut O,
    diag: &mut D,
) -> Status
    ensures fixes { Fixes (record {
      edition = edition;
      files = files_shown files.entry;
      source = source.now;
      out = O.outgoing out.old;
      out_after = O.outgoing out.new;
      line = D.outgoing diag.old;
      line_after = D.outgoing diag.new;
      status = result;
    }) }
    ensures out_lender { O.lender out.new ≡ O.lender out.old }
    ensures diag_lender { D.lender diag.new ≡ D.lender diag.old }
{
    let (own, rest) = source.split_at(own_length(source, files.first.lines));
    match fixed(alloc, edition, &files, own, rest) {
        Ok(fixed) => tell_both(&fixed, out, diag),
        Err(_) => status::MEMORY,
    }
}

/// Writes a text that was fixed, and what is told of it.
pub(crate) fn tell_both<O: ByteOut, D: ByteOut>(
    fixed: &FixedText,
    out: &mut O,
    diag: &mut D,
) -> Status
    ensures tells { TellsBoth fixed.now (O.outgoing out.old) (O.outgoing out.new) (D.outgoing diag.old)
        (D.outgoing diag.new) result }
    ensures out_lender { O.lender out.new ≡ O.lender out.old }
    ensures diag_lender { D.lender diag.new ≡ D.lender diag.old }
{
    let written = tell(fixed.text.as_slice(), status::DONE, out);
    if written != status::DONE {
        return written;
    }
    tell(fixed.told.as_slice(), fixed.status, diag)
}

/// A text, before others in a source of these files, mended wherever that needs no choice.
pub fn fixed(
    alloc: Global,
    edition: Edition,
    files: &SourceFiles<'_>,
    own: &[u8],
    rest: &[u8],
) -> Result<FixedText, AllocError>
    ensures { IfOk result (IsFixed edition (files_shown files.now) own.now rest.now) }
{
    let frame = Frame {
        edition,
        files: *files,
        rest,
        most: own.len().saturating_mul(2),
        is_ported: false,
    };
    let Led { text, lines } = follow(alloc, &frame, own)?;
    let whole = joined(alloc, text.as_slice(), rest)?;
    let tally = tally_on(alloc, whole.as_slice(), edition, files)?;
    let mut told = joined(alloc, lines.as_slice(), tally.verdict.first())?;
    push_left(&mut told, &tally)?;
    Ok(FixedText {
        text,
        told,
        status: tally.verdict.status(),
    })
}

// Adds the line that tells how many faults or warnings are left, if any are.
fn push_left(told: &mut Text, tally: &Tally) -> Result<(), AllocError>
    ensures { OnOk result (told.new ≡ told.old ++ left_text (status_told tally.now.verdict) tally.now.count) }
{
    if tally.count == 0 {
        return Ok(());
    }
    told.push(b"left: ")?;
    told.push_number(tally.count as u64)?;
    told.push(left_words(tally.verdict.status(), tally.count))?;
    told.push(b", which b check tells\n")
}

// What so many are, of a source of this status.
fn left_words(status: Status, count: usize) -> &'static [u8]
    ensures { result.now ≡ left_words status count }
{
    match (status, count) {
        (status::DONE, 1) => b" warning",
        (status::DONE, _) => b" warnings",
        (_, 1) => b" fault",
        _ => b" faults",
    }
}

/// Makes the changes of a text in turn.
pub(crate) fn follow(alloc: Global, frame: &Frame<'_>, own: &[u8]) -> Result<Led, AllocError>
    ensures { IfOk result (IsFollowed frame.now own.now) }
{
    let mut text = Text::new(alloc);
    text.push(own)?;
    let mut lines = Text::new(alloc);
    for count in 0..most_changes(own.len()) {
        let _ = count;
        let found = made(alloc, frame, text.as_slice())?;
        let Some(next) = found else {
            return Ok(Led { text, lines });
        };
        lines.push(next.lines.as_slice())?;
        text = next.text;
    }
    Ok(Led { text, lines })
}

// How many changes are made of a text of so many bytes, at most.
fn most_changes(len: usize) -> usize
    ensures most { result ≤ MOST_CHANGES }
    ensures all { are_all result len ≡ true }
{
    MOST_CHANGES.min(LOOKED_BYTES / len.max(1))
}

// What the next change makes of a text, and its line. Of a ported text that compiles nothing is changed: what a warning
// takes for a mistake an old program means.
fn made(alloc: Global, frame: &Frame<'_>, old: &[u8]) -> Result<Option<Led>, AllocError>
    ensures made { IfOk result (λ made. IfSome made (IsMade frame.now old.now)) }
    ensures settled { IfOk result (λ made. frame.now.is_ported ≡ false → made ≡ None
        → IsSettled (setting_of frame.now) old.now) }
{
    if frame.is_ported {
        return changed_of_fault(alloc, frame, old);
    }
    let found = changed(alloc, frame, old)?;
    if found.is_some() {
        return Ok(found);
    }
    due(alloc, frame, old)
}

// What the next change makes of a text that doesn't compile.
fn changed_of_fault(alloc: Global, frame: &Frame<'_>, old: &[u8]) -> Result<Option<Led>, AllocError>
    ensures { IfOk result (λ made. IfSome made (IsMade frame.now old.now)) }
{
    let (_, status) = verdict(alloc, old, frame.rest, frame.edition)?;
    if status == status::FAULT {
        changed(alloc, frame, old)
    } else {
        Ok(None)
    }
}

// What the next change that a finding asks for makes of a text. No comment and no string is lost by it.
fn changed(alloc: Global, frame: &Frame<'_>, old: &[u8]) -> Result<Option<Led>, AllocError>
    ensures { IfOk result (λ made. IfSome made (IsMade frame.now old.now)) }
{
    let whole = joined(alloc, old, frame.rest)?;
    let found = next_change(
        alloc,
        whole.as_slice(),
        frame.edition,
        &frame.files,
        old.len(),
    )?;
    let Some(change) = found else {
        return Ok(None);
    };
    let Change {
        start,
        len,
        text: words,
        line,
    } = change;
    if len > old.len() || start > old.len() - len {
        return Ok(None);
    }
    let text = edited(alloc, old, start, len, words.as_slice())?;
    let new = joined(alloc, text.as_slice(), frame.rest)?;
    let is_small = text.as_slice().len() <= frame.most;
    if is_small && keeps(alloc, frame.edition, whole.as_slice(), new.as_slice())? {
        Ok(Some(Led { text, lines: line }))
    } else {
        Ok(None)
    }
}

/// What no fix writes: a text that has lost a comment or a string, that is more than twice as long, or that is another
/// one than the source where no edit mends it, or where it is right. And no fix ends with another status than that of
/// what it wrote, or is silent of what is left.
pub fn wrong_fixes_are_excluded()
    ensures { WrongFixes }
{}
