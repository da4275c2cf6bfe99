//! Laying a source out.
ghost use Rattle.std.specs.Prelude.{ℕ, List, ◌≡◌, ◌≤◌, ◌*◌, IfOk, IsTrue, MatchOption, false, length, true};
ghost use Rattle.bword.specs.declared.edition.Edition.{Edition};
ghost use Rattle.bformat.specs.FormatExcluded.{ChecksAsWritten, WrongLayouts};
ghost use Rattle.bformat.specs.Formats.{FormatsBy, IsLayout, Shows, has_wrong_token};
ghost use Rattle.bformat.specs.Readings.{AreRead};
ghost use Rattle.btools.specs.Programs.{WasCompiled};

use crate::layout::lay_out;
use crate::reading::{SourceItem, has_pieces, read};
use blang::status::{self, Status};
use bparse::compile_edition;
use btools::{Text, tell};
use bword::{ByteOut, Edition, MemIn, MemOut};
use std::alloc::{AllocError, Global};

/// The status where a source was only looked at, and would be laid out otherwise.
pub const CHANGES: Status = 2;

/// A layout has at most so many bytes for each byte of its source.
pub const MOST_BYTES: usize = 163;

/// A style of layouts. `format` knows nothing of it, so what it writes or compares can only come from a call.
pub trait Style {
    // What is a layout of a source in an edition.
    ghost lays: { Edition → List ℕ → List ℕ → Type 0 };

    /// The layout of a source, or nothing if a token of the source is wrong.
    ///
    /// # Errors
    ///
    /// If memory was refused.
    fn lay_out(
        &self,
        alloc: Global,
        source: &[u8],
        edition: Edition,
    ) -> Result<Option<Text>, AllocError>
        ensures lays { IfOk result (λ found. MatchOption found (has_wrong_token edition source.now ≡ true)
            (λ text. (has_wrong_token edition source.now ≡ false) × lays edition source.now text)) };
}

/// The one style of the house.
pub struct House;

impl Style for House {
    ghost lays = { IsLayout };

    fn lay_out(
        &self,
        alloc: Global,
        source: &[u8],
        edition: Edition,
    ) -> Result<Option<Text>, AllocError> {
        match read(alloc, source, edition)? {
            Some(pieces) => Ok(Some(layout(alloc, source, edition, &pieces)?)),
            None => Ok(None),
        }
    }
}

/// Lays a source out in a style: its tokens and comments stay, and only what is blank between them changes. For a
/// check nothing is written, and the status says whether the source is laid out already.
///
/// The status is 0, or 2 for a check of a source that would change. If a token of the source is wrong, the line of the
/// compiler is told, and the status is 1. All is written by one call of a stream.
pub fn format<S: Style, O: ByteOut, D: ByteOut>(
    style: &S,
    alloc: Global,
    source: &[u8],
    edition: Edition,
    is_check: bool,
    out: &mut O,
    diag: &mut D,
) -> Status
    ensures formats { FormatsBy S.lays (record {
      edition = edition;
      source = source.now;
      is_check = is_check;
      out = O.outgoing out.old;
      out_after = O.outgoing out.new;
      line = D.outgoing diag.old;
      line_after = D.outgoing diag.new;
      status = result;
    }) }
    ensures out_lender { O.lender out.new ≡ O.lender out.old }
    ensures diag_lender { D.lender diag.new ≡ D.lender diag.old }
{
    match style.lay_out(alloc, source, edition) {
        Ok(Some(text)) => show(text.as_slice(), source, is_check, out),
        Ok(None) => tell_fault(alloc, source, edition, diag),
        Err(_) => status::MEMORY,
    }
}

// Tells the first fault of a source.
fn tell_fault<D: ByteOut>(alloc: Global, source: &[u8], edition: Edition, diag: &mut D) -> Status
    ensures compiled { (code : List ℕ) × WasCompiled edition source.now (D.outgoing diag.old) (D.outgoing diag.new) code result }
    ensures lender { D.lender diag.new ≡ D.lender diag.old }
{
    let mut code = MemOut::new(alloc);
    compile_edition(alloc, &mut MemIn::new(source), &mut code, diag, edition)
}

// What was made of the source if it is a layout of it, and else the source as it is.
fn layout(
    alloc: Global,
    source: &[u8],
    edition: Edition,
    pieces: &[SourceItem<'_>],
) -> Result<Text, AllocError>
    requires { AreRead edition source.now pieces.now }
    ensures { IfOk result (IsLayout edition source.now) }
{
    let text = lay_out(alloc, pieces)?;
    if !is_within(text.as_slice(), source) {
        return unchanged(alloc, source);
    }
    if has_pieces(text.as_slice(), edition, pieces) {
        return Ok(text);
    }
    unchanged(alloc, source)
}

fn is_within(text: &[u8], source: &[u8]) -> bool
    ensures { IsTrue result → length text.now ≤ MOST_BYTES * length source.now }
{
    text.len() <= source.len().saturating_mul(MOST_BYTES)
}

fn unchanged(alloc: Global, source: &[u8]) -> Result<Text, AllocError>
    ensures { IfOk result (λ text. text ≡ source.now) }
{
    let mut text = Text::new(alloc);
    text.push(source)?;
    Ok(text)
}

// Writes the text, or says whether it differs from the source.
fn show<O: ByteOut>(text: &[u8], source: &[u8], is_check: bool, out: &mut O) -> Status
    ensures shows { Shows is_check text.now source.now (O.outgoing out.old) (O.outgoing out.new) result }
    ensures lender { O.lender out.new ≡ O.lender out.old }
{
    if !is_check {
        return tell(text, status::DONE, out);
    }
    if text == source {
        status::DONE
    } else {
        CHANGES
    }
}

/// No source that compiles is told that it can't be laid out, and no layout has other tokens or comments.
pub fn wrong_layouts_are_excluded()
    ensures { WrongLayouts }
{}

/// Where a style has one layout for each source, a check answers 0 just where the source is written as it is.
pub fn a_check_is_of_what_is_written()
    ensures { ChecksAsWritten }
{}
