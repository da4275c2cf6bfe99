//! Checking a source.
ghost use Rattle.std.specs.Prelude.{◌≡◌, ◌++◌, IfOk};
ghost use Rattle.bcheck.specs.Checks.{AreFindings, Checks, Outcome, TellsFirst, verdict_line, shown_in_form};
ghost use Rattle.bcheck.specs.CheckExcluded.{Excluded};
ghost use Rattle.bsources.specs.Files.{Files, files_shown};
ghost use Rattle.bcheck.specs.declared.form.FindingForm.{FindingForm};

use crate::explain::explain;
use crate::form::{FindingForm, Request};
use crate::spans::SourceText;
use crate::verdict::{Verdict, judge};
use blang::status::{self, Status};
use btools::{Text, tell};
use bword::ByteOut;
use std::alloc::{AllocError, Global};

/// Says what is wrong with a source, if something is: first the very line that compiling it or running its code
/// writes, and then for a reader where and why, and how to fix it. If nothing is wrong, it tells what is probably a
/// mistake.
///
/// The status is 0 if the source compiles and its code loads, a missing `main` aside; 1 for a fault of the source; and
/// 132 for code that doesn't load. All is written by one call of the stream, and nothing if memory runs out.
pub fn check<O: ByteOut>(alloc: Global, source: &[u8], asked: Request<'_>, out: &mut O) -> Status
    ensures checks { Checks (record {
      edition = asked.entry.edition;
      form = asked.entry.form;
      files = files_shown asked.entry.files;
      source = source.now;
      out = O.outgoing out.old;
      out_after = O.outgoing out.new;
      status = result;
    }) }
    ensures out_lender { O.lender out.new ≡ O.lender out.old }
{
    let text = SourceText {
        text: source,
        edition: asked.edition,
    };
    let Ok(judgement) = judge(alloc, text) else {
        return status::MEMORY;
    };
    let Ok(more) = explain(alloc, text, asked, &judgement) else {
        return status::MEMORY;
    };
    let verdict = &judgement.verdict;
    let first = shown(asked.form, verdict);
    tell_both(alloc, first, more.as_slice(), verdict.status(), out)
}

// What comes first in this form.
fn shown<'a>(form: FindingForm, verdict: &'a Verdict) -> &'a [u8]
    ensures { result.now ≡ shown_in_form form (verdict_line verdict.now) }
{
    match form {
        FindingForm::Text => verdict.first(),
        FindingForm::Json => b"",
    }
}

// Writes a text after another, and answers this status or that of a refused write.
fn tell_both<O: ByteOut>(
    alloc: Global,
    first: &[u8],
    more: &[u8],
    status: Status,
    out: &mut O,
) -> Status
    ensures tells { (form : FindingForm) (o : Outcome) (files : Files) → AreFindings form o status files more.now
        → TellsFirst form o files first.now status (O.outgoing out.old) (O.outgoing out.new) result }
    ensures out_lender { O.lender out.new ≡ O.lender out.old }
{
    match both(alloc, first, more) {
        Ok(text) => tell(text.as_slice(), status, out),
        Err(_) => status::MEMORY,
    }
}

// A text after another.
fn both(alloc: Global, first: &[u8], more: &[u8]) -> Result<Text, AllocError>
    ensures { IfOk result (λ text. text ≡ first.now ++ more.now) }
{
    let mut text = Text::new(alloc);
    text.push(first)?;
    text.push(more)?;
    Ok(text)
}

/// What no check tells: another status than the source's, one of a write that failed where none did, nothing where a rule
/// speaks of a token, the line of the other edition, an edit that changes nothing.
pub fn wrong_checks_are_excluded()
    ensures { Excluded }
{}
