//! Checking a source by rules, and finding a pattern in it.
ghost use Rattle.std.specs.Prelude.{◌≡◌, ◌⊎◌, IfOk, List};
ghost use Rattle.bword.specs.ByteEnds.{Outgoing};
ghost use Rattle.blang.specs.Reports.{Reported};
ghost use Rattle.blang.specs.declared.code.Definition.{Definition};
ghost use Rattle.blang.specs.declared.status.TheConstants.{FAULT, MEMORY};
ghost use Rattle.bsources.specs.Files.{files_shown};
ghost use Rattle.btools.specs.Programs.{IsCodeOf};
ghost use Rattle.bfind.specs.Finds.{ChecksBy, Finds, IsFaultOf, TellsFound, TellsPlaces, TellsWarnings, TellsWhere};
ghost use Rattle.bfind.specs.Finds.{fault_line, tells_more};

use crate::looking::found_in;
use crate::own::{OwnRules, read_own};
use crate::telling::{Setting, Severity, places_text};
use bcheck::{Fragment, Request, check, milestones, push_all};
use blang::Diagnostic;
use blang::status::{self, Status};
use bparse::Unwatched;
use btools::{Text, compile_source, tell};
use bword::{ByteOut, Edition};
use std::alloc::{AllocError, Global};

/// A text of rules, and the name of its file.
#[derive(Clone, Copy)]
pub struct Ruled<'a> {
    pub file: &'a str,
    pub text: &'a [u8],
}

/// Checks a source as `check` does, and then tells where the rules of a text fit in its first file. Of a source with a
/// fault nothing more is told. The first fault of the text is told beside the output, and then the source isn't looked
/// at.
pub fn check_by<O: ByteOut, D: ByteOut>(
    alloc: Global,
    source: &[u8],
    asked: Request<'_>,
    ruled: Ruled<'_>,
    out: &mut O,
    diag: &mut D,
) -> Status
    ensures checks { ChecksBy asked.entry.edition asked.entry.form (files_shown asked.entry.files) source.now
        ruled.entry.file.now (O.outgoing out.old) (O.outgoing out.new) (D.outgoing diag.old) (D.outgoing diag.new)
        result }
    ensures out_lender { O.lender out.new ≡ O.lender out.old }
    ensures diag_lender { D.lender diag.new ≡ D.lender diag.old }
{
    match read_own(alloc, ruled.file, ruled.text, diag) {
        Ok(own) => {
            let checked = check(alloc, source, asked, out);
            tell_more(alloc, source, asked, &own, checked, out)
        }
        Err(status) => status,
    }
}

// Tells where rules fit in a source whose check had this status, unless it had a fault.
fn tell_more<O: ByteOut>(
    alloc: Global,
    source: &[u8],
    asked: Request<'_>,
    own: &OwnRules,
    checked: Status,
    out: &mut O,
) -> Status
    ensures tells { TellsWhere (tells_more checked) asked.entry.edition asked.entry.form (files_shown asked.entry.files)
        source.now checked (O.outgoing out.old) (O.outgoing out.new) result }
    ensures out_lender { O.lender out.new ≡ O.lender out.old }
{
    if tells_more(checked) {
        tell_warnings(alloc, source, asked, own, checked, out)
    } else {
        checked
    }
}

// Whether this is the status of a source that compiles.
fn tells_more(checked: Status) -> bool
    ensures { result ≡ tells_more checked }
{
    checked == status::DONE || checked == status::REFUSED
}

fn tell_warnings<O: ByteOut>(
    alloc: Global,
    source: &[u8],
    asked: Request<'_>,
    own: &OwnRules,
    checked: Status,
    out: &mut O,
) -> Status
    ensures tells { TellsWarnings asked.entry.edition asked.entry.form (files_shown asked.entry.files) source.now checked
        (O.outgoing out.old) (O.outgoing out.new) result }
    ensures out_lender { O.lender out.new ≡ O.lender out.old }
{
    match told_in(alloc, source, asked, Severity::Warning, own) {
        Ok(text) => tell(text.as_slice(), checked, out),
        Err(_) => status::MEMORY,
    }
}

/// Tells where a pattern fits in a source, and whether it fits: the status is 0 or 1. The line of a fault of the source
/// is told beside the output, and then it isn't looked at.
pub fn find_in<O: ByteOut, D: ByteOut>(
    alloc: Global,
    source: &[u8],
    asked: Request<'_>,
    own: &OwnRules,
    out: &mut O,
    diag: &mut D,
) -> Status
    ensures finds { Finds asked.entry.edition asked.entry.form (files_shown asked.entry.files) source.now own.now
        (O.outgoing out.old) (O.outgoing out.new) (D.outgoing diag.old) (D.outgoing diag.new) result }
    ensures out_lender { O.lender out.new ≡ O.lender out.old }
    ensures diag_lender { D.lender diag.new ≡ D.lender diag.old }
{
    match fault_of(alloc, source, asked.edition) {
        Ok(None) => find_told(alloc, source, asked, own, out),
        Ok(Some(fault)) => refuse(alloc, &asked, &fault, diag),
        Err(_) => status::MEMORY,
    }
}

// The fault of a source, if it has one.
fn fault_of(
    alloc: Global,
    source: &[u8],
    edition: Edition,
) -> Result<Option<Diagnostic>, AllocError>
    ensures { IfOk result (IsFaultOf edition source.now) }
{
    let compiled = compile_source(alloc, source, edition, &mut Unwatched)?;
    match &compiled {
        Ok(_) => Ok(None),
        Err(fault) => Ok(Some(*fault)),
    }
}

fn find_told<O: ByteOut>(
    alloc: Global,
    source: &[u8],
    asked: Request<'_>,
    own: &OwnRules,
    out: &mut O,
) -> Status
    ensures finds { (ds : List Definition) (line : Outgoing) → IsCodeOf asked.entry.edition source.now ds
        → Finds asked.entry.edition asked.entry.form (files_shown asked.entry.files) source.now own.now
        (O.outgoing out.old) (O.outgoing out.new) line line result }
    ensures out_lender { O.lender out.new ≡ O.lender out.old }
{
    match told_in(alloc, source, asked, Severity::Note, own) {
        Ok(text) => tell_found(text.as_slice(), out),
        Err(_) => status::MEMORY,
    }
}

// Tells where rules fit, if they do.
fn tell_found<O: ByteOut>(text: &[u8], out: &mut O) -> Status
    ensures tells { TellsFound text.now (O.outgoing out.old) (O.outgoing out.new) result }
    ensures out_lender { O.lender out.new ≡ O.lender out.old }
{
    if text.is_empty() {
        status::FAULT
    } else {
        tell(text, status::DONE, out)
    }
}

// What is told of the places of a source where rules fit.
fn told_in(
    alloc: Global,
    source: &[u8],
    asked: Request<'_>,
    severity: Severity,
    own: &OwnRules,
) -> Result<Text, AllocError>
    ensures { IfOk result (TellsPlaces asked.entry.edition asked.entry.form (files_shown asked.entry.files) severity
        source.now own.now) }
{
    let found = found_in(alloc, source, &asked, own)?;
    let milestones = milestones(alloc, source)?;
    let setting = Setting {
        source,
        asked,
        severity,
        words: own.words.as_slice(),
        milestones: milestones.as_slice(),
    };
    places_text(alloc, &setting, &found)
}

// Tells the line of a fault of a source.
fn refuse<D: ByteOut>(
    alloc: Global,
    asked: &Request<'_>,
    fault: &Diagnostic,
    diag: &mut D,
) -> Status
    ensures told { Reported (fault_line (files_shown asked.now.files).first.name fault.now.line) FAULT
        (D.outgoing diag.old) (D.outgoing diag.new) result
        ⊎ ((D.outgoing diag.new ≡ D.outgoing diag.old) × (result ≡ MEMORY)) }
    ensures diag_lender { D.lender diag.new ≡ D.lender diag.old }
{
    match fault_line(alloc, asked, fault) {
        Ok(line) => tell(line.as_slice(), status::FAULT, diag),
        Err(_) => status::MEMORY,
    }
}

fn fault_line(alloc: Global, asked: &Request<'_>, fault: &Diagnostic) -> Result<Text, AllocError>
    ensures { IfOk result (λ line. line ≡ fault_line (files_shown asked.now.files).first.name fault.now.line) }
{
    let mut line = Text::new(alloc);
    push_all(
        &mut line,
        &[
            Fragment::File(asked.files.first.name.as_bytes()),
            Fragment::Words(b":"),
            Fragment::Number(fault.line),
            Fragment::Words(b": error: the source has a fault here, of which b check tells\n"),
        ],
    )?;
    Ok(line)
}
