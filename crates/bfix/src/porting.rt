//! Porting a source, and mending what comes of it.
ghost use Rattle.std.specs.Prelude.{◌≡◌, ◌++◌, ◌||◌, [], IfOk, true};
ghost use Rattle.std.specs.List.{list_any};
ghost use Rattle.bsources.specs.Files.{files_shown};
ghost use Rattle.bport.specs.Edits.{is_reason};
ghost use Rattle.bport.specs.Staying.{refuses};
ghost use Rattle.bfix.specs.Ports.{HasVerdict, IsLedOn, IsTold, Ports, edits_told, verdict_status, verdict_text};

use crate::edits::own_length;
use crate::fixing::{FixedText, Frame, Led, follow, tell_both};
use blang::status::{self, Status};
use bport::{Ported, has_refused, joined, port_text, push_changes, push_notes};
use bsources::SourceFiles;
use btools::{Origin, ProgramFault, Text, diagnostic_line, load_line, read_program};
use bword::{ByteOut, Edition};
use std::alloc::{AllocError, Global};

/// Ports a source of an old or a later form of B: the first file of these, to this edition. A source that compiles and
/// loads stays as it is. Of any other one what comes of it is mended wherever that needs no choice.
///
/// It is written by one call of a stream. Then the edits are told, what was left, the changes that mend it, and the
/// line of what comes out, if that doesn't compile or load. The status is that of compiling and loading it.
pub fn port<O: ByteOut, D: ByteOut>(
    alloc: Global,
    source: &[u8],
    edition: Edition,
    files: SourceFiles<'_>,
    out: &mut O,
    diag: &mut D,
) -> Status
    ensures ports { Ports (record {
      edition = edition;
      files = files_shown files.entry;
      source = source.now;
      out = O.outgoing out.old;
      out_after = O.outgoing out.new;
      line = D.outgoing diag.old;
      line_after = D.outgoing diag.new;
      status = result;
    }) }
    ensures out_lender { O.lender out.new ≡ O.lender out.old }
    ensures diag_lender { D.lender diag.new ≡ D.lender diag.old }
{
    let (own, rest) = source.split_at(own_length(source, files.first.lines));
    match ported_text(alloc, edition, &files, own, rest) {
        Ok(made) => tell_both(&made, out, diag),
        Err(_) => status::MEMORY,
    }
}

// Ports a text that these bytes follow, and says what is told of it.
fn ported_text(
    alloc: Global,
    edition: Edition,
    files: &SourceFiles<'_>,
    own: &[u8],
    rest: &[u8],
) -> Result<FixedText, AllocError>
    ensures { IfOk result (IsTold edition (files_shown files.now) own.now rest.now) }
{
    let ported = port_text(alloc, own, rest, edition)?;
    let edits = edits_told(alloc, files.first.name, own, &ported)?;
    let frame = Frame {
        edition,
        files: *files,
        rest,
        most: ported.text.as_slice().len().saturating_mul(2),
        is_ported: true,
    };
    let Led { text, lines } = led_on(alloc, &frame, &ported)?;
    let changes = joined(alloc, edits.as_slice(), lines.as_slice())?;
    let (line, status) = verdict(alloc, text.as_slice(), rest, edition)?;
    let told = joined(alloc, changes.as_slice(), line.as_slice())?;
    Ok(FixedText { text, told, status })
}

// The list of the edits, and the notes.
fn edits_told(alloc: Global, file: &str, own: &[u8], ported: &Ported) -> Result<Text, AllocError>
    ensures { IfOk result (λ told. told ≡ edits_told file.now own.now ported.now.edits.items ported.now.notes.items) }
{
    let mut told = Text::new(alloc);
    push_changes(alloc, &mut told, file, own, &ported.edits)?;
    push_notes(&mut told, file, own, &ported.notes)?;
    Ok(told)
}

// Makes the changes of what is no program, unless it can't be read.
fn led_on(alloc: Global, frame: &Frame<'_>, ported: &Ported) -> Result<Led, AllocError>
    ensures { IfOk result (IsLedOn frame.now ported.now) }
{
    let stays = stays(ported);
    if stays {
        let led = unchanged(alloc, ported.text.as_slice())?;
        return Ok(led);
    }
    let led = follow(alloc, frame, ported.text.as_slice())?;
    Ok(led)
}

// Whether nothing leads on from a ported text.
fn stays(ported: &Ported) -> bool
    ensures { result ≡ (ported.now.is_program || list_any refuses ported.now.notes.items) }
{
    ported.is_program || has_refused(ported.notes.as_slice())
}

// A text to which nothing led but itself.
fn unchanged(alloc: Global, own: &[u8]) -> Result<Led, AllocError>
    ensures text { IfOk result (λ led. led.text ≡ own.now) }
    ensures lines { IfOk result (λ led. led.lines ≡ []) }
{
    let mut text = Text::new(alloc);
    text.push(own)?;
    Ok(Led {
        text,
        lines: Text::new(alloc),
    })
}

/// The line and the status of compiling and loading a text that these bytes follow.
pub(crate) fn verdict(
    alloc: Global,
    own: &[u8],
    rest: &[u8],
    edition: Edition,
) -> Result<(Text, Status), AllocError>
    ensures { IfOk result (λ it. HasVerdict edition (own.now ++ rest.now) it.0 it.1) }
{
    let whole = joined(alloc, own, rest)?;
    match read_program(alloc, whole.as_slice(), Origin::Source(edition)) {
        Ok(_) => Ok((Text::new(alloc), status::DONE)),
        Err(fault) => fault_text(alloc, &fault),
    }
}

fn fault_text(alloc: Global, fault: &ProgramFault) -> Result<(Text, Status), AllocError>
    ensures { IfOk result (λ it. (it.0 ≡ verdict_text fault.now) × (it.1 ≡ verdict_status fault.now)
        × (is_reason fault.now ≡ true)) }
{
    let mut text = Text::new(alloc);
    match fault {
        ProgramFault::Faulty(diagnostic) => {
            let line = diagnostic_line(alloc, diagnostic)?;
            text.push(line.bytes())?;
            Ok((text, status::FAULT))
        }
        ProgramFault::Unloaded(fault) => match load_line(fault) {
            Some(line) => {
                text.push(line)?;
                Ok((text, status::REFUSED))
            }
            None => Err(AllocError),
        },
        _ => Err(AllocError),
    }
}
