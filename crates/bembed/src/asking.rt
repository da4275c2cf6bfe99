//! What is asked of a source, and of the library.
ghost use Rattle.std.specs.Prelude.{◌≡◌, []};
ghost use Rattle.bcheck.specs.Checks.{Checks};
ghost use Rattle.bembed.specs.Asks.{ChecksIn, FormatsIn, SaysIn, check_of};
ghost use Rattle.bembed.specs.Calls.{edition_of, InEdition};
ghost use Rattle.bembed.specs.Wholes.{alone};
ghost use Rattle.bsources.specs.Files.{followed};

use crate::before::Before;
use crate::calls::{edition_of, refuse};
use crate::joined::FILE;
use crate::room::{Room, Written};
use bcheck::{FindingForm, Request, check};
use bformat::{House, format};
use blang::status::{self, Status};
use bsources::{Following, SourceFile, SourceFiles};
use btools::tell;
use bword::{ByteOut, Edition};
use std::alloc::Global;

/// The version, which is that of the program `b`.
const VERSION: &str = "1.0.0, proved with the Rattle logic dac8208d650f15bf";

/// Tells what is wrong with a source, as `check` does for an editor: an object on each line. The line stays empty.
#[unsafe(no_mangle)]
pub extern "C" fn b_check(
    alloc: Global,
    source: &[u8],
    edition: u8,
    out: &mut [u8],
    written: &mut Written,
) -> u8
    ensures checks { InEdition (edition_of edition)
        (record { before = out.old; after = out.new; count = written.new.out })
        (record { before = []; after = []; count = written.new.line }) result
        (ChecksIn source.now
        (record { before = out.old; after = out.new; count = written.new.out })
        (record { before = []; after = []; count = written.new.line }) result) }
{
    let Some(edition) = edition_of(edition) else {
        return refuse(written);
    };
    written.line = 0;
    let before = Before::of(out);
    let mut out = Room::new(out, &before, &mut written.out);
    check_alone(alloc, source, edition, &mut out)
}

// Checks a source without files that follow it.
fn check_alone<O: ByteOut>(alloc: Global, source: &[u8], edition: Edition, out: &mut O) -> Status
    ensures checks { Checks (check_of edition (alone source.now) source.now
        (O.outgoing out.old) (O.outgoing out.new) result) }
    ensures out_lender { O.lender out.new ≡ O.lender out.old }
{
    let rest = Following::new(alloc);
    check_before(alloc, source, edition, &rest, out)
}

// Checks a source before these files.
fn check_before<O: ByteOut>(
    alloc: Global,
    source: &[u8],
    edition: Edition,
    rest: &Following<'_>,
    out: &mut O,
) -> Status
    ensures checks { rest.now ≡ followed []
        → Checks (check_of edition (alone source.now) source.now
        (O.outgoing out.old) (O.outgoing out.new) result) }
    ensures out_lender { O.lender out.new ≡ O.lender out.old }
{
    let first = SourceFile::new(FILE, source);
    let request = Request {
        edition,
        files: SourceFiles { first, rest },
        form: FindingForm::Json,
    };
    check(alloc, source, request, out)
}

/// Lays a source out in the style of the house, as `format` does.
#[unsafe(no_mangle)]
pub extern "C" fn b_format(
    alloc: Global,
    source: &[u8],
    edition: u8,
    out: &mut [u8],
    line: &mut [u8],
    written: &mut Written,
) -> u8
    ensures formats { InEdition (edition_of edition)
        (record { before = out.old; after = out.new; count = written.new.out })
        (record { before = line.old; after = line.new; count = written.new.line }) result
        (FormatsIn source.now
        (record { before = out.old; after = out.new; count = written.new.out })
        (record { before = line.old; after = line.new; count = written.new.line }) result) }
{
    let Some(edition) = edition_of(edition) else {
        return refuse(written);
    };
    let (out_before, line_before) = (Before::of(out), Before::of(line));
    let mut out = Room::new(out, &out_before, &mut written.out);
    let mut line = Room::new(line, &line_before, &mut written.line);
    format(&House, alloc, source, edition, false, &mut out, &mut line)
}

/// Writes the version of the library, that of the program `b`.
#[unsafe(no_mangle)]
pub extern "C" fn b_version(out: &mut [u8], written: &mut Written) -> u8
    ensures says { SaysIn VERSION.now
        (record { before = out.old; after = out.new; count = written.new.out })
        (record { before = []; after = []; count = written.new.line }) result }
{
    written.line = 0;
    let before = Before::of(out);
    let mut out = Room::new(out, &before, &mut written.out);
    tell(VERSION.as_bytes(), status::DONE, &mut out)
}
