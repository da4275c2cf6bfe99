//! Compiling and running.
ghost use Rattle.std.specs.Prelude.{◌≡◌};
ghost use Rattle.blang.specs.declared.status.TheConstants.{WRONG_COMMAND};
ghost use Rattle.bembed.specs.RoomsExcluded.{Excluded};
ghost use Rattle.bembed.specs.Calls.{edition_of, InEdition, CompilesIn, GoesIn, LocatesIn, MigratesIn, RunsIn};

use crate::before::Before;
use crate::room::{Room, Written};
use blang::status::{self, Status};
use bparse::compile_edition;
use brun::{go_edition, migrate, run_text};
use bwhere::locate_code;
use bword::{Edition, MemIn};
use std::alloc::Global;

/// The edition of this number.
pub(crate) fn edition_of(number: u8) -> Option<Edition>
    ensures { result ≡ edition_of number }
{
    match number {
        1 => Some(Edition::One),
        2 => Some(Edition::Two),
        _ => None,
    }
}

/// Writes nothing, since there is no such edition.
pub(crate) fn refuse(written: &mut Written) -> Status
    ensures nothing { (written.new.out ≡ 0) × (written.new.line ≡ 0) }
    ensures answer { result ≡ WRONG_COMMAND }
{
    stop(status::WRONG_COMMAND, written)
}

/// Writes nothing, and answers so.
pub(crate) fn stop(answer: Status, written: &mut Written) -> Status
    ensures nothing { (written.new.out ≡ 0) × (written.new.line ≡ 0) }
    ensures answer { result ≡ answer }
{
    written.out = 0;
    written.line = 0;
    answer
}

/// Compiles a source, as `compile_edition` does.
#[unsafe(no_mangle)]
pub extern "C" fn b_compile(
    alloc: Global,
    source: &[u8],
    edition: u8,
    out: &mut [u8],
    line: &mut [u8],
    written: &mut Written,
) -> u8
    ensures compiles { InEdition (edition_of edition)
        (record { before = out.old; after = out.new; count = written.new.out })
        (record { before = line.old; after = line.new; count = written.new.line }) result
        (CompilesIn source.now
        (record { before = out.old; after = out.new; count = written.new.out })
        (record { before = line.old; after = line.new; count = written.new.line }) result) }
{
    let Some(edition) = edition_of(edition) else {
        return refuse(written);
    };
    let (out_before, line_before) = (Before::of(out), Before::of(line));
    let mut out = Room::new(out, &out_before, &mut written.out);
    let mut line = Room::new(line, &line_before, &mut written.line);
    let mut source = MemIn::new(source);
    compile_edition(alloc, &mut source, &mut out, &mut line, edition)
}

/// Runs a code text, as `run_text` does.
#[unsafe(no_mangle)]
pub extern "C" fn b_run(
    alloc: Global,
    code: &[u8],
    input: &[u8],
    steps: u64,
    out: &mut [u8],
    line: &mut [u8],
    written: &mut Written,
) -> u8
    ensures runs { RunsIn steps code.now input.now
        (record { before = out.old; after = out.new; count = written.new.out })
        (record { before = line.old; after = line.new; count = written.new.line }) result }
{
    let (out_before, line_before) = (Before::of(out), Before::of(line));
    let mut out = Room::new(out, &out_before, &mut written.out);
    let mut line = Room::new(line, &line_before, &mut written.line);
    let mut input = MemIn::new(input);
    run_text(alloc, code, &mut input, &mut out, &mut line, steps)
}

/// Runs a code text, as `b_run` does, and tells where it went wrong, as `locate_code` does.
#[unsafe(no_mangle)]
pub extern "C" fn b_run_where(
    alloc: Global,
    code: &[u8],
    input: &[u8],
    steps: u64,
    out: &mut [u8],
    line: &mut [u8],
    written: &mut Written,
) -> u8
    ensures locates { LocatesIn steps code.now input.now
        (record { before = out.old; after = out.new; count = written.new.out })
        (record { before = line.old; after = line.new; count = written.new.line }) result }
{
    let (out_before, line_before) = (Before::of(out), Before::of(line));
    let mut out = Room::new(out, &out_before, &mut written.out);
    let mut line = Room::new(line, &line_before, &mut written.line);
    let mut input = MemIn::new(input);
    locate_code(alloc, code, &mut input, &mut out, &mut line, steps)
}

/// Compiles a source and runs its program, as `go_edition` does.
#[unsafe(no_mangle)]
pub extern "C" fn b_go(
    alloc: Global,
    source: &[u8],
    input: &[u8],
    edition: u8,
    steps: u64,
    out: &mut [u8],
    line: &mut [u8],
    written: &mut Written,
) -> u8
    ensures goes { InEdition (edition_of edition)
        (record { before = out.old; after = out.new; count = written.new.out })
        (record { before = line.old; after = line.new; count = written.new.line }) result
        (GoesIn steps source.now input.now
        (record { before = out.old; after = out.new; count = written.new.out })
        (record { before = line.old; after = line.new; count = written.new.line }) result) }
{
    let Some(edition) = edition_of(edition) else {
        return refuse(written);
    };
    let (out_before, line_before) = (Before::of(out), Before::of(line));
    let mut out = Room::new(out, &out_before, &mut written.out);
    let mut line = Room::new(line, &line_before, &mut written.line);
    let mut source = MemIn::new(source);
    let mut input = MemIn::new(input);
    go_edition(
        alloc,
        &mut source,
        &mut input,
        &mut out,
        &mut line,
        steps,
        edition,
    )
}

/// Writes a code text of edition 1 as one of edition 2, as `migrate` does.
#[unsafe(no_mangle)]
pub extern "C" fn b_migrate(
    alloc: Global,
    code: &[u8],
    out: &mut [u8],
    line: &mut [u8],
    written: &mut Written,
) -> u8
    ensures migrates { MigratesIn code.now
        (record { before = out.old; after = out.new; count = written.new.out })
        (record { before = line.old; after = line.new; count = written.new.line }) result }
{
    let (out_before, line_before) = (Before::of(out), Before::of(line));
    let mut out = Room::new(out, &out_before, &mut written.out);
    let mut line = Room::new(line, &line_before, &mut written.line);
    let mut code = MemIn::new(code);
    migrate(alloc, &mut code, &mut out, &mut line)
}

/// What no call tells of its rooms: that a text has no room where it has.
pub fn wrong_rooms_are_excluded()
    ensures { Excluded }
{}
