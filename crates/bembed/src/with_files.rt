//! What is done with a source and the files that follow it, as with the source alone.
ghost use Rattle.std.specs.Prelude.{[], map};
ghost use Rattle.bembed.specs.Rooms.{left_in};
ghost use Rattle.bembed.specs.WithFiles.{AskedWith, ChecksWhole, CompilesWhole, GoesWhole, text_of};

use crate::before::Before;
use crate::calls::stop;
use crate::joined::{Joined, NamedFile};
use crate::room::{Room, Written};
use bcheck::{FindingForm, Request, check};
use bparse::compile_edition;
use brun::go_edition;
use bword::MemIn;
use std::alloc::Global;

/// Compiles a source with the files that follow it, as `b compile` does with LIBs.
#[unsafe(no_mangle)]
pub extern "C" fn b_compile_with(
    alloc: Global,
    source: &[u8],
    files: &[NamedFile<'_>],
    edition: u8,
    out: &mut [u8],
    line: &mut [u8],
    written: &mut Written,
) -> u8
    ensures compiles { AskedWith edition source.now (map text_of files.now)
        (left_in out.old out.new written.new.out) (left_in line.old line.new written.new.line) result
        (CompilesWhole (left_in out.old out.new written.new.out) (left_in line.old line.new written.new.line) result) }
{
    let whole = match Joined::of(alloc, source, files, edition) {
        Ok(whole) => whole,
        Err(status) => return stop(status, written),
    };
    let (out_before, line_before) = (Before::of(out), Before::of(line));
    let mut out = Room::new(out, &out_before, &mut written.out);
    let mut line = Room::new(line, &line_before, &mut written.line);
    let mut source = MemIn::new(whole.text());
    compile_edition(alloc, &mut source, &mut out, &mut line, whole.edition())
}

/// Compiles a source with the files that follow it and runs its program, as `b go` does with LIBs.
#[unsafe(no_mangle)]
pub extern "C" fn b_go_with(
    alloc: Global,
    source: &[u8],
    files: &[NamedFile<'_>],
    input: &[u8],
    edition: u8,
    steps: u64,
    out: &mut [u8],
    line: &mut [u8],
    written: &mut Written,
) -> u8
    ensures goes { AskedWith edition source.now (map text_of files.now)
        (left_in out.old out.new written.new.out) (left_in line.old line.new written.new.line) result
        (GoesWhole steps input.now
        (left_in out.old out.new written.new.out) (left_in line.old line.new written.new.line) result) }
{
    let whole = match Joined::of(alloc, source, files, edition) {
        Ok(whole) => whole,
        Err(status) => return stop(status, written),
    };
    let (out_before, line_before) = (Before::of(out), Before::of(line));
    let mut out = Room::new(out, &out_before, &mut written.out);
    let mut line = Room::new(line, &line_before, &mut written.line);
    let mut source = MemIn::new(whole.text());
    let mut input = MemIn::new(input);
    go_edition(
        alloc,
        &mut source,
        &mut input,
        &mut out,
        &mut line,
        steps,
        whole.edition(),
    )
}

/// Tells what is wrong with a source and the files that follow it, as `check` does for an editor. The line stays empty.
#[unsafe(no_mangle)]
pub extern "C" fn b_check_with(
    alloc: Global,
    source: &[u8],
    files: &[NamedFile<'_>],
    edition: u8,
    out: &mut [u8],
    written: &mut Written,
) -> u8
    ensures checks { AskedWith edition source.now (map text_of files.now)
        (left_in out.old out.new written.new.out) (left_in [] [] written.new.line) result
        (ChecksWhole (left_in out.old out.new written.new.out) (left_in [] [] written.new.line) result) }
{
    let whole = match Joined::of(alloc, source, files, edition) {
        Ok(whole) => whole,
        Err(status) => return stop(status, written),
    };
    written.line = 0;
    let before = Before::of(out);
    let mut out = Room::new(out, &before, &mut written.out);
    let request = Request {
        edition: whole.edition(),
        files: whole.files(),
        form: FindingForm::Json,
    };
    check(alloc, whole.text(), request, &mut out)
}
