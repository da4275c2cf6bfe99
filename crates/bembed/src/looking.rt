//! The code of a source, its layout in memory, and the steps of its run.
ghost use Rattle.std.specs.Prelude.{◌≡◌, map as map_each};
ghost use Rattle.bembed.specs.Looks.{CountsWhole, ListsWhole, MapsWhole, ShowsWhole, TracesWhole};
ghost use Rattle.bembed.specs.Looks.{page_asked, rows_of, style_of};
ghost use Rattle.bembed.specs.Rooms.{left_in};
ghost use Rattle.bembed.specs.WithFiles.{AskedWith, text_of};
ghost use Rattle.bshow.specs.Shows.{asked_of};
ghost use Rattle.bsources.specs.Files.{files_shown};

use crate::before::Before;
use crate::calls::stop;
use crate::joined::{Joined, NamedFile};
use crate::room::{Room, Written};
use bcount::{CountStyle, Counting, count};
use blist::{list, map};
use bshow::{PageRequest, show};
use bsources::SourceFiles;
use btools::Origin;
use btrace::{TraceRequest, trace};
use bwatch::TraceRows;
use bword::MemIn;
use std::alloc::Global;

/// Lists the code of a source, as `list` does.
#[unsafe(no_mangle)]
pub extern "C" fn b_list(
    alloc: Global,
    source: &[u8],
    files: &[NamedFile<'_>],
    edition: u8,
    out: &mut [u8],
    line: &mut [u8],
    written: &mut Written,
) -> u8
    ensures lists { AskedWith edition source.now (map_each text_of files.now)
        (left_in out.old out.new written.new.out) (left_in line.old line.new written.new.line) result
        (ListsWhole (left_in out.old out.new written.new.out) (left_in line.old line.new written.new.line) result) }
{
    let whole = match Joined::of(alloc, source, files, edition) {
        Ok(whole) => whole,
        Err(status) => return stop(status, written),
    };
    let (out_before, line_before) = (Before::of(out), Before::of(line));
    let mut out = Room::new(out, &out_before, &mut written.out);
    let mut line = Room::new(line, &line_before, &mut written.line);
    let origin = Origin::Source(whole.edition());
    list(alloc, whole.text(), origin, None, &mut out, &mut line)
}

/// Tells where each name of a source lies in memory, as `map` does.
#[unsafe(no_mangle)]
pub extern "C" fn b_map(
    alloc: Global,
    source: &[u8],
    files: &[NamedFile<'_>],
    edition: u8,
    out: &mut [u8],
    line: &mut [u8],
    written: &mut Written,
) -> u8
    ensures maps { AskedWith edition source.now (map_each text_of files.now)
        (left_in out.old out.new written.new.out) (left_in line.old line.new written.new.line) result
        (MapsWhole (left_in out.old out.new written.new.out) (left_in line.old line.new written.new.line) result) }
{
    let whole = match Joined::of(alloc, source, files, edition) {
        Ok(whole) => whole,
        Err(status) => return stop(status, written),
    };
    let (out_before, line_before) = (Before::of(out), Before::of(line));
    let mut out = Room::new(out, &out_before, &mut written.out);
    let mut line = Room::new(line, &line_before, &mut written.line);
    let origin = Origin::Source(whole.edition());
    map(alloc, whole.text(), origin, &mut out, &mut line)
}

/// Writes each step of the program of a source, as `trace` does: the last steps, or those from a number on if `last`
/// is 0.
#[unsafe(no_mangle)]
pub extern "C" fn b_trace(
    alloc: Global,
    source: &[u8],
    files: &[NamedFile<'_>],
    input: &[u8],
    edition: u8,
    steps: u64,
    from: u64,
    last: u64,
    out: &mut [u8],
    line: &mut [u8],
    written: &mut Written,
) -> u8
    ensures traces { AskedWith edition source.now (map_each text_of files.now)
        (left_in out.old out.new written.new.out) (left_in line.old line.new written.new.line) result
        (TracesWhole steps (rows_of from last) input.now
        (left_in out.old out.new written.new.out) (left_in line.old line.new written.new.line) result) }
{
    let whole = match Joined::of(alloc, source, files, edition) {
        Ok(whole) => whole,
        Err(status) => return stop(status, written),
    };
    let (out_before, line_before) = (Before::of(out), Before::of(line));
    let mut out = Room::new(out, &out_before, &mut written.out);
    let mut line = Room::new(line, &line_before, &mut written.line);
    let mut input = MemIn::new(input);
    let origin = Origin::Source(whole.edition());
    let wanted = TraceRequest {
        steps,
        rows: rows_of(from, last),
        function: None,
        files: whole.files(),
    };
    trace(
        alloc,
        whole.text(),
        origin,
        wanted,
        &mut input,
        &mut out,
        &mut line,
    )
}

/// Counts how often each line of a source is made, as `count` does: for people if `is_json` is 0, else for programs.
#[unsafe(no_mangle)]
pub extern "C" fn b_count(
    alloc: Global,
    source: &[u8],
    files: &[NamedFile<'_>],
    input: &[u8],
    edition: u8,
    steps: u64,
    is_json: u8,
    out: &mut [u8],
    line: &mut [u8],
    written: &mut Written,
) -> u8
    ensures counts { AskedWith edition source.now (map_each text_of files.now)
        (left_in out.old out.new written.new.out) (left_in line.old line.new written.new.line) result
        (CountsWhole steps (style_of is_json) input.now
        (left_in out.old out.new written.new.out) (left_in line.old line.new written.new.line) result) }
{
    let whole = match Joined::of(alloc, source, files, edition) {
        Ok(whole) => whole,
        Err(status) => return stop(status, written),
    };
    let (out_before, line_before) = (Before::of(out), Before::of(line));
    let mut out = Room::new(out, &out_before, &mut written.out);
    let mut line = Room::new(line, &line_before, &mut written.line);
    let mut input = MemIn::new(input);
    let counting = Counting {
        origin: Origin::Source(whole.edition()),
        steps,
        files: whole.files(),
        style: style_of(is_json),
    };
    count(
        alloc,
        whole.text(),
        counting,
        &mut input,
        &mut out,
        &mut line,
    )
}

/// Writes a page that shows the run of a source, as `show` does of an input that is known. Its rows are as for
/// `b_trace`.
#[unsafe(no_mangle)]
pub extern "C" fn b_show(
    alloc: Global,
    source: &[u8],
    files: &[NamedFile<'_>],
    input: &[u8],
    edition: u8,
    steps: u64,
    from: u64,
    last: u64,
    out: &mut [u8],
    line: &mut [u8],
    written: &mut Written,
) -> u8
    ensures shows { AskedWith edition source.now (map_each text_of files.now)
        (left_in out.old out.new written.new.out) (left_in line.old line.new written.new.line) result
        (ShowsWhole steps (rows_of from last) input.now
        (left_in out.old out.new written.new.out) (left_in line.old line.new written.new.line) result) }
{
    let whole = match Joined::of(alloc, source, files, edition) {
        Ok(whole) => whole,
        Err(status) => return stop(status, written),
    };
    let (out_before, line_before) = (Before::of(out), Before::of(line));
    let mut out = Room::new(out, &out_before, &mut written.out);
    let mut line = Room::new(line, &line_before, &mut written.line);
    let wanted = page_of(whole.files(), steps, rows_of(from, last), input);
    let mut input = MemIn::new(input);
    show(
        alloc,
        whole.text(),
        Origin::Source(whole.edition()),
        wanted,
        &mut input,
        &mut out,
        &mut line,
    )
}

// The page of a run with an input that is known.
fn page_of<'a>(
    files: SourceFiles<'a>,
    steps: u64,
    rows: TraceRows,
    given: &'a [u8],
) -> PageRequest<'a>
    ensures { asked_of result ≡ page_asked steps rows (files_shown files.entry) given.now }
{
    PageRequest {
        steps,
        rows,
        files,
        given,
        finding: None,
    }
}

// Which steps have rows.
fn rows_of(from: u64, last: u64) -> TraceRows
    ensures { result ≡ rows_of from last }
{
    if last == 0 {
        TraceRows::From(from)
    } else {
        TraceRows::Last(last)
    }
}

// How counts are written.
fn style_of(is_json: u8) -> CountStyle
    ensures { result ≡ style_of is_json }
{
    if is_json == 0 {
        CountStyle::Table
    } else {
        CountStyle::Json
    }
}
