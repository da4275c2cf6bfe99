//! Loading a program, and telling why there is none.
ghost use Rattle.std.specs.Prelude.{◌≡◌, ◌⊎◌, IsSome, None, [], map, option_map};
ghost use Rattle.blang.specs.declared.status.TheConstants.{DONE};
ghost use Rattle.bembed.specs.Rooms.{Untouched, left_in};
ghost use Rattle.bembed.specs.Sessions.{IsEmpty, IsUnready, LoadsText, LoadsWhole, given_in, text_given};
ghost use Rattle.bembed.specs.WithFiles.{AskedWith, text_of};

use crate::before::Before;
use crate::calls::stop;
use crate::joined::{Joined, NamedFile};
use crate::room::{Room, Written};
use bhost::Host;
use bhost::calls::{UNREADY, load_source, load_text};
use btools::CodeText;
use std::alloc::Global;

/// Compiles a source with the files that follow it, and puts its program in memory.
#[unsafe(no_mangle)]
pub extern "C" fn b_load_with(
    alloc: Global,
    source: &[u8],
    files: &[NamedFile<'_>],
    edition: u8,
    line: &mut [u8],
    written: &mut Written,
    session: &mut Host,
) -> u8
    ensures loads { session.old.read ≡ None → AskedWith edition source.now (map text_of files.now)
        (left_in [] [] written.new.out) (left_in line.old line.new written.new.line) result
        (LoadsWhole session.new (left_in [] [] written.new.out) (left_in line.old line.new written.new.line) result) }
    ensures loaded { session.old.read ≡ None → IsEmpty session.new ⊎ (result ≡ DONE) }
    ensures unready { IsSome session.old.read → IsUnready session.old session.new result
        × Untouched (left_in [] [] written.new.out) × Untouched (left_in line.old line.new written.new.line) }
{
    if session.has_program() {
        return stop(UNREADY, written);
    }
    session.put(Host::none());
    let whole = match Joined::of(alloc, source, files, edition) {
        Ok(whole) => whole,
        Err(status) => return stop(status, written),
    };
    written.out = 0;
    let before = Before::of(line);
    let mut line = Room::new(line, &before, &mut written.line);
    load_source(
        alloc,
        whole.text(),
        whole.edition(),
        whole.files(),
        session,
        &mut line,
    )
}

/// Reads a code text with what its author gives beside it, and puts its program in memory.
#[unsafe(no_mangle)]
pub extern "C" fn b_load_code_with<'a>(
    alloc: Global,
    code: &'a [u8],
    lines: &'a [u8],
    names: &'a [u8],
    line: &mut [u8],
    written: &mut Written,
    session: &mut Host,
) -> u8
    ensures loads { session.old.read ≡ None → LoadsText (text_given code.now lines.now names.now) session.new
        (left_in [] [] written.new.out) (left_in line.old line.new written.new.line) result }
    ensures unready { IsSome session.old.read → IsUnready session.old session.new result
        × Untouched (left_in [] [] written.new.out) × Untouched (left_in line.old line.new written.new.line) }
{
    if session.has_program() {
        return stop(UNREADY, written);
    }
    written.out = 0;
    let before = Before::of(line);
    let mut line = Room::new(line, &before, &mut written.line);
    let text = CodeText {
        code,
        lines: given_in(lines),
        source: None,
        names: given_in(names),
    };
    load_text(alloc, text, session, &mut line)
}

// A file, unless it is empty.
fn given_in(file: &[u8]) -> Option<&[u8]>
    ensures { option_map (λ bytes. bytes.now) result ≡ given_in file.now }
{
    if file.is_empty() { None } else { Some(file) }
}
