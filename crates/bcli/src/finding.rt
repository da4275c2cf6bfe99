//! Checking a source by the rules in a file, and finding a pattern in sources.
ghost use Rattle.std.specs.Prelude.{◌≡◌};
ghost use Rattle.bword.specs.ByteEnds.{Incoming};
ghost use Rattle.blang.specs.Reports.{run_ends};
ghost use Rattle.bcommand.specs.CommandLine.{search_shown, source_shown};
ghost use Rattle.bsources.specs.Files.{file_shown};
ghost use Rattle.bcli.specs.Passes.{PassesAll, answer_of, goes_on};
ghost use Rattle.bfind.specs.Finds.{Finds};
ghost use Rattle.bcli.specs.Serves.{ChecksFile, ChecksRead, FindsAll, FindsFile, form_of};

use crate::serving::check_request;
use bcommand::{Search, SourceNames};
use bcore::{Shelf, Unread, Whole, name_file, read_source};
use bfind::{OwnRules, Ruled, check_by, find_in, read_pattern};
use blang::status::{self, Status};
use bsources::{Following, SourceFile, SourceFiles};
use bword::{ByteOut, Edition};
use std::alloc::Global;

/// Checks a source, and tells where the rules in a file fit.
pub(crate) fn check_file<S: Shelf, O: ByteOut, D: ByteOut>(
    alloc: Global,
    shelf: &S,
    source: SourceNames<'_>,
    rules: &str,
    for_editor: bool,
    out: &mut O,
    diag: &mut D,
) -> Status
    ensures checks { (unread : Incoming) → ChecksFile (S.holdings shelf.now) (source_shown source.entry) rules.now
        for_editor (run_ends unread unread (O.outgoing out.old) (O.outgoing out.new) (D.outgoing diag.old)
        (D.outgoing diag.new)) result }
    ensures out_lender { O.lender out.new ≡ O.lender out.old }
    ensures diag_lender { D.lender diag.new ≡ D.lender diag.old }
{
    match read_source(alloc, shelf, source) {
        Ok(Whole { text, first, libs }) => check_read(
            alloc,
            shelf,
            source.edition,
            first,
            &libs,
            text.as_slice(),
            rules,
            for_editor,
            out,
            diag,
        ),
        Err(Unread::File(fault)) => name_file(alloc, source.file, fault, diag),
        Err(Unread::Lib(lib)) => name_file(alloc, lib.name, lib.fault, diag),
    }
}

// Checks a source that was read.
fn check_read<S: Shelf, O: ByteOut, D: ByteOut>(
    alloc: Global,
    shelf: &S,
    edition: Edition,
    first: SourceFile<'_>,
    libs: &Following<'_>,
    source: &[u8],
    rules: &str,
    for_editor: bool,
    out: &mut O,
    diag: &mut D,
) -> Status
    ensures checks { (unread : Incoming) → ChecksRead (S.holdings shelf.now) edition
        (record { first = file_shown first.entry; rest = libs.now.files }) source.now rules.now for_editor
        (run_ends unread unread (O.outgoing out.old) (O.outgoing out.new) (D.outgoing diag.old) (D.outgoing diag.new))
        result }
    ensures out_lender { O.lender out.new ≡ O.lender out.old }
    ensures diag_lender { D.lender diag.new ≡ D.lender diag.old }
{
    match shelf.read(alloc, rules) {
        Ok(text) => {
            let files = SourceFiles { first, rest: libs };
            let asked = check_request(edition, files, for_editor);
            let ruled = Ruled {
                file: rules,
                text: text.as_slice(),
            };
            check_by(alloc, source, asked, ruled, out, diag)
        }
        Err(fault) => name_file(alloc, rules, fault, diag),
    }
}

/// Tells where a pattern fits, in one file after another.
pub(crate) fn find_all<S: Shelf, O: ByteOut, D: ByteOut>(
    alloc: Global,
    shelf: &S,
    search: Search<'_>,
    out: &mut O,
    diag: &mut D,
) -> Status
    ensures finds { (unread : Incoming) → FindsAll (S.holdings shelf.now) (search_shown search.entry) (run_ends unread
        unread (O.outgoing out.old) (O.outgoing out.new) (D.outgoing diag.old) (D.outgoing diag.new)) result }
    ensures out_lender { O.lender out.new ≡ O.lender out.old }
    ensures diag_lender { D.lender diag.new ≡ D.lender diag.old }
{
    match read_pattern(alloc, search.pattern, diag) {
        Ok(own) => find_own(alloc, shelf, search, &own, out, diag),
        Err(status) => status,
    }
}

// Tells where rules fit.
fn find_own<S: Shelf, O: ByteOut, D: ByteOut>(
    alloc: Global,
    shelf: &S,
    search: Search<'_>,
    own: &OwnRules,
    out: &mut O,
    diag: &mut D,
) -> Status
    ensures finds { (unread : Incoming) → PassesAll (FindsFile (S.holdings shelf.now) own.now search.entry.edition
        search.entry.for_editor) (search_shown search.entry).files (run_ends unread unread (O.outgoing out.old)
        (O.outgoing out.new) (D.outgoing diag.old) (D.outgoing diag.new)) result }
    ensures out_lender { O.lender out.new ≡ O.lender out.old }
    ensures diag_lender { D.lender diag.new ≡ D.lender diag.old }
{
    let mut answer = status::FAULT;
    for file in search.files {
        let found = find_file(alloc, shelf, search, file, own, out, diag);
        if goes_on(found) {
            answer = answer_of(answer, found);
        } else {
            return found;
        }
    }
    answer
}

// Whether the next file is looked at after this status.
fn goes_on(status: Status) -> bool
    ensures { result ≡ goes_on status }
{
    status == status::DONE || status == status::FAULT
}

// The status with that of a file more.
fn answer_of(before: Status, found: Status) -> Status
    ensures { result ≡ answer_of before found }
{
    if found == status::DONE { found } else { before }
}

// Tells where rules fit in the source in a file.
fn find_file<S: Shelf, O: ByteOut, D: ByteOut>(
    alloc: Global,
    shelf: &S,
    search: Search<'_>,
    file: &str,
    own: &OwnRules,
    out: &mut O,
    diag: &mut D,
) -> Status
    ensures finds { (unread : Incoming) → FindsFile (S.holdings shelf.now) own.now search.entry.edition
        search.entry.for_editor file.now (run_ends unread unread (O.outgoing out.old) (O.outgoing out.new)
        (D.outgoing diag.old) (D.outgoing diag.new)) result }
    ensures out_lender { O.lender out.new ≡ O.lender out.old }
    ensures diag_lender { D.lender diag.new ≡ D.lender diag.old }
{
    match shelf.read(alloc, file) {
        Ok(text) => {
            let source = text.as_slice();
            let none = Following::new(alloc);
            let first = SourceFile::new(file, source);
            find_read(alloc, search, first, &none, source, own, out, diag)
        }
        Err(fault) => name_file(alloc, file, fault, diag),
    }
}

// Tells where rules fit in a source that was read.
fn find_read<O: ByteOut, D: ByteOut>(
    alloc: Global,
    search: Search<'_>,
    first: SourceFile<'_>,
    none: &Following<'_>,
    source: &[u8],
    own: &OwnRules,
    out: &mut O,
    diag: &mut D,
) -> Status
    ensures finds { Finds search.entry.edition (form_of search.entry.for_editor)
        (record { first = file_shown first.entry; rest = none.now.files }) source.now own.now (O.outgoing out.old)
        (O.outgoing out.new) (D.outgoing diag.old) (D.outgoing diag.new) result }
    ensures out_lender { O.lender out.new ≡ O.lender out.old }
    ensures diag_lender { D.lender diag.new ≡ D.lender diag.old }
{
    let files = SourceFiles { first, rest: none };
    let asked = check_request(search.edition, files, search.for_editor);
    find_in(alloc, source, asked, own, out, diag)
}
