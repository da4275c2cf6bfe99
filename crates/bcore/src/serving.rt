//! Serving a command line.
ghost use Rattle.std.specs.Prelude.{◌≡◌, ◌≢◌, ◌⊎◌, [], IfOk, map as map_each, string_bytes};
ghost use Rattle.clap.specs.Words.{kind_of};
ghost use Rattle.bword.specs.ByteEnds.{Incoming, Outgoing};
ghost use Rattle.blang.specs.declared.status.TheConstants.{DEVICE, MEMORY, WRONG_COMMAND};
ghost use Rattle.blang.specs.Reports.{Reported, run_ends};
ghost use Rattle.bcommand.specs.CommandLine.{asked_of, source_shown};
ghost use Rattle.bcore.specs.Serves.{CompilesInput, CompilesJoined, Does, GoesFile, NamesFile, RefusesWords, Serves, no_file_line, unread_line};
ghost use Rattle.bcore.specs.Shelves.{opened};

use crate::shelf::{FileFault, Shelf, SystemFiles};
use crate::sources::{Unread, read_libs, read_source};
use crate::tools::{ToolJob, Tools};
use bcommand::{Job, SourceNames, UNREAD, clash_text, full_words, job_of, parse};
use blang::status::{self, Status};
use bparse::compile_edition;
use brun::{go_edition, migrate, run_text};
use bsources::JoinedIn;
use bword::{ByteIn, ByteOut, Edition, MemIn};
use clap::Error;
use clap::error::ErrorKind;
use std::alloc::{AllocError, Global};
use std::rt::Files;

// The message where that of `clap` is empty.
const UNTOLD: &str = "b: there is no message for these words\n";

/// Does what the words of a command line ask for, with the files of the system. The first word is the program's name.
///
/// The same as `serve_with`.
pub fn serve<T: Tools, R: AllocGlobal + Files, I: ByteIn, O: ByteOut, D: ByteOut>(
    tools: &T,
    rt: &R,
    words: &[String],
    input: &mut I,
    out: &mut O,
    diag: &mut D,
) -> Status
    ensures serves { Serves T.answers (opened R.File.remaining) (map_each string_bytes words.now) (run_ends
        (I.incoming input.old) (I.incoming input.new) (O.outgoing out.old) (O.outgoing out.new)
        (D.outgoing diag.old) (D.outgoing diag.new)) result }
    ensures input_lender { I.lender input.new ≡ I.lender input.old }
    ensures out_lender { O.lender out.new ≡ O.lender out.old }
    ensures diag_lender { D.lender diag.new ≡ D.lender diag.old }
{
    serve_with(
        tools,
        rt.alloc(),
        &SystemFiles { rt },
        words,
        input,
        out,
        diag,
    )
}

/// Does what the words of a command line ask for, with the files on a shelf. The first word is the program's own name.
///
/// Help goes to `out` with status 0. What is wrong with the words goes to `diag` with status 135. The words are read
/// first, then FILE if a command needs it, and then the input. The status is 133 if FILE can't be read.
pub fn serve_with<T: Tools, S: Shelf, I: ByteIn, O: ByteOut, D: ByteOut>(
    tools: &T,
    alloc: Global,
    shelf: &S,
    words: &[String],
    input: &mut I,
    out: &mut O,
    diag: &mut D,
) -> Status
    ensures serves { Serves T.answers (S.holdings shelf.now) (map_each string_bytes words.now) (run_ends
        (I.incoming input.old) (I.incoming input.new) (O.outgoing out.old) (O.outgoing out.new)
        (D.outgoing diag.old) (D.outgoing diag.new)) result }
    ensures input_lender { I.lender input.new ≡ I.lender input.old }
    ensures out_lender { O.lender out.new ≡ O.lender out.old }
    ensures diag_lender { D.lender diag.new ≡ D.lender diag.old }
{
    let Ok(words) = full_words(alloc, words) else {
        return status::MEMORY;
    };
    match parse(alloc, words.as_slice()) {
        Ok(found) => perform(tools, alloc, shelf, job_of(&found), input, out, diag),
        Err(error) => refuse(alloc, error, out, diag),
    }
}

// Does what is asked for.
fn perform<T: Tools, S: Shelf, I: ByteIn, O: ByteOut, D: ByteOut>(
    tools: &T,
    alloc: Global,
    shelf: &S,
    job: Job<'_>,
    input: &mut I,
    out: &mut O,
    diag: &mut D,
) -> Status
    ensures does { Does T.answers (S.holdings shelf.now) (asked_of job.entry) (run_ends
        (I.incoming input.old) (I.incoming input.new) (O.outgoing out.old) (O.outgoing out.new)
        (D.outgoing diag.old) (D.outgoing diag.new)) result }
    ensures input_lender { I.lender input.new ≡ I.lender input.old }
    ensures out_lender { O.lender out.new ≡ O.lender out.old }
    ensures diag_lender { D.lender diag.new ≡ D.lender diag.old }
{
    match job {
        Job::Compile(edition, libs) => {
            compile_input(alloc, shelf, edition, libs, input, out, diag)
        }
        Job::Run(file, steps) => match shelf.read(alloc, file) {
            Ok(code) => run_text(alloc, code.as_slice(), input, out, diag, steps),
            Err(fault) => status_of(fault),
        },
        Job::Go(source, steps) => go_file(alloc, shelf, source, steps, input, out, diag),
        Job::Migrate => migrate(alloc, input, out, diag),
        Job::Contradiction(clash) => refuse_with(clash_text(clash), diag),
        Job::LocateCode(file, steps) => {
            let job = ToolJob::LocateCode(file, steps);
            tools.answer(alloc, shelf, job, input, out, diag)
        }
        Job::Verify(file) => { tools.answer(alloc, shelf, ToolJob::Verify(file), input, out, diag) }
        Job::Ask(source, question) => {
            let job = ToolJob::Ask(source, question);
            tools.answer(alloc, shelf, job, input, out, diag)
        }
        Job::CheckBy(source, rules, for_editor) => {
            let job = ToolJob::CheckBy(source, rules, for_editor);
            tools.answer(alloc, shelf, job, input, out, diag)
        }
        Job::Find(search) => { tools.answer(alloc, shelf, ToolJob::Find(search), input, out, diag) }
    }
}

// Compiles the input, and files after it.
fn compile_input<S: Shelf, I: ByteIn, O: ByteOut, D: ByteOut>(
    alloc: Global,
    shelf: &S,
    edition: Edition,
    libs: &[&str],
    input: &mut I,
    out: &mut O,
    diag: &mut D,
) -> Status
    ensures compiles { CompilesInput (S.holdings shelf.now) edition (map_each (λ lib. lib.now) libs.now) (run_ends
        (I.incoming input.old) (I.incoming input.new) (O.outgoing out.old) (O.outgoing out.new)
        (D.outgoing diag.old) (D.outgoing diag.new)) result }
    ensures input_lender { I.lender input.new ≡ I.lender input.old }
    ensures out_lender { O.lender out.new ≡ O.lender out.old }
    ensures diag_lender { D.lender diag.new ≡ D.lender diag.old }
{
    if libs.is_empty() {
        return compile_edition(alloc, input, out, diag, edition);
    }
    match read_libs(alloc, shelf, libs) {
        Ok(libs) => compile_joined(alloc, libs.text(), edition, input, out, diag),
        Err(lib) => name_file(alloc, lib.name, lib.fault, diag),
    }
}

// Compiles the input, and bytes after it.
fn compile_joined<I: ByteIn, O: ByteOut, D: ByteOut>(
    alloc: Global,
    rest: &[u8],
    edition: Edition,
    input: &mut I,
    out: &mut O,
    diag: &mut D,
) -> Status
    ensures compiles { CompilesJoined edition rest.now (run_ends
        (I.incoming input.old) (I.incoming input.new) (O.outgoing out.old) (O.outgoing out.new)
        (D.outgoing diag.old) (D.outgoing diag.new)) result }
    ensures input_lender { I.lender input.new ≡ I.lender input.old }
    ensures out_lender { O.lender out.new ≡ O.lender out.old }
    ensures diag_lender { D.lender diag.new ≡ D.lender diag.old }
{
    let mut source = JoinedIn::new(input, rest);
    let status = compile_edition(alloc, &mut source, out, diag, edition);
    let _ = source.into_first();
    status
}

// Compiles the source in a file and runs it.
fn go_file<S: Shelf, I: ByteIn, O: ByteOut, D: ByteOut>(
    alloc: Global,
    shelf: &S,
    source: SourceNames<'_>,
    steps: u64,
    input: &mut I,
    out: &mut O,
    diag: &mut D,
) -> Status
    ensures goes { GoesFile (S.holdings shelf.now) (source_shown source.entry) steps (run_ends
        (I.incoming input.old) (I.incoming input.new) (O.outgoing out.old) (O.outgoing out.new)
        (D.outgoing diag.old) (D.outgoing diag.new)) result }
    ensures input_lender { I.lender input.new ≡ I.lender input.old }
    ensures out_lender { O.lender out.new ≡ O.lender out.old }
    ensures diag_lender { D.lender diag.new ≡ D.lender diag.old }
{
    match read_source(alloc, shelf, source) {
        Ok(whole) => go_edition(
            alloc,
            &mut MemIn::new(whole.text.as_slice()),
            input,
            out,
            diag,
            steps,
            source.edition,
        ),
        Err(Unread::File(fault)) => status_of(fault),
        Err(Unread::Lib(lib)) => name_file(alloc, lib.name, lib.fault, diag),
    }
}

/// Names a file that can't be opened or read, unless there was no memory for it.
pub fn name_file<D: ByteOut>(alloc: Global, file: &str, fault: FileFault, diag: &mut D) -> Status
    ensures names { (unread : Incoming) (out : Outgoing) → NamesFile (fault ≡ FileFault.Device) file.now
        (run_ends unread unread out out (D.outgoing diag.old) (D.outgoing diag.new)) result }
    ensures diag_lender { D.lender diag.new ≡ D.lender diag.old }
{
    match fault {
        FileFault::Device => match no_file_line(alloc, file) {
            Ok(text) => tell(text.as_bytes(), status::DEVICE, diag),
            Err(_) => status::MEMORY,
        },
        FileFault::Memory => status::MEMORY,
    }
}

fn no_file_line(alloc: Global, file: &str) -> Result<String, AllocError>
    ensures { IfOk result (λ text. string_bytes text ≡ no_file_line file.now) }
{
    let mut text = String::from_str(alloc, "error: the file '")?;
    text.push_str(file)?;
    text.push_str("' can't be read\n")?;
    Ok(text)
}

// The status for a file that was not read.
fn status_of(fault: FileFault) -> Status
    ensures { (fault ≡ FileFault.Device) × (result ≡ DEVICE) ⊎ (result ≡ MEMORY) }
{
    match fault {
        FileFault::Device => status::DEVICE,
        FileFault::Memory => status::MEMORY,
    }
}

/// Refuses a command line with a word that isn't UTF-8, and says so.
pub fn refuse_words<D: ByteOut>(diag: &mut D) -> Status
    ensures gives { Reported unread_line WRONG_COMMAND (D.outgoing diag.old) (D.outgoing diag.new) result }
    ensures diag_lender { D.lender diag.new ≡ D.lender diag.old }
{
    refuse_with(UNREAD, diag)
}

// Writes what is wrong with a command line.
fn refuse_with<D: ByteOut>(text: &str, diag: &mut D) -> Status
    ensures gives { Reported text.now WRONG_COMMAND (D.outgoing diag.old) (D.outgoing diag.new) result }
    ensures diag_lender { D.lender diag.new ≡ D.lender diag.old }
{
    tell(text.as_bytes(), status::WRONG_COMMAND, diag)
}

// Writes help to the output, and what is wrong beside it.
fn refuse<O: ByteOut, D: ByteOut>(alloc: Global, error: Error, out: &mut O, diag: &mut D) -> Status
    ensures refuses { (unread : Incoming) → RefusesWords (kind_of error)
        (run_ends unread unread (O.outgoing out.old) (O.outgoing out.new)
        (D.outgoing diag.old) (D.outgoing diag.new)) result }
    ensures out_lender { O.lender out.new ≡ O.lender out.old }
    ensures diag_lender { D.lender diag.new ≡ D.lender diag.old }
{
    if error.kind() == ErrorKind::OutOfMemory {
        return status::MEMORY;
    }
    let Ok(text) = error.to_string(alloc) else {
        return status::MEMORY;
    };
    let said = or_untold(text.as_str());
    if error.use_stderr() {
        refuse_with(said, diag)
    } else {
        tell(said.as_bytes(), status::DONE, out)
    }
}

// The text of an error, or another one where it is empty. No contract of `clap` says that it isn't.
fn or_untold(text: &str) -> &str
    ensures { result.now ≢ [] }
{
    if text.is_empty() { UNTOLD } else { text }
}

// Writes a text, and gives this status, or that of a refused write.
pub(crate) fn tell<O: ByteOut>(text: &[u8], status: Status, out: &mut O) -> Status
    ensures told { Reported text.now status (O.outgoing out.old) (O.outgoing out.new) result }
    ensures same { O.lender out.new ≡ O.lender out.old }
{
    match out.put(text) {
        Ok(()) => status,
        Err(fault) => status::of_fault(fault),
    }
}
