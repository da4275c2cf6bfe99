//! What the tools do, and the whole program with them.
ghost use Rattle.std.specs.Prelude.{◌≡◌, map as map_each, option_map, string_bytes};
ghost use Rattle.blang.specs.Reports.{run_ends};
ghost use Rattle.bcommand.specs.CommandLine.{ask, question_of, source_shown};
ghost use Rattle.bcommand.specs.CommandLine.{origin_shown as asked_origin};
ghost use Rattle.bcli.specs.ShellExcluded.{Excluded, FileIsRead, ProcessExcluded};
ghost use Rattle.bcore.specs.Shelves.{opened};
ghost use Rattle.bshow.specs.Shows.{asked_of as page_of};
ghost use Rattle.bsources.specs.Files.{file_shown, files_shown};
ghost use Rattle.btools.specs.Origins.{origin_shown};
ghost use Rattle.bcli.specs.Serves.{Answers, AnswersOf, Serves, ShowsBy, ShowsRun, UsesTool, care_taken};
ghost use Rattle.bcli.specs.Serves.{form_of, origin_of, page_asked, style_of, traced_rows};

use crate::explaining::locate_and_explain;
use crate::finding::{check_file, find_all};
use crate::origins::read_origin;
use crate::trying::{Attempt, try_source};
use bcareful::{CarefulRequest, go_careful};
use bcheck::{FindingForm, Request, check};
use bcommand::{Care, Display, OriginNames, Question, Rows, SourceNames, Walk};
use bcore::{MemFile, Shelf, ToolJob, Tools, Unread, Whole, name_file, read_source};
use bcount::{CountStyle, Counting, count};
use bdraw::draw;
use bfix::{fix, port};
use bformat::{House, format};
use blang::status::Status;
use blist::{list, map};
use bnaming::tell_names;
use bshow::{show, show_careful};
use bsources::{Following, SourceFile, SourceFiles};
use btools::Origin;
use btrace::{TraceRequest, trace};
use bverify::verify_text;
use bwhere::locate_code;
use bword::{ByteIn, ByteOut, Edition, MemIn};
use std::alloc::Global;
use std::rt::Files;

/// The tools of the program.
#[derive(Clone, Copy)]
pub struct AllTools;

impl Tools for AllTools {
    ghost answers = { UsesTool };

    fn answer<S: Shelf, I: ByteIn, O: ByteOut, D: ByteOut>(
        &self,
        alloc: Global,
        shelf: &S,
        job: ToolJob<'_>,
        input: &mut I,
        out: &mut O,
        diag: &mut D,
    ) -> Status {
        match job {
            ToolJob::LocateCode(file, steps) => match shelf.read(alloc, file) {
                Ok(code) => locate_code(alloc, code.as_slice(), input, out, diag, steps),
                Err(fault) => name_file(alloc, file, fault, diag),
            },
            ToolJob::Verify(file) => match shelf.read(alloc, file) {
                Ok(code) => verify_text(alloc, code.as_slice(), out, diag),
                Err(fault) => name_file(alloc, file, fault, diag),
            },
            ToolJob::Ask(source, question) => {
                ask_file(alloc, shelf, source, question, input, out, diag)
            }
            ToolJob::CheckBy(source, rules, for_editor) => {
                check_file(alloc, shelf, source, rules, for_editor, out, diag)
            }
            ToolJob::Find(search) => find_all(alloc, shelf, search, out, diag),
        }
    }
}

/// Does what the words of a command line ask for, with the files of the system, as `bcore::serve` does with these tools.
pub fn serve<R: AllocGlobal + Files, I: ByteIn, O: ByteOut, D: ByteOut>(
    rt: &R,
    words: &[String],
    input: &mut I,
    out: &mut O,
    diag: &mut D,
) -> Status
    ensures serves { Serves (opened R.File.remaining) (map_each string_bytes words.now) (run_ends
        (I.incoming input.old) (I.incoming input.new) (O.outgoing out.old) (O.outgoing out.new)
        (D.outgoing diag.old) (D.outgoing diag.new)) result }
    ensures input_lender { I.lender input.new ≡ I.lender input.old }
    ensures out_lender { O.lender out.new ≡ O.lender out.old }
    ensures diag_lender { D.lender diag.new ≡ D.lender diag.old }
{
    bcore::serve(&AllTools, rt, words, input, out, diag)
}

/// The same with the files on a shelf.
pub fn serve_with<S: Shelf, I: ByteIn, O: ByteOut, D: ByteOut>(
    alloc: Global,
    shelf: &S,
    words: &[String],
    input: &mut I,
    out: &mut O,
    diag: &mut D,
) -> Status
    ensures serves { Serves (S.holdings shelf.now) (map_each string_bytes words.now) (run_ends
        (I.incoming input.old) (I.incoming input.new) (O.outgoing out.old) (O.outgoing out.new)
        (D.outgoing diag.old) (D.outgoing diag.new)) result }
    ensures input_lender { I.lender input.new ≡ I.lender input.old }
    ensures out_lender { O.lender out.new ≡ O.lender out.old }
    ensures diag_lender { D.lender diag.new ≡ D.lender diag.old }
{
    bcore::serve_with(&AllTools, alloc, shelf, words, input, out, diag)
}

// Answers what is asked of the source in a file.
fn ask_file<S: Shelf, I: ByteIn, O: ByteOut, D: ByteOut>(
    alloc: Global,
    shelf: &S,
    source: SourceNames<'_>,
    question: Question<'_>,
    input: &mut I,
    out: &mut O,
    diag: &mut D,
) -> Status
    ensures does { UsesTool (S.holdings shelf.now) (ask (source_shown source.entry) (question_of question.entry)) (run_ends
        (I.incoming input.old) (I.incoming input.new) (O.outgoing out.old) (O.outgoing out.new)
        (D.outgoing diag.old) (D.outgoing diag.new)) result }
    ensures input_lender { I.lender input.new ≡ I.lender input.old }
    ensures out_lender { O.lender out.new ≡ O.lender out.old }
    ensures diag_lender { D.lender diag.new ≡ D.lender diag.old }
{
    match read_source(alloc, shelf, source) {
        Ok(Whole { text, first, libs }) => ask_read(
            alloc,
            shelf,
            source.edition,
            first,
            &libs,
            text.as_slice(),
            question,
            input,
            out,
            diag,
        ),
        Err(Unread::File(fault)) => name_file(alloc, source.file, fault, diag),
        Err(Unread::Lib(lib)) => name_file(alloc, lib.name, lib.fault, diag),
    }
}

// Answers what is asked of a source that was read.
fn ask_read<S: Shelf, I: ByteIn, O: ByteOut, D: ByteOut>(
    alloc: Global,
    shelf: &S,
    edition: Edition,
    first: SourceFile<'_>,
    libs: &Following<'_>,
    text: &[u8],
    question: Question<'_>,
    input: &mut I,
    out: &mut O,
    diag: &mut D,
) -> Status
    ensures answers { Answers (S.holdings shelf.now) edition
        (record { first = file_shown first.entry; rest = libs.now.files }) text.now
        (question_of question.entry) (run_ends (I.incoming input.old) (I.incoming input.new) (O.outgoing out.old) (O.outgoing out.new)
        (D.outgoing diag.old) (D.outgoing diag.new)) result }
    ensures input_lender { I.lender input.new ≡ I.lender input.old }
    ensures out_lender { O.lender out.new ≡ O.lender out.old }
    ensures diag_lender { D.lender diag.new ≡ D.lender diag.old }
{
    let files = SourceFiles { first, rest: libs };
    match read_origin(alloc, shelf, origin_of(question)) {
        Ok(texts) => {
            let origin = texts.origin(edition, text);
            answer(
                alloc, origin, edition, files, text, question, input, out, diag,
            )
        }
        Err(made) => name_file(alloc, made.name, made.fault, diag),
    }
}

// What a question asks a program to be read from.
fn origin_of(question: Question<'_>) -> OriginNames<'_>
    ensures { asked_origin result ≡ origin_of (question_of question.entry) }
{
    match question {
        Question::List(origin, _)
        | Question::Map(origin)
        | Question::Draw(origin, _)
        | Question::Locate(origin, _)
        | Question::GoCareful(origin, _, _)
        | Question::Count(origin, _, _) => origin,
        Question::Trace(walk) => walk.origin,
        Question::Show(display) => display.origin,
        Question::Check(_)
        | Question::Fix
        | Question::Names
        | Question::Try(_)
        | Question::Format(_)
        | Question::Port => OriginNames::Source,
    }
}

// Answers what is asked of a source of these files and of this text, or of the code text that is its origin.
fn answer<I: ByteIn, O: ByteOut, D: ByteOut>(
    alloc: Global,
    origin: Origin<'_>,
    edition: Edition,
    files: SourceFiles<'_>,
    text: &[u8],
    question: Question<'_>,
    input: &mut I,
    out: &mut O,
    diag: &mut D,
) -> Status
    ensures answers { AnswersOf (origin_shown origin.entry) edition (files_shown files.entry) text.now
        (question_of question.entry) (run_ends
        (I.incoming input.old) (I.incoming input.new) (O.outgoing out.old) (O.outgoing out.new)
        (D.outgoing diag.old) (D.outgoing diag.new)) result }
    ensures input_lender { I.lender input.new ≡ I.lender input.old }
    ensures out_lender { O.lender out.new ≡ O.lender out.old }
    ensures diag_lender { D.lender diag.new ≡ D.lender diag.old }
{
    match question {
        Question::List(_, name) => list(alloc, text, origin, name, out, diag),
        Question::Map(_) => map(alloc, text, origin, out, diag),
        Question::Draw(_, steps) => draw(alloc, text, origin, steps, input, out, diag),
        Question::Check(for_editor) => {
            check(alloc, text, check_request(edition, files, for_editor), out)
        }
        Question::Fix => fix(alloc, text, edition, files, out, diag),
        Question::Names => tell_names(alloc, text, edition, &files, out),
        Question::Trace(walk) => {
            trace(
                alloc,
                text,
                origin,
                trace_request(walk, files),
                input,
                out,
                diag,
            )
        }
        Question::Locate(_, steps) => {
            let attempt = Attempt::new(edition, files, text, steps);
            locate_and_explain(alloc, origin, attempt, input, out, diag)
        }
        Question::GoCareful(_, care, steps) => {
            let wanted = careful_request(origin, files, care, steps);
            go_careful(alloc, text, wanted, input, out, diag)
        }
        Question::Try(steps) => {
            let attempt = Attempt::new(edition, files, text, steps);
            try_source(alloc, attempt, input, out, diag)
        }
        Question::Count(_, steps, for_editor) => {
            let counting = counting_of(origin, files, steps, for_editor);
            count(alloc, text, counting, input, out, diag)
        }
        Question::Show(display) => {
            show_run(alloc, origin, files, text, display, input, out, diag)
        }
        Question::Format(is_check) => format(&House, alloc, text, edition, is_check, out, diag),
        Question::Port => port(alloc, text, edition, files, out, diag),
    }
}

// What is asked of a check, of a trace, of a careful run and of counts.
pub(crate) fn check_request<'a>(
    edition: Edition,
    files: SourceFiles<'a>,
    for_editor: bool,
) -> Request<'a>
    ensures { result ≡ record { edition = edition; files = files.entry; form = form_of for_editor } }
{
    Request {
        edition,
        files,
        form: form_of(for_editor),
    }
}

fn trace_request<'a>(walk: Walk<'a>, files: SourceFiles<'a>) -> TraceRequest<'a>
    ensures { result ≡ record {
      steps = walk.entry.steps;
      rows = traced_rows walk.entry.rows;
      function = walk.entry.function;
      files = files.entry;
    } }
{
    TraceRequest {
        steps: walk.steps,
        rows: traced_rows(walk.rows),
        function: walk.function,
        files,
    }
}

fn careful_request<'a>(
    origin: Origin<'a>,
    files: SourceFiles<'a>,
    care: Care,
    steps: u64,
) -> CarefulRequest<'a>
    ensures { result ≡ record {
      origin = origin.entry;
      files = files.entry;
      care = care_taken care;
      steps = steps;
    } }
{
    CarefulRequest {
        origin,
        files,
        care: care_taken(care),
        steps,
    }
}

fn counting_of<'a>(
    origin: Origin<'a>,
    files: SourceFiles<'a>,
    steps: u64,
    for_editor: bool,
) -> Counting<'a>
    ensures { result ≡ record {
      origin = origin.entry;
      steps = steps;
      files = files.entry;
      style = style_of for_editor;
    } }
{
    Counting {
        origin,
        steps,
        files,
        style: style_of(for_editor),
    }
}

// Writes the page of a run, whose input is given or that of the program.
fn show_run<I: ByteIn, O: ByteOut, D: ByteOut>(
    alloc: Global,
    origin: Origin<'_>,
    files: SourceFiles<'_>,
    text: &[u8],
    display: Display<'_>,
    input: &mut I,
    out: &mut O,
    diag: &mut D,
) -> Status
    ensures shows { ShowsRun display.entry.care (origin_shown origin.entry) (files_shown files.entry) text.now
        display.entry.steps (traced_rows display.entry.rows) (option_map (λ t. t.now) display.entry.input) (run_ends
        (I.incoming input.old) (I.incoming input.new) (O.outgoing out.old) (O.outgoing out.new)
        (D.outgoing diag.old) (D.outgoing diag.new)) result }
    ensures input_lender { I.lender input.new ≡ I.lender input.old }
    ensures out_lender { O.lender out.new ≡ O.lender out.old }
    ensures diag_lender { D.lender diag.new ≡ D.lender diag.old }
{
    match display.input {
        Some(given) => {
            let wanted = page_of(files, display, given.as_bytes());
            let mut given = MemIn::new(given.as_bytes());
            show_by(
                alloc,
                text,
                origin,
                display.care,
                wanted,
                &mut given,
                out,
                diag,
            )
        }
        None => {
            let wanted = page_of(files, display, b"");
            show_by(alloc, text, origin, display.care, wanted, input, out, diag)
        }
    }
}

// Writes the page of a run, or of one that is looked at in this way.
fn show_by<I: ByteIn, O: ByteOut, D: ByteOut>(
    alloc: Global,
    text: &[u8],
    origin: Origin<'_>,
    care: Option<Care>,
    wanted: bshow::PageRequest<'_>,
    input: &mut I,
    out: &mut O,
    diag: &mut D,
) -> Status
    ensures shows { ShowsBy care (origin_shown origin.entry) text.now (page_of wanted.entry) (run_ends
        (I.incoming input.old) (I.incoming input.new) (O.outgoing out.old) (O.outgoing out.new)
        (D.outgoing diag.old) (D.outgoing diag.new)) result }
    ensures input_lender { I.lender input.new ≡ I.lender input.old }
    ensures out_lender { O.lender out.new ≡ O.lender out.old }
    ensures diag_lender { D.lender diag.new ≡ D.lender diag.old }
{
    match care {
        None => show(alloc, text, origin, wanted, input, out, diag),
        Some(care) => show_careful(
            alloc,
            text,
            origin,
            care_taken(care),
            wanted,
            input,
            out,
            diag,
        ),
    }
}

fn page_of<'a>(
    files: SourceFiles<'a>,
    display: Display<'_>,
    given: &'a [u8],
) -> bshow::PageRequest<'a>
    ensures { page_of result ≡ page_asked display.entry.steps (traced_rows display.entry.rows)
        (files_shown files.entry) given.now }
{
    bshow::PageRequest {
        steps: display.steps,
        rows: traced_rows(display.rows),
        files,
        given,
        finding: None,
    }
}

fn traced_rows(rows: Rows) -> bwatch::TraceRows
    ensures { result ≡ traced_rows rows }
{
    match rows {
        Rows::From(number) => bwatch::TraceRows::From(number),
        Rows::Last(count) => bwatch::TraceRows::Last(count),
    }
}

fn care_taken(care: Care) -> bcareful::Care
    ensures { result ≡ care_taken care }
{
    match care {
        Care::Stays => bcareful::Care::Stays,
        Care::Warns => bcareful::Care::Warns,
        Care::Wraps => bcareful::Care::Wraps,
    }
}

fn style_of(for_editor: bool) -> CountStyle
    ensures { result ≡ style_of for_editor }
{
    if for_editor {
        CountStyle::Json
    } else {
        CountStyle::Table
    }
}

fn form_of(for_editor: bool) -> FindingForm
    ensures { result ≡ form_of for_editor }
{
    if for_editor {
        FindingForm::Json
    } else {
        FindingForm::Text
    }
}

/// No command line gives these answers, whatever the shelf holds: success or an action for wrong words, a complaint for
/// help, success for a file that can't be read, a run where a limit of steps and none are asked for.
pub fn wrong_answers_are_excluded<S: Shelf>(_shelf: &S)
    ensures { Excluded (S.holdings _shelf.now) }
{}

/// A file in memory isn't missing, and its own text is compiled or run, and no other.
pub fn files_are_read(_file: MemFile<'_>)
    ensures { FileIsRead _file.entry }
{}

/// No process gets these answers: that of other words, success for wrong ones, or a complaint whose line is not
/// written. A block of its output holds what it held, and then the bytes that it takes.
pub fn wrong_processes_are_excluded<S: Shelf>(_shelf: &S)
    ensures { ProcessExcluded (S.holdings _shelf.now) }
{}
