//! Why a source or a code text has no program, as it is told.
ghost use Rattle.std.specs.Prelude.{◌≡◌, ◌≤◌, ◌+◌, ◌++◌, IfOk, List, codes, decimal, length, option_map, ℕ};
ghost use Rattle.blang.specs.Compiles.{line_of};
ghost use Rattle.blang.specs.Reports.{report_text};
ghost use Rattle.blang.specs.declared.run.Report.TheVariants as report;
ghost use Rattle.bsources.specs.Files.{files_shown, line_shown};
ghost use Rattle.btools.specs.CodesExcluded.{WrongCodes};
ghost use Rattle.btools.specs.ProgramsExcluded.{WrongPrograms};
ghost use Rattle.btools.specs.FaultPlaces.{fault_lines, place_line};
ghost use Rattle.btools.specs.NamedFrames.{unnamed_line, wanted_text, word_form};
ghost use Rattle.btools.specs.Origins.{HasNoProgramOf, NoProgramOf, Origin};
ghost use Rattle.btools.specs.PlaceLines as numbers;
ghost use Rattle.btools.specs.PlaceLines.{unlined_line};
ghost use Rattle.btools.specs.Programs.{TellsFault, load_line};

use crate::program::ProgramFault;
use crate::quoting::push_file;
use crate::telling::tell;
use crate::text::Text;
use arrayvec::ArrayString;
use bauthor::{LineWanted, Wanted};
use blang::status::{self, Status};
use blang::{Diagnostic, LoadFault};
use bparse::write_diagnostic;
use bsources::{FileLine, SourceFiles};
use bword::{ByteOut, EndFault, MemOut, Name};
use itoa::Buffer;
use std::alloc::{AllocError, Global};

/// Room for the longest line about a code text.
const CODE_LINE_LEN: usize = 178;

/// Tells why there is no program, and gives the status of `go` or, for a code text, of `run`.
pub fn tell_fault<D: ByteOut>(fault: &ProgramFault, diag: &mut D) -> Status
    ensures tells { TellsFault line_of fault.now (D.outgoing diag.old) (D.outgoing diag.new) result }
    ensures same { D.lender diag.new ≡ D.lender diag.old }
{
    match fault {
        ProgramFault::Faulty(fault) => match write_diagnostic(fault, diag) {
            Ok(()) => status::FAULT,
            Err(fault) => status::of_fault(fault),
        },
        ProgramFault::Unread(line) => {
            tell(
                unread_line(*line).as_str().as_bytes(),
                status::REFUSED,
                diag,
            )
        }
        ProgramFault::Unlined(number, wanted) => {
            tell(
                unlined_line(*number, *wanted).as_str().as_bytes(),
                status::WRONG_COMMAND,
                diag,
            )
        }
        ProgramFault::Unnamed(number, wanted) => {
            tell(
                unnamed_line(*number, *wanted).as_str().as_bytes(),
                status::WRONG_COMMAND,
                diag,
            )
        }
        ProgramFault::Unloaded(fault) => match load_line(fault) {
            Some(line) => tell(line, status::REFUSED, diag),
            None => status::MEMORY,
        },
        ProgramFault::Memory => status::MEMORY,
    }
}

// The line of the first wrong line of a code text.
fn unread_line(number: u64) -> ArrayString<CODE_LINE_LEN>
    ensures { result.bytes ≡ report_text (report.Code number) }
{
    let mut line = ArrayString::new();
    line.push_str("code ");
    line.push_str(Buffer::new().format(number));
    line.push_str("\n");
    line
}

// The line of a file of lines whose first wrong line has this number.
fn unlined_line(number: u64, wanted: LineWanted) -> ArrayString<CODE_LINE_LEN>
    ensures { result.bytes ≡ unlined_line number wanted }
{
    let mut line = ArrayString::new();
    line.push_str("error: line ");
    line.push_str(Buffer::new().format(number));
    line.push_str(" of the file of lines has to be ");
    push_number_wanted(&mut line, wanted);
    line.push_str("\n");
    line
}

fn push_number_wanted(line: &mut ArrayString<CODE_LINE_LEN>, wanted: LineWanted)
    requires { length line.now.bytes ≤ 64 }
    ensures added { line.new.bytes ≡ line.old.bytes ++ numbers.wanted_text wanted }
    ensures few { length line.new.bytes ≤ 177 }
{
    match wanted {
        LineWanted::Number(last, name, place) => {
            line.push_str("a number from 0 to ");
            line.push_str(Buffer::new().format(last));
            line.push_str(", alone or with a column of it");
            push_place(line, name, place);
        }
        LineWanted::End => line.push_str("its end"),
    }
}

fn push_place(line: &mut ArrayString<CODE_LINE_LEN>, name: Name, place: usize)
    requires { length line.now.bytes ≤ 133 }
    ensures added { line.new.bytes ≡ line.old.bytes
        ++ codes ", for place " ++ decimal place ++ codes " of " ++ name }
    ensures few { length line.new.bytes ≤ length line.old.bytes + 44 }
{
    line.push_str(", for place ");
    line.push_str(Buffer::new().format(place));
    line.push_str(" of ");
    line.push_str(name.as_str());
}

// The line of a file of names whose first wrong line has this number.
fn unnamed_line(number: u64, wanted: Wanted) -> ArrayString<CODE_LINE_LEN>
    ensures { result.bytes ≡ unnamed_line number wanted }
{
    let mut line = ArrayString::new();
    line.push_str("error: line ");
    line.push_str(Buffer::new().format(number));
    line.push_str(" of the file of names has to be ");
    push_wanted(&mut line, wanted);
    line.push_str("\n");
    line
}

fn push_wanted(line: &mut ArrayString<CODE_LINE_LEN>, wanted: Wanted)
    requires { length line.now.bytes ≤ 64 }
    ensures added { line.new.bytes ≡ line.old.bytes ++ wanted_text wanted }
    ensures few { length line.new.bytes ≤ 126 }
{
    match wanted {
        Wanted::Function(name) => {
            line.push_str("'F ");
            line.push_str(name.as_str());
            line.push_str("'");
        }
        Wanted::Word(function, word) => {
            line.push_str(word_form(word));
            line.push_str(Buffer::new().format(word));
            line.push_str(" of ");
            line.push_str(function.as_str());
        }
        Wanted::Label(function, label) => {
            line.push_str("'l NAME', for label ");
            line.push_str(Buffer::new().format(label));
            line.push_str(" of ");
            line.push_str(function.as_str());
        }
        Wanted::End => line.push_str("its end"),
    }
}

fn word_form(word: u16) -> &'static str
    ensures { result.now ≡ word_form word }
{
    if word > 0 {
        "'a NAME' or '-', for word "
    } else {
        "'a NAME', for word "
    }
}

/// The same, and then in which file a fault of the source lies, if that isn't the first one.
pub fn tell_placed<D: ByteOut>(
    alloc: Global,
    fault: &ProgramFault,
    files: SourceFiles<'_>,
    diag: &mut D,
) -> Status
    ensures tells { (origin : Origin) (source : List ℕ) → HasNoProgramOf origin source fault.now
        → NoProgramOf origin source (fault_lines (files_shown files.entry)) (D.outgoing diag.old) (D.outgoing diag.new) result }
    ensures same { D.lender diag.new ≡ D.lender diag.old }
{
    let ProgramFault::Faulty(diagnostic) = fault else {
        return tell_fault(fault, diag);
    };
    let Some(at) = files.beyond_first(diagnostic.line) else {
        return tell_fault(fault, diag);
    };
    match both_lines(alloc, diagnostic, at) {
        Ok(lines) => tell(lines.as_slice(), status::FAULT, diag),
        Err(_) => status::MEMORY,
    }
}

// The line of a diagnostic, and that of its place.
fn both_lines(alloc: Global, diagnostic: &Diagnostic, at: FileLine<'_>) -> Result<Text, AllocError>
    ensures { IfOk result (λ text. text ≡ line_of diagnostic.now ++ place_line (line_shown at.entry)) }
{
    let line = diagnostic_line(alloc, diagnostic)?;
    let place = place_line(alloc, at)?;
    let mut text = Text::new(alloc);
    text.push(line.bytes())?;
    text.push(place.as_slice())?;
    Ok(text)
}

fn place_line(alloc: Global, at: FileLine<'_>) -> Result<Text, AllocError>
    ensures { IfOk result (λ text. text ≡ place_line (line_shown at.entry)) }
{
    let mut text = Text::new(alloc);
    text.push(b"at     line ")?;
    text.push_number(at.line)?;
    text.push(b" of ")?;
    push_file(&mut text, at.file.as_bytes())?;
    text.push(b"\n")?;
    Ok(text)
}

/// The line of a diagnostic.
pub fn diagnostic_line(alloc: Global, fault: &Diagnostic) -> Result<MemOut, AllocError>
    ensures { IfOk result (λ line. line.bytes ≡ line_of fault.now) }
{
    let mut line = MemOut::new(alloc);
    match write_diagnostic(fault, &mut line) {
        Ok(()) => Ok(line),
        Err(EndFault::Memory) => Err(AllocError),
        Err(EndFault::Device) => unreachable!(),
    }
}

/// The line of a reason why a program doesn't load; none if memory ran out.
pub fn load_line(fault: &LoadFault) -> Option<&'static [u8]>
    ensures { option_map (λ l. l.now) result ≡ load_line fault.now }
{
    match fault {
        LoadFault::Duplicate(_) => Some(b"load 1\n"),
        LoadFault::TooLarge => Some(b"load 2\n"),
        LoadFault::Undefined(_) => Some(b"load 3\n"),
        LoadFault::NoMain => Some(b"load 4\n"),
        LoadFault::Memory => None,
    }
}

/// No source gives another program than that of its definitions, or another status or line if it has none.
pub fn wrong_programs_are_excluded()
    ensures { WrongPrograms }
{}

/// No code text gives another program than that of its definitions, or other lines, and no other text gives one.
pub fn wrong_codes_are_excluded()
    ensures { WrongCodes }
{}
