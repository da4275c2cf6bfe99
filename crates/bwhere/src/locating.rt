//! Running a code text, and telling where it went wrong.
ghost use Rattle.std.specs.Prelude.{◌≡◌, ◌≤◌, ◌++◌, IfOk, OnOk, map};
ghost use Rattle.blang.specs.Layout.{data_end, shape_of};
ghost use Rattle.blang.specs.Reports.{run_ends};
ghost use Rattle.btools.specs.Programs.{load_line};
ghost use Rattle.bwhere.specs.Sites.{site_shown};
ghost use Rattle.bwhere.specs.Wheres.{LocatesCode, TellsUnloaded, TellsUnread, TellsOrNone, code_meaning, cut_text, code_loop_text, code_meaning_text, site_line_text, code_site_text, told_code_site, unread_text, unloaded_text};

use crate::due::push_due;
use crate::form::push_hint;
use crate::loading::{push_line, push_unloaded};
use crate::site::{Site, site_of};
use bcode::{CodeFault, read_code};
use bendless::{Repeat, push_repeat, repeat_of, run_recorded};
use blang::status::{self, Status};
use blang::{Definition, LoadFault, Outcome, Trap};
use bmach::{Stepper, Stop, load_slice};
use bpages::PagedStore;
use brun::finish;
use btools::{Text, line_at, lines_before, load_line, located_status, push_source_line, tell};
use bword::{ByteIn, ByteOut};
use std::alloc::{AllocError, Global};

/// Runs a code text for at most so many steps, and tells where it went wrong.
///
/// The output, the first line and the status are those of `run_text`. After the line of a trap or of the limit come the
/// function, the place, the number of the line of the code text, how many steps were made, that line, and what the trap
/// or the limit means. After `code n` come line n and what could come there; after `load n` the name and, for an
/// undefined one, the first line that uses it. If `main` had no room for its frame, nothing comes after the first line.
pub fn locate_code<I: ByteIn, O: ByteOut, D: ByteOut>(
    alloc: Global,
    code: &[u8],
    input: &mut I,
    out: &mut O,
    diag: &mut D,
    steps: u64,
) -> Status
    ensures locates { LocatesCode steps code.now (run_ends
        (I.incoming input.old) (I.incoming input.new) (O.outgoing out.old) (O.outgoing out.new)
        (D.outgoing diag.old) (D.outgoing diag.new)) result }
    ensures input_lender { I.lender input.new ≡ I.lender input.old }
    ensures out_lender { O.lender out.new ≡ O.lender out.old }
    ensures diag_lender { D.lender diag.new ≡ D.lender diag.old }
{
    let definitions = match read_code(alloc, code) {
        Ok(definitions) => definitions,
        Err(fault) => return tell_unread(alloc, code, fault, diag),
    };
    let image = match load_slice(alloc, &definitions) {
        Ok(image) => image,
        Err(fault) => return tell_unloaded(alloc, code, &fault, diag),
    };
    let Ok(store) = PagedStore::new(alloc) else {
        return status::MEMORY;
    };
    let stepper = match Stepper::begin(alloc, &image, store) {
        Ok(stepper) => stepper,
        Err(outcome) => return finish(outcome, diag),
    };
    let ran = run_recorded(alloc, stepper, input, out, steps);
    let stop = ran.stop;
    let told = finish(stop.outcome, diag);
    match located_status(stop.outcome) {
        Some(status) if status == told => {
            let again = repeat_of(alloc, &image, &ran.record, stop.outcome);
            tell_place(alloc, code, &definitions, stop, again, told, diag)
        }
        _ => told,
    }
}

// Tells why a text was not read.
fn tell_unread<D: ByteOut>(alloc: Global, code: &[u8], fault: CodeFault, diag: &mut D) -> Status
    ensures tells { TellsUnread code.now fault (D.outgoing diag.old) (D.outgoing diag.new) result }
    ensures same { D.lender diag.new ≡ D.lender diag.old }
{
    let CodeFault::Line(number) = fault else {
        return status::MEMORY;
    };
    match unread_text(alloc, code, number) {
        Ok(text) => tell(text.as_slice(), status::REFUSED, diag),
        Err(_) => status::MEMORY,
    }
}

fn unread_text(alloc: Global, code: &[u8], number: u64) -> Result<Text, AllocError>
    ensures { IfOk result (λ text. text ≡ unread_text code.now number) }
{
    let mut text = Text::new(alloc);
    text.push(b"code ")?;
    text.push_number(number)?;
    text.push(b"\n")?;
    push_line(&mut text, code, number)?;
    text.push(b"  wanted: ")?;
    push_due(&mut text, code, number)?;
    push_hint(&mut text, code, number)?;
    text.push(cut_text(code, number))?;
    text.push(b"\n")?;
    Ok(text)
}

// What is told of a line that has no newline.
fn cut_text(code: &[u8], number: u64) -> &'static [u8]
    ensures { result.now ≡ cut_text code.now number }
{
    let ended = code.iter().filter(|byte| **byte == b'\n').count() as u64;
    if ended < number {
        b"; the text ends in this line"
    } else {
        b""
    }
}

// Tells why a text doesn't load.
fn tell_unloaded<D: ByteOut>(alloc: Global, code: &[u8], fault: &LoadFault, diag: &mut D) -> Status
    ensures tells { TellsUnloaded code.now fault.now (load_line fault.now) (D.outgoing diag.old) (D.outgoing diag.new) result }
    ensures same { D.lender diag.new ≡ D.lender diag.old }
{
    let Some(line) = load_line(fault) else {
        return status::MEMORY;
    };
    match unloaded_text(alloc, code, line, fault) {
        Ok(text) => tell(text.as_slice(), status::REFUSED, diag),
        Err(_) => status::MEMORY,
    }
}

fn unloaded_text(
    alloc: Global,
    code: &[u8],
    line: &[u8],
    fault: &LoadFault,
) -> Result<Text, AllocError>
    ensures { IfOk result (λ text. text ≡ line.now ++ unloaded_text code.now fault.now) }
{
    let mut text = Text::new(alloc);
    text.push(line)?;
    push_unloaded(&mut text, code, fault)?;
    Ok(text)
}

// Tells where a run was over.
fn tell_place<D: ByteOut>(
    alloc: Global,
    code: &[u8],
    definitions: &[Definition],
    stop: Stop,
    again: Option<Repeat>,
    status: Status,
    diag: &mut D,
) -> Status
    requires { data_end (map shape_of definitions.now) ≤ 65536 }
    ensures tells { TellsOrNone (told_code_site code.now definitions.now stop.outcome stop.call stop.steps again)
        status (D.outgoing diag.old) (D.outgoing diag.new) result }
    ensures same { D.lender diag.new ≡ D.lender diag.old }
{
    match told_code_site(alloc, code, definitions, stop, again) {
        Ok(text) => tell(text.as_slice(), status, diag),
        Err(_) => status::MEMORY,
    }
}

fn told_code_site(
    alloc: Global,
    code: &[u8],
    definitions: &[Definition],
    stop: Stop,
    again: Option<Repeat>,
) -> Result<Text, AllocError>
    requires { data_end (map shape_of definitions.now) ≤ 65536 }
    ensures { IfOk result (λ text. text ≡ told_code_site code.now definitions.now stop.outcome stop.call stop.steps again) }
{
    let site = site_of(definitions, lines_before(code), stop.call.strings);
    let mut text = Text::new(alloc);
    text.push(b"at     ")?;
    push_site(&mut text, site, stop.call.place)?;
    text.push(b"  step ")?;
    text.push_number(stop.steps)?;
    push_site_line(&mut text, code, site, stop.call.place)?;
    text.push(b"  means: ")?;
    push_meaning(&mut text, code, definitions, stop, again)?;
    Ok(text)
}

fn push_meaning(
    text: &mut Text,
    code: &[u8],
    definitions: &[Definition],
    stop: Stop,
    again: Option<Repeat>,
) -> Result<(), AllocError>
    requires { data_end (map shape_of definitions.now) ≤ 65536 }
    ensures { OnOk result (text.new ≡ text.old ++ code_meaning_text code.now definitions.now stop.outcome stop.call again) }
{
    if let Some(repeat) = again {
        return push_loop(text, code, definitions, repeat);
    }
    let site = site_of(definitions, lines_before(code), stop.call.strings);
    text.push(code_meaning(stop.outcome, site, stop.call.place).as_bytes())?;
    text.push(b"\n")
}

// That a state comes again, and the place of the call in which it does.
fn push_loop(
    text: &mut Text,
    code: &[u8],
    definitions: &[Definition],
    repeat: Repeat,
) -> Result<(), AllocError>
    requires { data_end (map shape_of definitions.now) ≤ 65536 }
    ensures { OnOk result (text.new ≡ text.old ++ code_loop_text code.now definitions.now repeat) }
{
    let site = site_of(definitions, lines_before(code), repeat.call.strings);
    push_repeat(text, repeat)?;
    text.push(b"\nloop   ")?;
    push_site(text, site, repeat.call.place)?;
    push_site_line(text, code, site, repeat.call.place)
}

fn push_site(text: &mut Text, site: Site<'_>, place: usize) -> Result<(), AllocError>
    ensures { OnOk result (text.new ≡ text.old ++ code_site_text (site_shown site.entry) place) }
{
    text.push(b"in ")?;
    text.push_left(8, site.name)?;
    text.push(b" place ")?;
    text.push_right_number(4, place as u64)?;
    text.push(b"  line ")?;
    text.push_right_number(4, site.line(place))
}

// The line of a place, in a line of its own.
fn push_site_line(
    text: &mut Text,
    code: &[u8],
    site: Site<'_>,
    place: usize,
) -> Result<(), AllocError>
    ensures { OnOk result (text.new ≡ text.old ++ site_line_text code.now (site_shown site.entry) place) }
{
    text.push(b"\n    ")?;
    push_source_line(text, line_at(code, site.line(place)))?;
    text.push(b"\n")
}

// What a trap or the limit means for an author of code; nothing for another outcome.
#[rattlefmt::skip]
fn code_meaning(outcome: Outcome, site: Site<'_>, place: usize) -> &'static str
    ensures { result.now ≡ code_meaning outcome (site_shown site.entry) place }
{
    match outcome {
        Outcome::Trap(Trap::ZeroDivisor) => "the right operand of / or % is 0",
        Outcome::Trap(Trap::NotAFunction) => "the callee below the arguments is neither 1 to 6 nor the value of a function",
        Outcome::Trap(Trap::NotALabel) => "the word isn't the value of a label of this function",
        Outcome::Trap(Trap::NoRoom) => "the frame of the called function has no room in the store",
        Outcome::Trap(Trap::TooDeep) => "4096 calls are active",
        Outcome::Trap(Trap::BadBase) => "the base of printn isn't 2 to 10",
        Outcome::Trap(Trap::Stuck) if place < site.instructions => "too few operands",
        Outcome::Trap(Trap::Stuck) => "no instruction of the function is at this place",
        Outcome::Limit => "no end within so many steps; --steps N or --no-limit gives more",
        Outcome::Exit(_) | Outcome::Device | Outcome::Memory => "",
    }
}
