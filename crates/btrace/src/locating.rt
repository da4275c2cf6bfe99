//! Telling where a run was over.
ghost use Rattle.std.specs.Prelude.{◌≡◌, ◌++◌, IfOk, OnOk};
ghost use Rattle.blang.specs.Reports.{run_ends};
ghost use Rattle.btrace.specs.TraceExcluded.{LocatesExcluded};
ghost use Rattle.bsources.specs.Files.{Files, files_shown};
ghost use Rattle.btrace.specs.PlacesTold.{PlacesTold};
ghost use Rattle.btools.specs.Origins.{origin_shown};
ghost use Rattle.btrace.specs.RowTexts.{legend_of};
ghost use Rattle.btrace.specs.Locates.{Locates, TellsSite, meaning, meaning_text, told_site};

use crate::legend::Legend;
use crate::looping::push_loop;
use crate::places::{push_site, push_source};
use bendless::{Endless, endless_of, push_repeat, run_recorded};
use blang::status::{self, Status};
use blang::{Outcome, Trap};
use bmach::{Stepper, Stop};
use bpages::PagedStore;
use brun::finish;
use bsources::SourceFiles;
use btools::{Origin, Tables, Text, located_status, read_program, tell, tell_placed};
use bword::{ByteIn, ByteOut};
use std::alloc::{AllocError, Global};

/// Runs a program for at most so many steps, and tells where the run ended.
///
/// The output, the line and the status are those of `go_edition`. After the line of a trap or of the limit, a second
/// line tells the function, the place in it, the number of the line of the source, and how many steps were made; then
/// come this line of the source, and what the trap or the limit means. If `main` had no room for its frame, the run
/// never began, and nothing comes after the first line.
pub fn locate<I: ByteIn, O: ByteOut, D: ByteOut>(
    alloc: Global,
    source: &[u8],
    origin: Origin<'_>,
    files: SourceFiles<'_>,
    steps: u64,
    input: &mut I,
    out: &mut O,
    diag: &mut D,
) -> Status
    ensures locates { Locates (origin_shown origin.entry) source.now (files_shown files.entry) steps (run_ends
        (I.incoming input.old) (I.incoming input.new) (O.outgoing out.old) (O.outgoing out.new)
        (D.outgoing diag.old) (D.outgoing diag.new)) result }
    ensures input_lender { I.lender input.new ≡ I.lender input.old }
    ensures out_lender { O.lender out.new ≡ O.lender out.old }
    ensures diag_lender { D.lender diag.new ≡ D.lender diag.old }
{
    let program = match read_program(alloc, source, origin) {
        Ok(program) => program,
        Err(fault) => return tell_placed(alloc, &fault, files, diag),
    };
    let image = &program.image;
    let Ok(tables) = Tables::new(alloc, &program) else {
        return status::MEMORY;
    };
    let Ok(store) = PagedStore::new(alloc) else {
        return status::MEMORY;
    };
    let stepper = match Stepper::begin(alloc, image, store) {
        Ok(stepper) => stepper,
        Err(outcome) => return finish(outcome, diag),
    };
    let ran = run_recorded(alloc, stepper, input, out, steps);
    let stop = ran.stop;
    let legend = Legend {
        tables: &tables,
        files,
    };
    let told = finish(stop.outcome, diag);
    match located_status(stop.outcome) {
        Some(status) if status == told => {
            let again = endless_of(alloc, &program, &tables, &ran.record, stop.outcome);
            tell_site(alloc, &legend, source, stop, &again, told, diag)
        }
        _ => told,
    }
}

// What a trap or the limit means; nothing for another outcome.
#[rattlefmt::skip]
fn meaning(outcome: Outcome) -> &'static str
    ensures { result.now ≡ meaning outcome }
{
    match outcome {
        Outcome::Trap(Trap::ZeroDivisor) => "a division by 0",
        Outcome::Trap(Trap::NotAFunction) => "a call of something that is no function",
        Outcome::Trap(Trap::NotALabel) => "a goto to something that is no label of the function",
        Outcome::Trap(Trap::NoRoom) => "a call whose frame has no room in memory",
        Outcome::Trap(Trap::TooDeep) => "more than 4096 active calls",
        Outcome::Trap(Trap::BadBase) => "a base of printn that isn't 2 to 10",
        Outcome::Trap(Trap::Stuck) => "too few operands, or no instruction at this place",
        Outcome::Limit => "no end within so many steps; --steps N or --no-limit gives more",
        Outcome::Exit(_) | Outcome::Device | Outcome::Memory => "",
    }
}

/// Writes the place where a run was over, its line of the source, and what this means.
pub fn tell_site<D: ByteOut>(
    alloc: Global,
    legend: &Legend<'_, '_, '_>,
    source: &[u8],
    stop: Stop,
    again: &Option<Endless>,
    status: Status,
    diag: &mut D,
) -> Status
    ensures tells { TellsSite (legend_of legend.now) source.now stop.outcome stop.call stop.steps
        again.now status (D.outgoing diag.old) (D.outgoing diag.new) result }
    ensures same { D.lender diag.new ≡ D.lender diag.old }
{
    match told_site(alloc, legend, source, stop, again) {
        Ok(text) => tell(text.as_slice(), status, diag),
        Err(_) => status::MEMORY,
    }
}

fn told_site(
    alloc: Global,
    legend: &Legend<'_, '_, '_>,
    source: &[u8],
    stop: Stop,
    again: &Option<Endless>,
) -> Result<Text, AllocError>
    ensures { IfOk result (λ text. text
        ≡ told_site (legend_of legend.now) source.now stop.outcome stop.call stop.steps again.now) }
{
    let mut text = Text::new(alloc);
    text.push(b"at     ")?;
    push_site(&mut text, legend, stop.call)?;
    text.push(b"  step ")?;
    text.push_number(stop.steps)?;
    text.push(b"\n")?;
    push_source(&mut text, legend, source, stop.call)?;
    text.push(b"  means: ")?;
    push_meaning(&mut text, stop.outcome, again)?;
    text.push(b"\n")?;
    push_loop(&mut text, legend, source, again)?;
    Ok(text)
}

fn push_meaning(
    text: &mut Text,
    outcome: Outcome,
    again: &Option<Endless>,
) -> Result<(), AllocError>
    ensures { OnOk result (text.new ≡ text.old ++ meaning_text outcome again.now) }
{
    match again {
        None => text.push(meaning(outcome).as_bytes()),
        Some(endless) => push_repeat(text, endless.repeat),
    }
}

/// No run is answered by its trap or its limit without the place, or by the status of other steps.
pub fn wrong_places_are_excluded()
    ensures { (files : Files) → LocatesExcluded files }
{}

/// The place that is told is the one where the machine was, for each program, with the line by which its instruction was
/// made.
pub fn the_place_is_told()
    ensures { PlacesTold }
{}
