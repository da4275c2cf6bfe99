//! Checking the code of a program, and telling what is found.
ghost use Rattle.std.specs.Prelude.{◌≡◌, ◌++◌, ◌||◌, List, IfOk, OnOk, slice_index};
ghost use Rattle.std.specs.List.{flat_map};
ghost use Rattle.blang.specs.declared.code.Definition.TheVariants as definition;
ghost use Rattle.btools.specs.Origins.{origin_shown};
ghost use Rattle.btools.specs.Programs.{told_ends};
ghost use Rattle.bverify.specs.Flaws.{some_can_be_stuck};
ghost use Rattle.bverify.specs.Verifies.{AreFlawsOf, IsChecked, TellsOf, Verifies, VerifiesText, flaw_line, flaw_text};
ghost use Rattle.bverify.specs.Verifies.{nothing_told, verified_status, with_flaws};

use crate::flaws::{Flaw, PlacedFlaw, verify_function};
use blang::status::{self, Status};
use blang::{Definition, Function};
use btools::{CodeText, Origin, Text, read_program, split_lines, tell, tell_fault};
use bword::ByteOut;
use std::alloc::{AllocError, Global};

/// Tells of each function of a program where operands can lack, and what is never reached or left over.
///
/// The status is 0 if no run of the code gives the trap `sk`, on any input, and 1 if some may. If there is no program,
/// the line and the status are those of `go`, or of `run` for a code text.
pub fn verify<O: ByteOut, D: ByteOut>(
    alloc: Global,
    source: &[u8],
    origin: Origin<'_>,
    out: &mut O,
    diag: &mut D,
) -> Status
    ensures verifies { Verifies (origin_shown origin.entry) source.now (told_ends
        (O.outgoing out.old) (O.outgoing out.new) (D.outgoing diag.old) (D.outgoing diag.new)) result }
    ensures out_lender { O.lender out.new ≡ O.lender out.old }
    ensures diag_lender { D.lender diag.new ≡ D.lender diag.old }
{
    let program = match read_program(alloc, source, origin) {
        Ok(program) => program,
        Err(fault) => return tell_fault(&fault, diag),
    };
    match telling_of(alloc, &program.definitions, &program.names.lines) {
        Ok(told) => tell(
            told.text.as_slice(),
            verified_status(told.can_be_stuck),
            out,
        ),
        Err(_) => status::MEMORY,
    }
}

/// Tells the same of a code text.
pub fn verify_text<O: ByteOut, D: ByteOut>(
    alloc: Global,
    code: &[u8],
    out: &mut O,
    diag: &mut D,
) -> Status
    ensures verifies { VerifiesText code.now (told_ends
        (O.outgoing out.old) (O.outgoing out.new) (D.outgoing diag.old) (D.outgoing diag.new)) result }
    ensures out_lender { O.lender out.new ≡ O.lender out.old }
    ensures diag_lender { D.lender diag.new ≡ D.lender diag.old }
{
    let text = CodeText {
        code,
        lines: None,
        source: None,
        names: None,
    };
    verify(alloc, code, Origin::Code(text), out, diag)
}

// The status of a program of which some run may be stuck, or none.
fn verified_status(can_be_stuck: bool) -> Status
    ensures { result ≡ verified_status can_be_stuck }
{
    if can_be_stuck {
        status::FAULT
    } else {
        status::DONE
    }
}

// What is told so far, and whether some run may be stuck.
#[derive(Drop)]
struct Telling {
    text: Text,
    can_be_stuck: bool,
}

fn telling_of(
    alloc: Global,
    definitions: &[Definition],
    lines: &[u64],
) -> Result<Telling, AllocError>
    ensures { IfOk result (λ t. TellsOf definitions.now lines.now t) }
{
    let mut told = nothing_told(alloc);
    let mut rest = lines;
    for definition in definitions {
        let (own, later) = split_lines(rest, definition);
        told.add(alloc, definition, own)?;
        rest = later;
    }
    Ok(told)
}

fn nothing_told(alloc: Global) -> Telling
    ensures { result ≡ nothing_told }
{
    Telling {
        text: Text::new(alloc),
        can_be_stuck: false,
    }
}

impl Telling {
    fn add(
        &mut self,
        alloc: Global,
        definition: &Definition,
        lines: &[u64],
    ) -> Result<(), AllocError>
        ensures { OnOk result ((flaws : List PlacedFlaw) × IsChecked definition.now flaws
            × (self.new ≡ with_flaws self.old definition.now lines.now flaws)) }
    {
        match definition {
            Definition::Function(function) => self.add_function(alloc, function, lines),
            Definition::Simple(_) => Ok(()),
            Definition::Vector(_) => Ok(()),
        }
    }

    fn add_function(
        &mut self,
        alloc: Global,
        function: &Function,
        lines: &[u64],
    ) -> Result<(), AllocError>
        ensures { OnOk result ((flaws : List PlacedFlaw) × AreFlawsOf function.now flaws
            × (self.new ≡ with_flaws self.old (definition.Function function.now) lines.now flaws)) }
    {
        let verified = verify_function(alloc, function)?;
        let flaws = verified.flaws.as_slice();
        push_function(&mut self.text, function, lines, flaws)?;
        self.can_be_stuck = either(self.can_be_stuck, some_can_be_stuck(flaws));
        Ok(())
    }
}

fn either(one: bool, other: bool) -> bool
    ensures { result ≡ (one || other) }
{
    one || other
}

fn some_can_be_stuck(flaws: &[PlacedFlaw]) -> bool
    ensures { result ≡ some_can_be_stuck flaws.now }
{
    flaws.iter().any(|placed| placed.flaw.can_be_stuck())
}

fn push_function(
    text: &mut Text,
    function: &Function,
    lines: &[u64],
    flaws: &[PlacedFlaw],
) -> Result<(), AllocError>
    ensures { OnOk result (text.new ≡ text.old ++ flat_map (flaw_line function.now.name lines.now) flaws.now) }
{
    let parts = function.parts();
    push_flaws(text, parts.name.as_bytes(), lines, flaws)
}

fn push_flaws(
    text: &mut Text,
    name: &[u8],
    lines: &[u64],
    flaws: &[PlacedFlaw],
) -> Result<(), AllocError>
    ensures { OnOk result (text.new ≡ text.old ++ flat_map (flaw_line name.now lines.now) flaws.now) }
{
    for placed in flaws {
        push_flaw_line(text, name, lines, *placed)?;
    }
    Ok(())
}

fn push_flaw_line(
    text: &mut Text,
    name: &[u8],
    lines: &[u64],
    placed: PlacedFlaw,
) -> Result<(), AllocError>
    ensures { OnOk result (text.new ≡ text.old ++ flaw_line name.now lines.now placed) }
{
    text.push(b"in ")?;
    text.push_left(8, name)?;
    text.push(b" place ")?;
    text.push_right_number(4, placed.place as u64)?;
    text.push(b"  line ")?;
    text.push_right_number(4, line_at(lines, placed.place))?;
    text.push(b"  ")?;
    push_flaw(text, placed.flaw)?;
    text.push(b"\n")
}

fn line_at(lines: &[u64], place: usize) -> u64
    ensures { result ≡ slice_index lines.now place }
{
    lines.get(place).copied().unwrap_or(0)
}

fn push_flaw(text: &mut Text, flaw: Flaw) -> Result<(), AllocError>
    ensures { OnOk result (text.new ≡ text.old ++ flaw_text flaw) }
{
    match flaw {
        Flaw::Lacks { depth, taken } => {
            text.push(b"takes ")?;
            text.push_number(u64::from(taken))?;
            text.push(b" of ")?;
            text.push_number(u64::from(depth))?;
            text.push(b" operands")
        }
        Flaw::Differs { to, depth, other } => push_differing(text, to, depth, other),
        Flaw::Leaves { to } => push_leaving(text, to),
        Flaw::Unreached => text.push(b"no way comes here"),
        Flaw::Left(operands) => {
            text.push(b"returns, and drops operands besides: ")?;
            text.push_number(u64::from(operands))
        }
        Flaw::NoGoto(label) => {
            text.push(b"label ")?;
            text.push_number(label as u64)?;
            text.push(b" is here, and no goto comes to it")
        }
    }
}

fn push_differing(text: &mut Text, to: usize, depth: u32, other: u16) -> Result<(), AllocError>
    ensures { OnOk result (text.new ≡ text.old ++ flaw_text (Flaw.Differs to depth other)) }
{
    text.push(b"comes to place ")?;
    text.push_number(to as u64)?;
    text.push(b" with ")?;
    text.push_number(depth as u64)?;
    text.push(b" operands, another way with ")?;
    text.push_number(other as u64)
}

fn push_leaving(text: &mut Text, to: usize) -> Result<(), AllocError>
    ensures { OnOk result (text.new ≡ text.old ++ flaw_text (Flaw.Leaves to)) }
{
    text.push(b"comes to place ")?;
    text.push_number(to as u64)?;
    text.push(b", which has no instruction")
}
