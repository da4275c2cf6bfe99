//! What is told of a finding.
ghost use Rattle.std.specs.Prelude.{◌≡◌, ◌+◌, ◌<◌, ◌^◌, ◌++◌, ◌∷◌, IfOk, List, OnOk, map, ℕ};
ghost use Rattle.bmach.specs.Stops.{active_of};
ghost use Rattle.btrace.specs.RowTexts.{legend_of};
ghost use Rattle.bcareful.specs.Things.{atlas_of};
ghost use Rattle.bcareful.specs.Tellings.{Tells, TellsOver, address_of, address_text, extent_text, fault_text};
ghost use Rattle.bcareful.specs.Tellings.{careful_line, finding_meaning, careful_text, found_place, sign, thing_text};
ghost use Rattle.bcareful.specs.Tellings.{part_text, wrap_text};
ghost use Rattle.bwatch.specs.Sights.{sight_at};

use crate::atlas::Atlas;
use crate::finding::Finding;
use crate::naming::word_name;
use crate::thing::{Part, Thing};
use crate::watching::Found;
use bendless::Endless;
use blang::status::{self, Status};
use bmach::{Stepper, Stop};
use brun::finish;
use btools::{Text, located_status, push_signed, tell};
use btrace::{Legend, push_site, push_source, tell_site};
use bword::{BinOp, ByteOut, Store};
use std::alloc::{AllocError, Global};

/// Writes what is found at the next step of a run: its kind, its place, the line of the source, and what is wrong.
pub fn tell_found<S: Store + Drop, D: ByteOut>(
    alloc: Global,
    atlas: &Atlas<'_>,
    legend: &Legend<'_, '_, '_>,
    source: &[u8],
    stepper: &Stepper<'_, S>,
    found: Found,
    diag: &mut D,
) -> Status
    requires { found.made + 1 < 2 ^ 64 }
    ensures told { (output : List ℕ) → Tells (careful_text (atlas_of atlas.now) (legend_of legend.now) source.now
        (sight_at stepper.now output) found) (D.outgoing diag.old) (D.outgoing diag.new) result }
    ensures same { D.lender diag.new ≡ D.lender diag.old }
{
    match found_text(alloc, atlas, legend, source, stepper, found) {
        Ok(text) => tell(text.as_slice(), status::TRAP, diag),
        Err(_) => status::MEMORY,
    }
}

/// The same, as a text.
pub fn found_text<S: Store + Drop>(
    alloc: Global,
    atlas: &Atlas<'_>,
    legend: &Legend<'_, '_, '_>,
    source: &[u8],
    stepper: &Stepper<'_, S>,
    found: Found,
) -> Result<Text, AllocError>
    requires { found.made + 1 < 2 ^ 64 }
    ensures { IfOk result (λ text. (output : List ℕ) → text ≡ careful_text (atlas_of atlas.now) (legend_of legend.now)
        source.now (sight_at stepper.now output) found) }
{
    let mut text = Text::new(alloc);
    text.push(careful_line(found.finding))?;
    push_found_place(&mut text, legend, source, found)?;
    push_meaning(&mut text, atlas, stepper, found.finding)?;
    text.push(b"\n")?;
    Ok(text)
}

// The line of a finding.
fn careful_line(finding: Finding) -> &'static [u8]
    ensures { result.now ≡ careful_line finding }
{
    match finding {
        Finding::Never(..) => b"careful set\n",
        Finding::Low(_) => b"careful low\n",
        Finding::Index(..) | Finding::Past(_) | Finding::Over(_) => b"careful index\n",
        Finding::Wraps(..) => b"careful wraps\n",
    }
}

// Adds the place of the step, and its line of the source.
fn push_found_place(
    text: &mut Text,
    legend: &Legend<'_, '_, '_>,
    source: &[u8],
    found: Found,
) -> Result<(), AllocError>
    requires { found.made + 1 < 2 ^ 64 }
    ensures { OnOk result (text.new ≡ text.old ++ found_place (legend_of legend.now) source.now found) }
{
    text.push(b"at     ")?;
    push_site(text, legend, found.call)?;
    text.push(b"  step ")?;
    text.push_number(found.made + 1)?;
    text.push(b"\n")?;
    push_source(text, legend, source, found.call)?;
    text.push(b"  means: ")
}

/// Adds what is wrong with the next step.
pub fn push_meaning<S: Store + Drop>(
    text: &mut Text,
    atlas: &Atlas<'_>,
    stepper: &Stepper<'_, S>,
    finding: Finding,
) -> Result<(), AllocError>
    ensures { OnOk result (text.new ≡ text.old ++ finding_meaning (atlas_of atlas.now)
        (active_of stepper.now.call ∷ map active_of stepper.now.below) finding) }
{
    push_fault(text, atlas, stepper, finding)?;
    match address_of(finding) {
        Some(address) => word_name(atlas, stepper, address).push_to(text),
        None => Ok(()),
    }
}

// The wrong word that a step reads or stores.
fn address_of(finding: Finding) -> Option<u16>
    ensures { result ≡ address_of finding }
{
    match finding {
        Finding::Never(_, address)
        | Finding::Low(address)
        | Finding::Index(_, address)
        | Finding::Past(address)
        | Finding::Over(address) => Some(address),
        Finding::Wraps(..) => None,
    }
}

// Adds what is wrong with a step, as far as the name of its word.
fn push_fault<S: Store + Drop>(
    text: &mut Text,
    atlas: &Atlas<'_>,
    stepper: &Stepper<'_, S>,
    finding: Finding,
) -> Result<(), AllocError>
    ensures { OnOk result (text.new ≡ text.old
        ++ fault_text (atlas_of atlas.now) (active_of stepper.now.call ∷ map active_of stepper.now.below) finding) }
{
    match finding {
        Finding::Never(part, _) => {
            text.push(b"nothing has set ")?;
            text.push(part_text(part))
        }
        Finding::Low(address) => push_address(text, address),
        Finding::Index(thing, address) => push_thing(text, atlas, stepper, thing, address),
        Finding::Past(_) => text.push(b"a character after the end of "),
        Finding::Over(_) => text.push(b"a word of a call that is over: this is "),
        Finding::Wraps(operator, left, right) => push_wrap(text, operator, left, right),
    }
}

fn part_text(part: Part) -> &'static [u8]
    ensures { result.now ≡ part_text part }
{
    match part {
        Part::Whole => b"",
        Part::First => b"the first character of ",
        Part::Second => b"the second character of ",
    }
}

// Adds an operation whose result is no word.
fn push_wrap(text: &mut Text, operator: BinOp, left: u16, right: u16) -> Result<(), AllocError>
    ensures { OnOk result (text.new ≡ text.old ++ wrap_text operator left right) }
{
    push_signed(text, left)?;
    text.push(b" ")?;
    text.push(sign(operator))?;
    text.push(b" ")?;
    push_signed(text, right)?;
    text.push(b" is no number from -32768 to 32767")
}

fn push_address(text: &mut Text, address: u16) -> Result<(), AllocError>
    ensures { OnOk result (text.new ≡ text.old ++ address_text address) }
{
    text.push(b"the address ")?;
    text.push_number(u64::from(address))?;
    text.push(b" is ")
}

// Adds which word of a thing an address is.
fn push_thing<S: Store + Drop>(
    text: &mut Text,
    atlas: &Atlas<'_>,
    stepper: &Stepper<'_, S>,
    thing: Thing,
    address: u16,
) -> Result<(), AllocError>
    ensures { OnOk result (text.new ≡ text.old
        ++ thing_text (atlas_of atlas.now) (active_of stepper.now.call
        ∷ map active_of stepper.now.below) thing address) }
{
    let first = word_name(atlas, stepper, thing.start);
    first.push_numbered(text, address.wrapping_sub(thing.start))?;
    push_extent(text, thing)?;
    text.push(b": this is ")
}

fn push_extent(text: &mut Text, thing: Thing) -> Result<(), AllocError>
    ensures { OnOk result (text.new ≡ text.old ++ extent_text thing) }
{
    if thing.words > 1 {
        text.push(b", which has words 0 to ")?;
        text.push_number((thing.words - 1) as u64)
    } else {
        text.push(b", which is one word")
    }
}

// The operators whose results may be no word.
fn sign(operator: BinOp) -> &'static [u8]
    ensures { result.now ≡ sign operator }
{
    match operator {
        BinOp::Add => b"+",
        BinOp::Sub => b"-",
        BinOp::Mul => b"*",
        _ => b"",
    }
}

/// Writes the line of a run without a finding, and where it is that of a trap or of the limit, the place after it, and
/// that a state comes again, if one does.
pub fn tell_over<D: ByteOut>(
    alloc: Global,
    legend: &Legend<'_, '_, '_>,
    source: &[u8],
    stop: Stop,
    again: &Option<Endless>,
    diag: &mut D,
) -> Status
    ensures tells { TellsOver (legend_of legend.now) source.now stop again.now
        (D.outgoing diag.old) (D.outgoing diag.new) result }
    ensures same { D.lender diag.new ≡ D.lender diag.old }
{
    let told = finish(stop.outcome, diag);
    match located_status(stop.outcome) {
        Some(status) if status == told => {
            tell_site(alloc, legend, source, stop, again, told, diag)
        }
        _ => told,
    }
}
