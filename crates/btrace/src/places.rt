//! The places where a run was.
ghost use Rattle.std.specs.Prelude.{◌≡◌, [], ◌++◌, IfOk, OnOk, map, if◌then◌else◌};
ghost use Rattle.bmach.specs.Stops.{active_of};
ghost use Rattle.btrace.specs.RowTexts.{caller_text, count_before, ended_text, first_words, has_more, legend_of};
ghost use Rattle.btrace.specs.RowTexts.{more_text};
ghost use Rattle.btrace.specs.RowTexts.{place_column, place_line, place_text, places_text, site_text, source_text};
ghost use Rattle.btrace.specs.RowTexts.{column_told, source_row, waiting, words_text};

use crate::legend::{Legend, push_line};
use crate::rows::frame_address;
use bmach::{Active, Stepper};
use btools::{Text, line_at, name_of, push_mark, push_signed, push_source_line};
use bword::Store;
use std::alloc::AllocError;

/// How many parameters are shown.
const SHOWN_PARAMETERS: u16 = 6;

/// How many calls from the same place are told, one after another. The others are counted.
const SHOWN_CALLS: usize = 8;

/// Adds the place where a run ended: the call that ran, and the calls that led there, the nearest first.
pub fn push_places<S: Store + Drop>(
    text: &mut Text,
    legend: &Legend<'_, '_, '_>,
    stepper: &Stepper<'_, S>,
    call: Active,
) -> Result<(), AllocError>
    ensures { OnOk result (text.new ≡ text.old
        ++ places_text (legend_of legend.now) stepper.now.store call (map active_of stepper.now.below)) }
{
    text.push(b"at     ")?;
    push_place(text, legend, stepper, call)?;
    let mut last = call;
    let mut count = 0;
    for number in 0..stepper.callers() {
        if let Some(caller) = stepper.caller(number) {
            let before = end_place(text, last, count, caller)?;
            push_caller(text, legend, stepper, caller, before)?;
            last = caller;
            count = before + 1;
        }
    }
    push_more(text, count)
}

// Tells how many calls came from the place of this one right before it. Those from another place are over.
fn end_place(
    text: &mut Text,
    last: Active,
    count: usize,
    caller: Active,
) -> Result<usize, AllocError>
    ensures told { OnOk result (text.new ≡ text.old ++ ended_text last count caller) }
    ensures counts { IfOk result (λ before. before ≡ count_before last count caller) }
{
    if last.strings == caller.strings && last.place == caller.place {
        return Ok(count);
    }
    push_more(text, count)?;
    Ok(0)
}

// A call that led there, unless too many came from its place before it.
fn push_caller<S: Store + Drop>(
    text: &mut Text,
    legend: &Legend<'_, '_, '_>,
    stepper: &Stepper<'_, S>,
    caller: Active,
    before: usize,
) -> Result<(), AllocError>
    ensures { OnOk result (text.new ≡ text.old ++ caller_text (legend_of legend.now) stepper.now.store caller before) }
{
    if before >= SHOWN_CALLS {
        return Ok(());
    }
    text.push(b"called ")?;
    push_place(text, legend, stepper, waiting(caller))
}

// Of so many calls from the same place those that were not told.
fn push_more(text: &mut Text, count: usize) -> Result<(), AllocError>
    ensures { OnOk result (text.new ≡ text.old ++ more_text count) }
{
    if count <= SHOWN_CALLS {
        return Ok(());
    }
    text.push(b"       and ")?;
    text.push_number((count - SHOWN_CALLS) as u64)?;
    text.push(b" more from there\n")
}

// The place of a call that waits is after the instruction that called; this is that instruction.
fn waiting(call: Active) -> Active
    ensures { result ≡ waiting call }
{
    Active {
        strings: call.strings,
        parameters: call.parameters,
        place: call.place.saturating_sub(1),
        start: call.start,
    }
}

// The place of a call and the words of its parameters.
fn push_place<S: Store + Drop>(
    text: &mut Text,
    legend: &Legend<'_, '_, '_>,
    stepper: &Stepper<'_, S>,
    call: Active,
) -> Result<(), AllocError>
    ensures { OnOk result (text.new ≡ text.old ++ place_text (legend_of legend.now) stepper.now.store call) }
{
    push_site(text, legend, call)?;
    push_words(text, stepper, call)?;
    text.push(b"\n")
}

// The line of the source of the instruction at which a call is.
fn line_of(legend: &Legend<'_, '_, '_>, call: Active) -> u64
    ensures { result ≡ place_line (legend_of legend.now) call }
{
    legend
        .tables
        .line(legend.tables.entry(call.strings), call.place)
}

// The column of the same instruction, from 1 on, or 0 where none is told.
fn column_of(legend: &Legend<'_, '_, '_>, call: Active) -> u64
    ensures { result ≡ place_column (legend_of legend.now) call }
{
    legend
        .tables
        .column(legend.tables.entry(call.strings), call.place)
}

/// Adds the line of the source at which a call is, after four blanks, with a mark under its column, if that is told;
/// nothing, where the place comes from no line.
pub fn push_source(
    text: &mut Text,
    legend: &Legend<'_, '_, '_>,
    source: &[u8],
    call: Active,
) -> Result<(), AllocError>
    ensures { OnOk result (text.new ≡ text.old ++ source_text (legend_of legend.now) source.now call) }
{
    push_source_row(text, source, line_of(legend, call), column_of(legend, call))
}

fn push_source_row(text: &mut Text, source: &[u8], line: u64, column: u64) -> Result<(), AllocError>
    ensures { OnOk result (text.new ≡ text.old ++ source_row source.now line column) }
{
    if line == 0 {
        return Ok(());
    }
    text.push(b"    ")?;
    push_source_line(text, line_at(source, line))?;
    push_mark(text, column)?;
    text.push(b"\n")
}

/// Adds the function of a call, the place in it, and the line of the source, with its column, if that is told.
pub fn push_site(
    text: &mut Text,
    legend: &Legend<'_, '_, '_>,
    call: Active,
) -> Result<(), AllocError>
    ensures { OnOk result (text.new ≡ text.old ++ site_text (legend_of legend.now) call) }
{
    let entry = legend.tables.entry(call.strings);
    text.push(b"in ")?;
    text.push_left(8, name_of(entry))?;
    text.push(b" place ")?;
    text.push_right_number(4, call.place as u64)?;
    text.push(b"  line ")?;
    push_line(text, 4, legend, line_of(legend, call))?;
    push_column(text, column_of(legend, call))
}

fn push_column(text: &mut Text, column: u64) -> Result<(), AllocError>
    ensures { OnOk result (text.new ≡ text.old ++ column_told column) }
{
    if column == 0 {
        return Ok(());
    }
    text.push(b"  column ")?;
    text.push_number(column)
}

// The words of the first parameters of a call.
fn push_words<S: Store + Drop>(
    text: &mut Text,
    stepper: &Stepper<'_, S>,
    call: Active,
) -> Result<(), AllocError>
    ensures { OnOk result (text.new ≡ text.old ++ words_text (first_words stepper.now.store call) (has_more call)) }
{
    let count = call.parameters.min(SHOWN_PARAMETERS);
    push_if(text, count > 0, b"  with")?;
    for index in 0..count {
        text.push(b" ")?;
        push_signed(text, stepper.word(frame_address(call, index)))?;
    }
    push_if(text, call.parameters > SHOWN_PARAMETERS, b" ..")
}

fn push_if(text: &mut Text, is_wanted: bool, bytes: &[u8]) -> Result<(), AllocError>
    ensures { OnOk result (text.new ≡ text.old ++ (if is_wanted then bytes.now else [])) }
{
    if is_wanted { text.push(bytes) } else { Ok(()) }
}
