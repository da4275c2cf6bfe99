//! The rows of a trace.
ghost use Rattle.std.specs.Prelude.{◌≡◌, ◌≤◌, List, [], ◌+◌, ◌-◌, ◌%◌, ◌^◌, ◌<◌, ◌++◌, OnOk};
ghost use Rattle.std.specs.List.{flat_map, range_with_len};
ghost use Rattle.bmach.specs.Stops.{active_of};
ghost use Rattle.btools.specs.Columns.{instr_text, left};
ghost use Rattle.btrace.specs.RowTexts.{hexadecimal, legend_of, margin, operands_text, step_row};
ghost use Rattle.btrace.specs.RowTexts.{stored_text, word_row, written_byte, written_row};

use crate::legend::{Legend, push_line};
use bcode::{Page, push_instr_line};
use blang::Instr;
use bmach::{Active, Stepper};
use btools::{Text, hexadecimal_digit, instr_at, name_of, push_byte, push_signed};
use bword::Store;
use std::alloc::AllocError;
use std::ops::Range;

/// The column where what a step has stored or written begins.
const MARGIN: usize = 43;

/// How many operands are shown.
const SHOWN_OPERANDS: usize = 5;

/// Adds the row of a step, before it is made.
pub fn push_step<S: Store + Drop>(
    text: &mut Text,
    legend: &Legend<'_, '_, '_>,
    stepper: &Stepper<'_, S>,
    made: u64,
) -> Result<(), AllocError>
    requires { made + 1 < 2 ^ 64 }
    ensures { OnOk result (text.new ≡ text.old
        ++ step_row (legend_of legend.now) (made + 1) (active_of stepper.now.call) stepper.now.call.operands) }
{
    let call = stepper.top();
    let entry = legend.tables.entry(call.strings);
    let line = legend.tables.line(entry, call.place);
    text.push_right_number(8, made + 1)?;
    text.push(b"  ")?;
    text.push_left(8, name_of(entry))?;
    text.push_right_number(6, call.place as u64)?;
    push_line(text, 6, legend, line)?;
    text.push(b"  ")?;
    push_instr(text, instr_at(entry, call.place))?;
    push_operands(text, stepper.operands())?;
    text.push(b"\n")
}

fn push_instr(text: &mut Text, instr: Option<Instr>) -> Result<(), AllocError>
    ensures { OnOk result (text.new ≡ text.old ++ left 12 (instr_text instr)) }
{
    let mut page = Page::new();
    if let Some(instr) = instr {
        push_instr_line(&mut page, &instr);
    }
    let line = page.as_slice();
    text.push_left(12, &line[..line.len().saturating_sub(1)])
}

// The topmost operands, the topmost last.
fn push_operands(text: &mut Text, operands: &[u16]) -> Result<(), AllocError>
    ensures { OnOk result (text.new ≡ text.old ++ operands_text operands.now) }
{
    let first = operands.len().saturating_sub(SHOWN_OPERANDS);
    text.push(if first > 0 { b" .." } else { b"" })?;
    for word in &operands[first..] {
        text.push(b" ")?;
        push_signed(text, *word)?;
    }
    Ok(())
}

/// Adds a row for each word that a step has stored.
pub fn push_stored<S: Store + Drop>(
    text: &mut Text,
    stepper: &Stepper<'_, S>,
    stored: &Range<u32>,
) -> Result<(), AllocError>
    ensures { OnOk result (stored.now.end ≤ 65536 → text.new ≡ text.old
        ++ stored_text stepper.now.store (range_with_len stored.now.start (stored.now.end - stored.now.start))) }
{
    for address in stored.start..stored.end {
        push_word(text, stepper, (address % 65536) as u16)?;
    }
    Ok(())
}

/// The address of a word of a call's frame.
pub fn frame_address(call: Active, index: u16) -> u16
    ensures { result ≡ (call.start + index) % 65536 }
{
    let start = (call.start % 65536) as u16;
    start.wrapping_add(index)
}

// A row with a word and its address.
fn push_word<S: Store + Drop>(
    text: &mut Text,
    stepper: &Stepper<'_, S>,
    address: u16,
) -> Result<(), AllocError>
    ensures { OnOk result (text.new ≡ text.old ++ word_row stepper.now.store address) }
{
    push_margin(text)?;
    text.push(b"@")?;
    text.push_number(u64::from(address))?;
    text.push(b" = ")?;
    push_signed(text, stepper.word(address))?;
    text.push(b"\n")
}

/// Adds what a step has written, if it has written something.
pub fn push_written(text: &mut Text, bytes: &[u8]) -> Result<(), AllocError>
    ensures { OnOk result (text.new ≡ text.old ++ written_row bytes.now) }
{
    if bytes.is_empty() {
        return Ok(());
    }
    push_margin(text)?;
    text.push(b"writes '")?;
    push_bytes(text, bytes)?;
    text.push(b"'\n")
}

fn push_bytes(text: &mut Text, bytes: &[u8]) -> Result<(), AllocError>
    ensures { OnOk result (text.new ≡ text.old ++ flat_map written_byte bytes.now) }
{
    for byte in bytes {
        push_written_byte(text, *byte)?;
    }
    Ok(())
}

// A character or its escape, or else the byte in hexadecimal digits.
fn push_written_byte(text: &mut Text, byte: u8) -> Result<(), AllocError>
    ensures { OnOk result (text.new ≡ text.old ++ written_byte byte) }
{
    match byte {
        0 | 4 | b'\t' | b'\n' | 32..=126 => push_byte(text, byte),
        _ => push_hexadecimal(text, byte),
    }
}

fn push_hexadecimal(text: &mut Text, byte: u8) -> Result<(), AllocError>
    ensures { OnOk result (text.new ≡ text.old ++ hexadecimal byte) }
{
    text.push(&[
        b'\\',
        b'x',
        hexadecimal_digit(byte / 16),
        hexadecimal_digit(byte % 16),
    ])
}

fn push_margin(text: &mut Text) -> Result<(), AllocError>
    ensures { OnOk result (text.new ≡ text.old ++ margin) }
{
    text.push_blanks(MARGIN)
}
