//! The rows of a page: the machine before a step, and what the step did.
ghost use Rattle.std.specs.Prelude.{◌≡◌, ◌≤◌, ◌+◌, ◌-◌, ◌++◌, OnOk, slice_index};
ghost use Rattle.std.specs.List.{range_with_len};
ghost use Rattle.bmach.specs.Stops.{active_of};
ghost use Rattle.btools.specs.Columns.{instr_text};
ghost use Rattle.bshow.specs.Rows.{done_cells, instr_of, is_getchar, number_cell, other_text};
ghost use Rattle.bshow.specs.Rows.{others_text, table_code, text_cell, words_cell, words_in};

use crate::escapes::push_escaped;
use bcode::{Page, push_instr_line};
use blang::Instr;
use bmach::Stepper;
use btools::{Tables, Text, instr_at, push_signed};
use bword::Store;
use std::alloc::AllocError;
use std::ops::Range;

/// The value of the function `getchar`.
const GETCHAR: u16 = 3;

/// The number of the step after so many. It may be the first one that has no room in a word.
pub fn push_step_cell(text: &mut Text, made: u64) -> Result<(), AllocError>
    ensures { OnOk result (text.new ≡ text.old ++ number_cell (made + 1)) }
{
    match made.checked_add(1) {
        Some(number) => push_number_cell(text, number),
        None => text.push(b"<td>18446744073709551616"),
    }
}

/// A cell with a number.
pub fn push_number_cell(text: &mut Text, number: u64) -> Result<(), AllocError>
    ensures { OnOk result (text.new ≡ text.old ++ number_cell number) }
{
    text.push(b"<td>")?;
    text.push_number(number)
}

/// A cell with a text.
pub fn push_text_cell(text: &mut Text, bytes: &[u8]) -> Result<(), AllocError>
    ensures { OnOk result (text.new ≡ text.old ++ text_cell bytes.now) }
{
    text.push(b"<td>")?;
    push_escaped(text, bytes)
}

/// An instruction as the code text has it.
pub fn push_code_cell(text: &mut Text, instr: Option<Instr>) -> Result<(), AllocError>
    ensures { OnOk result (text.new ≡ text.old ++ text_cell (instr_text instr)) }
{
    let mut page = Page::new();
    if let Some(instr) = instr {
        push_instr_line(&mut page, &instr);
    }
    let line = page.as_slice();
    push_text_cell(text, &line[..line.len().saturating_sub(1)])
}

/// Words as an array of signed numbers.
pub fn push_words_cell(text: &mut Text, words: &[u16]) -> Result<(), AllocError>
    ensures { OnOk result (text.new ≡ text.old ++ words_cell words.now) }
{
    match words.split_first() {
        None => text.push(b"<td>[]"),
        Some((first, others)) => {
            text.push(b"<td>[")?;
            push_signed(text, *first)?;
            push_others(text, others)?;
            text.push(b"]")
        }
    }
}

fn push_others(text: &mut Text, words: &[u16]) -> Result<(), AllocError>
    ensures { OnOk result (text.new ≡ text.old ++ others_text words.now) }
{
    for word in words {
        push_other(text, *word)?;
    }
    Ok(())
}

fn push_other(text: &mut Text, word: u16) -> Result<(), AllocError>
    ensures { OnOk result (text.new ≡ text.old ++ other_text word) }
{
    text.push(b",")?;
    push_signed(text, word)
}

/// Adds the words at these addresses.
pub fn push_words<S: Store + Drop>(
    words: &mut Vec<u16>,
    stepper: &Stepper<'_, S>,
    addresses: &Range<u32>,
) -> Result<(), AllocError>
    ensures { OnOk result (addresses.now.end ≤ 65536 → words.new.items ≡ words.old.items ++ words_in stepper.now.store
        (range_with_len addresses.now.start (addresses.now.end - addresses.now.start))) }
{
    for address in addresses.start..addresses.end {
        words.push(stepper.word((address % 65536) as u16))?;
    }
    Ok(())
}

/// Adds the cells that tell what a step did, and ends the row.
pub fn push_done(
    text: &mut Text,
    address: u32,
    before: &[u16],
    stored: &[u16],
    read: &[u8],
    written: &[u8],
) -> Result<(), AllocError>
    ensures { OnOk result (text.new ≡ text.old ++ done_cells address before.now stored.now read.now written.now) }
{
    push_number_cell(text, u64::from(address))?;
    push_words_cell(text, before)?;
    push_words_cell(text, stored)?;
    push_text_cell(text, read)?;
    push_text_cell(text, written)?;
    text.push(b"</tr>\n")
}

/// Whether the next step calls `getchar`.
pub fn calls_getchar<S: Store + Drop>(tables: &Tables<'_>, stepper: &Stepper<'_, S>) -> bool
    ensures { result ≡ is_getchar stepper.now.call.operands
        (instr_of (table_code tables.now) (active_of stepper.now.call)) }
{
    let call = stepper.top();
    match instr_at(tables.entry(call.strings), call.place) {
        Some(Instr::Call(arguments)) => operand(stepper, arguments) == GETCHAR,
        _ => false,
    }
}

/// The operand that has so many above it, or 0 where there is none.
pub fn operand<S: Store + Drop>(stepper: &Stepper<'_, S>, above: u16) -> u16
    ensures { result ≡ slice_index stepper.now.call.operands above }
{
    let operands = stepper.operands();
    let above = above as usize;
    if above >= operands.len() {
        return 0;
    }
    operands[operands.len() - 1 - above]
}
