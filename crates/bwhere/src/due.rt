//! What could come in a line of a code text.
ghost use Rattle.std.specs.Prelude.{◌≡◌, ◌++◌, OnOk};
ghost use Rattle.bwhere.specs.Dues.{due_among, due_text, initial, item_text, item_words, next_opened, number_in, opened_before, opens, part_at, rows_of};

use btools::{Text, line_at};
use std::alloc::AllocError;

/// What a line of a definition is, after its first one.
#[derive(Clone, Copy)]
pub(crate) enum Item {
    Target,
    Value,
    StringWord,
    Instruction,
}

/// Lines of a definition: so many as this part of its first line tells.
#[derive(Clone, Copy)]
pub(crate) struct ItemRow {
    item: Item,
    part: usize,
}

const FUNCTION: [ItemRow; 3] = [
    ItemRow {
        item: Item::Target,
        part: 4,
    },
    ItemRow {
        item: Item::StringWord,
        part: 5,
    },
    ItemRow {
        item: Item::Instruction,
        part: 6,
    },
];

const SIMPLE: [ItemRow; 2] = [
    ItemRow {
        item: Item::Value,
        part: 2,
    },
    ItemRow {
        item: Item::StringWord,
        part: 3,
    },
];

const VECTOR: [ItemRow; 2] = [
    ItemRow {
        item: Item::Value,
        part: 3,
    },
    ItemRow {
        item: Item::StringWord,
        part: 4,
    },
];

/// Some lines: how many there are, and the last of them that begins a definition or is the last line of a text.
#[derive(Clone, Copy)]
pub(crate) struct Opened {
    /// Its number from 1, or 0 where there is none.
    pub at: u64,
    lines: u64,
}

/// A line of a definition: which one it is of how many.
#[derive(Clone, Copy)]
pub(crate) struct Due {
    pub item: Item,
    number: u64,
    count: u64,
}

/// Adds what could come in the line of this number, from 1, by the lines before it.
pub(crate) fn push_due(text: &mut Text, code: &[u8], number: u64) -> Result<(), AllocError>
    ensures { OnOk result (text.new ≡ text.old ++ due_text code.now number) }
{
    let at = opened_before(code, number).at;
    if at > 0 {
        return push_item(text, line_at(code, at), (number - 1).saturating_sub(at));
    }
    if number == 1 {
        text.push(b"B 2, ")?;
    }
    text.push(b"the first line of a definition, or E")
}

/// Of the lines before one, the last that opens something.
pub(crate) fn opened_before(code: &[u8], number: u64) -> Opened
    ensures { result ≡ opened_before code.now number }
{
    let start = Opened { at: 0, lines: 0 };
    let count = number.saturating_sub(1) as usize;
    code.split(|byte| *byte == b'\n')
        .take(count)
        .fold(start, |opened, line| next_opened(opened, line))
}

fn next_opened(opened: Opened, line: &[u8]) -> Opened
    ensures { result ≡ next_opened opened line.now }
{
    let lines = opened.lines.saturating_add(1);
    Opened {
        at: if opens(line) { lines } else { opened.at },
        lines,
    }
}

// Whether a line begins a definition, or is the last line of a text.
fn opens(line: &[u8]) -> bool
    ensures { result ≡ opens line.now }
{
    matches!(initial(line), b'E' | b'F' | b'V' | b'X')
}

/// The byte with which a line begins, or 0.
pub(crate) fn initial(line: &[u8]) -> u8
    ensures { result ≡ initial line.now }
{
    line.first().copied().unwrap_or(0)
}

// Adds what the line after so many lines after a first line is.
fn push_item(text: &mut Text, first: &[u8], since: u64) -> Result<(), AllocError>
    ensures { OnOk result (text.new ≡ text.old ++ item_text first.now since) }
{
    if initial(first) == b'E' {
        return text.push(b"nothing after E");
    }
    let Some(due) = due_among(first, rows_of(initial(first)), since) else {
        return text.push(b"the first line of a definition, or E");
    };
    text.push(item_words(due.item))?;
    text.push_number(due.number)?;
    text.push(b" of ")?;
    text.push_number(due.count)?;
    text.push(b" of ")?;
    text.push(part_at(first, 1))
}

/// The line after so many lines of a definition with this first line.
pub(crate) fn due_among(first: &[u8], rows: &[ItemRow], since: u64) -> Option<Due>
    ensures { result ≡ due_among first.now rows.now since }
{
    let mut left = since;
    for row in rows {
        let count = number_in(part_at(first, row.part));
        if left < count {
            return Some(Due {
                item: row.item,
                number: left + 1,
                count,
            });
        }
        left -= count;
    }
    None
}

/// The lines of a definition whose first line begins so.
pub(crate) fn rows_of(initial: u8) -> &'static [ItemRow]
    ensures { result.now ≡ rows_of initial }
{
    match initial {
        b'F' => &FUNCTION,
        b'X' => &SIMPLE,
        b'V' => &VECTOR,
        _ => &[],
    }
}

/// A part of a line, from 0 on; nothing where there is none.
pub(crate) fn part_at(line: &[u8], number: usize) -> &[u8]
    ensures { result.now ≡ part_at line.now number }
{
    let mut parts = line.split(|byte| *byte == b' ');
    parts.nth(number).unwrap_or(b"")
}

// The number that digits write, or the greatest one.
fn number_in(digits: &[u8]) -> u64
    ensures { result ≡ number_in digits.now }
{
    digits.iter().fold(0u64, |number, digit| {
        number
            .saturating_mul(10)
            .saturating_add(u64::from(digit.saturating_sub(b'0')))
    })
}

fn item_words(item: Item) -> &'static [u8]
    ensures { result.now ≡ item_words item }
{
    match item {
        Item::Target => b"t n, target ",
        Item::Value => b"c n, x name or s off, initial value ",
        Item::StringWord => b"w n, string word ",
        Item::Instruction => b"an instruction, ",
    }
}
