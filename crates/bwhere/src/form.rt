//! The form of the line that was meant where a line of a code text is wrong.
ghost use Rattle.std.specs.Prelude.{◌≡◌, ◌++◌, OnOk};
ghost use Rattle.bwhere.specs.Forms.{bound_part, bound_text, bound_words, form_text, header_words, hint_text, item_of};
ghost use Rattle.bwhere.specs.Forms.{last_byte, letter_words, line_words, meant_text, opening_line};

use crate::due::{Due, Item, due_among, initial, opened_before, part_at, rows_of};
use btools::{Text, line_at};
use std::alloc::AllocError;

/// Adds what more is told of a wrong line: that a carriage return ends it, or the form that it should have.
pub(crate) fn push_hint(text: &mut Text, code: &[u8], number: u64) -> Result<(), AllocError>
    ensures { OnOk result (text.new ≡ text.old ++ hint_text code.now number) }
{
    let line = line_at(code, number);
    if last_byte(line) == b'\r' {
        return text.push(b"; the line ends with CR LF, and LF alone is wanted");
    }
    let at = opened_before(code, number).at;
    let since = number.saturating_sub(1).saturating_sub(at);
    push_meant(text, opening_line(code, at), since, initial(line))
}

fn last_byte(line: &[u8]) -> u8
    ensures { result ≡ last_byte line.now }
{
    line.last().copied().unwrap_or(0)
}

fn opening_line(code: &[u8], at: u64) -> &[u8]
    ensures { result.now ≡ opening_line code.now at }
{
    if at > 0 { line_at(code, at) } else { b"" }
}

fn push_meant(text: &mut Text, first: &[u8], since: u64, letter: u8) -> Result<(), AllocError>
    ensures { OnOk result (text.new ≡ text.old ++ meant_text first.now since letter) }
{
    if initial(first) == b'E' {
        return Ok(());
    }
    let item = item_of(due_among(first, rows_of(initial(first)), since));
    push_form(text, first, item, letter)
}

fn item_of(due: Option<Due>) -> Option<Item>
    ensures { result ≡ item_of due }
{
    match due {
        Some(due) => Some(due.item),
        None => None,
    }
}

fn push_form(
    text: &mut Text,
    first: &[u8],
    item: Option<Item>,
    letter: u8,
) -> Result<(), AllocError>
    ensures { OnOk result (text.new ≡ text.old ++ form_text first.now item letter) }
{
    let words = line_words(item, letter);
    if words.is_empty() {
        return Ok(());
    }
    text.push(b"; ")?;
    text.push(words)?;
    push_bound(
        text,
        first,
        bound_part(item, initial(first), letter),
        letter,
    )
}

fn push_bound(text: &mut Text, first: &[u8], part: usize, letter: u8) -> Result<(), AllocError>
    ensures { OnOk result (text.new ≡ text.old ++ bound_text first.now part letter) }
{
    if part == 0 {
        return Ok(());
    }
    text.push(part_at(first, part))?;
    text.push(bound_words(letter))
}

fn bound_part(item: Option<Item>, opening: u8, letter: u8) -> usize
    ensures { result ≡ bound_part item opening letter }
{
    match item {
        Some(Item::Target) => 6,
        Some(Item::Value) => match (letter, opening) {
            (b's', b'X') => 3,
            (b's', _) => 4,
            _ => 0,
        },
        Some(Item::Instruction) => match letter {
            b'a' => 3,
            b'l' => 4,
            b's' => 5,
            b'e' | b'j' | b'z' => 6,
            _ => 0,
        },
        Some(Item::StringWord) | None => 0,
    }
}

fn bound_words(letter: u8) -> &'static [u8]
    ensures { result.now ≡ bound_words letter }
{
    match letter {
        b'a' => b", the words of the frame",
        b'l' => b", the labels",
        b's' => b", the string words",
        _ => b", the instructions",
    }
}

fn line_words(item: Option<Item>, letter: u8) -> &'static [u8]
    ensures { result.now ≡ line_words item letter }
{
    match item {
        None => header_words(letter),
        Some(Item::Target) => match letter {
            b't' => b"t n: n below ",
            _ => b"",
        },
        Some(Item::Value) => match letter {
            b'c' | b's' | b'x' => letter_words(letter),
            _ => b"",
        },
        Some(Item::StringWord) => match letter {
            b'w' => b"w n: n from 0 to 65535, without needless zeros",
            _ => b"",
        },
        Some(Item::Instruction) => letter_words(letter),
    }
}

fn letter_words(letter: u8) -> &'static [u8]
    ensures { result.now ≡ letter_words letter }
{
    match letter {
        b'a' => b"a k: k below ",
        b'b' | b'm' => b"b op, m op: one of | & == != < <= > >= << >> - + % * /",
        b'c' => b"c n: n from 0 to 65535, without needless zeros",
        b'e' => b"e v t: v from 0 to 65535, t below ",
        b'i' => b"i d: d from 0 to 3",
        b'j' | b'z' => b"j t, z t: t below ",
        b'k' => b"k n: n from 0 to 65535, without needless zeros",
        b'l' => b"l k: k below ",
        b's' => b"s off: off below ",
        b'x' => b"x name: one to eight letters, digits and _, the first no digit",
        b'g' | b'h' | b'n' | b'p' | b'r' | b'v' | b'w' => b"the letter alone",
        _ => b"",
    }
}

fn header_words(letter: u8) -> &'static [u8]
    ensures { result.now ≡ header_words letter }
{
    match letter {
        b'F' => {
            b"F name params frame labels strs instrs: params to 128 and to frame, frame to 32767, labels to 128, strs to 1024, instrs to 4096"
        }
        b'V' =>
            b"V name words ivals strs: words from 1 and from ivals to 32767, ivals and strs to 1024",
        b'X' => b"X name ivals strs: ivals and strs to 1024",
        _ => b"",
    }
}
