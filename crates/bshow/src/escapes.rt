//! Texts within a page.
ghost use Rattle.std.specs.Prelude.{◌≡◌, ◌++◌, OnOk};
ghost use Rattle.btools.specs.Quoting.{coded};
ghost use Rattle.bshow.specs.Escapes.{StaysInPlace, escape, escaped};

use btools::{Text, hexadecimal_digit};
use std::alloc::AllocError;

/// Adds a text in which no byte ends a string of JSON, or is a mark of HTML.
pub fn push_escaped(text: &mut Text, bytes: &[u8]) -> Result<(), AllocError>
    ensures { OnOk result (text.new ≡ text.old ++ escaped bytes.now) }
{
    for byte in bytes {
        push_escaped_byte(text, *byte)?;
    }
    Ok(())
}

fn push_escaped_byte(text: &mut Text, byte: u8) -> Result<(), AllocError>
    ensures { OnOk result (text.new ≡ text.old ++ escape byte) }
{
    match byte {
        b'"' | b'&' | b'<' | b'>' | b'\\' => push_code(text, byte),
        32..=126 => text.push(&[byte]),
        _ => push_code(text, byte),
    }
}

// The escape of JSON for the character with this number.
fn push_code(text: &mut Text, byte: u8) -> Result<(), AllocError>
    ensures { OnOk result (text.new ≡ text.old ++ coded byte) }
{
    text.push(b"\\u00")?;
    text.push(&[hexadecimal_digit(byte / 16), hexadecimal_digit(byte % 16)])
}

/// Any text stays in its place, and reads back.
pub fn escaped_texts_stay_in_place()
    ensures { StaysInPlace }
{}
