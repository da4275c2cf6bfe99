//! Texts in JSON, and names of files.
ghost use Rattle.std.specs.Prelude.{◌≡◌, ◌++◌, OnOk};
ghost use Rattle.btools.specs.Quoting.{coded, file_byte, file_text, json_byte, json_text};

use crate::characters::hexadecimal_digit;
use crate::text::Text;
use std::alloc::AllocError;

/// Adds a string of JSON.
pub fn push_quoted(text: &mut Text, words: &[u8]) -> Result<(), AllocError>
    ensures { OnOk result (text.new ≡ text.old ++ json_text words.now) }
{
    text.push(b"\"")?;
    for byte in words {
        push_json(text, *byte)?;
    }
    text.push(b"\"")
}

// Adds a byte of a string of JSON.
fn push_json(text: &mut Text, byte: u8) -> Result<(), AllocError>
    ensures { OnOk result (text.new ≡ text.old ++ json_byte byte) }
{
    match byte {
        b'"' => text.push(b"\\\""),
        b'\\' => text.push(b"\\\\"),
        0..=31 => push_escaped(text, byte),
        _ => text.push(&[byte]),
    }
}

/// Adds the name of a file, on one line.
pub fn push_file(text: &mut Text, name: &[u8]) -> Result<(), AllocError>
    ensures { OnOk result (text.new ≡ text.old ++ file_text name.now) }
{
    for byte in name {
        push_file_byte(text, *byte)?;
    }
    Ok(())
}

fn push_file_byte(text: &mut Text, byte: u8) -> Result<(), AllocError>
    ensures { OnOk result (text.new ≡ text.old ++ file_byte byte) }
{
    match byte {
        0..=31 | 127 => push_escaped(text, byte),
        _ => text.push(&[byte]),
    }
}

fn push_escaped(text: &mut Text, byte: u8) -> Result<(), AllocError>
    ensures { OnOk result (text.new ≡ text.old ++ coded byte) }
{
    text.push(&[
        b'\\',
        b'u',
        b'0',
        b'0',
        hexadecimal_digit(byte / 16),
        hexadecimal_digit(byte % 16),
    ])
}
