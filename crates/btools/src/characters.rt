//! Words shown as characters and as numbers.
ghost use Rattle.std.specs.Char.{digit_char};
ghost use Rattle.std.specs.Prelude.{◌≡◌, ◌<◌, ◌++◌, OnOk};
ghost use Rattle.btools.specs.Characters.{shown_byte, shown_word, signed_text};

use crate::text::Text;
use std::alloc::AllocError;

/// The two characters of a word, the low byte first, between quotes and with B's escapes.
pub fn push_characters(text: &mut Text, word: u16) -> Result<(), AllocError>
    ensures { OnOk result (text.new ≡ text.old ++ shown_word word) }
{
    text.push(b"'")?;
    push_byte(text, (word % 256) as u8)?;
    if word >= 256 {
        push_byte(text, (word / 256) as u8)?;
    }
    text.push(b"'")
}

/// A character, or its escape; a byte that has neither is shown as `.`.
pub fn push_byte(text: &mut Text, byte: u8) -> Result<(), AllocError>
    ensures { OnOk result (text.new ≡ text.old ++ shown_byte byte) }
{
    match byte {
        b'\n' => text.push(b"*n"),
        b'\t' => text.push(b"*t"),
        b'*' => text.push(b"**"),
        0 => text.push(b"*0"),
        4 => text.push(b"*e"),
        32..=126 => text.push(&[byte]),
        _ => text.push(b"."),
    }
}

/// Adds a word as `printn` writes it to the base 10.
pub fn push_signed(text: &mut Text, word: u16) -> Result<(), AllocError>
    ensures { OnOk result (text.new ≡ text.old ++ signed_text word) }
{
    if word <= 32767 {
        return text.push_number(u64::from(word));
    }
    text.push(b"-")?;
    text.push_number(u64::from(word.wrapping_neg()))
}

/// The hexadecimal digit of a number below 16.
pub fn hexadecimal_digit(value: u8) -> u8
    requires { value < 16 }
    ensures { result ≡ digit_char value }
{
    if value < 10 {
        b'0' + value
    } else {
        b'a' - 10 + value
    }
}
