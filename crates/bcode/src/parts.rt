//! The parts of a line, read from the front of a text.
ghost use Rattle.std.specs.Prelude.{◌≡◌, ◌≤◌, ◌<◌, ◌-◌, ◌==◌, length, position, Some, IfSome, if◌then◌else◌};
ghost use Rattle.std.specs.Char.{is_ascii_digit};
ghost use Rattle.bcode.specs.Reading.{Gives, expect_byte, number_from, number_at, name_text_at};

use blang::WORD_VALUES;
use bword::Name;

/// The text after this byte, where it begins with it.
#[tactic(auto, unfolding(crate::specs::Reading::expect_byte))]
#[inline(always)]
pub fn expect(text: &[u8], byte: u8) -> Option<&[u8]>
    ensures { Gives (λ rest. rest.now) result (expect_byte byte text.now) }
{
    match text.split_first() {
        Some((first, rest)) if *first == byte => Some(rest),
        _ => None,
    }
}

/// A number below a bound without needless zeros, and the text after the byte that ends it.
#[tactic(auto, unfolding(crate::specs::Reading::number_at, crate::specs::Reading::number_from))]
#[inline(always)]
pub fn number(text: &[u8], end: u8, below: u32) -> Option<(u16, &[u8])>
    requires { below ≤ WORD_VALUES }
    ensures { Gives (λ r. (r.0, r.1.now)) result (number_at end below text.now) }
{
    let (first, mut rest) = text.split_first()?;
    let mut value = digit(*first)?;
    while let Some((byte, following)) = rest.split_first() {
        if *byte == end {
            return if value < below {
                Some((value as u16, following))
            } else {
                None
            };
        }
        if value == 0 {
            return None;
        }
        value = value * 10 + digit(*byte)?;
        if value > u32::from(u16::MAX) {
            return None;
        }
        rest = following;
    }
    None
}

#[inline(always)]
fn digit(byte: u8) -> Option<u32>
    ensures { Gives (λ d. d) result (if is_ascii_digit byte then Some (byte - 48) else None) }
{
    if byte.is_ascii_digit() {
        Some(u32::from(byte - b'0'))
    } else {
        None
    }
}

/// A name, and the text after the byte that ends it.
#[tactic(auto, unfolding(crate::specs::Reading::name_text_at))]
#[inline(always)]
pub fn name(text: &[u8], end: u8) -> Option<(Name, &[u8])>
    ensures { Gives (λ r. (r.0, r.1.now)) result (name_text_at end text.now) }
{
    let len = position(text, end)?;
    let name = Name::from_bytes(&text[..len])?;
    Some((name, &text[len + 1..]))
}

fn position(text: &[u8], byte: u8) -> Option<usize>
    ensures value { result ≡ position (λ b. b == byte) text.now }
    ensures within { IfSome result (λ n. n < length text.now) }
{
    text.iter().position(|b| *b == byte)
}
