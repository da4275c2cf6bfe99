//! What the library writes.
ghost use Rattle.std.specs.Prelude.{◌≡◌, ◌≤◌, false, drop};
ghost use Rattle.std.specs.Fmt.{digits};
ghost use Rattle.blang.specs.Layout.{character_bytes, printed};

use crate::number::Base;

/// The length of the longest number, which has a minus sign and 16 digits.
pub const NUMBER_LEN: usize = 17;

/// Where the last digit of a number is.
const LAST_DIGIT: usize = 16;

// Puts the digits of a number at the end of a buffer, and tells where they begin.
fn put_digits(buffer: &mut [u8; NUMBER_LEN], number: u16, base: Base) -> usize
    ensures range { (1 ≤ result) × (result ≤ 16) }
    ensures digits { drop result buffer.new ≡ digits base.value false number }
{
    let base = base.value;
    let mut start = LAST_DIGIT;
    let mut left = number;
    'digits: while left >= base {
        buffer[start] = b'0' + (left % base) as u8;
        left /= base;
        start -= 1;
    }
    buffer[start] = b'0' + left as u8;
    start
}

/// Puts a signed number at the end of a buffer, and tells where it begins.
pub fn put_number(buffer: &mut [u8; NUMBER_LEN], number: u16, base: Base) -> usize
    ensures range { result ≤ 16 }
    ensures text { drop result buffer.new ≡ printed number base.value }
{
    if number <= 32767 {
        return put_digits(buffer, number, base);
    }
    let start = put_digits(buffer, number.wrapping_neg(), base) - 1;
    buffer[start] = b'-';
    start
}

/// Puts the bytes of a character into a buffer, and tells where they begin: the high one is left out where it is 0.
pub fn put_character(buffer: &mut [u8; 2], character: u16) -> usize
    ensures range { result ≤ 1 }
    ensures text { drop result buffer.new ≡ character_bytes character }
{
    buffer[0] = (character / 256) as u8;
    buffer[1] = (character % 256) as u8;
    if character / 256 == 0 { 1 } else { 0 }
}
