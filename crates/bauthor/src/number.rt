//! A number on a line of its own.
ghost use Rattle.std.specs.Prelude.{◌≡◌, ◌≤◌, ◌^◌, ◌<◌, MatchOption, decimal, ℕ};
ghost use Rattle.bauthor.specs.LineFiles.{number_read};

use itoa::Buffer;

/// The number of a line, if it is one up to the last one, in decimal digits without needless zeros.
pub(crate) fn number_upto(last: u64, line: &[u8]) -> Option<u64>
    ensures { result ≡ number_read last line.now }
{
    let number = read_number(line)?;
    if number <= last { Some(number) } else { None }
}

// The number that a line is in decimal digits, if it is one of 64 bits.
fn read_number(line: &[u8]) -> Option<u64>
    ensures { MatchOption result ((n : ℕ) → n < 2 ^ 64 → decimal n ≡ line.now → ⊥)
        (λ n. (n < 2 ^ 64) × (decimal n ≡ line.now)) }
{
    let Ok(text) = str::from_utf8(line) else {
        return None;
    };
    let Ok(number) = text.parse::<u64>() else {
        return None;
    };
    if Buffer::new().format(number).as_bytes() == line {
        Some(number)
    } else {
        None
    }
}
