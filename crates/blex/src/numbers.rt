//! Numbers.
ghost use Rattle.std.specs.Prelude.{◌≡◌, IfOk, OnErr, true};
ghost use Rattle.blang.specs.Cut.{is_digit, base_of, number_when};
ghost use Rattle.blex.specs.Sources.{SourceFails};
ghost use Rattle.blex.specs.Lexing.{PassesLexeme, TakesIf};
ghost use Rattle.blex.specs.Lexemes.{IsLexemeOf};

use crate::lexeme::Lexeme;
use crate::source::Source;
use blang::Letters;
use bword::{ByteIn, Device};

/// The rest of the number that begins with this digit.
pub(crate) fn number<I: ByteIn>(source: &mut Source<I>, first: u8) -> Result<Lexeme, Device>
    requires { is_digit first ≡ true }
    ensures ok { IfOk result (λ lexeme. PassesLexeme first source.old lexeme source.new) }
    ensures err { OnErr result (SourceFails source.old source.new) }
{
    let base = base_of(first);
    let mut value = u32::from(first - b'0');
    let mut is_of_base = true;
    while let Some(byte) = digit(source)? {
        let digit = u32::from(byte - b'0');
        is_of_base &= digit < base;
        value = (value * base + digit).min(65536);
    }
    Ok(number_when(is_of_base, value))
}

// The next byte, if it is a digit.
fn digit<I: ByteIn>(source: &mut Source<I>) -> Result<Option<u8>, Device>
    ensures ok { IfOk result (λ byte. TakesIf is_digit source.old byte source.new) }
    ensures err { OnErr result (SourceFails source.old source.new) }
{
    let Some(byte) = source.peek()? else {
        return Ok(None);
    };
    if !byte.is_ascii_digit() {
        return Ok(None);
    }
    source.skip();
    Ok(Some(byte))
}

// The base of a number that begins with this digit: octal after a 0.
fn base_of(first: u8) -> u32
    ensures { result ≡ base_of first }
{
    if first == b'0' { 8 } else { 10 }
}

// The number of this value, unless its digits or its value are too great.
fn number_when(is_of_base: bool, value: u32) -> Lexeme
    ensures { IsLexemeOf result (number_when is_of_base value) }
{
    if is_of_base && value <= 65535 {
        Lexeme::Number(value as u16)
    } else {
        Lexeme::Bad(Letters::Constant)
    }
}
