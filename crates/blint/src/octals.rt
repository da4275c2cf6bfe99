//! Numbers that all begin with a 0 where decimal ones are meant.
use crate::numbers::{is_decimal, is_octal};
use crate::remarks::{Remark, Remarks};
use crate::tokens::Tokens;
use crate::warnings::Warning;
use blang::Keyword;
use blex::Lexeme;
use bmatch::Branch;

/// How many digits such a number has, at most.
const MOST_DIGITS: usize = 3;

/// What a token is among numbers that begin with 0.
#[derive(Clone, Copy, PartialEq, Eq)]
enum Padded {
    /// A number of one digit, or no number that is looked at.
    Little,
    /// A number to the base 8 that looks like a decimal one, and one with a single bit.
    Plain,
    OneBit,
    /// A decimal number among the values of cases.
    Decimal,
    /// What shows that the base 8, or bits, are meant.
    Other,
}

/// Says of the initial values of a definition, or of the values of cases, where numbers of two or more digits begin
/// with 0, and look like decimals.
pub(crate) fn padded_in(tokens: &Tokens<'_>, definition: &Branch, remarks: &mut Remarks) {
    let is_function = tokens.after(definition.first) == Lexeme::OpenParen;
    let (mut count, mut has_plain): (u64, bool) = (0, false);
    for token in definition.first..=definition.last {
        match padding_of(tokens, token, is_function) {
            Padded::Other => return,
            Padded::Plain | Padded::Decimal => {
                count = count.saturating_add(1);
                has_plain = true;
            }
            Padded::OneBit => count = count.saturating_add(1),
            Padded::Little => {}
        }
    }
    if count < 2 || !has_plain {
        return;
    }
    for token in definition.first..=definition.last {
        if matches!(
            padding_of(tokens, token, is_function),
            Padded::Plain | Padded::OneBit
        ) {
            remarks.say(Remark::new(token, Warning::OctalNumber));
        }
    }
}

fn padding_of(tokens: &Tokens<'_>, token: usize, is_function: bool) -> Padded {
    let Lexeme::Number(value) = tokens.at(token) else {
        return Padded::Little;
    };
    let is_case = tokens.at(token.wrapping_sub(1)) == Lexeme::Keyword(Keyword::Case);
    let is_decimal = is_decimal(tokens, token);
    if is_function && !is_case || !is_decimal && !is_octal(tokens, token) {
        return Padded::Little;
    }
    let bytes = tokens.bytes(token);
    let is_round = matches!(bytes.last(), Some(b'0' | b'5'));
    let is_mask = value & value.wrapping_add(1) == 0;
    if is_function && !is_round || is_decimal && !is_function {
        Padded::Other
    } else if is_decimal {
        Padded::Decimal
    } else if bytes.len() > MOST_DIGITS || is_mask {
        Padded::Other
    } else if value & value.wrapping_sub(1) == 0 {
        Padded::OneBit
    } else {
        Padded::Plain
    }
}
