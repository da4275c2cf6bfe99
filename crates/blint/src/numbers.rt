//! Numbers that are worth another thing than they look.
use crate::remarks::{Remark, Remarks};
use crate::tokens::Tokens;
use crate::warnings::Warning;
use blex::Lexeme;
use bmatch::Branch;
use bword::BinOp;

/// How many digits a number has, at most.
const MOST_DIGITS: usize = 8;

/// Says of the numbers of a definition which begin with a 0 among others that don't.
pub(crate) fn octal_in(tokens: &Tokens<'_>, definition: &Branch, remarks: &mut Remarks) {
    let is_function = tokens.after(definition.first) == Lexeme::OpenParen;
    let mut lengths = [false; MOST_DIGITS];
    let mut has_decimal = false;
    for token in definition.first..=definition.last {
        if is_decimal(tokens, token) {
            has_decimal = true;
            if let Some(place) = lengths.get_mut(tokens.bytes(token).len()) {
                *place = true;
            }
        }
    }
    for token in definition.first..=definition.last {
        let is_padded = lengths.get(tokens.bytes(token).len()) == Some(&true);
        let is_among = if is_function {
            is_padded && !is_of_bits(tokens, token)
        } else {
            has_decimal
        };
        if is_among && is_octal(tokens, token) {
            remarks.say(Remark::new(token, Warning::OctalNumber));
        }
    }
}

/// Whether a number of two digits or more doesn't begin with 0, and is no base.
pub(crate) fn is_decimal(tokens: &Tokens<'_>, token: usize) -> bool {
    let before = tokens.at(token.wrapping_sub(1));
    let is_base = before == Lexeme::Comma && tokens.after(token) == Lexeme::CloseParen;
    let bytes = tokens.bytes(token);
    let is_number = matches!(tokens.at(token), Lexeme::Number(10..));
    is_number
        && bytes.first() != Some(&b'0')
        && !(is_base && tokens.at(token) == Lexeme::Number(10))
}

/// Whether a number to the base 8 has two digits or more after its 0s.
pub(crate) fn is_octal(tokens: &Tokens<'_>, token: usize) -> bool {
    matches!(tokens.at(token), Lexeme::Number(8..)) && tokens.bytes(token).first() == Some(&b'0')
}

// Whether a number is one of bits, as its operator shows.
fn is_of_bits(tokens: &Tokens<'_>, token: usize) -> bool {
    is_for_bits(&tokens.at(token.wrapping_sub(1))) || is_for_bits(&tokens.after(token))
}

fn is_for_bits(lexeme: &Lexeme) -> bool {
    matches!(
        lexeme,
        Lexeme::Operator(BinOp::And | BinOp::Or | BinOp::Shl | BinOp::Shr)
            | Lexeme::Assign(Some(BinOp::And | BinOp::Or | BinOp::Shl | BinOp::Shr))
    )
}
