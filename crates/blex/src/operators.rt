//! Tokens whose text is always the same.
ghost use Rattle.std.specs.Prelude.{ℕ, List, ◌≡◌, [], ◌∷◌, false, Some, IfOk, IfSome, OnErr};
ghost use Rattle.blang.specs.Cut.{Word, operator_of, other_of, fixed_of, fixed_or_stray};
ghost use Rattle.blex.specs.Sources.{SourceFails};
ghost use Rattle.blex.specs.Lexing.{PassesLexeme, BeginsFixed, IsAlone, NoneOfThree, begins_two, fixed_of_two, fixed_of_three};
ghost use Rattle.blex.specs.Lexemes.{MayStandFor, token_of_lexeme};

use crate::lexeme::Lexeme;
use crate::source::Source;
use blang::Letters;
use bword::{BinOp, ByteIn, Device};

/// The rest of the operator or the punctuation that begins with this byte, or none of it where nothing fits.
#[inline(always)]
pub(crate) fn operator<I: ByteIn>(source: &mut Source<I>, first: u8) -> Result<Lexeme, Device>
    requires { BeginsFixed first source.old }
    ensures ok { IfOk result (λ lexeme. PassesLexeme first source.old lexeme source.new) }
    ensures err { OnErr result (SourceFails source.old source.new) }
{
    match alone(first) {
        Some(lexeme) => Ok(lexeme),
        None => longest(source, first),
    }
}

// The token of this byte, if no longer one begins with it.
#[tactic(auto, unfolding(blang::specs::Cut::operator_of, blang::specs::Cut::other_of, blang::specs::Cut::fixed_of))]
#[inline(always)]
fn alone(byte: u8) -> Option<Lexeme>
    ensures { IfSome result (IsAlone byte) }
{
    match byte {
        b'|' => Some(Lexeme::Operator(BinOp::Or)),
        b'&' => Some(Lexeme::Operator(BinOp::And)),
        b'%' => Some(Lexeme::Operator(BinOp::Rem)),
        b'*' => Some(Lexeme::Operator(BinOp::Mul)),
        b'/' => Some(Lexeme::Operator(BinOp::Div)),
        b'?' => Some(Lexeme::Question),
        b':' => Some(Lexeme::Colon),
        b',' => Some(Lexeme::Comma),
        b';' => Some(Lexeme::Semicolon),
        b'(' => Some(Lexeme::OpenParen),
        b')' => Some(Lexeme::CloseParen),
        b'[' => Some(Lexeme::OpenBracket),
        b']' => Some(Lexeme::CloseBracket),
        b'{' => Some(Lexeme::OpenBrace),
        b'}' => Some(Lexeme::CloseBrace),
        _ => None,
    }
}

// The longest of them that is there, with a look at as many bytes as it can have.
fn longest<I: ByteIn>(source: &mut Source<I>, first: u8) -> Result<Lexeme, Device>
    requires { BeginsFixed first source.old }
    ensures ok { IfOk result (λ lexeme. PassesLexeme first source.old lexeme source.new) }
    ensures err { OnErr result (SourceFails source.old source.new) }
{
    let second = source.peek()?;
    if can_be_three(first, second) {
        return Ok(longest_of_three(source, first)?);
    }
    if let Some(lexeme) = fixed_of_two(first, second) {
        source.skip();
        return Ok(lexeme);
    }
    Ok(one_or_stray(first))
}

// Whether a token of three bytes can begin with these two.
fn can_be_three(first: u8, second: Option<u8>) -> bool
    ensures { result ≡ false → NoneOfThree first second }
{
    let Some(second) = second else {
        return false;
    };
    first == b'=' && begins_two(second)
}

// Whether an operator of two bytes begins with this one.
fn begins_two(byte: u8) -> bool
    ensures { result ≡ begins_two byte }
{
    byte == b'=' || byte == b'!' || byte == b'<' || byte == b'>'
}

fn longest_of_three<I: ByteIn>(source: &mut Source<I>, first: u8) -> Result<Lexeme, Device>
    requires { BeginsFixed first source.old }
    ensures ok { IfOk result (λ lexeme. PassesLexeme first source.old lexeme source.new) }
    ensures err { OnErr result (SourceFails source.old source.new) }
{
    let (second, third) = source.peek_two()?;
    if let Some(lexeme) = fixed_of_three(first, second, third) {
        source.skip();
        source.skip();
        return Ok(lexeme);
    }
    if let Some(lexeme) = fixed_of_two(first, second) {
        source.skip();
        return Ok(lexeme);
    }
    Ok(one_or_stray(first))
}

// The token of this one byte, or none that fits.
fn one_or_stray(first: u8) -> Lexeme
    ensures { (characters : List ℕ) → fixed_or_stray (fixed_of (first ∷ [])) [] ≡ Some (Word (token_of_lexeme result characters)) }
{
    match fixed_of_one(first) {
        Some(lexeme) => lexeme,
        None => Lexeme::Bad(Letters::Character),
    }
}

// The binary operator of this one byte.
#[tactic(auto, unfolding(blang::specs::Cut::operator_of))]
#[inline(always)]
fn operator_of_one(byte: u8) -> Option<BinOp>
    ensures { result ≡ operator_of (byte ∷ []) }
{
    match byte {
        b'|' => Some(BinOp::Or),
        b'&' => Some(BinOp::And),
        b'<' => Some(BinOp::Lt),
        b'>' => Some(BinOp::Gt),
        b'-' => Some(BinOp::Sub),
        b'+' => Some(BinOp::Add),
        b'%' => Some(BinOp::Rem),
        b'*' => Some(BinOp::Mul),
        b'/' => Some(BinOp::Div),
        _ => None,
    }
}

// The binary operator of these two bytes.
#[tactic(auto, unfolding(blang::specs::Cut::operator_of))]
#[inline(always)]
fn operator_of_two(first: u8, second: u8) -> Option<BinOp>
    ensures { result ≡ operator_of (first ∷ second ∷ []) }
{
    match (first, second) {
        (b'=', b'=') => Some(BinOp::Eq),
        (b'!', b'=') => Some(BinOp::Ne),
        (b'<', b'=') => Some(BinOp::Le),
        (b'>', b'=') => Some(BinOp::Ge),
        (b'<', b'<') => Some(BinOp::Shl),
        (b'>', b'>') => Some(BinOp::Shr),
        _ => None,
    }
}

#[tactic(auto, unfolding(blang::specs::Cut::other_of))]
fn other_of_one(byte: u8) -> Option<Lexeme>
    ensures { MayStandFor result (other_of (byte ∷ [])) }
{
    match byte {
        b'=' => Some(Lexeme::Assign(None)),
        b'!' => Some(Lexeme::Not),
        b'?' => Some(Lexeme::Question),
        b':' => Some(Lexeme::Colon),
        b',' => Some(Lexeme::Comma),
        b';' => Some(Lexeme::Semicolon),
        b'(' => Some(Lexeme::OpenParen),
        b')' => Some(Lexeme::CloseParen),
        b'[' => Some(Lexeme::OpenBracket),
        b']' => Some(Lexeme::CloseBracket),
        b'{' => Some(Lexeme::OpenBrace),
        b'}' => Some(Lexeme::CloseBrace),
        _ => None,
    }
}

#[tactic(auto, unfolding(blang::specs::Cut::fixed_of))]
fn fixed_of_one(byte: u8) -> Option<Lexeme>
    ensures { MayStandFor result (fixed_of (byte ∷ [])) }
{
    match operator_of_one(byte) {
        Some(op) => Some(Lexeme::Operator(op)),
        None => other_of_one(byte),
    }
}

#[tactic(auto, unfolding(blang::specs::Cut::fixed_of, blang::specs::Cut::other_of))]
#[inline(always)]
fn fixed_of_two(first: u8, second: Option<u8>) -> Option<Lexeme>
    ensures { MayStandFor result (fixed_of_two first second) }
{
    let second = second?;
    if let Some(op) = operator_of_two(first, second) {
        return Some(Lexeme::Operator(op));
    }
    match (first, second) {
        (b'=', _) => operator_of_one(second).map(|op| Lexeme::Assign(Some(op))),
        (b'+', b'+') => Some(Lexeme::Increment),
        (b'-', b'-') => Some(Lexeme::Decrement),
        _ => None,
    }
}

fn fixed_of_three(first: u8, second: Option<u8>, third: Option<u8>) -> Option<Lexeme>
    ensures { MayStandFor result (fixed_of_three first second third) }
{
    let second = second?;
    let third = third?;
    if first != b'=' {
        return None;
    }
    operator_of_two(second, third).map(|op| Lexeme::Assign(Some(op)))
}
