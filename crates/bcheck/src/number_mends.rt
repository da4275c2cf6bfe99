//! Edits for numbers, for comparisons and for loops that are probably mistakes.
use crate::draft::Spot::{After, Before, For};
use crate::draft::{Draft, Drafted, Row, Stop, only_if};
use crate::kinds::Like::{self, Either, Group, Is, Op, Value};
use crate::kinds::{ANY, CLOSE_PAREN, closes_bracket, is_comparison, is_operand, opens_bracket};
use crate::slip_mends::of_slip;
use crate::syntax_mends::{after_brackets, opener_before};
use blex::Lexeme;
use blex::Lexeme::{CloseParen, OpenBracket, Operator, Semicolon};
use blint::Warning;
use bword::BinOp;
use bword::BinOp::{Add, Mul, Sub};

/// How many tokens before a loop are looked at.
const NEAR: usize = 32;

/// A condition that asks for the end of the input, too, after its `!=`.
const OR_END: Row = Row(
    1,
    [Like::Name, ANY, ANY, ANY, ANY],
    After(2),
    " & %0 != '*e'",
);

/// A call of `printn` in the place of another one, whose argument is one token.
#[rattlefmt::skip]
pub(crate) const WRITTEN: Row = Row(2, [ANY, ANY, ANY, CLOSE_PAREN, ANY], For(0, 3), "printn(%2, 10)");

/// The number of the digit that a name has.
#[rattlefmt::skip]
const DIGIT: [Row; 2] = [
    Row(1, [Op(Add), ANY, Either(Semicolon, CloseParen), ANY, ANY], After(1), " - '0'"),
    Row(0, [ANY, ANY, ANY, ANY, ANY], For(0, 0), "(%0 - '0')"),
];

/// An assignment to the name with which a sum or a difference begins that is a statement.
#[rattlefmt::skip]
const STORED: Row =
    Row(0, [Like::Name, Either(Operator(Add), Operator(Sub)), Like::Number, Is(Semicolon), ANY], Before(0), "%0 = ");

/// A quotient whose dividend is multiplied before, by the operand after it.
#[rattlefmt::skip]
const MULTIPLIED_FIRST: [Row; 2] = [
    Row(0, [ANY, Value, CLOSE_PAREN, Op(Mul), Value], For(0, 4), "* %4 / %1)"),
    Row(0, [ANY, Value, Op(Mul), Value, ANY], For(0, 3), "* %3 / %1"),
];

/// A character of a string in the place of a word of it by an index.
#[rattlefmt::skip]
const CHARACTER_OF: Row = Row(0, [Like::Name, Group(OpenBracket), ANY, ANY, ANY], For(0, 1), "char(%0, %1)");

/// What may mend a number, a comparison or a loop.
pub(crate) fn of_numbers(draft: &mut Draft<'_>, warning: Warning) -> Drafted {
    let token = draft.site.token;
    match warning {
        Warning::OctalNumber => decimal(draft, token),
        Warning::DividesFirst | Warning::ZeroQuotient | Warning::QuotientCut => {
            draft.by_rows(token, &MULTIPLIED_FIRST)
        }
        Warning::AlwaysTrue => all_signs(draft, token, BinOp::Or, b"&"),
        Warning::NeverTrue => all_signs(draft, token, BinOp::And, b"|"),
        Warning::LoopPastVector => below(draft),
        Warning::CountPastVector if is_called_once(draft, token) => below(draft),
        Warning::InnerOnce => set_before(draft, token),
        Warning::InputEndless => draft.by_rows(token, &[OR_END]),
        Warning::NumberPut => draft.by_rows(token, &[WRITTEN]),
        Warning::SlashEscape => star(draft, token),
        Warning::NoEffect => draft.by_rows(token, &[STORED]),
        Warning::WordOfString => draft.by_rows(token, &[CHARACTER_OF]),
        Warning::ValueForAddress => draft.before(token, b"&"),
        Warning::Slip(slip) => of_slip(draft, token, slip),
        Warning::CharacterCounted => draft.by_rows(token, &DIGIT),
        Warning::AssignsNot => draft.replace(token, token.wrapping_add(1), b"!="),
        Warning::DigitForCharacter => draft.around(token, token, "'%*'"),
        _ => Ok(()),
    }
}

// A number without the 0s before it.
fn decimal(draft: &mut Draft<'_>, token: usize) -> Drafted {
    let bytes = draft.bytes(token, token);
    let digit = bytes.iter().position(|byte| *byte != b'0');
    let rest = bytes.get(digit.ok_or(Stop::Unfit)?..);
    draft.rename(token, rest.unwrap_or(&[]))
}

/// The token after an operand that begins with this one.
pub(crate) fn after_operand(draft: &Draft<'_>, first: usize) -> usize {
    let mut at = first;
    for _ in first..draft.spans.end() {
        if !matches!(
            draft.at(at),
            Lexeme::Not | Lexeme::Operator(BinOp::Sub | BinOp::Mul | BinOp::And)
        ) {
            break;
        }
        at = at.saturating_add(1);
    }
    if is_operand(&draft.at(at)) {
        at = at.saturating_add(1);
    }
    for _ in first..draft.spans.end() {
        match draft.at(at) {
            Lexeme::OpenParen | Lexeme::OpenBracket => at = after_brackets(draft, at),
            _ => return at,
        }
    }
    at
}

// Another sign in the place of each one between comparisons of one name with constants, of which this token is one.
fn all_signs(draft: &mut Draft<'_>, token: usize, op: BinOp, words: &[u8]) -> Drafted {
    let sign = Lexeme::Operator(op);
    let (mut first, mut last) = (token, token);
    for _ in 0..token {
        if draft.at(first.wrapping_sub(4)) != sign || !is_comparing(draft, first.wrapping_sub(3)) {
            break;
        }
        first = first.wrapping_sub(4);
    }
    for _ in token..draft.spans.end() {
        if draft.at(last.wrapping_add(4)) != sign || !is_comparing(draft, last.wrapping_add(1)) {
            break;
        }
        last = last.wrapping_add(4);
    }
    let (begin, end) = (first.wrapping_sub(3), last.wrapping_add(3));
    let is_whole = is_comparing(draft, begin)
        && is_comparing(draft, last.wrapping_add(1))
        && opens_bracket(&draft.at(begin.wrapping_sub(1)))
        && closes_bracket(&draft.at(end.wrapping_add(1)))
        && draft.at(begin) == draft.at(last.wrapping_add(1));
    only_if(is_whole)?;
    let mut text = draft.text();
    let mut from = draft.start(begin);
    for at in begin..end {
        if draft.at(at) == sign {
            text.push(draft.slice(from, draft.start(at)))?;
            text.push(words)?;
            from = draft.end(at);
        }
    }
    text.push(draft.slice(from, draft.end(end)))?;
    draft.put_text(draft.start(begin), draft.end(end), text)
}

// Whether a name is compared with a constant from a token on.
fn is_comparing(draft: &Draft<'_>, name: usize) -> bool {
    draft.is(name, &Like::Name)
        && is_comparison(&draft.at(name.wrapping_add(1)))
        && draft.is(name.wrapping_add(2), &Like::Constant)
}

// `<` in the place of `<=` in the condition of a loop, which is the second place and begins with the first word, or
// after it where that is taken by itself.
fn below(draft: &mut Draft<'_>) -> Drafted {
    let keyword = draft.second()?;
    let (name, sign) = (keyword.wrapping_add(2), keyword.wrapping_add(3));
    let value = value_before(draft, keyword, draft.at(name))?;
    only_if(draft.is(sign, &Op(BinOp::Le)))?;
    only_if(draft.at(value) == Lexeme::Number(0) || has_first(draft, value))?;
    draft.rename(sign, b"<")
}

// Whether the first word of a vector is taken by itself shortly before a token.
fn has_first(draft: &Draft<'_>, token: usize) -> bool {
    (3..NEAR).any(|back| {
        let at = token.saturating_sub(back);
        draft.at(at) == OpenBracket
            && draft.at(at.saturating_add(1)) == Lexeme::Number(0)
            && draft.at(at.saturating_add(2)) == Lexeme::CloseBracket
    })
}

// The constant that is assigned to a name last before a token.
fn value_before(draft: &Draft<'_>, token: usize, name: Lexeme) -> Result<usize, Stop> {
    let last = (1..token).rev().find(|at| {
        draft.at(*at) == name && draft.at(at.saturating_add(1)) == Lexeme::Assign(None)
    });
    let value = last.ok_or(Stop::Unfit)?.saturating_add(2);
    only_if(draft.is(value, &Like::Constant))?;
    only_if(draft.at(value.saturating_add(1)) == Semicolon)?;
    Ok(value)
}

/// What the name of a condition began with, once more right before the loop with this keyword.
pub(crate) fn set_before(draft: &mut Draft<'_>, keyword: usize) -> Drafted {
    let name = keyword.wrapping_add(2);
    let start = draft.start(keyword);
    let value = value_before(draft, keyword, draft.at(name))?;
    only_if(draft.is(keyword.wrapping_sub(1), &Like::Border))?;
    let parts = [draft.bytes(name, name), draft.bytes(value, value)];
    draft.fill(start, start, "%0 = %1; ", &parts)
}

// A character constant with a star in the place of its slash.
fn star(draft: &mut Draft<'_>, token: usize) -> Drafted {
    let slash = draft.start(token).saturating_add(1);
    only_if(draft.source.get(slash) == Some(&b'/'))?;
    draft.put(slash, slash.saturating_add(1), b"*")
}

// Whether the function of a call, of which this token is an argument, is called nowhere else.
fn is_called_once(draft: &Draft<'_>, argument: usize) -> bool {
    let Some(opener) = opener_before(draft, argument) else {
        return false;
    };
    let callee = draft.at(opener.wrapping_sub(1));
    let calls = (0..draft.spans.end()).filter(|at| {
        draft.at(*at) == callee && draft.at(at.wrapping_add(1)) == Lexeme::OpenParen
    });
    calls.count() <= 2
}
