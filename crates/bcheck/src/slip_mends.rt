//! Edits for slips of order, of kinds of values and of turns of a loop, and for assignments that are turned round.
use crate::draft::Spot::For;
use crate::draft::{Draft, Drafted, Row, only_if};
use crate::kinds::ANY;
use crate::kinds::Like::{self, Group, Is, Op, Until, Value};
use crate::name_mends::declared_at;
use crate::number_mends::{WRITTEN, after_operand, set_before};
use crate::syntax_mends::{opener_before, statement_of};
use crate::warning_mends::{compares, quoted};
use blang::Keyword;
use blex::Lexeme;
use blex::Lexeme::{Assign, OpenBracket, Semicolon};
use blint::Slip;
use bword::BinOp::{Ge, Gt, Le, Lt, Sub};

/// Parentheses around `*` and a name, before a `++` or `--`.
const WORD_COUNTED: Row = Row(2, [ANY, ANY, ANY, ANY, ANY], For(0, 1), "(%0%1)");

/// `<` in the place of `>`, and the other way round.
#[rattlefmt::skip]
const OTHER_SIGN: [Row; 4] = [
    Row(0, [Op(Lt), ANY, ANY, ANY, ANY], For(0, 0), ">"),
    Row(0, [Op(Le), ANY, ANY, ANY, ANY], For(0, 0), ">="),
    Row(0, [Op(Gt), ANY, ANY, ANY, ANY], For(0, 0), "<"),
    Row(0, [Op(Ge), ANY, ANY, ANY, ANY], For(0, 0), "<="),
];

/// A `--` before a name in the place of the sign after it.
const COUNTED_FIRST: Row = Row(0, [ANY, ANY, ANY, ANY, ANY], For(0, 1), "--%0");

/// An assignment from right to left.
#[rattlefmt::skip]
const TURNED_ROUND: Row = Row(0, [Until(Assign(None)), ANY, Until(Semicolon), ANY, ANY], For(0, 2), "%2 = %0");

/// A character that is stored in a string, in the place of a word of it by an index.
#[rattlefmt::skip]
const CHARACTER_STORED: Row =
    Row(0, [ANY, Group(OpenBracket), Is(Assign(None)), Until(Semicolon), ANY], For(0, 3), "lchar(%0, %1, %3)");

/// Parentheses around the operands of the operator after a `!`.
const NOT_OF_ALL: Row = Row(
    0,
    [ANY, Value, Like::Operator, Value, ANY],
    For(1, 3),
    "(%*)",
);

/// What may mend a slip. The token is the one that is told.
pub(crate) fn of_slip(draft: &mut Draft<'_>, token: usize, slip: Slip) -> Drafted {
    match slip {
        Slip::NeverAgain => set_before(draft, token),
        Slip::NumberForString => draft.by_rows(token, &[WRITTEN]),
        Slip::CharacterForString => put_character(draft, token),
        Slip::WordStored => draft.by_rows(token, &[CHARACTER_STORED]),
        Slip::WordForAddress | Slip::ValueKept => draft.before(token, b"&"),
        Slip::CountsEnd => draft.after(token, b" - 1"),
        Slip::RemainderBelow => divisor_added(draft, token),
        Slip::RoomTooSmall => enlarged(draft, token),
        Slip::NotFirst => draft.by_rows(token, &[NOT_OF_ALL]),
        Slip::ProductOfZero | Slip::BaseOfZero => draft.rename(token, b"1"),
        Slip::DividedByOne => draft.rename(token, b"2"),
        Slip::ZeroEnd => draft.rename(token, b"'*e'"),
        Slip::MovesAddress => draft.by_rows(token, &[WORD_COUNTED]),
        Slip::OtherExtreme => draft.by_rows(token, &OTHER_SIGN),
        Slip::NotKept => draft.by_rows(token, &[TURNED_ROUND]),
        Slip::AfterLast if draft.is(token.wrapping_add(1), &Op(Sub)) => draft.after(token, b" - 1"),
        Slip::PopsAbove
            if draft.at(statement_of(draft, token)) == Lexeme::Keyword(Keyword::Return) => {
            draft.by_rows(token, &[COUNTED_FIRST])
        }
        _ => Ok(()),
    }
}

// A string in the place of a character, or `putchar` in the place of the function that it is handed to.
fn put_character(draft: &mut Draft<'_>, token: usize) -> Drafted {
    match (draft.at(token.wrapping_sub(1)), draft.at(token)) {
        (Lexeme::OpenParen, Lexeme::Character(_)) => quoted(draft, token, "\"%0\""),
        (Lexeme::OpenParen, _) => draft.rename(token.wrapping_sub(2), b"putchar"),
        _ => Ok(()),
    }
}

/// An assignment whose left side is an expression: from right to left, where that is a statement and its right side one
/// name or element; `==` in parentheses and after another assignment. The token is its `=`.
pub(crate) fn assigned_left(draft: &mut Draft<'_>, token: usize) -> Drafted {
    let first = statement_of(draft, token);
    let target = token.wrapping_add(1);
    let is_plain = draft.at(token) == Assign(None) && !draft.has(first, token, &Like::Assigns);
    if !is_plain || opener_before(draft, token).is_some() {
        return compares(draft, token);
    }
    let end = after_operand(draft, target);
    let last = end.wrapping_sub(1);
    let is_target = draft.is(target, &Like::Name)
        && draft.at(end) == Semicolon
        && (last == target || draft.at(last) == Lexeme::CloseBracket);
    let begins = matches!(
        draft.at(first),
        Lexeme::Name(_) | Lexeme::Number(_) | Lexeme::OpenParen
    );
    only_if(is_target && begins && first < token)?;
    let sides = [
        draft.bytes(target, last),
        draft.bytes(first, token.wrapping_sub(1)),
    ];
    draft.fill(draft.start(first), draft.end(last), "%0 = %1", &sides)
}

// The divisor of a remainder, which is one token, added to the difference in parentheses before it. The token is the
// `%`.
fn divisor_added(draft: &mut Draft<'_>, token: usize) -> Drafted {
    let closer = token.wrapping_sub(1);
    let divisor = token.wrapping_add(1);
    let is_one = matches!(draft.at(divisor), Lexeme::Name(_) | Lexeme::Number(_))
        && after_operand(draft, divisor) == divisor.wrapping_add(1);
    only_if(draft.at(closer) == Lexeme::CloseParen && is_one)?;
    let place = draft.start(closer);
    draft.fill(place, place, " + %0", &[draft.bytes(divisor, divisor)])
}

// A vector with room for so many characters and their end. The token is the number of these.
fn enlarged(draft: &mut Draft<'_>, token: usize) -> Drafted {
    let name = draft.name()?;
    let last = declared_at(draft, &name)?.wrapping_add(1);
    match (draft.at(last), draft.at(token)) {
        (Lexeme::Number(_), Lexeme::Number(characters)) => {
            draft.number(last, last, u64::from(characters / 2))
        }
        _ => Ok(()),
    }
}
