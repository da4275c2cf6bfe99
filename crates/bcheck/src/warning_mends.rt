//! Edits for code that compiles and is probably a mistake.
use crate::byte_mends::escapes;
use crate::draft::Spot::{After, For, Past};
use crate::draft::{Draft, Drafted, Row, Stop, only_if};
use crate::kinds::Like::{self, Either, Group, Is, Op, Word};
use crate::kinds::{
    ANY, CLOSE_PAREN, COMMA, OPEN_PAREN, depth_after, is_comparison, is_operand, is_word,
};
use crate::logic_mends::{Logic, mend_logic};
use crate::name_mends::{body_of, declared_at};
use crate::near::library_arguments;
use crate::number_mends::of_numbers;
use crate::syntax_mends::{after_brackets, opener_before};
use blang::Keyword;
use blex::Lexeme;
use blex::Lexeme::{CloseBrace, CloseParen, Comma, Not, Number, OpenBrace, OpenParen, Semicolon};
use blint::Warning;
use bword::BinOp::{Eq, Ge, Gt, Le, Lt, Mul, Sub};
use bword::{BinOp, Name};

/// The operand between two comparisons once more, where it is one token.
const AGAIN: Row = Row(1, [ANY, ANY, ANY, ANY, ANY], After(0), " & %0");

/// `!=` in the place of `==`, and no `!` before the operand.
#[rattlefmt::skip]
const NOT_EQUAL: [Row; 2] = [
    Row(0, [Is(Not), ANY, Op(Eq), ANY, ANY], For(0, 2), "%1 !="),
    Row(2, [ANY, ANY, Op(Eq), ANY, ANY], For(0, 2), "%1 !="),
];

/// Two arguments of one token, of which the first one is told, in the other order.
#[rattlefmt::skip]
const SWAPPED: Row =
    Row(1, [Either(OpenParen, Comma), ANY, COMMA, ANY, Either(CloseParen, Comma)], For(1, 3), "%3, %1");

/// The end of the input in the place of a -1 or a 0. What is above -1, or not below 0, is no end.
#[rattlefmt::skip]
const INPUT_END: [Row; 9] = [
    Row(1, [Op(Gt), Op(Sub), ANY, ANY, ANY], For(0, 2), "!= '*e'"),
    Row(1, [Op(Ge), Is(Number(0)), ANY, ANY, ANY], For(0, 1), "!= '*e'"),
    Row(1, [Op(Le), Op(Sub), ANY, ANY, ANY], For(0, 2), "== '*e'"),
    Row(1, [Op(Lt), Is(Number(0)), ANY, ANY, ANY], For(0, 1), "== '*e'"),
    Row(0, [Op(Sub), ANY, Op(Lt), ANY, ANY], For(0, 2), "'*e' !="),
    Row(0, [Is(Number(0)), Op(Le), ANY, ANY, ANY], For(0, 1), "'*e' !="),
    Row(0, [Op(Sub), ANY, Op(Ge), ANY, ANY], For(0, 2), "'*e' =="),
    Row(0, [Is(Number(0)), Op(Gt), ANY, ANY, ANY], For(0, 1), "'*e' =="),
    Row(0, [Op(Sub), ANY, ANY, ANY, ANY], For(0, 1), "'*e'"),
];

/// A name that gets what is read, where a statement calls `getchar` of it.
#[rattlefmt::skip]
const READ_INTO: Row = Row(0, [ANY, OPEN_PAREN, Like::Name, CLOSE_PAREN, Is(Semicolon)], For(0, 3), "%2 = getchar()");

/// Brackets in the place of parentheses.
pub(crate) const BRACKETED: Row = Row(0, [Group(OpenParen), ANY, ANY, ANY, ANY], For(0, 0), "[%0]");

/// A return of what a call gives, as the last statement of a function.
#[rattlefmt::skip]
const RETURNED: Row = Row(0, [ANY, Group(OpenParen), Is(Semicolon), Is(CloseBrace), ANY], For(0, 1), "return(%*)");

/// A word without the last index after its name.
const UNSIZED: Row = Row(0, [ANY, Like::Number, ANY, ANY, ANY], Past(0, 1), "");

/// What may mend what is probably a mistake.
pub(crate) fn of_warning(draft: &mut Draft<'_>, warning: Warning) -> Drafted {
    of_operators(draft, warning)?;
    of_operands(draft, warning)?;
    of_numbers(draft, warning)?;
    of_statements(draft, warning)
}

// Operators that are others than they look.
fn of_operators(draft: &mut Draft<'_>, warning: Warning) -> Drafted {
    let token = draft.site.token;
    let (start, next) = (draft.start(token), token.wrapping_add(1));
    let inside = start.saturating_add(1);
    match warning {
        Warning::AndAnd => and_and(draft, token),
        Warning::OperatorAssigns => draft.put(inside, inside, b" "),
        Warning::ConditionAssigns => compares(draft, token),
        Warning::AssignsComparison => around_assignment(draft, token),
        Warning::AssignsCompared => draft.rename(token, turned(draft.bytes(token, token))),
        Warning::BitsCompared => around_bits(draft, token),
        Warning::ComparesTwice => draft.by_rows(token, &[AGAIN]),
        Warning::NotCompared => draft.by_rows(token, &NOT_EQUAL),
        Warning::ComparesAlone if draft.is(token, &Op(Eq)) => draft.rename(token, b"="),
        Warning::VectorAddress => draft.put(start, draft.start(next), b""),
        _ => Ok(()),
    }
}

// Operands that mean another thing than it seems.
fn of_operands(draft: &mut Draft<'_>, warning: Warning) -> Drafted {
    let token = draft.site.token;
    let begins = draft.is(token.wrapping_sub(1), &Like::Opening);
    match warning {
        Warning::StringEnd | Warning::InputZero => {
            let zero = Either(Number(0), Lexeme::Character(0));
            let found = draft.find(token, token.saturating_add(4), &zero);
            draft.rename(found.ok_or(Stop::Unfit)?, b"'*e'")
        }
        Warning::InputEnd => end_for_minus_one(draft, token),
        Warning::StringForCharacter => quoted(draft, token, "'%0'"),
        Warning::Backslash => escapes(draft, token),
        Warning::LibraryArguments if draft.is(token, &Word("getchar")) && begins => {
            draft.by_rows(token, &[READ_INTO])
        }
        Warning::LibraryArguments => base_ten(draft, token),
        Warning::SwappedArguments => draft.by_rows(token, &[SWAPPED]),
        Warning::VectorCalled => draft.by_rows(token.wrapping_add(1), &[BRACKETED]),
        Warning::PastVector => whole_vector(draft, token),
        Warning::Unset => unset(draft, token),
        Warning::UnsetVector => sized(draft, b" 10"),
        Warning::VectorForWord => draft.by_rows(token, &[UNSIZED]),
        _ => Ok(()),
    }
}

// Statements that do nothing, and names that nothing uses.
fn of_statements(draft: &mut Draft<'_>, warning: Warning) -> Drafted {
    let token = draft.site.token;
    match warning {
        Warning::EmptyIf | Warning::EmptyLoop => draft.remove(token, token),
        Warning::NameAlone if is_function(draft, token) => draft.after(token, b"()"),
        Warning::NeverUsed | Warning::HidesLibrary => undeclared(draft, token),
        Warning::NearMain | Warning::NoMain => draft.rename(token, b"main"),
        Warning::IfsInRow => draft.before(token, b"else "),
        Warning::OwnResultDropped if is_of_itself(draft, token) => draft.by_rows(
            token,
            &[RETURNED],
        ),
        _ => Ok(()),
    }
}

// Whether a token is the name of its function, and in the braces of this alone, and in none within these.
fn is_of_itself(draft: &Draft<'_>, token: usize) -> bool {
    let first = draft.site.first;
    let open = draft.count(first, token, &Is(OpenBrace));
    draft.at(first) == draft.at(token)
        && open == draft.count(first, token, &Is(CloseBrace)).saturating_add(1)
}

/// What means the same as `&&`, of which this token is one.
pub(crate) fn and_and(draft: &mut Draft<'_>, token: usize) -> Drafted {
    let before = token.wrapping_sub(1);
    let first = if draft.is(before, &Op(BinOp::And)) {
        before
    } else {
        token
    };
    mend_logic(draft, Logic::And, first, first.wrapping_add(1))
}

/// `==` in the place of an assignment, or the comparison that one looks like.
pub(crate) fn compares(draft: &mut Draft<'_>, token: usize) -> Drafted {
    match draft.at(token) {
        Lexeme::Assign(None) => draft.rename(token, b"=="),
        Lexeme::Assign(Some(Sub)) => draft.rename(token, b"== -"),
        Lexeme::Assign(Some(op)) if is_comparison(&Lexeme::Operator(op)) => {
            draft.rename(token, turned(draft.bytes(token, token)))
        }
        _ => Ok(()),
    }
}

// Parentheses around an assignment up to the comparison after it. The token is its `=`.
fn around_assignment(draft: &mut Draft<'_>, token: usize) -> Drafted {
    let mut at = token.saturating_add(1);
    for _ in token..draft.spans.end() {
        match draft.at(at) {
            Lexeme::OpenParen | Lexeme::OpenBracket => at = after_brackets(draft, at),
            Lexeme::Semicolon | Lexeme::CloseParen | Lexeme::End => break,
            lexeme if is_comparison(&lexeme) => {
                return draft.around(token.wrapping_sub(1), at.wrapping_sub(1), "(%*)");
            }
            _ => at = at.saturating_add(1),
        }
    }
    Ok(())
}

// The comparison that an assignment of one looks like.
fn turned(words: &[u8]) -> &'static [u8] {
    match words {
        b"=>" | b"=>=" => b">=",
        b"=<" | b"=<=" => b"<=",
        b"=!=" => b"!=",
        _ => b"==",
    }
}

// Parentheses around an operator on bits and a constant, whose first operand is one token, up to the comparison after
// it. Of two names the comparison may be meant.
fn around_bits(draft: &mut Draft<'_>, token: usize) -> Drafted {
    let first = token.wrapping_sub(1);
    let mut after = token.saturating_add(2);
    for _ in 0..4 {
        if matches!(draft.at(after), Lexeme::OpenParen | Lexeme::OpenBracket) {
            after = after_brackets(draft, after);
        }
    }
    let is_compared = is_comparison(&draft.at(after)) && is_operand(&draft.at(first));
    only_if(is_compared && !draft.is(token.wrapping_add(1), &Like::Name))?;
    draft.around(first, after.wrapping_sub(1), "(%*)")
}

// The end of the input in the place of a -1 or a 0. Where the name that is compared holds something else, too, it is a
// choice.
fn end_for_minus_one(draft: &mut Draft<'_>, token: usize) -> Drafted {
    let next = token.wrapping_add(if draft.is(token, &Is(Number(0))) {
        1
    } else {
        2
    });
    let name = if is_comparison(&draft.at(next)) {
        next.wrapping_add(1)
    } else {
        token.wrapping_sub(2)
    };
    draft.is_choice = holds_others(draft, &draft.at(name));
    draft.by_rows(token, &INPUT_END)
}

// Whether a name of a function may hold something else than what `getchar` gives: it is a parameter, or is set otherwise.
fn holds_others(draft: &Draft<'_>, name: &Lexeme) -> bool {
    let (Lexeme::Name(_), Some(brace)) = (name, body_of(draft)) else {
        return false;
    };
    (draft.site.first.saturating_add(1)..after_brackets(draft, brace)).any(|token| {
        let next = token.saturating_add(1);
        let value = draft.at(next.saturating_add(1));
        let is_set = match draft.at(next) {
            Lexeme::Assign(None) => !Like::Constant.fits(&value) && !is_word(&value, "getchar"),
            Lexeme::Assign(_) | Lexeme::Increment | Lexeme::Decrement => true,
            _ => token < brace,
        };
        draft.at(token) == *name && is_set
    })
}

/// Other quotes around a string or a character.
pub(crate) fn quoted(draft: &mut Draft<'_>, token: usize, words: &str) -> Drafted {
    let (start, end) = (draft.start(token), draft.end(token));
    let inner = draft.slice(start.saturating_add(1), end.saturating_sub(1));
    draft.fill(start, end, words, &[inner])
}

// The base 10 for a call of `printn` without one. A base alone lacks its number.
fn base_ten(draft: &mut Draft<'_>, token: usize) -> Drafted {
    let argument = token.wrapping_add(2);
    let closer = after_brackets(draft, token.wrapping_add(1)).wrapping_sub(1);
    let is_base = draft.is(argument, &Either(Number(8), Number(10)))
        && argument.wrapping_add(1) == closer;
    only_if(!is_base && draft.is(token, &Word("printn")))?;
    draft.before(closer, b", 10")
}

// A vector without an index past its end, as an argument of a function that isn't one of the library.
fn whole_vector(draft: &mut Draft<'_>, index: usize) -> Drafted {
    let bracket = index.wrapping_sub(1);
    let opener = opener_before(draft, bracket).ok_or(Stop::Unfit)?;
    let name = draft.name_at(opener.wrapping_sub(1))?;
    let ends = draft.is(index.wrapping_add(2), &Either(Comma, CloseParen));
    only_if(ends && library_arguments(&name).is_none())?;
    draft.replace(bracket, index.wrapping_add(1), b"")
}

// A word that nothing has set: what a call sets takes its address, or words for a string; a sum begins with 0.
fn unset(draft: &mut Draft<'_>, token: usize) -> Drafted {
    if draft.is(token.wrapping_sub(1), &Is(OpenParen)) {
        let callee = draft.at(token.wrapping_sub(2));
        if is_word(&callee, "getnum") {
            return draft.before(token, b"&");
        }
        if is_word(&callee, "getstr") || is_word(&callee, "getline") {
            return sized(draft, b" 40");
        }
    }
    let is_within = draft.is(token.wrapping_add(1), &Is(OpenParen))
        || opener_before(draft, token).is_some();
    let name = draft.name()?;
    only_if(!is_within && !is_compared_alone(draft, &name))?;
    begun(draft, &name)
}

// A 0 for a word, or a 1 for a product, after the declarations in which it is.
fn begun(draft: &mut Draft<'_>, name: &Name) -> Drafted {
    let end = draft.on_line(declared_at(draft, name)?, Semicolon)?;
    only_if(draft.at(end.wrapping_add(1)) != Lexeme::Keyword(Keyword::Extrn))?;
    let place = draft.end(end);
    let next = draft.site.token.wrapping_add(1);
    let product = Either(Lexeme::Operator(Mul), Lexeme::Assign(Some(Mul)));
    let is_product = draft.is(next, &product);
    let words = if is_product { " %0 = 1;" } else { " %0 = 0;" };
    draft.fill(place, place, words, &[name.as_bytes()])
}

// Whether a statement of a function begins with a name and a `==`: it may be meant to set it.
fn is_compared_alone(draft: &Draft<'_>, name: &Name) -> bool {
    let Some(brace) = body_of(draft) else {
        return false;
    };
    (brace..after_brackets(draft, brace)).any(|token| {
        draft.is(token.wrapping_sub(1), &Like::Opening)
            && draft.at(token) == Lexeme::Name(*name)
            && draft.is(token.wrapping_add(1), &Op(Eq))
    })
}

// A last index for a word in its declaration.
fn sized(draft: &mut Draft<'_>, words: &[u8]) -> Drafted {
    let name = draft.name()?;
    let declared = declared_at(draft, &name)?;
    draft.after(declared, words)
}

/// Whether the name of a token is a function of the library, or one that the source defines.
pub(crate) fn is_function(draft: &Draft<'_>, token: usize) -> bool {
    let name = draft.name_at(token);
    name.is_ok_and(|name| arguments_asked(draft, &name).is_some())
}

/// How many arguments a function asks for, of the library or one that the source defines.
pub(crate) fn arguments_asked(draft: &Draft<'_>, name: &Name) -> Option<u64> {
    if let Some(count) = library_arguments(name) {
        return Some(count);
    }
    let mut depth: u64 = 0;
    for token in 0..draft.spans.end() {
        match draft.at(token) {
            Lexeme::OpenBrace => depth = depth.saturating_add(1),
            Lexeme::CloseBrace => depth = depth.saturating_sub(1),
            _ if depth == 0 && is_head(draft, token, name) => {
                return Some(arguments_between(draft, token.saturating_add(1)));
            }
            _ => {}
        }
    }
    None
}

// Whether the definition of a function of this name begins with a token: a body comes after its parentheses.
fn is_head(draft: &Draft<'_>, token: usize, name: &Name) -> bool {
    let opener = token.saturating_add(1);
    (token == 0 || draft.is(token.wrapping_sub(1), &Either(CloseBrace, Semicolon)))
        && draft.at(token) == Lexeme::Name(*name)
        && draft.at(opener) == OpenParen
        && draft.at(after_brackets(draft, opener)) != Semicolon
}

/// How many arguments or parameters a parenthesis has.
pub(crate) fn arguments_between(draft: &Draft<'_>, opener: usize) -> u64 {
    let first = opener.saturating_add(1);
    let closer = after_brackets(draft, opener).saturating_sub(1);
    let (mut commas, mut depth): (u64, u64) = (0, 0);
    for token in first..closer {
        let lexeme = draft.at(token);
        depth = depth_after(depth, &lexeme);
        if depth == 0 && lexeme == Comma {
            commas = commas.saturating_add(1);
        }
    }
    if first < closer {
        commas.saturating_add(1)
    } else {
        0
    }
}

/// A declaration by `auto` without a word that is declared already, as a parameter or by `auto`, and not as a vector.
pub(crate) fn declared_again(draft: &mut Draft<'_>) -> Drafted {
    let token = draft.site.token;
    let (name, first) = (draft.name()?, draft.second()?);
    let is_parameter = body_of(draft).is_some_and(|brace| first < brace);
    only_if(is_parameter || declared_at(draft, &name)? == first)?;
    only_if(!draft.is(token.wrapping_add(1), &Like::Number) && is_by_auto(draft, token))?;
    undeclared(draft, token)
}

// Whether a token is one of an `auto`.
fn is_by_auto(draft: &Draft<'_>, token: usize) -> bool {
    for back in 1..token.saturating_add(1) {
        match draft.at(token.saturating_sub(back)) {
            Lexeme::Name(_) | Lexeme::Comma | Lexeme::Number(_) => {}
            lexeme => return lexeme == Lexeme::Keyword(Keyword::Auto),
        }
    }
    false
}

// A declaration without the name of this token.
fn undeclared(draft: &mut Draft<'_>, token: usize) -> Drafted {
    let (before, next) = (token.wrapping_sub(1), token.wrapping_add(1));
    match (draft.at(before), draft.at(next)) {
        (Lexeme::Comma, Lexeme::Comma | Lexeme::Semicolon) => {
            draft.put(draft.end(before.wrapping_sub(1)), draft.end(token), b"")
        },
        (_, Lexeme::Comma) => draft.remove(token, next),
        (Lexeme::Keyword(_), Lexeme::Semicolon) => draft.remove(before, next),
        _ => Ok(()),
    }
}
