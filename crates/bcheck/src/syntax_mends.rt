//! Edits for a token with which no program goes on.
use crate::around::opener_of;
use crate::brace_mends::{brace_by_lines, indent_of, is_heading, is_outdented, may_define};
use crate::byte_mends::{items_in, line_end, remark};
use crate::declared_mends::{definition, head, local, names_alone, push_each};
use crate::draft::Spot::{Before, For, Past};
use crate::draft::{Draft, Drafted, Row, Stop, only_if};
use crate::foreign::Foreign;
use crate::kinds::Like::{self, Either, Is, Op, Until};
use crate::kinds::{ANY, depth_after, is_comparison, is_ended, is_word};
use crate::logic_mends::{Logic, mend_logic};
use crate::name_mends::body_of;
use crate::near::near_keyword;
use crate::own_parts::body_end;
use crate::semicolon_mends::may_begin;
use crate::slip_mends::assigned_left;
use crate::syntax::Syntax;
use crate::warning_mends::{arguments_asked, arguments_between, is_function, quoted};
use blang::Keyword;
use blex::Lexeme;
use blex::Lexeme::{Assign, Colon, OpenBrace, OpenBracket, Operator, Semicolon};
use bword::BinOp::{Eq, Ge, Gt, Le, Lt, Ne};
use bword::Name;

/// How many tokens before a `]` are looked at for its `[`.
const MOST_INDEX: usize = 8;

/// One comparison in the place of its sign and an `=` after it.
#[rattlefmt::skip]
const COMPARED: [Row; 4] = [
    Row(0, [Op(Eq), ANY, ANY, ANY, ANY], For(0, 1), "=="),
    Row(0, [Op(Ne), ANY, ANY, ANY, ANY], For(0, 1), "!="),
    Row(0, [Either(Operator(Lt), Operator(Le)), ANY, ANY, ANY, ANY], For(0, 1), "<="),
    Row(0, [Either(Operator(Gt), Operator(Ge)), ANY, ANY, ANY, ANY], For(0, 1), ">="),
];

/// The name that the comparison before an operator compares, before the sign that comes after that.
#[rattlefmt::skip]
const COMPARED_AGAIN: Row = Row(4, [Like::Name, Like::Comparison, Like::Operand, ANY, ANY], Before(4), "%0 ");

/// One `==` for two `=`, and no brackets without an index.
#[rattlefmt::skip]
const WITHOUT_OPERAND: [Row; 2] = [
    Row(1, [Is(Assign(None)), Is(Assign(None)), ANY, ANY, ANY], For(0, 1), "=="),
    Row(1, [Is(OpenBracket), ANY, ANY, ANY, ANY], For(0, 1), ""),
];

/// The `=` of an assignment before its operator.
const EQUALS_FIRST: Row = Row(1, [ANY, ANY, ANY, ANY, ANY], For(0, 1), "=%0");

/// Parentheses from a token up to the `;` on its line.
const IN_PARENTHESES: Row = Row(
    1,
    [ANY, Until(Semicolon), ANY, ANY, ANY],
    Past(0, 1),
    "(%1)",
);

/// Parentheses around a condition, which goes to a `{`; and one that goes to a `:`, which is taken out.
const BEFORE_BRACE: Row = Row(
    1,
    [ANY, Until(OpenBrace), ANY, ANY, ANY],
    Past(0, 1),
    "(%1)",
);

const BEFORE_COLON: Row = Row(1, [ANY, Until(Colon), ANY, ANY, ANY], Past(0, 2), "(%1)");

/// What may mend a token with which no program goes on.
pub(crate) fn of_syntax(draft: &mut Draft<'_>, syntax: Syntax) -> Drafted {
    draft.is_guess = is_guess(syntax);
    if let Syntax::Foreign(word) = syntax {
        // The word is the second place where it stands on another line.
        return foreign(draft, draft.second().unwrap_or(draft.site.token), word);
    }
    of_braces(draft, syntax)?;
    of_definition(draft, syntax)?;
    of_statement(draft, syntax)?;
    of_expression(draft, syntax)
}

// Whether what is missing or too much might be another thing than what is proposed.
fn is_guess(syntax: Syntax) -> bool {
    matches!(
        syntax,
        Syntax::CallParens
            | Syntax::CommaAlone
            | Syntax::OperandMissing
            | Syntax::ParenOpen
            | Syntax::TwoOperands
            | Syntax::Unopened
    )
}

// What stands outside of functions, and in the heads of functions.
fn of_definition(draft: &mut Draft<'_>, syntax: Syntax) -> Drafted {
    let (token, first) = (draft.site.token, draft.site.first);
    only_if(!is_outside(syntax) || !brace_by_lines(draft)? && indent_of(draft, first) == 0)?;
    let before = token.wrapping_sub(1);
    match syntax {
        Syntax::Slashes => remark(draft, draft.start(token), 2),
        Syntax::BraceSemicolon | Syntax::BraceCloses => draft.remove(token, token),
        Syntax::TypeFirst | Syntax::TypeParameter => {
            let drafted = head(draft, first);
            if let Err(Stop::Memory) = drafted {
                return drafted;
            }
            definition(draft, first)
        }
        Syntax::VectorParameter => head(draft, first),
        Syntax::ParameterComma => draft.rename(token, b","),
        Syntax::HeadParens => draft.after(before, b"()"),
        Syntax::EqualsOutside | Syntax::SignOutside | Syntax::BracesOutside => definition(
            draft, first,
        ),
        Syntax::Prototype => prototype_out(draft),
        Syntax::NameMissing if draft.at(token) == OpenBrace => draft.replace(before, before, b""),
        _ => Ok(()),
    }
}

// Whether it is on what stands outside of functions, though a statement of one may be meant.
fn is_outside(syntax: Syntax) -> bool {
    matches!(
        syntax,
        Syntax::BraceCloses
            | Syntax::BracesOutside
            | Syntax::CallOutside
            | Syntax::EqualsOutside
            | Syntax::HeadParens
            | Syntax::LabelOutside
            | Syntax::SignOutside
            | Syntax::StatementOutside
            | Syntax::TypeFirst
    )
}

// A prototype taken out, from its name on where a type of its parameters was found fault with.
fn prototype_out(draft: &mut Draft<'_>) -> Drafted {
    let (token, first) = (draft.site.token, draft.site.first);
    let last = draft.on_line(token, Semicolon)?;
    let opener = first.saturating_add(1);
    let is_whole = draft.at(opener) == Lexeme::OpenParen
        && after_brackets(draft, opener) == last
        && draft.line(first) == draft.line(last);
    draft.remove(if is_whole { first } else { token }, last)
}

// A brace that is missing, where it is that of the function before, or the one before an `else`; or after the last line
// that stands farther in than the open one.
fn of_braces(draft: &mut Draft<'_>, syntax: Syntax) -> Drafted {
    let is_whole = match (draft.finding.related, body_of(draft)) {
        (Some(open), Some(brace)) => open.start == draft.start(brace),
        _ => false,
    };
    match syntax {
        Syntax::FunctionInside if is_whole => draft.before(draft.site.token, b"} "),
        Syntax::ElseInBraces => draft.before(draft.site.token, b"} "),
        Syntax::BraceOpen | Syntax::FunctionInside => {
            let brace = draft.finding.related.ok_or(Stop::Unfit)?;
            let (_, end) = body_end(draft.source, brace.start).ok_or(Stop::Unfit)?;
            draft.put(end, end, b" }")
        }
        _ => Ok(()),
    }
}

// What begins and ends statements, and what stands between them.
fn of_statement(draft: &mut Draft<'_>, syntax: Syntax) -> Drafted {
    let token = draft.site.token;
    let before = token.wrapping_sub(1);
    let statement = statement_of(draft, token);
    match syntax {
        Syntax::CallParens if is_outdented(draft, token) => draft.before(statement, b"} "),
        Syntax::SemicolonMissing | Syntax::TwoOperands if has_keyword(draft, statement) => {
            keyword(draft, statement)
        }
        Syntax::SemicolonMissing
        | Syntax::SemicolonBefore
        | Syntax::NoStatement
        | Syntax::CallParens
            if is_heading(draft, token) || may_define(draft, token) => { Ok(()) }
        Syntax::SemicolonMissing | Syntax::SemicolonBefore | Syntax::NoStatement => draft.after(
            before, b";",
        ),
        Syntax::AutoValue | Syntax::AutoBrackets | Syntax::AutoList => local(draft, statement),
        Syntax::TypeInside => local(draft, token),
        Syntax::ExtrnList if draft.is(token, &Like::Keyword) => draft.after(before, b";"),
        Syntax::ExtrnList => names_alone(draft, statement),
        Syntax::Then if is_word(&draft.at(token), "then") => draft.remove(token, token),
        Syntax::Then => draft.put(draft.end(before.wrapping_sub(1)), draft.end(before), b""),
        Syntax::CaseSign => case_sign(draft, token),
        Syntax::CaseString
            if draft.at(token) == Lexeme::String && draft.bytes(token, token).len() <= 4 => {
            quoted(draft, token, "'%0'")
        }
        Syntax::CaseList => cases(draft, token),
        Syntax::CaseColon if draft.at(token) == Semicolon => draft.rename(token, b":"),
        Syntax::CaseColon => draft.after(before, b":"),
        Syntax::Condition => {
            draft.by_rows(token, &[BEFORE_BRACE])?;
            draft.by_rows(token, &[BEFORE_COLON])
        }
        Syntax::ReturnValue => draft.by_rows(token, &[IN_PARENTHESES]),
        Syntax::CallParens if has_keyword(draft, statement) => keyword(draft, statement),
        Syntax::CallParens => {
            draft.put(draft.end(before), draft.start(token), b"(")?;
            draft.by_rows(token, &[IN_PARENTHESES])
        }
        Syntax::ElseAlone => else_alone(draft, before),
        Syntax::HeadColon | Syntax::DoAfter => draft.remove(token, token),
        Syntax::CallBody => call_body(draft, token),
        Syntax::CommaAlone if is_between_statements(draft, token) => draft.rename(token, b";"),
        Syntax::Thousands | Syntax::ParenEarly => draft.replace(token, token, b""),
        Syntax::ElseCondition => {
            let opener = opener_of(draft.spans, before).ok_or(Stop::Unfit)?;
            draft.after(opener.wrapping_sub(1), b" if")
        }
        Syntax::ListAssigned => one_by_one(draft, token),
        _ => Ok(()),
    }
}

// What stands in expressions.
fn of_expression(draft: &mut Draft<'_>, syntax: Syntax) -> Drafted {
    let token = draft.site.token;
    let before = token.wrapping_sub(1);
    let next = token.wrapping_add(1);
    match syntax {
        Syntax::ParenOpen => closing(draft, token),
        Syntax::SlashesDivide => draft.replace(token, next, b"/"),
        Syntax::OrOr => mend_logic(draft, Logic::Or, before, token),
        Syntax::EqualsAfter => draft.by_rows(token, &[EQUALS_FIRST]),
        Syntax::QuoteEscaped => quotes(draft, before),
        Syntax::QuoteInside => quotes_inside(draft, token),
        Syntax::NumberName => number(draft, token),
        Syntax::CompareSigns => draft.by_rows(token, &COMPARED),
        Syntax::LessGreater => draft.replace(token, next, b"!="),
        Syntax::ColonEquals => draft.replace(token, next, b"="),
        Syntax::OperandMissing if draft.at(before) == Lexeme::Comma => draft.remove(before, before),
        Syntax::OperandMissing if draft.is(token, &Like::Comparison) => {
            draft.by_rows(token, &[COMPARED_AGAIN])
        }
        Syntax::OperandMissing => draft.by_rows(token, &WITHOUT_OPERAND),
        Syntax::AssignLeft => assigned_left(draft, token),
        Syntax::Unopened | Syntax::OtherBracket if index_opened(draft, token)? => Ok(()),
        Syntax::Unopened => {
            let closer = draft.at(token);
            draft.is_choice = closer == Lexeme::CloseBracket && closer != draft.at(before);
            opened(draft, token)?;
            draft.remove(token, token)
        }
        Syntax::OtherBracket => other_bracket(draft, token),
        Syntax::TwoOperands => match opener_before(draft, token) {
            Some(opener) => argument_apart(draft, opener, token),
            None if may_begin(draft, token) && !is_heading(draft, token) => {
                draft.after(before, b";")
            }
            None => Ok(()),
        },
        _ => Ok(()),
    }
}

// A comma between two arguments of a call, of which this token begins the second one. Where the call has as many as are
// asked for, an operator lacks. Where one may lack, since more are asked for or nobody knows, and neither is a string,
// the comma is a choice.
fn argument_apart(draft: &mut Draft<'_>, opener: usize, token: usize) -> Drafted {
    let before = token.wrapping_sub(1);
    let name = draft.name_at(opener.wrapping_sub(1))?;
    let count = arguments_between(draft, opener);
    let asked = arguments_of(draft, opener, &name);
    let has_string = draft.at(before) == Lexeme::String || draft.at(token) == Lexeme::String;
    only_if(draft.at(opener) == Lexeme::OpenParen && asked.unwrap_or(u64::MAX) > count)?;
    draft.is_choice = !has_string && asked != Some(count.saturating_add(1));
    draft.after(before, b",")
}

// How many arguments a call asks for: of `printf` as many as its form has places, and the form.
fn arguments_of(draft: &Draft<'_>, opener: usize, name: &Name) -> Option<u64> {
    let form = opener.saturating_add(1);
    if name.as_str() == "printf" && draft.at(form) == Lexeme::String {
        let values = items_in(draft.bytes(form, form)) as u64;
        return Some(values.saturating_add(1));
    }
    arguments_asked(draft, name)
}

// A `[` in the name before a `]` on its line that is two words which stand elsewhere, or one and a number. Where there
// are several such places it is a choice. Whether there is one.
fn index_opened(draft: &mut Draft<'_>, closer: usize) -> Result<bool, Stop> {
    let count = if draft.at(closer) == Lexeme::CloseBracket {
        MOST_INDEX
    } else {
        0
    };
    for back in 1..count {
        let token = closer.saturating_sub(back);
        if draft.line(token) != draft.line(closer) || draft.at(token) == Lexeme::OpenParen {
            break;
        }
        let word = draft.bytes(token, token);
        if !draft.is(token, &Like::Name) {
            continue;
        }
        for length in 1..word.len() {
            let (name, index) = word.split_at(length);
            if stands(draft, name)
                && (index.iter().all(|byte| byte.is_ascii_digit()) || stands(draft, index))
            {
                let place = draft.start(token).saturating_add(length);
                draft.is_choice = !draft.all.is_empty();
                draft.put(place, place, b"[")?;
            }
        }
    }
    Ok(!draft.all.is_empty())
}

// Whether a name has these letters.
fn stands(draft: &Draft<'_>, word: &[u8]) -> bool {
    (0..draft.spans.end()).any(|at| draft.is(at, &Like::Name) && draft.bytes(at, at) == word)
}

// A parenthesis that is missing after the name of a function, where a `)` comes right after it, and another one.
fn opened(draft: &mut Draft<'_>, token: usize) -> Drafted {
    let name = token.wrapping_sub(2);
    let is_called = draft.at(token) == Lexeme::CloseParen
        && draft.at(token.wrapping_sub(1)) == Lexeme::CloseParen;
    if is_called && is_function(draft, name) {
        draft.after(name, b"(")?;
    }
    Ok(())
}

// The bracket that closes the one which is open before a token, in the place of another one.
fn other_bracket(draft: &mut Draft<'_>, token: usize) -> Drafted {
    let opener = opener_of(draft.spans, token);
    match opener.map(|opener| draft.at(opener)) {
        Some(Lexeme::OpenBracket) => draft.rename(token, b"]"),
        Some(Lexeme::OpenParen) => draft.rename(token, b")"),
        Some(Lexeme::OpenBrace) => draft.rename(token, b"}"),
        _ => Ok(()),
    }
}

/// The innermost bracket that is open before a token, if no brace is.
pub(crate) fn opener_before(draft: &Draft<'_>, token: usize) -> Option<usize> {
    let opener = opener_of(draft.spans, token)?;
    if statement_of(draft, token) <= opener {
        Some(opener)
    } else {
        None
    }
}

/// The token after the bracket that an opening one is closed by, or after the last one of its line.
pub(crate) fn after_brackets(draft: &Draft<'_>, opener: usize) -> usize {
    let mut depth: u64 = 0;
    for token in opener..draft.spans.end() {
        let lexeme = draft.at(token);
        depth = depth_after(depth, &lexeme);
        if depth == 0 || lexeme == Lexeme::End {
            return token.saturating_add(1);
        }
    }
    draft.spans.end()
}

// Whether the statement of a token begins with a heading, so that a `;` would end what the heading is of.
fn is_headed(draft: &Draft<'_>, token: usize) -> bool {
    matches!(
        draft.at(statement_of(draft, token)),
        Lexeme::Keyword(Keyword::If | Keyword::Else | Keyword::While | Keyword::Switch)
    )
}

// Whether a comma stands between what may be two statements.
fn is_between_statements(draft: &Draft<'_>, comma: usize) -> bool {
    let next = comma.wrapping_add(1);
    let after = draft.at(next.wrapping_add(1));
    draft.is(next, &Like::Name)
        && (does_something(&after) || after == OpenBracket)
        && !is_headed(draft, comma)
        && does_before(draft, comma)
}

/// Whether what stands of a statement before a token assigns, counts or calls something, or begins with a keyword.
pub(crate) fn does_before(draft: &Draft<'_>, token: usize) -> bool {
    (statement_of(draft, token)..token).any(|at| does_something(&draft.at(at))
        || draft.is(at, &Like::Keyword))
}

fn does_something(lexeme: &Lexeme) -> bool {
    Like::Sets.fits(lexeme) || *lexeme == Lexeme::OpenParen
}

/// The first token of the statement of a token, where braces and a `;` are before it.
pub(crate) fn statement_of(draft: &Draft<'_>, token: usize) -> usize {
    let border = draft.find_back(0, token, &Like::Border);
    border.map_or(0, |at| at.saturating_add(1))
}

// A closing bracket for the one that is open: after a call whose value is assigned and compared, before an assignment
// or a comparison, right before the token, or before a comma. An index is no comparison. Where an operator stands
// between, and what is open is no heading and no statement, it is a choice. Before a `?` after that its place can't be
// seen, nor right before the token, if an operator stands in the parentheses that end there, but for a heading's.
fn closing(draft: &mut Draft<'_>, token: usize) -> Drafted {
    let opener = opener_before(draft, token).ok_or(Stop::Unfit)?;
    let is_index = draft.at(opener) == Lexeme::OpenBracket;
    let closer: &[u8] = if is_index { b"]" } else { b")" };
    let (mut is_assigned, mut is_joined) = (false, false);
    let mut depth: u64 = 0;
    for at in opener.saturating_add(1)..token {
        let lexeme = draft.at(at);
        match lexeme {
            Lexeme::Assign(None) if is_index => {
                draft.after(at.wrapping_sub(1), closer)?;
            }
            Lexeme::Assign(None) => is_assigned = true,
            _ if is_comparison(&lexeme) && (is_assigned || is_index && depth == 0) => {
                return draft.after(at.wrapping_sub(1), closer);
            }
            Lexeme::Operator(_) if depth == 0 && is_ended(&draft.at(at.wrapping_sub(1))) => {
                is_joined = true;
            }
            Lexeme::Question if depth == 0 && is_joined => return Ok(()),
            _ => depth = depth_after(depth, &lexeme),
        }
    }
    let is_split = !is_index && has_operator(draft, token.wrapping_sub(1));
    draft.is_choice = is_split || is_joined && !is_whole_statement(draft, opener);
    if !is_split || matches!(draft.at(opener.wrapping_sub(1)), Lexeme::Keyword(_)) {
        draft.after(token.wrapping_sub(1), closer)?;
    }
    before_commas(draft, opener, token, closer)
}

// Whether an operator stands in the parentheses that end with a token, after which they may be meant to end.
fn has_operator(draft: &Draft<'_>, closer: usize) -> bool {
    if draft.at(closer) != Lexeme::CloseParen {
        return false;
    }
    let Some(opener) = opener_of(draft.spans, closer) else {
        return false;
    };
    (opener.saturating_add(2)..closer).any(|at| {
        draft.is(at, &Like::Operator) && is_ended(&draft.at(at.wrapping_sub(1)))
    })
}

// Whether an open bracket is that of a heading, of a return or of a call that is a statement.
fn is_whole_statement(draft: &Draft<'_>, opener: usize) -> bool {
    let head = opener.wrapping_sub(1);
    let before = head.wrapping_sub(1);
    match draft.at(head) {
        Lexeme::Keyword(_) => true,
        Lexeme::Name(_) => {
            draft.is(before, &Like::Opening) || draft.at(before) == Lexeme::Keyword(Keyword::Else)
        }
        _ => false,
    }
}

// A closing bracket before a comma, from the last one back.
fn before_commas(draft: &mut Draft<'_>, opener: usize, token: usize, closer: &[u8]) -> Drafted {
    for back in 1..token.saturating_sub(opener) {
        let at = token.saturating_sub(back);
        if draft.at(at) == Lexeme::Comma {
            draft.after(at.wrapping_sub(1), closer)?;
        }
    }
    Ok(())
}

// The number below 65536 that is the same word as a negative one.
fn case_sign(draft: &mut Draft<'_>, token: usize) -> Drafted {
    let next = token.wrapping_add(1);
    match draft.at(next) {
        Lexeme::Number(number) => draft.number(token, next, u64::from(number.wrapping_neg())),
        _ => Ok(()),
    }
}

// A case for each value up to the colon, from the first comma on.
fn cases(draft: &mut Draft<'_>, token: usize) -> Drafted {
    let colon = draft.on_line(token, Lexeme::Colon)?;
    let mut text = draft.text();
    for at in token..colon {
        if draft.at(at) == Lexeme::Comma {
            text.push(b": case ")?;
        } else {
            text.push(draft.bytes(at, at))?;
        }
    }
    let start = draft.end(token.wrapping_sub(1));
    draft.put_text(start, draft.start(colon), text)
}

// A `;` right after the condition of an `if`, before the one statement that comes before an `else`; or one that ends an
// `if` before that.
fn else_alone(draft: &mut Draft<'_>, before: usize) -> Drafted {
    only_if(draft.at(before) == Lexeme::Semicolon)?;
    let early = statement_of(draft, before).wrapping_sub(1);
    if draft.at(early) == Lexeme::Semicolon
        && draft.at(early.wrapping_sub(1)) == Lexeme::CloseParen
    {
        draft.remove(early, early)?;
    }
    draft.remove(before, before)
}

// An assignment for each value of a list between brackets or braces, which this token opens after `=`.
fn one_by_one(draft: &mut Draft<'_>, opener: usize) -> Drafted {
    let name = opener.wrapping_sub(2);
    let end = draft.on_line(name, Lexeme::Semicolon)?;
    let closer = end.wrapping_sub(1);
    only_if(draft.is(name, &Like::Name) && closer > opener)?;
    only_if(after_brackets(draft, opener) == end)?;
    let mut text = draft.text();
    push_each(&mut text, draft, name, opener, closer)?;
    draft.put_text(draft.start(name), draft.end(end), text)
}

// Whether a statement begins with a name like a keyword.
fn has_keyword(draft: &Draft<'_>, first: usize) -> bool {
    keyword_like(draft, first).is_ok()
}

fn keyword_like(draft: &Draft<'_>, first: usize) -> Result<Name, Stop> {
    near_keyword(&draft.name_at(first)?).ok_or(Stop::Unfit)
}

// The keyword that the first name of a statement is like.
fn keyword(draft: &mut Draft<'_>, first: usize) -> Drafted {
    draft.rename(first, keyword_like(draft, first)?.as_bytes())
}

// A keyword that is spelt almost like what is called, or is called otherwise elsewhere.
fn call_body(draft: &mut Draft<'_>, token: usize) -> Drafted {
    match draft.name_at(token)?.as_str() {
        "fi" | "iff" | "when" | "unless" => draft.rename(token, b"if"),
        "until" => draft.rename(token, b"while"),
        _ => keyword(draft, statement_of(draft, token)),
    }
}

// A star in the place of each backslash before a quote, in the rest of the line from a string on.
fn quotes(draft: &mut Draft<'_>, token: usize) -> Drafted {
    let start = draft.start(token);
    let end = line_end(draft.source, start);
    let mut text = draft.text();
    for index in start..end {
        let next = index.saturating_add(1);
        let is_quoted = draft.slice(index, next.saturating_add(1)) == b"\\\"".as_slice();
        text.push(if is_quoted {
            b"*"
        } else {
            draft.slice(index, next)
        })?;
    }
    draft.put_text(start, end, text)
}

// A star before each quote around a token, up to the next string on its line.
fn quotes_inside(draft: &mut Draft<'_>, token: usize) -> Drafted {
    let string = draft.on_line(token, Lexeme::String)?;
    let start = draft.start(token).saturating_sub(1);
    let end = draft.start(string).saturating_add(1);
    draft.fill(
        start,
        end,
        "*\"%0*\"",
        &[draft.bytes(token, string.wrapping_sub(1))],
    )
}

// The digits of a hexadecimal number, whose name begins with `x`, to the base 10; a number without a letter after it;
// or a product with a name that stands before, too.
fn number(draft: &mut Draft<'_>, token: usize) -> Drafted {
    let before = token.wrapping_sub(1);
    let name = draft.name_at(token)?;
    match name.as_bytes() {
        [b'x' | b'X', digits @ ..] if draft.at(before) == Lexeme::Number(0) => {
            draft.number(before, token, hexadecimal(digits).ok_or(Stop::Unfit)?)
        }
        [b'L' | b'l' | b'u' | b'U'] => draft.replace(token, token, b""),
        _ if draft.has(0, token, &Is(Lexeme::Name(name))) => draft.after(before, b" * "),
        _ => Ok(()),
    }
}

fn hexadecimal(digits: &[u8]) -> Option<u64> {
    let mut value: u64 = 0;
    for digit in digits {
        let next = match *digit {
            b'0'..=b'9' => u64::from(*digit).saturating_sub(48),
            b'a'..=b'f' => u64::from(*digit).saturating_sub(87),
            b'A'..=b'F' => u64::from(*digit).saturating_sub(55),
            _ => return None,
        };
        value = value.saturating_mul(16).saturating_add(next);
    }
    if digits.is_empty() || value > 65535 {
        None
    } else {
        Some(value)
    }
}

// What stands here for a word of another language.
fn foreign(draft: &mut Draft<'_>, token: usize, word: Foreign) -> Drafted {
    let is_outside = token == draft.site.first;
    match word {
        Foreign::Function => draft.remove(token, token),
        Foreign::Declares if is_outside => definition(draft, token),
        Foreign::Declares => local(draft, token),
        Foreign::External if !is_outside => draft.rename(token, b"extrn"),
        _ => word_here(draft, token, word),
    }
}

/// What stands for a word of another language, where it is one word.
pub(crate) fn word_here(draft: &mut Draft<'_>, token: usize, word: Foreign) -> Drafted {
    match (word, draft.name_at(token)?.as_str()) {
        (Foreign::And, _) => mend_logic(draft, Logic::And, token, token),
        (Foreign::Or, _) => mend_logic(draft, Logic::Or, token, token),
        (Foreign::Not, _) => draft.rename(token, b"!"),
        (Foreign::Truth, "True" | "true" | "TRUE") => draft.rename(token, b"1"),
        (Foreign::Truth | Foreign::Nothing, _) => draft.rename(token, b"0"),
        (Foreign::InputEnd | Foreign::StringEnd, _) => draft.rename(token, b"'*e'"),
        (Foreign::Block, "begin") => draft.rename(token, b"{"),
        (Foreign::Block, "end") => draft.rename(token, b"}"),
        (Foreign::ElseIf, _) => draft.rename(token, b"else if"),
        _ => Ok(()),
    }
}
