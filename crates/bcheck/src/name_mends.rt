//! Edits for names that mean nothing where they are, and for operands without an address.
use crate::around::opener_of;
use crate::declared_mends::local;
use crate::draft::{Draft, Drafted, Stop};
use crate::kinds::Like::{self, Is};
use crate::kinds::{is_comparison, is_word};
use crate::near::near_name;
use crate::syntax_mends::{after_brackets, opener_before, statement_of, word_here};
use crate::undefined::UndefinedName;
use crate::unknown::{Lvalue, Unknown};
use crate::warning_mends::{BRACKETED, and_and, arguments_asked, arguments_between, compares};
use blang::Keyword;
use blex::Lexeme;
use bword::Name;

/// What may mend a definition of a name that a prototype has, which is the second place.
pub(crate) fn prototype(draft: &mut Draft<'_>) -> Drafted {
    let first = draft.second()?;
    draft.remove(first, draft.on_line(first, Lexeme::Semicolon)?)
}

/// What may mend an operand without an address.
pub(crate) fn of_lvalue(draft: &mut Draft<'_>, lvalue: Lvalue) -> Drafted {
    let token = draft.site.token;
    match (lvalue, draft.finding.name) {
        (_, _) if assigns_comparison(&draft.at(token)) => compares(draft, token),
        (Lvalue::AndAnd, _) => and_and(draft, token),
        (Lvalue::Constant, _) => compares(draft, token),
        (Lvalue::Character, _) => stored(draft, token),
        (Lvalue::Call, _) => call_assigned(draft, token),
        (Lvalue::External, Some(name)) => declare(draft, Keyword::Extrn, &name),
        (Lvalue::Label, Some(name)) => declare_either(draft, &name),
        (Lvalue::Near, Some(name)) => near_or_declared(draft, &name),
        (Lvalue::Typed, _) => local(draft, draft.second()?),
        _ => Ok(()),
    }
}

/// What may mend a name of a function that is neither declared nor a label.
pub(crate) fn of_unknown(draft: &mut Draft<'_>, unknown: Unknown) -> Drafted {
    let token = draft.site.token;
    let name = draft.name()?;
    match unknown {
        Unknown::External => declare(draft, Keyword::Extrn, &name),
        Unknown::Function | Unknown::Library => {
            draft.after(token, b"()")?;
            if arguments_asked(draft, &name).unwrap_or(0) > 0 {
                declare(draft, Keyword::Extrn, &name)?;
            }
            Ok(())
        }
        Unknown::Foreign(word) => {
            draft.is_guess = true;
            word_here(draft, token, word)
        }
        Unknown::Near => near_or_declared(draft, &name),
        Unknown::NoLabel => label(draft, &name),
        Unknown::Letter => {
            draft.is_choice = true;
            draft.around(token, token, "'%*'")
        }
        Unknown::Other => declare_either(draft, &name),
        _ => Ok(()),
    }
}

/// What may mend a name that nothing defines.
pub(crate) fn of_undefined(draft: &mut Draft<'_>, undefined: UndefinedName) -> Drafted {
    match (undefined, draft.finding.other) {
        (UndefinedName::Foreign(word), _) => word_here(draft, draft.site.token, word),
        (UndefinedName::Near, Some(other)) => draft.rename(draft.site.token, other.as_bytes()),
        _ => Ok(()),
    }
}

// A colon after a name that stands alone as a statement, for the label that is missing.
fn label(draft: &mut Draft<'_>, name: &Name) -> Drafted {
    for token in draft.site.first..draft.spans.end() {
        let end = token.saturating_add(1);
        let is_alone = draft.at(token) == Lexeme::Name(*name) && draft.at(end) == Lexeme::Semicolon;
        if is_alone && draft.is(token.wrapping_sub(1), &Like::Border) {
            return draft.rename(end, b":");
        }
    }
    Ok(())
}

// The name that is declared perhaps, in the place of one use of another one; where nothing else names it in its function
// it is rather its declaration that is mistyped. Where both are named more than once, it is a choice. What stands once
// is no word of its own.
fn near_or_declared(draft: &mut Draft<'_>, name: &Name) -> Drafted {
    let Some(known) = draft.finding.other else {
        return declare_either(draft, name);
    };
    let (uses, others) = (mentions(draft, name), mentions(draft, &known));
    draft.is_choice = uses > 1 && others > 1 || is_near_another(draft, name, &known);
    match declared_by(draft, &known, true) {
        Some(declared) if uses > 1 && others == 1 => draft.rename(declared, name.as_bytes())?,
        _ => draft.rename(draft.site.token, known.as_bytes())?,
    }
    if uses == 1 {
        return Ok(());
    }
    declare_either(draft, name)
}

// Whether a name of the function before the token, other than this one, is spelt almost so, too.
fn is_near_another(draft: &Draft<'_>, name: &Name, known: &Name) -> bool {
    let site = draft.site;
    (site.first.saturating_add(1)..site.token).any(|token| {
        let lexeme = draft.at(token);
        lexeme != Lexeme::Name(*known) && near_name(name, &lexeme).is_some()
    })
}

// How often a name stands in the function of the token.
fn mentions(draft: &Draft<'_>, name: &Name) -> usize {
    let end = match body_of(draft) {
        Some(brace) => after_brackets(draft, brace),
        None => draft.site.token.saturating_add(1),
    };
    draft.count(
        draft.site.first.saturating_add(1),
        end,
        &Is(Lexeme::Name(*name)),
    )
}

// Whether a token assigns what is compared with the same signs.
fn assigns_comparison(lexeme: &Lexeme) -> bool {
    match lexeme {
        Lexeme::Assign(Some(op)) => is_comparison(&Lexeme::Operator(*op)),
        _ => false,
    }
}

// A word of a vector in the place of a call of it before an assignment, or a comparison in the place of that.
fn call_assigned(draft: &mut Draft<'_>, token: usize) -> Drafted {
    let opener = opener_of(draft.spans, token.wrapping_sub(1)).ok_or(Stop::Unfit)?;
    match draft
        .name_at(opener.wrapping_sub(1))
        .and_then(|name| declared_at(draft, &name))
    {
        Ok(declared) if draft.is(declared.wrapping_add(1), &Like::Number) => {
            draft.by_rows(opener, &[BRACKETED])
        }
        _ => compares(draft, token),
    }
}

// A call of `lchar` in the place of an assignment to a call of `char`, whose `=` this token is. Where its value is used
// a comparison is as likely.
fn stored(draft: &mut Draft<'_>, token: usize) -> Drafted {
    let end = draft.on_line(token, Lexeme::Semicolon)?;
    if let Some(opener) = opener_before(draft, token) {
        let head = draft.at(opener.wrapping_sub(1));
        draft.is_choice = !matches!(head, Lexeme::Keyword(Keyword::If | Keyword::While));
        return draft.rename(token, b"==");
    }
    for back in 1..token {
        let callee = token.saturating_sub(back);
        let opener = callee.saturating_add(1);
        if is_word(&draft.at(callee), "char") && after_brackets(draft, opener) == token {
            let last = end.wrapping_sub(1);
            let place = draft.bytes(opener.saturating_add(1), token.saturating_sub(2));
            let value = draft.bytes(token.saturating_add(1), last);
            let (start, end) = (draft.start(callee), draft.end(last));
            return draft.fill(start, end, "lchar(%0, %1)", &[place, value]);
        }
    }
    Ok(())
}

// A declaration of a name as a word of the function. Where another function names it, too, it is rather an external.
// What stands once may be another name mistyped: it is a choice, or none where the function has others.
fn declare_either(draft: &mut Draft<'_>, name: &Name) -> Drafted {
    let is_once = mentions(draft, name) == 1;
    draft.is_choice = draft.is_choice || is_once;
    after_declaration(draft, name)?;
    if is_elsewhere(draft, name) {
        declare(draft, Keyword::Extrn, name)?;
    } else if is_once && has_words(draft) {
        return Ok(());
    }
    declare(draft, Keyword::Auto, name)
}

// Whether a function has a parameter, or a declaration before the token.
fn has_words(draft: &Draft<'_>) -> bool {
    let (auto, extrn) = (
        Lexeme::Keyword(Keyword::Auto),
        Lexeme::Keyword(Keyword::Extrn),
    );
    draft.has(
        draft.site.first,
        draft.site.token,
        &Like::Either(auto, extrn),
    ) || arguments_between(draft, draft.site.first.saturating_add(1)) > 0
}

// Whether another function names a word without calling it, and none has it as a parameter.
fn is_elsewhere(draft: &Draft<'_>, name: &Name) -> bool {
    let Some(brace) = body_of(draft) else {
        return false;
    };
    let end = after_brackets(draft, brace);
    let mut is_found = false;
    for token in 0..draft.spans.end() {
        let is_own = draft.site.first <= token && token < end;
        if is_own || draft.at(token) != Lexeme::Name(*name) {
            continue;
        }
        if is_parameter(draft, token) {
            return false;
        }
        is_found = is_found || draft.at(token.wrapping_add(1)) != Lexeme::OpenParen;
    }
    is_found
}

// Whether a name is between the parentheses of a function that is defined.
fn is_parameter(draft: &Draft<'_>, token: usize) -> bool {
    for back in 1..token {
        let at = token.saturating_sub(back);
        match draft.at(at) {
            Lexeme::Name(_) | Lexeme::Comma => {}
            Lexeme::OpenParen => {
                let before = draft.at(at.wrapping_sub(2));
                let begins = at == 1 || matches!(before, Lexeme::CloseBrace | Lexeme::Semicolon);
                return begins && draft.at(after_brackets(draft, at)) != Lexeme::Semicolon;
            }
            _ => return false,
        }
    }
    false
}

// A comma before a name that stands alone after a declaration.
fn after_declaration(draft: &mut Draft<'_>, name: &Name) -> Drafted {
    for token in draft.site.first..draft.site.token.saturating_add(1) {
        let before = token.wrapping_sub(1);
        let is_alone = draft.at(token) == Lexeme::Name(*name)
            && draft.at(before) == Lexeme::Semicolon
            && draft.is(
                token.wrapping_add(1),
                &Like::Either(Lexeme::Comma, Lexeme::Semicolon),
            )
            && draft.line(before) == draft.line(token);
        if is_alone && draft.at(statement_of(draft, before)) == Lexeme::Keyword(Keyword::Auto) {
            return draft.rename(before, b",");
        }
    }
    Ok(())
}

/// A declaration of a name at the beginning of a function: in the one of its kind that is there, or before all else.
pub(crate) fn declare(draft: &mut Draft<'_>, keyword: Keyword, name: &Name) -> Drafted {
    let brace = body_of(draft).ok_or(Stop::Unfit)?;
    let first = brace.saturating_add(1);
    if draft.at(first) == Lexeme::Keyword(keyword) {
        if let Ok(end) = draft.on_line(first, Lexeme::Semicolon) {
            let place = draft.start(end);
            return draft.fill(place, place, ", %0", &[name.as_bytes()]);
        }
    }
    let word: &[u8] = if keyword == Keyword::Extrn {
        b"extrn"
    } else {
        b"auto"
    };
    let (place, words) = if draft.line(first) != draft.line(brace) {
        (draft.start(first), "%0 %1; ")
    } else {
        (draft.end(brace), " %0 %1;")
    };
    draft.fill(place, place, words, &[word, name.as_bytes()])
}

/// The brace with which the body of the function begins, before the token.
pub(crate) fn body_of(draft: &Draft<'_>) -> Option<usize> {
    draft.find(draft.site.first, draft.site.token, &Is(Lexeme::OpenBrace))
}

/// Where a name stands in an `auto` of the function, before the token.
pub(crate) fn declared_at(draft: &Draft<'_>, name: &Name) -> Result<usize, Stop> {
    declared_by(draft, name, false).ok_or(Stop::Unfit)
}

// The same, of an `extrn`, too, where any will do.
fn declared_by(draft: &Draft<'_>, name: &Name, is_any: bool) -> Option<usize> {
    let mut is_declared = false;
    for token in draft.site.first..draft.site.token {
        let lexeme = draft.at(token);
        if is_declared && lexeme == Lexeme::Name(*name) {
            return Some(token);
        }
        match lexeme {
            Lexeme::Keyword(Keyword::Auto) => is_declared = true,
            Lexeme::Keyword(Keyword::Extrn) => is_declared = is_any,
            Lexeme::Semicolon => is_declared = false,
            _ => {}
        }
    }
    None
}
