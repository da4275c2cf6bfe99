//! Declarations of other languages in the words of this one.
use crate::draft::{Draft, Drafted, Stop, only_if};
use crate::foreign::heading_word;
use crate::kinds::{Like, depth_after, is_ended, is_type_name};
use crate::own_parts::Pushed;
use blang::Keyword;
use blex::Lexeme;
use btools::Text;
use bword::BinOp;

// Whether a token of a declaration is no part of it here: a type, a word that declares, or the star of a pointer.
fn is_left_out(lexeme: &Lexeme) -> bool {
    match lexeme {
        Lexeme::Name(name) => is_type_name(name) || heading_word(name).is_some(),
        Lexeme::Operator(BinOp::Mul) | Lexeme::Keyword(Keyword::Auto | Keyword::Extrn) => true,
        _ => false,
    }
}

/// A declaration in a function, whose values are assigned after it.
pub(crate) fn local(draft: &mut Draft<'_>, first: usize) -> Drafted {
    let end = draft.on_line(first, Lexeme::Semicolon)?;
    if let Some(callee) = called_in(draft, first, end) {
        draft.is_sure = true;
        return draft.after(callee.wrapping_sub(1), b";");
    }
    let mut text = draft.text();
    text.push(b"auto ")?;
    push_names(&mut text, draft, first, end, true)?;
    text.push(b";")?;
    push_values(&mut text, draft, first, end)?;
    draft.put_text(draft.start(first), draft.end(end), text)
}

// The name that is called right after another name or a number of a declaration, between two tokens: it begins a
// statement.
fn called_in(draft: &Draft<'_>, first: usize, end: usize) -> Option<usize> {
    (first.saturating_add(2)..end).find(|token| {
        let before = draft.at(token.wrapping_sub(1));
        is_ended(&before)
            && !is_left_out(&before)
            && draft.is(*token, &Like::Name)
            && draft.at(token.saturating_add(1)) == Lexeme::OpenParen
    })
}

/// A declaration of externals in a function, which has names alone. One with values says more.
pub(crate) fn names_alone(draft: &mut Draft<'_>, first: usize) -> Drafted {
    let end = draft.on_line(first, Lexeme::Semicolon)?;
    if let Some(callee) = called_in(draft, first, end) {
        draft.is_sure = true;
        return draft.after(callee.wrapping_sub(1), b";");
    }
    only_if(!draft.has(first, end, &Like::Constant) && !draft.has(first, end, &Like::Assigns))?;
    let mut text = draft.text();
    text.push(b"extrn ")?;
    push_names(&mut text, draft, first, end, false)?;
    text.push(b";")?;
    draft.put_text(draft.start(first), draft.end(end), text)
}

// The names between two tokens with commas between them, and with their last indices, if they are wanted.
fn push_names(
    text: &mut Text,
    draft: &Draft<'_>,
    first: usize,
    end: usize,
    is_sized: bool,
) -> Pushed {
    let mut is_value = false;
    let mut is_next = false;
    let mut depth: u64 = 0;
    for token in first..end {
        let lexeme = draft.at(token);
        match lexeme {
            Lexeme::Comma if depth == 0 => is_value = false,
            Lexeme::Assign(_) => is_value = true,
            Lexeme::Name(_) if !is_value && !is_left_out(&lexeme) => {
                if is_next {
                    text.push(b", ")?;
                }
                is_next = true;
                text.push(draft.bytes(token, token))?;
            }
            Lexeme::Number(_) if !is_value && is_sized => {
                text.push(b" ")?;
                text.push(draft.bytes(token, token))?;
            }
            _ => depth = depth_after(depth, &lexeme),
        }
    }
    Ok(())
}

// An assignment for each value between two tokens.
fn push_values(text: &mut Text, draft: &Draft<'_>, first: usize, end: usize) -> Pushed {
    let mut name = first;
    let mut from = None;
    let mut depth: u64 = 0;
    for token in first..end.saturating_add(1) {
        let lexeme = draft.at(token);
        match lexeme {
            Lexeme::Assign(_) if from.is_none() => from = Some(token.saturating_add(1)),
            Lexeme::Comma | Lexeme::Semicolon if depth == 0 => {
                if let Some(value) = from {
                    push_value(text, draft, name, value, token.wrapping_sub(1))?;
                }
                from = None;
            }
            Lexeme::Name(_) if from.is_none() && depth == 0 => name = token,
            _ => depth = depth_after(depth, &lexeme),
        }
    }
    Ok(())
}

// An assignment of what stands from one token to another; of a list in brackets or braces, one for each of its values.
fn push_value(
    text: &mut Text,
    draft: &Draft<'_>,
    name: usize,
    first: usize,
    last: usize,
) -> Pushed {
    text.push(b" ")?;
    if let Lexeme::OpenBrace | Lexeme::OpenBracket = draft.at(first) {
        return push_each(text, draft, name, first, last);
    }
    text.push(draft.bytes(name, name))?;
    text.push(b" = ")?;
    text.push(draft.bytes(first, last))?;
    text.push(b";")
}

/// An assignment to a word of a vector for each value of a list, which these two tokens open and close.
pub(crate) fn push_each(
    text: &mut Text,
    draft: &Draft<'_>,
    name: usize,
    opener: usize,
    closer: usize,
) -> Pushed {
    let (mut from, mut count): (usize, u64) = (opener.saturating_add(1), 0);
    for token in from..closer.saturating_add(1) {
        if token != closer && draft.at(token) != Lexeme::Comma {
            continue;
        }
        if count > 0 {
            text.push(b" ")?;
        }
        text.push(draft.bytes(name, name))?;
        text.push(b"[")?;
        text.push_number(count)?;
        text.push(b"] = ")?;
        text.push(draft.bytes(from, token.wrapping_sub(1)))?;
        text.push(b";")?;
        (from, count) = (token.saturating_add(1), count.saturating_add(1));
    }
    Ok(())
}

/// The head of a function without types.
pub(crate) fn head(draft: &mut Draft<'_>, first: usize) -> Drafted {
    let end = draft.on_line(first, Lexeme::CloseParen)?;
    let opener = draft.on_line(first, Lexeme::OpenParen)?;
    let mut text = draft.text();
    text.push(draft.bytes(opener.wrapping_sub(1), opener.wrapping_sub(1)))?;
    text.push(b"(")?;
    push_names(&mut text, draft, opener.saturating_add(1), end, false)?;
    text.push(b")")?;
    draft.put_text(draft.start(first), draft.end(end), text)
}

/// An external with its values, without types and signs.
pub(crate) fn definition(draft: &mut Draft<'_>, first: usize) -> Drafted {
    let end = draft.on_line(first, Lexeme::Semicolon)?;
    let mut text = draft.text();
    let mut is_value = false;
    for token in first..end {
        let lexeme = draft.at(token);
        match lexeme {
            Lexeme::OpenParen => return Err(Stop::Unfit),
            Lexeme::Assign(_) | Lexeme::OpenBrace | Lexeme::CloseBrace => is_value = true,
            Lexeme::Comma if is_value => text.push(b",")?,
            Lexeme::Comma => text.push(b"; ")?,
            Lexeme::Operator(BinOp::Sub) => {}
            _ if is_left_out(&lexeme) => {}
            _ => push_external(&mut text, draft, token, is_value)?,
        }
    }
    text.push(b";")?;
    draft.put_text(draft.start(first), draft.end(end), text)
}

// One token of an external. A value has a blank before it, and a number after a sign is that of the same word.
fn push_external(text: &mut Text, draft: &Draft<'_>, token: usize, is_value: bool) -> Pushed {
    let before = draft.at(token.wrapping_sub(1));
    if is_value || before == Lexeme::CloseBracket || before == Lexeme::Operator(BinOp::Sub) {
        text.push(b" ")?;
    }
    match (draft.at(token), before) {
        (Lexeme::Number(number), Lexeme::Operator(BinOp::Sub)) => {
            text.push_number(u64::from(number.wrapping_neg()))
        }
        _ => text.push(draft.bytes(token, token)),
    }
}
