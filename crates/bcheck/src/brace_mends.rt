//! A `{` or a `}` that is missing, where the layout of the lines shows its place.
use crate::around::opener_of;
use crate::draft::{Draft, Stop};
use crate::kinds::Like;
use crate::name_mends::body_of;
use crate::near::near_keyword;
use crate::own_parts::indent_at;
use crate::syntax_mends::{after_brackets, statement_of};
use crate::warning_mends::is_function;
use blang::Keyword;
use blex::Lexeme;

/// How many letters an `if` has that is mistyped, at most.
const LONGEST_IF: usize = 3;

/// A `{` after the head of the function before, or after a heading in it, whose lines stand farther in and end with a
/// `}`. Whether there is such a place.
pub(crate) fn brace_by_lines(draft: &mut Draft<'_>) -> Result<bool, Stop> {
    let site = draft.site;
    if site.before == site.first {
        return Ok(false);
    }
    let place = if is_loose(draft) {
        Some(head_end(draft))
    } else {
        heading_end(draft)
    };
    if let Some(closer) = place {
        draft.after(closer, b" {")?;
    }
    Ok(place.is_some())
}

/// How far in the line of a token stands.
pub(crate) fn indent_of(draft: &Draft<'_>, token: usize) -> usize {
    indent_at(draft.source, draft.start(token))
}

/// Whether a statement that no function has around it stands at the beginning of a line, where those of the function
/// stand farther in.
pub(crate) fn is_outdented(draft: &Draft<'_>, token: usize) -> bool {
    let first = statement_of(draft, token);
    let begins = begins_line(draft, first) && indent_of(draft, first) == 0;
    let is_plain = first.wrapping_add(1) == token;
    begins && is_plain && first > draft.site.first && indent_of(draft, first.wrapping_sub(1)) > 0
}

/// Whether the statement of a token begins a line that isn't indented, as definitions do, where others of its function
/// are. A label may stand so.
pub(crate) fn may_define(draft: &Draft<'_>, token: usize) -> bool {
    let first = statement_of(draft, token);
    let Some(brace) = body_of(draft) else {
        return false;
    };
    begins_line(draft, first)
        && indent_of(draft, first) == 0
        && draft.is(first, &Like::Name)
        && draft.at(first.saturating_add(1)) != Lexeme::Colon
        && (brace.saturating_add(1)..first).any(|at| begins_line(draft, at)
            && indent_of(draft, at) > 0)
}

/// Whether what ends before a token may be a heading: a brace comes after it, or a line that stands farther in, or it
/// calls what nothing defines, which may be a keyword mistyped.
pub(crate) fn is_heading(draft: &Draft<'_>, token: usize) -> bool {
    let closer = token.wrapping_sub(1);
    if draft.at(closer) != Lexeme::CloseParen {
        return false;
    }
    let Some(opener) = opener_of(draft.spans, closer) else {
        return false;
    };
    let name = opener.wrapping_sub(1);
    let before = draft.at(name.wrapping_sub(1));
    let begins = statement_of(draft, token) == name || before == Lexeme::Keyword(Keyword::Else);
    let follows = begins || matches!(before, Lexeme::CloseParen | Lexeme::Colon);
    let is_inner = begins_line(draft, token) && indent_of(draft, token) > indent_of(draft, name);
    draft.at(token) == Lexeme::OpenBrace
        || begins && is_inner
        || follows && may_be_keyword(draft, name, token)
}

// Whether a name may be a keyword mistyped: nothing defines what it calls up to a token, and it is spelt almost so, the
// call compares, or it is as short as `if`, with the token on its line.
fn may_be_keyword(draft: &Draft<'_>, callee: usize, token: usize) -> bool {
    let Lexeme::Name(name) = draft.at(callee) else {
        return false;
    };
    let ends = matches!(draft.at(token), Lexeme::CloseBrace | Lexeme::End);
    let is_short = name.as_bytes().len() <= LONGEST_IF && !begins_line(draft, token);
    let is_like = near_keyword(&name).is_some() || draft.has(callee, token, &Like::Comparison);
    !ends && (is_like || is_short) && !is_function(draft, callee)
}

// The `)` of the head of the function before.
fn head_end(draft: &Draft<'_>) -> usize {
    after_brackets(draft, draft.site.before.saturating_add(1)).wrapping_sub(1)
}

// Whether the function before has no `{`, and a statement on a line after its head, farther in, as what comes after it
// does, or a `}`.
fn is_loose(draft: &Draft<'_>) -> bool {
    let site = draft.site;
    if draft.at(site.before.saturating_add(1)) != Lexeme::OpenParen {
        return false;
    }
    let closer = head_end(draft);
    let body = closer.wrapping_add(1);
    let own = indent_of(draft, site.before);
    let goes_on = draft.at(site.first) == Lexeme::CloseBrace || indent_of(draft, site.first) > own;
    draft.at(body) != Lexeme::OpenBrace
        && begins_line(draft, body)
        && begins_line(draft, site.first)
        && indent_of(draft, body) > own
        && goes_on
}

// The last token of the one heading of the function before whose lines show that its `{` is missing.
fn heading_end(draft: &Draft<'_>) -> Option<usize> {
    let mut found = None;
    for token in draft.site.before..draft.site.first {
        let closer = match draft.at(token) {
            Lexeme::Keyword(Keyword::If | Keyword::While) => {
                after_brackets(draft, token.saturating_add(1)).wrapping_sub(1)
            }
            Lexeme::Keyword(Keyword::Else) => token,
            _ => continue,
        };
        if lacks_brace(draft, token, closer) {
            if found.is_some() {
                return None;
            }
            found = Some(closer);
        }
    }
    found
}

// Whether the lines after a heading stand farther in than it, up to a `}` below it.
fn lacks_brace(draft: &Draft<'_>, heading: usize, closer: usize) -> bool {
    let first = closer.saturating_add(1);
    let own = indent_of(draft, heading);
    if draft.at(first) == Lexeme::OpenBrace || !begins_line(draft, first) {
        return false;
    }
    let below = (first..draft.site.first.saturating_add(1)).find(|token| begins_line(draft, *token)
        && indent_of(draft, *token) <= own);
    match below {
        Some(token) => {
            token > first && indent_of(draft, token) == own && draft.at(token) == Lexeme::CloseBrace
        }
        None => false,
    }
}

// Whether a token is the first one of its line.
fn begins_line(draft: &Draft<'_>, token: usize) -> bool {
    token == 0 || draft.line(token.wrapping_sub(1)) != draft.line(token)
}
