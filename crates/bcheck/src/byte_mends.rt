//! Edits for bytes that begin no token, and for wrong constants.
use crate::bytes::{Byte, Constant};
use crate::draft::{Draft, Drafted, Stop, only_if};
use crate::kinds::Like;
use crate::own_parts::line_start;
use blex::{Lexeme, escape};

/// How many bytes of values are looked at, at most, after a string whose quote is missing.
const LONGEST_VALUES: usize = 255;

/// How many characters a word has on other machines, at most.
const WORD_LETTERS: usize = 4;

/// What may stand in the place of a byte that begins no token.
pub(crate) fn character(draft: &mut Draft<'_>, byte: Byte, start: usize) -> Drafted {
    match byte {
        Byte::CarriageReturn => draft.put(start, start.saturating_add(1), b""),
        Byte::ByteOrderMark => draft.put(start, start.saturating_add(3), b""),
        Byte::NoBreakSpace => draft.put(start, start.saturating_add(2), b" "),
        Byte::FormFeed => draft.put(start, start.saturating_add(1), b" "),
        Byte::Dash => draft.put(start, start.saturating_add(3), b"-"),
        Byte::CurlyQuote => straight_quotes(draft, start),
        Byte::HashRemark => remark(draft, start, 1),
        Byte::Hash => definition(draft, start),
        Byte::Backslash | Byte::Other if !has_quote(draft.source, start) => {
            draft.put(start, start.saturating_add(1), b"")
        }
        _ => Ok(()),
    }
}

// Whether a quote stands on the line of a place, and more comes after the place: that may be read wrongly.
fn has_quote(source: &[u8], place: usize) -> bool {
    let end = line_end(source, place);
    let rest = source.get(place.saturating_add(1)..end).unwrap_or(&[]);
    for back in 0..end {
        match source.get(end.saturating_sub(back).saturating_sub(1)) {
            Some(b'\n') => return false,
            Some(b'"' | b'\'') => return !rest.trim_ascii().is_empty(),
            _ => {}
        }
    }
    false
}

/// Where a line ends that goes on at this place.
pub(crate) fn line_end(source: &[u8], start: usize) -> usize {
    let end = (start..source.len()).find(|at| matches!(source.get(*at), Some(b'\n' | b'\r')));
    end.unwrap_or(source.len())
}

/// A remark to the end of its line, which begins with so many bytes.
pub(crate) fn remark(draft: &mut Draft<'_>, start: usize, count: usize) -> Drafted {
    let end = line_end(draft.source, start);
    let words = draft.slice(start.saturating_add(count), end).trim_ascii();
    draft.fill(start, end, "/* %0 */", &[words])
}

// Plain quotes in the place of all curly ones of the rest of a line.
fn straight_quotes(draft: &mut Draft<'_>, start: usize) -> Drafted {
    let end = line_end(draft.source, start);
    let mut text = draft.text();
    let mut next = start;
    for index in start..end {
        if index < next {
            continue;
        }
        let rest = draft.slice(index, end);
        let (plain, count) = straight(rest);
        text.push(plain)?;
        next = index.saturating_add(count);
    }
    draft.put_text(start, end, text)
}

// A plain quote for a curly one at the beginning of a text, or its first byte; and how many bytes that stands for.
fn straight(text: &[u8]) -> (&[u8], usize) {
    match (text.get(0), text.get(1), text.get(2)) {
        (Some(0xE2), Some(0x80), Some(0x98..=0x9B)) => (b"'", 3),
        (Some(0xE2), Some(0x80), Some(0x9C..=0x9F)) => (b"\"", 3),
        _ => (text.get(..1).unwrap_or(&[]), 1),
    }
}

// A name with a number, in the place of a `#define` of both; nothing in the place of another line of this kind.
fn definition(draft: &mut Draft<'_>, start: usize) -> Drafted {
    let end = line_end(draft.source, start);
    let line = draft.slice(start, end);
    match line.strip_prefix(b"#define") {
        Some(words) => draft.fill(start, end, "%0;", &[words.trim_ascii()]),
        None => draft.put(start, end, b""),
    }
}

/// What may stand in the place of a wrong constant, which begins with this token.
pub(crate) fn constant(draft: &mut Draft<'_>, constant: Constant, token: usize) -> Drafted {
    let start = draft.start(token);
    let line = draft.slice(start, line_end(draft.source, start));
    if line.starts_with(b"'*'") {
        draft.put(start, start.saturating_add(3), b"'**'")?;
    }
    match constant {
        Constant::Octal => digits(draft, line, start),
        Constant::Characters => as_string(draft, line, token),
        Constant::Unclosed => closed(draft, line, start),
        Constant::Escape => doubled(draft, line, start),
        _ => Ok(()),
    }
}

/// `*/` in the place of a `*n/` of a comment without an end, which begins at a place.
pub(crate) fn comment(draft: &mut Draft<'_>, start: usize) -> Drafted {
    let place = newline_end(draft.source, start).ok_or(Stop::Unfit)?;
    draft.put(place, place.saturating_add(3), b"*/")
}

/// Where a `*n/` stands, from a place on.
pub(crate) fn newline_end(source: &[u8], start: usize) -> Option<usize> {
    (start..source.len()).find(|at| source.get(*at..).unwrap_or(&[]).starts_with(b"*n/"))
}

// A number without the zeros before it.
fn digits(draft: &mut Draft<'_>, line: &[u8], start: usize) -> Drafted {
    let zeros = line.iter().position(|byte| *byte != b'0');
    draft.put(
        start,
        start.saturating_add(zeros.unwrap_or(line.len())),
        b"",
    )
}

// A string in the place of a constant of many characters. Up to four that are no argument may be meant as a word, and
// where an odd number of quotes is left on the line, this isn't the one that closes it.
fn as_string(draft: &mut Draft<'_>, line: &[u8], token: usize) -> Drafted {
    let start = draft.start(token);
    let words = line.get(1..).unwrap_or(&[]);
    let opening = Like::Either(Lexeme::OpenParen, Lexeme::Comma);
    let is_argument = draft.is(token.wrapping_sub(1), &opening);
    let closer = words.iter().position(|byte| *byte == b'\'');
    let index = closer.ok_or(Stop::Unfit)?;
    let inner = words.get(..index).unwrap_or(&[]);
    let rest = words.get(index.saturating_add(1)..).unwrap_or(&[]);
    let quotes = rest.iter().filter(|byte| **byte == b'\'').count();
    only_if((is_argument || inner.len() > WORD_LETTERS) && quotes % 2 == 0)?;
    let end = start.saturating_add(index).saturating_add(2);
    draft.fill(start, end, "\"%0\"", &[inner])
}

// A quote before what ends a line, as `);` does, or before a comma after which values come: as many as the form before
// it asks for, where `printf` gets it. Where a `;` stands before it, it is a choice. So it is where a single star may be
// meant as two, which comes first.
fn closed(draft: &mut Draft<'_>, line: &[u8], start: usize) -> Drafted {
    let star = single_star(draft.source, start);
    if let Some(place) = star {
        draft.is_choice = true;
        draft.put(place, place, b"*")?;
    }
    let is_string = line.starts_with(b"\"");
    let quote: &[u8] = if is_string { b"\"" } else { b"'" };
    let end = closing_place(line, open_at(draft.source, start));
    let before = draft.source.get(..start).unwrap_or(&[]);
    let is_form = is_string && before.ends_with(b"printf(");
    let (mut values, mut depth): (usize, usize) = (0, 0);
    draft.is_choice = star.is_some() || line.get(..end).unwrap_or(&[]).contains(&b';');
    for back in 0..end.min(LONGEST_VALUES) {
        let place = end.saturating_sub(back);
        match line.get(place) {
            Some(b')' | b']') if back > 0 => depth = depth.saturating_add(1),
            Some(b'(' | b'[') if depth == 0 => break,
            Some(b'(' | b'[') => depth = depth.saturating_sub(1),
            Some(b',') if depth == 0 && back > 0 => values = values.saturating_add(1),
            _ if back > 0 => continue,
            _ => {}
        }
        let is_place = back == 0 || depth == 0 && line.get(place) == Some(&b',');
        if is_place && (!is_form || items_in(line.get(..place).unwrap_or(&[])) == values) {
            let at = start.saturating_add(place.max(1));
            draft.put(at, at, quote)?;
        }
    }
    Ok(())
}

// Where a quote stands on the line of a place that a single star before it makes a character, though what comes after a
// string comes after it, as in `"*");`.
fn single_star(source: &[u8], place: usize) -> Option<usize> {
    let mut opener = None;
    let mut is_escaped = false;
    for at in line_start(source, place)..line_end(source, place) {
        let byte = source.get(at).copied();
        let next = source.get(at.saturating_add(1));
        match byte {
            Some(b'"' | b'\'') if opener.is_none() => opener = byte,
            _ if opener.is_none() || byte != opener => {}
            _ if !is_escaped => opener = None,
            _ if matches!(next, Some(b')' | b']' | b',' | b';')) => return Some(at),
            _ => {}
        }
        is_escaped = !is_escaped && opener.is_some() && byte == Some(b'*');
    }
    None
}

// Where what ends a line begins, as `);` does, with as many parentheses as are open before. Blanks before it are not
// part of it.
fn closing_place(line: &[u8], open: usize) -> usize {
    let whole = line.trim_ascii();
    let mut last = whole.len();
    let mut left = open.max(1);
    for index in 0..whole.len() {
        let at = whole.len().saturating_sub(index).saturating_sub(1);
        match whole.get(at) {
            Some(b';' | b'}') => last = at,
            Some(b':') if whole.starts_with(b"'") => last = at,
            Some(b')') if left > 0 => {
                last = at;
                left = left.saturating_sub(1);
            }
            Some(b' ') => {}
            _ => break,
        }
    }
    last
}

// How many parentheses are open on the line of a place, before it.
fn open_at(source: &[u8], place: usize) -> usize {
    let (mut open, mut depth): (usize, usize) = (0, 0);
    for back in 0..place {
        match source.get(place.saturating_sub(back).saturating_sub(1)) {
            Some(b'\n') => break,
            Some(b')') => depth = depth.saturating_add(1),
            Some(b'(') if depth > 0 => depth = depth.saturating_sub(1),
            Some(b'(') => open = open.saturating_add(1),
            _ => {}
        }
    }
    open
}

/// How many values a form asks for.
pub(crate) fn items_in(form: &[u8]) -> usize {
    let mut count: usize = 0;
    let mut is_begun = false;
    for byte in form {
        is_begun = match *byte {
            b'%' => !is_begun,
            b'-' | b'0'..=b'9' => is_begun,
            b'd' | b'o' | b'c' | b's' | b'u' | b'x' if is_begun => {
                count = count.saturating_add(1);
                false
            }
            _ => false,
        };
    }
    count
}

// Two stars in the place of the first one that begins no escape.
fn doubled(draft: &mut Draft<'_>, line: &[u8], start: usize) -> Drafted {
    let mut is_escaped = false;
    for index in 1..line.len() {
        let byte = line.get(index).copied().unwrap_or(b'n');
        if is_escaped && escape(byte).is_none() {
            let place = start.saturating_add(index);
            return draft.put(place, place, b"*");
        }
        is_escaped = !is_escaped && byte == b'*';
    }
    Ok(())
}

/// The escapes of another language in a constant or a string, as they are here.
pub(crate) fn escapes(draft: &mut Draft<'_>, token: usize) -> Drafted {
    let mut text = draft.text();
    let mut is_escaped = false;
    for byte in draft.bytes(token, token) {
        match *byte {
            b'\\' if !is_escaped => {}
            other if is_escaped && other != b'\\' => {
                text.push(b"*")?;
                text.push(&[other])?;
            }
            other => text.push(&[other])?,
        }
        is_escaped = *byte == b'\\' && !is_escaped;
    }
    draft.put_text(draft.start(token), draft.end(token), text)
}
