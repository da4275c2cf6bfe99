//! Fixes that are put together of what stands in the source.
use crate::advice::Matter;
use crate::byte_mends::newline_end;
use crate::finding::{Finding, Place, SecondPlace};
use crate::kinds::is_type_name;
use crate::syntax::Syntax;
use blint::Warning;
use btools::Text;
use bword::Name;
use std::alloc::{AllocError, Global};

/// Nothing, or that memory ran out.
pub(crate) type Pushed = Result<(), AllocError>;

/// Words, in which `%` and a digit stand for one of the parts after them.
#[derive(Clone, Copy)]
struct Fix<'a>(&'static str, &'a [u8], &'a [u8], &'a [u8]);

/// The fix of a finding, if it is put together of what stands there: a loop of the parts of its header, the line after
/// which a brace is missing, or the first value of a product.
pub(crate) fn own_fix(
    alloc: Global,
    source: &[u8],
    finding: &Finding,
    file: &str,
    second: &Option<SecondPlace<'_>>,
) -> Result<Option<Text>, AllocError> {
    let start = finding.place.start;
    let rest = source.get(start..).unwrap_or(&[]);
    let fix = match (finding.matter, &finding.related, second) {
        (Matter::OpenComment, _, _) => comment_end(source, start),
        (Matter::Syntax(Syntax::For), _, _) => return loop_of_header(alloc, rest),
        (Matter::Syntax(Syntax::ForEach), _, _) => loop_of_range(rest),
        (Matter::Warning(Warning::Unset), _, _) => product(rest, finding.place.len),
        (Matter::Warning(Warning::QuotientCut), _, _) => return quotient(alloc, source, start),
        (Matter::Warning(Warning::ResultDropped), _, _) => kept(rest),
        (Matter::Warning(Warning::StoredBack), _, _) => swapped(rest),
        (Matter::Syntax(Syntax::BraceOpen | Syntax::FunctionInside), Some(brace), Some(second)) => {
            return after_line(alloc, source, brace, file, second);
        }
        _ => None,
    };
    let Some(Fix(words, first, second, third)) = fix else {
        return Ok(None);
    };
    let mut text = Text::new(alloc);
    push_filled(&mut text, words, &[first, second, third], b"")?;
    Ok(Some(text))
}

/// Adds words, in which `%` and a digit stand for a part, and `%*` for the whole.
pub(crate) fn push_filled(text: &mut Text, words: &str, parts: &[&[u8]], whole: &[u8]) -> Pushed {
    let mut is_part = false;
    for byte in words.as_bytes() {
        if is_part {
            let index = usize::from(byte.wrapping_sub(b'0'));
            text.push(parts.get(index).copied().unwrap_or(whole))?;
        } else if *byte != b'%' {
            text.push(&[*byte])?;
        }
        is_part = *byte == b'%';
    }
    Ok(())
}

// What is no end of a comment.
fn comment_end(source: &[u8], start: usize) -> Option<Fix<'_>> {
    let _end = newline_end(source, start)?;
    Some(Fix("*n/ is no end of it: write */ there", b"", b"", b""))
}

// What a product begins with, where a name of so many bytes is multiplied.
fn product(rest: &[u8], len: usize) -> Option<Fix<'_>> {
    let next = rest.get(len..).unwrap_or(&[]).trim_ascii_start();
    if next.get(0) != Some(&b'*') && next.get(..2) != Some(b"=*") {
        return None;
    }
    let name = up_to(rest, len);
    Some(Fix("set it first: %0 = 1; for a product", name, b"", b""))
}

// What a quotient of two numbers is, whose sign is at this place.
fn quotient(alloc: Global, source: &[u8], sign: usize) -> Result<Option<Text>, AllocError> {
    let line = source.get(line_start(source, sign)..sign).unwrap_or(&[]);
    let dividend = digits_at_end(line.trim_ascii());
    let divisor = digits(after(source, sign));
    let (Some(one), Some(other)) = (value_of(dividend), value_of(divisor)) else {
        return Ok(None);
    };
    if other == 0 {
        return Ok(None);
    }
    let mut text = Text::new(alloc);
    let parts = [dividend, divisor];
    push_filled(&mut text, "%0 / %1 is ", &parts, b"")?;
    text.push_number(one / other)?;
    push_filled(&mut text, ", so multiply first: %0 * x / %1", &parts, b"")?;
    Ok(Some(text))
}

// The value of a decimal number.
fn value_of(digits: &[u8]) -> Option<u64> {
    if digits.first() == Some(&b'0') || digits.is_empty() {
        return None;
    }
    let mut value: u64 = 0;
    for digit in digits {
        let number = u64::from(digit.saturating_sub(b'0'));
        value = value.checked_mul(10)?.checked_add(number)?;
    }
    Some(value)
}

// The digits with which bytes begin, and those with which they end.
fn digits(bytes: &[u8]) -> &[u8] {
    match bytes.iter().position(|byte| !byte.is_ascii_digit()) {
        Some(end) => bytes.get(..end).unwrap_or(&[]),
        None => bytes,
    }
}

fn digits_at_end(bytes: &[u8]) -> &[u8] {
    match bytes.iter().rev().position(|byte| !byte.is_ascii_digit()) {
        Some(count) => bytes
            .get(bytes.len().saturating_sub(count)..)
            .unwrap_or(&[]),
        None => bytes,
    }
}

// An assignment of what a call gives, to the name that is its first argument.
fn kept(rest: &[u8]) -> Option<Fix<'_>> {
    let opener = rest.iter().position(|byte| *byte == b'(')?;
    let arguments = in_parentheses(rest)?;
    let end = place_of(arguments, b',').unwrap_or(arguments.len());
    let (first, callee) = (up_to(arguments, end), up_to(rest, opener));
    let _name = Name::from_bytes(first)?;
    Some(Fix("%0 = %1(%2); keeps it", first, callee, arguments))
}

// How two characters of a string are swapped, of which the second one is stored by this call.
fn swapped(rest: &[u8]) -> Option<Fix<'_>> {
    if rest.get(..5) != Some(b"lchar") {
        return None;
    }
    let arguments = in_parentheses(rest)?;
    let first = place_of(arguments, b',')?;
    let others = after(arguments, first);
    let second = place_of(others, b',')?;
    let string = up_to(arguments, first);
    let (place, value) = (up_to(others, second), after(others, second));
    Some(Fix(
        "c = %0; before both, and here lchar(%1, %2, c);",
        value,
        string,
        place,
    ))
}

// What stands in the parentheses after a word, up to the end of the line, if no quote is there.
fn in_parentheses(rest: &[u8]) -> Option<&[u8]> {
    let mut depth: u64 = 0;
    let mut first = None;
    for index in 0..rest.len() {
        match rest.get(index) {
            Some(b'(') => {
                depth = depth.saturating_add(1);
                first = first.or(Some(index.saturating_add(1)));
            }
            Some(b')') => {
                depth = depth.saturating_sub(1);
                if depth == 0 {
                    return rest.get(first?..index);
                }
            }
            Some(b'\n' | b'"' | b'\'') | None => return None,
            _ => {}
        }
    }
    None
}

// The place of a byte among others that isn't in parentheses or brackets.
fn place_of(bytes: &[u8], wanted: u8) -> Option<usize> {
    let mut depth: u64 = 0;
    for index in 0..bytes.len() {
        match bytes.get(index) {
            Some(b'(' | b'[') => depth = depth.saturating_add(1),
            Some(b')' | b']') => depth = depth.saturating_sub(1),
            Some(byte) if *byte == wanted && depth == 0 => return Some(index),
            _ => {}
        }
    }
    None
}

fn up_to(bytes: &[u8], end: usize) -> &[u8] {
    bytes.get(..end).unwrap_or(bytes).trim_ascii()
}

fn after(bytes: &[u8], place: usize) -> &[u8] {
    bytes
        .get(place.saturating_add(1)..)
        .unwrap_or(&[])
        .trim_ascii()
}

fn parts_of_header(rest: &[u8]) -> Option<(&[u8], &[u8], &[u8])> {
    let header = in_parentheses(rest)?;
    let is_plain = place_of(header, b';').is_some();
    let mark = if is_plain { b';' } else { b',' };
    let first = place_of(header, mark)?;
    let others = after(header, first);
    let second = place_of(others, mark)?;
    let begin = untyped(up_to(header, first));
    let (condition, step) = (up_to(others, second), after(others, second));
    Some((begin, condition, step))
}

// A loop of the three parts of the header of a `for`: it begins with a statement, goes on as long as a condition holds,
// and ends each turn with a step.
fn loop_of_header(alloc: Global, rest: &[u8]) -> Result<Option<Text>, AllocError> {
    let Some((begin, condition, step)) = parts_of_header(rest) else {
        return Ok(None);
    };
    let mut text = Text::new(alloc);
    if !begin.is_empty() {
        push_statements(&mut text, begin)?;
        text.push(b"; ")?;
    }
    text.push(b"while(")?;
    text.push(if condition.is_empty() {
        b"1"
    } else {
        condition
    })?;
    text.push(b") { .. ")?;
    if !step.is_empty() {
        push_statements(&mut text, step)?;
        text.push(b"; ")?;
    }
    text.push(b"}")?;
    Ok(Some(text))
}

// Statements that stand with commas between them, with the `=` of an assignment before its operator.
fn push_statements(text: &mut Text, statements: &[u8]) -> Pushed {
    let mut rest = statements;
    for _ in 0..statements.len() {
        let Some(comma) = place_of(rest, b',') else {
            return push_statement(text, rest);
        };
        push_statement(text, up_to(rest, comma))?;
        text.push(b"; ")?;
        rest = after(rest, comma);
    }
    Ok(())
}

fn push_statement(text: &mut Text, statement: &[u8]) -> Pushed {
    let mut is_turned = false;
    for index in 0..statement.len() {
        let byte = statement.get(index).copied().unwrap_or(b' ');
        let is_before = statement.get(index.saturating_add(1)) == Some(&b'=')
            && matches!(byte, b'+' | b'-' | b'*' | b'/' | b'%');
        if is_before {
            text.push(b"=")?;
            text.push(&[byte])?;
        } else if !is_turned {
            text.push(&[byte])?;
        }
        is_turned = is_before;
    }
    Ok(())
}

// An assignment without a type before its name.
fn untyped(begin: &[u8]) -> &[u8] {
    let Some(blank) = place_of(begin, b' ') else {
        return begin;
    };
    match Name::from_bytes(up_to(begin, blank)) {
        Some(name) if is_type_name(&name) => after(begin, blank),
        Some(name) if matches!(name.as_str(), "var" | "let" | "auto") => after(begin, blank),
        _ => begin,
    }
}

// A loop that counts, of `for i in range(a, b)`.
fn loop_of_range(rest: &[u8]) -> Option<Fix<'_>> {
    let range = in_parentheses(rest)?;
    let head = after(rest, 2);
    let blank = place_of(head, b' ')?;
    let called = after(head, blank);
    if called.get(..8) != Some(b"in range") || range.is_empty() {
        return None;
    }
    let (first, last) = match place_of(range, b',') {
        Some(comma) => (up_to(range, comma), after(range, comma)),
        None => (&b"0"[..], range),
    };
    if place_of(last, b',').is_some() {
        return None;
    }
    let (name, limit) = (up_to(head, blank), last.trim_ascii());
    Some(Fix("%0 = %1; while(%0 < %2) { .. %0++; }", name, first, limit))
}

// The line after which the `}` of a brace is missing, and its file, if it is another one.
fn after_line(
    alloc: Global,
    source: &[u8],
    brace: &Place,
    file: &str,
    second: &SecondPlace<'_>,
) -> Result<Option<Text>, AllocError> {
    let Some((count, _)) = body_end(source, brace.start) else {
        return Ok(None);
    };
    let mut text = Text::new(alloc);
    text.push(b"write the } that is missing after line ")?;
    text.push_number(second.at.line.saturating_add(count))?;
    if second.at.file != file {
        text.push(b" of ")?;
        text.push(second.at.file.as_bytes())?;
    }
    Ok(Some(text))
}

/// How many lines after that of an open brace the last one comes that stands farther in than it, up to the first that
/// doesn't, and where it ends; nothing, where the lines don't show it, as of the brace of a function.
pub(crate) fn body_end(source: &[u8], brace: usize) -> Option<(u64, usize)> {
    let own = blanks_at(source, line_start(source, brace));
    if own == 0 {
        return None;
    }
    let mut count: u64 = 0;
    let mut found = None;
    let mut start = next_line(source, brace);
    for _ in brace..source.len() {
        if start >= source.len() {
            break;
        }
        count = count.saturating_add(1);
        let next = next_line(source, start);
        let line = source.get(start..next).unwrap_or(&[]);
        if !is_loose(line) {
            if blanks_at(source, start) <= own {
                return found;
            }
            found = Some((count, start.saturating_add(line.trim_ascii_end().len())));
        }
        start = next;
    }
    None
}

// Whether a line is blank, a comment or a label, which stand anywhere.
fn is_loose(line: &[u8]) -> bool {
    let words = line.trim_ascii();
    words.is_empty() || words.get(..2) == Some(b"/*") || words.last() == Some(&b':')
}

/// Where the line of a place begins.
pub(crate) fn line_start(source: &[u8], place: usize) -> usize {
    for back in 0..place {
        let at = place.saturating_sub(back);
        if source.get(at.saturating_sub(1)) == Some(&b'\n') {
            return at;
        }
    }
    0
}

fn next_line(source: &[u8], place: usize) -> usize {
    for at in place..source.len() {
        if source.get(at) == Some(&b'\n') {
            return at.saturating_add(1);
        }
    }
    source.len()
}

/// How far in the line of a place stands.
pub(crate) fn indent_at(source: &[u8], place: usize) -> usize {
    blanks_at(source, line_start(source, place))
}

// How far in the line that begins here stands, where a tab goes on to the next eighth column.
fn blanks_at(source: &[u8], start: usize) -> usize {
    let mut width: usize = 0;
    for at in start..source.len() {
        match source.get(at) {
            Some(b' ') => width = width.saturating_add(1),
            Some(b'\t') => width = (width / 8).saturating_add(1).saturating_mul(8),
            _ => return width,
        }
    }
    width
}
