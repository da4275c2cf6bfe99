//! Whether the first fault of a source comes later with an edit, though on the same line.
ghost use Rattle.std.specs.Prelude.{◌≡◌, IfOk, IfSome, IsTrue, List, ℕ};
ghost use Rattle.bcheck.specs.Checks.{GoesFarther, tokens_in, with_newline};
ghost use Rattle.bcheck.specs.Findings.{IsSameWrong, IsStopOf, StopsApart, StopsOn};

use crate::finding::Finding;
use crate::places::{line_after, parts};
use crate::spans::{SourceText, SpanReader};
use crate::verdict::{Judgement, Verdict, judge};
use blang::{About, Letters};
use blex::{Lexeme, Scanner};
use btools::Text;
use bword::Edition;
use std::alloc::{AllocError, Global};

/// Whether the first fault of a text comes later than that of a source with which it shares what is after a place: a
/// newline put there, within no token, is between both.
pub(crate) fn goes_farther(
    alloc: Global,
    source: SourceText<'_>,
    new: &[u8],
    place: usize,
) -> Result<bool, AllocError>
    ensures { IfOk result (λ is. IsTrue is → GoesFarther source.entry.edition new.now source.entry.text.now) }
{
    let edition = source.edition;
    let (before, rest) = parts(source.text, place);
    let (changed, end) = parts(new, new.len().saturating_sub(rest.len()));
    if !is_equal(end, rest) {
        return Ok(false);
    }
    let found = fault_line(alloc, source, before, rest)?;
    let Some(old_line) = found else {
        return Ok(false);
    };
    let text = SourceText { text: new, edition };
    let found = fault_line(alloc, text, changed, rest)?;
    let Some(new_line) = found else {
        return Ok(false);
    };
    let is_by = old_line <= line_after(before);
    let is_past = line_after(changed) < new_line;
    Ok(is_by && is_past)
}

fn is_equal(one: &[u8], other: &[u8]) -> bool
    ensures { IsTrue result → one.now ≡ other.now }
{
    one == other
}

// The line of the first fault of a source in two parts with a newline between them, if it has one, and its tokens are
// those of the source.
fn fault_line(
    alloc: Global,
    source: SourceText<'_>,
    before: &[u8],
    rest: &[u8],
) -> Result<Option<u64>, AllocError>
    ensures { IfOk result (λ line. IfSome line
        (StopsApart source.entry.edition source.entry.text.now before.now rest.now)) }
{
    let text = with_newline(alloc, before, rest)?;
    let parted = SourceText {
        text: text.as_slice(),
        edition: source.edition,
    };
    if !has_same_tokens(source.edition, parted.text, source.text) {
        return Ok(None);
    }
    let judgement = judge(alloc, parted)?;
    Ok(line_in(&judgement.verdict))
}

// Whether the comments and tokens of two sources are the same, each to the byte, up to a wrong one of the same kind.
fn has_same_tokens(edition: Edition, one: &[u8], other: &[u8]) -> bool
    ensures { IsTrue result → tokens_in edition one.now ≡ tokens_in edition other.now }
{
    let mut scanner = Scanner::new(one, edition);
    let mut others = Scanner::new(other, edition);
    loop {
        let piece = scanner.next();
        let found = others.next();
        if is_same_wrong(piece.lexeme, found.lexeme) {
            return true;
        }
        let text = &one[piece.first..piece.end];
        if text != &other[found.first..found.end] {
            return false;
        }
        if text.is_empty() {
            return true;
        }
    }
}

fn with_newline(alloc: Global, before: &[u8], rest: &[u8]) -> Result<Text, AllocError>
    ensures { IfOk result (λ text. text ≡ with_newline before.now rest.now) }
{
    let mut text = Text::new(alloc);
    text.push(before)?;
    text.push(b"\n")?;
    text.push(rest)?;
    Ok(text)
}

// Whether both are wrong in the same way.
fn is_same_wrong(one: Option<Lexeme>, other: Option<Lexeme>) -> bool
    ensures { IsTrue result → IsSameWrong one other }
{
    match (one, other) {
        (Some(Lexeme::Bad(letters)), Some(Lexeme::Bad(others))) => letters == others,
        _ => false,
    }
}

fn line_in(verdict: &Verdict) -> Option<u64>
    ensures { (edition : Edition) (before rest : List ℕ) → IsStopOf edition (with_newline before rest) verdict.now
        → IfSome result (StopsOn edition before rest) }
{
    match verdict {
        Verdict::Faulty(_, diagnostic) => Some(diagnostic.line),
        Verdict::Clean => None,
        Verdict::Unloaded(_) => None,
    }
}

/// Where the token ends at which the fault of a source was seen, as far as that is known.
pub(crate) fn fault_end(source: SourceText<'_>, judgement: &Judgement, found: &[Finding]) -> usize {
    let Verdict::Faulty(_, diagnostic) = &judgement.verdict else {
        return source.text.len();
    };
    let marked = match found.first() {
        Some(finding) => finding.place.start.saturating_add(finding.place.len),
        None => 0,
    };
    let token = match (diagnostic.letters, diagnostic.about) {
        (Letters::Undefined, _) => return marked,
        (Letters::Syntax, About::Nothing)
        | (Letters::OpenComment | Letters::Character | Letters::LongName | Letters::Constant, _) =>
            judgement.compiled.end,
        _ => judgement.compiled.seen_at,
    };
    let mut reader = SpanReader::new(source);
    reader.pass(token);
    reader.next().end().max(marked)
}
