//! Faults after the first one of a source: each function that comes later is compiled alone.
ghost use Rattle.std.specs.List.{All};
ghost use Rattle.std.specs.Prelude.{◌≡◌, ◌+◌, ◌++◌, ◌<◌, ◌^◌, IfOk, OnOk, drop, min, vec_items};
ghost use Rattle.bcheck.specs.Findings.{HasFaults, IsMilestone, TellsAfter, matter_code};
ghost use Rattle.bcheck.specs.Sections.{begins_head, has_return, head_after, is_any_name, is_first_column, is_in_head};
ghost use Rattle.bcheck.specs.Sections.{is_end, opened, head_places, section_at, section_end, section_places};

use crate::compiled::compile;
use crate::explain::{alone, fault_of};
use crate::finding::{Finding, MOST_FINDINGS, Place};
use crate::places::{parts, position};
use crate::spans::SourceText;
use crate::told::Setting;
use crate::unknown::in_whole;
use blex::{Lexeme, PlacedPiece, Scanner};
use std::alloc::{AllocError, Global};

/// How many bytes are looked through for the names of findings, at most.
const LOOKED_THROUGH: usize = 4194304;

/// What is said of the functions on lines after this one that are at fault alone.
pub(crate) fn further_faults(
    alloc: Global,
    setting: &Setting<'_>,
    line: u64,
) -> Result<Vec<Finding>, AllocError>
    requires { All (IsMilestone setting.now.source.text.now) setting.now.milestones.now }
    ensures { IfOk result (λ found.
        TellsAfter setting.now.source.edition setting.now.source.text.now line (vec_items found)) }
{
    let places = section_places(alloc, setting.source, line)?;
    let mut found = Vec::new(alloc);
    for index in 0..places.len() {
        let end = section_end(setting.source.text, places.as_slice(), index + 1);
        let more = faults_in(alloc, setting, places[index], end, found.len())?;
        found.extend_from_slice(more.as_slice())?;
    }
    Ok(found)
}

// What is said of the section from this place to that one, if it is at fault and not too much is told: so much is.
fn faults_in(
    alloc: Global,
    setting: &Setting<'_>,
    place: usize,
    end: usize,
    count: usize,
) -> Result<Vec<Finding>, AllocError>
    requires { All (IsMilestone setting.now.source.text.now) setting.now.milestones.now }
    ensures { IfOk result (λ more. HasFaults setting.now.source.edition setting.now.source.text.now
        (section_at setting.now.source.text.now place end) count (vec_items more)) }
{
    if count >= MOST_FINDINGS - 1 {
        return Ok(Vec::new(alloc));
    }
    let source = setting.source;
    let section = SourceText {
        text: section_text(source.text, place, end),
        edition: source.edition,
    };
    let compiled = compile(alloc, section)?;
    match &compiled.code {
        Ok(_) => Ok(Vec::new(alloc)),
        Err(diagnostic) => {
            let Ok(fault) = fault_of(alloc, section, &compiled, diagnostic) else {
                return Err(AllocError);
            };
            let (line, _, _) = position(source.text, setting.milestones, place);
            let there = moved(fault, section.text.len(), place, line);
            let known = known_in(source, there, count);
            alone(alloc, &known)
        }
    }
}

// The same finding after so many, by what the whole source has of its name, if not too much was looked through.
fn known_in(source: SourceText<'_>, fault: Finding, count: usize) -> Finding
    ensures place { result.place ≡ fault.place }
    ensures code { matter_code result.matter ≡ matter_code fault.matter }
{
    if is_too_much(source, count) || fault.name.is_none() {
        return fault;
    }
    in_whole(source, fault)
}

fn is_too_much(source: SourceText<'_>, count: usize) -> bool {
    count.saturating_mul(source.text.len()) > LOOKED_THROUGH
}

// The text of a section from this place to that one.
fn section_text(source: &[u8], place: usize, end: usize) -> &[u8]
    ensures { result.now ≡ (section_at source.now place end).text }
{
    let (_, rest) = parts(source, place);
    let (text, _) = parts(rest, end.saturating_sub(place));
    text
}

// Where a section ends after which the one at this place among others begins, if there is one.
fn section_end(source: &[u8], places: &[usize], next: usize) -> usize
    ensures { result ≡ section_end source.now (drop next places.now) }
{
    match places.get(next) {
        Some(place) => *place,
        None => source.len(),
    }
}

// A finding of a section of so many bytes in the whole source, where the section begins at this place, on this line.
fn moved(fault: Finding, len: usize, start: usize, line: u64) -> Finding
    requires { start + len < 2 ^ 64 }
    ensures place { result.place.start ≡ start + min fault.place.start len }
    ensures matter { result.matter ≡ fault.matter }
{
    let own = Place {
        start: fault.place.start.min(len),
        ..fault.place
    };
    Finding {
        place: shifted(own, start, line),
        related: fault.related.map(|place| shifted(place, start, line)),
        ..fault
    }
}

// A place of a section that begins at this one, on this line.
fn shifted(place: Place, start: usize, line: u64) -> Place
    ensures { start + place.start < 2 ^ 64 → result.start ≡ start + place.start }
{
    Place {
        line: place.line.saturating_add(line.saturating_sub(1)),
        start: start.saturating_add(place.start),
        len: place.len,
    }
}

// The places where functions begin on lines after this one.
fn section_places(
    alloc: Global,
    source: SourceText<'_>,
    line: u64,
) -> Result<Vec<usize>, AllocError>
    ensures { IfOk result (λ places.
        vec_items places ≡ section_places source.entry.edition line source.entry.text.now) }
{
    if has_return(source.text) {
        return Ok(Vec::new(alloc));
    }
    places_after(alloc, source, line)
}

// The same of any source.
fn places_after(alloc: Global, source: SourceText<'_>, line: u64) -> Result<Vec<usize>, AllocError>
    ensures { IfOk result (λ places. vec_items places
        ≡ head_places source.entry.edition line source.entry.text.now) }
{
    let mut scanner = Scanner::new(source.text, source.edition);
    let mut places = Vec::new(alloc);
    let mut head = None;
    loop {
        let piece = scanner.next();
        push_opened(&mut places, head, piece.lexeme)?;
        if is_end(piece.lexeme) {
            return Ok(places);
        }
        head = head_after(source.text, line, head, &piece);
    }
}

// Adds where a function begins, if its `{` comes after its head.
fn push_opened(
    places: &mut Vec<usize>,
    head: Option<usize>,
    lexeme: Option<Lexeme>,
) -> Result<(), AllocError>
    ensures { OnOk result (vec_items places.new ≡ vec_items places.old ++ opened head lexeme) }
{
    if let (Some(place), Some(Lexeme::OpenBrace)) = (head, lexeme) {
        places.push(place)?;
    }
    Ok(())
}

// Where the head began that goes on after a comment or token, if one does.
fn head_after(source: &[u8], line: u64, head: Option<usize>, piece: &PlacedPiece) -> Option<usize>
    ensures { result ≡ head_after line source.now head piece.now }
{
    if !is_in_head(piece.lexeme) {
        return None;
    }
    match head {
        Some(place) => Some(place),
        None if begins_head(source, line, piece) => Some(piece.first),
        None => None,
    }
}

fn begins_head(source: &[u8], line: u64, piece: &PlacedPiece) -> bool
    ensures { result ≡ begins_head line source.now piece.now }
{
    is_any_name(piece.lexeme) && line < piece.line && is_first_column(source, piece.first)
}

fn is_first_column(source: &[u8], place: usize) -> bool
    ensures { result ≡ is_first_column source.now place }
{
    if place == 0 {
        return true;
    }
    source.get(place - 1).copied().unwrap_or(b'\n') == b'\n'
}

fn is_any_name(lexeme: Option<Lexeme>) -> bool
    ensures { result ≡ is_any_name lexeme }
{
    matches!(lexeme, Some(Lexeme::Name(_)))
}

fn is_in_head(lexeme: Option<Lexeme>) -> bool
    ensures { result ≡ is_in_head lexeme }
{
    matches!(
        lexeme,
        None | Some(Lexeme::Name(_) | Lexeme::Comma | Lexeme::OpenParen | Lexeme::CloseParen)
    )
}

/// Whether the source is over.
pub(crate) fn is_end(lexeme: Option<Lexeme>) -> bool
    ensures { result ≡ is_end lexeme }
{
    matches!(lexeme, Some(Lexeme::End))
}

fn has_return(source: &[u8]) -> bool
    ensures { result ≡ has_return source.now }
{
    source.iter().any(|byte| *byte == b'\r')
}
