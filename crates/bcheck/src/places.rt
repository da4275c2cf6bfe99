//! Where a place stands in the source.
ghost use Rattle.std.specs.List.{All};
ghost use Rattle.std.specs.Prelude.{ℕ, List, OnOk, ◌≡◌, ◌<◌, ◌≤◌, ◌⊎◌, IfOk, IsTrue, drop, length, take, vec_items};
ghost use Rattle.blang.specs.Cut.{line_number_after};
ghost use Rattle.bcheck.specs.Checks.{IsAtToken, IsOver, StandsOn};
ghost use Rattle.bplaces.specs.Columns.{column_after};
ghost use Rattle.bcheck.specs.Findings.{Chooses, FindsOn, IsMilestone, IsSecond};
ghost use Rattle.bcheck.specs.Tokens.{ends, is_on, is_token};
ghost use Rattle.bplaces.specs.Units.{first_unit, units_after};
ghost use Rattle.bsources.specs.Files.{files_shown};

use crate::finding::{Place, SecondPlace};
use blex::{Lexeme, Lexer, PlacedPiece, Scanner};
use bplaces::{UnitPlace, next_column, next_line};
use bsources::SourceFiles;
use bword::{Edition, MemIn};
use std::alloc::{AllocError, Global};

/// The bytes before a place of the source, and those from it on.
pub fn parts(source: &[u8], start: usize) -> (&[u8], &[u8])
    ensures before { result.0.now ≡ take start source.now }
    ensures rest { result.1.now ≡ drop start source.now }
{
    if start < source.len() {
        source.split_at(start)
    } else {
        (source, &[])
    }
}

/// How many bytes are from one milestone to the next.
const MILESTONE_BYTES: usize = 4096;

/// The line and the columns of a place of the source, from 1.
#[derive(Clone, Copy)]
pub struct Milestone {
    pub start: usize,
    pub line: u64,
    pub column: usize,
    pub units: UnitPlace,
}

/// The lines and columns of some places of a source, so that those of others are found without going through it again.
pub fn milestones(alloc: Global, source: &[u8]) -> Result<Vec<Milestone>, AllocError>
    ensures { IfOk result (λ all. All (IsMilestone source.now) (vec_items all)) }
{
    let mut all = Vec::new(alloc);
    let mut line: u64 = 1;
    let mut column: usize = 1;
    let mut units = UnitPlace::first();
    for start in 0..source.len() {
        let here = Milestone {
            start,
            line,
            column,
            units,
        };
        push_milestone(&mut all, here)?;
        line = next_line(line, source[start]);
        column = next_column(column, source[start]);
        units = units.after(source[start], &source[start + 1..]);
    }
    Ok(all)
}

// Adds a milestone, if one is wanted at its place.
fn push_milestone(all: &mut Vec<Milestone>, here: Milestone) -> Result<(), AllocError>
    ensures { (source : List ℕ) → All (IsMilestone source) (vec_items all.old) → IsMilestone source here
        → OnOk result (All (IsMilestone source) (vec_items all.new)) }
{
    if here.start % MILESTONE_BYTES != 0 {
        return Ok(());
    }
    all.push(here)?;
    Ok(())
}

/// The line and the columns of a place of the source, from 1.
pub fn position(source: &[u8], milestones: &[Milestone], start: usize) -> (u64, usize, UnitPlace)
    requires { All (IsMilestone source.now) milestones.now }
    ensures line { result.0 ≡ line_number_after 1 (take start source.now) }
    ensures column { result.1 ≡ column_after 1 (take start source.now) }
    ensures some { 0 < result.1 }
    ensures units { result.2 ≡ units_after first_unit (take start source.now) (drop start source.now) }
{
    let from = last_before(source, milestones, start);
    let (mut line, mut column, mut units) = (from.line, from.column, from.units);
    for index in from.start..start.min(source.len()) {
        line = next_line(line, source[index]);
        column = next_column(column, source[index]);
        units = units.after(source[index], &source[index + 1..]);
    }
    (line, column, units)
}

// The last milestone before a place of the source.
fn last_before(source: &[u8], milestones: &[Milestone], start: usize) -> Milestone
    requires { All (IsMilestone source.now) milestones.now }
    ensures is { IsMilestone source.now result }
    ensures before { result.start ≤ start }
{
    match milestones
        .get(start / MILESTONE_BYTES)
        .or(milestones.last())
    {
        Some(milestone) if milestone.start <= start => *milestone,
        _ => Milestone {
            start: 0,
            line: 1,
            column: 1,
            units: UnitPlace::first(),
        },
    }
}

/// The line and the columns of a place, if there is one.
pub(crate) fn spot_of<'a>(
    source: &[u8],
    files: &SourceFiles<'a>,
    milestones: &[Milestone],
    place: &Option<Place>,
) -> Option<SecondPlace<'a>>
    requires { All (IsMilestone source.now) milestones.now }
    ensures { IsSecond (files_shown files.now) source.now result }
{
    let Some(place) = place else {
        return None;
    };
    let (line, column, units) = position(source, milestones, place.start);
    Some(SecondPlace {
        at: files.own_line(line),
        is_of_several: !files.rest.is_empty(),
        column,
        unit: units.column,
    })
}

/// The place, where it stands on this line and in a token of it, or on the line or before it and no token comes any
/// more; else the first token of the line, the beginning of a line without one, or the end of a source that has fewer
/// lines.
pub(crate) fn place_on(source: &[u8], edition: Edition, place: &Place, line: u64) -> Place
    requires { 0 < line }
    ensures stands { StandsOn edition line (take result.start source.now) (drop result.start source.now) }
    ensures token { IsAtToken edition line (take result.start source.now) (drop result.start source.now) }
{
    let (before, rest) = parts(source, place.start);
    let here = line_after(before);
    if here <= line {
        if is_over(rest, edition) {
            return *place;
        }
    }
    let Some(token) = token_on(source, edition, line, place.start) else {
        return Place {
            line,
            start: line_start(source, line),
            len: 1,
        };
    };
    if here == line && token.first <= place.start && place.start < token.end {
        return *place;
    }
    Place {
        line,
        start: token.first,
        len: 1,
    }
}

// The last token of a line that begins at a place or before it, or else the first token of the line.
fn token_on(source: &[u8], edition: Edition, line: u64, place: usize) -> Option<PlacedPiece>
    ensures { FindsOn edition line source.now result }
{
    let mut scanner = Scanner::new(source, edition);
    let mut found = None;
    loop {
        let piece = scanner.next();
        let is_last = ends(piece.lexeme);
        found = choose(found, piece, line, place);
        if is_last {
            return found;
        }
    }
}

// The one that was found, or the one that comes after it.
fn choose(
    found: Option<PlacedPiece>,
    piece: PlacedPiece,
    line: u64,
    place: usize,
) -> Option<PlacedPiece>
    ensures { Chooses line piece found result }
{
    if !is_on(&piece, line) {
        return found;
    }
    match found {
        Some(_) if piece.first > place => found,
        _ => Some(piece),
    }
}

fn is_on(piece: &PlacedPiece, line: u64) -> bool
    ensures { result ≡ is_on line piece.now }
{
    is_token(piece.lexeme) && piece.line == line
}

fn is_token(lexeme: Option<Lexeme>) -> bool
    ensures { result ≡ is_token lexeme }
{
    !matches!(lexeme, None | Some(Lexeme::End))
}

/// Whether no token comes after this one.
pub(crate) fn ends(lexeme: Option<Lexeme>) -> bool
    ensures { result ≡ ends lexeme }
{
    matches!(lexeme, Some(Lexeme::Bad(_) | Lexeme::End))
}

/// The number of the line after a text.
pub(crate) fn line_after(text: &[u8]) -> u64
    ensures { result ≡ line_number_after 1 text.now }
{
    let mut line: u64 = 1;
    for byte in text {
        line = next_line(line, *byte);
    }
    line
}

// Whether no token comes any more.
fn is_over(rest: &[u8], edition: Edition) -> bool
    ensures { IsTrue result → IsOver edition rest.now }
{
    let mut lexer = Lexer::with_edition(MemIn::new(rest), edition);
    let Ok(seen) = lexer.next_lexeme() else {
        return false;
    };
    match seen.lexeme {
        Lexeme::End => true,
        _ => false,
    }
}

// Where a line begins, or the end of a source that has fewer lines.
fn line_start(source: &[u8], line: u64) -> usize
    requires { 0 < line }
    ensures { (line_number_after 1 (take result source.now) ≡ line)
        ⊎ ((result ≡ length source.now) × (line_number_after 1 source.now < line)) }
{
    let mut now: u64 = 1;
    for index in 0..source.len() {
        if now == line {
            return index;
        }
        now = next_line(now, source[index]);
    }
    source.len()
}
