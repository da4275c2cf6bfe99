//! The lines of the places of a code text.
ghost use Rattle.std.specs.Prelude.{◌≡◌, ◌≤◌, ◌+◌, ◌++◌, IfErr, IfOk, MatchResult, Ok, OnOk, length, map};
ghost use Rattle.std.specs.Prelude.{option_map, unwrap_or};
ghost use Rattle.std.specs.List.{range_with_len};
ghost use Rattle.blang.specs.Text.{IsCodeText, lines_of};
ghost use Rattle.btools.specs.Origins.{HasNoCode, code_text_shown};
ghost use Rattle.btools.specs.PlaceLines.{HasPlaceColumns, HasPlaceLines, last_in, lines_before, lines_before_places};
ghost use Rattle.btools.specs.PlaceLines.{place_lines, places_read};
ghost use Rattle.bauthor.specs.LineFiles.{Fails};

use crate::origin::CodeText;
use crate::program::ProgramFault;
use crate::source_lines::{last_line, line_at};
use bauthor::{LineFault, PlaceLine, places_of, read_place_lines};
use blang::Definition;
use std::alloc::{AllocError, Global};

/// Where the places of a code text come from in the source of their author.
#[derive(Drop)]
pub(crate) struct SourcePlaces {
    /// The line of each.
    pub(crate) lines: Vec<u64>,
    /// The column of each, 0 where none is told; none at all without a file of lines.
    pub(crate) columns: Vec<u64>,
}

/// The lines and columns of the places of a code text of these definitions.
pub(crate) fn source_places(
    alloc: Global,
    text: CodeText<'_>,
    definitions: &[Definition],
) -> Result<SourcePlaces, ProgramFault>
    requires { IsCodeText text.code.now definitions.now }
    ensures lines { MatchResult result (λ p. HasPlaceLines (code_text_shown text.entry) definitions.now p.lines.items)
        (HasNoCode (code_text_shown text.entry)) }
    ensures columns { IfOk result (λ p. HasPlaceColumns (code_text_shown text.entry) definitions.now p.columns.items) }
{
    let Some(file) = text.lines else {
        return match place_lines(alloc, definitions, lines_before(text.code)) {
            Ok(lines) => Ok(SourcePlaces {
                lines,
                columns: Vec::new(alloc),
            }),
            Err(_) => Err(ProgramFault::Memory),
        };
    };
    match read_places(alloc, file, text.source, definitions) {
        Ok(places) => match split_places(alloc, &places) {
            Ok(places) => Ok(places),
            Err(_) => Err(ProgramFault::Memory),
        },
        Err(LineFault::Line(number, wanted)) => Err(ProgramFault::Unlined(number, wanted)),
        Err(LineFault::Memory) => Err(ProgramFault::Memory),
    }
}

fn read_places(
    alloc: Global,
    file: &[u8],
    source: Option<&[u8]>,
    definitions: &[Definition],
) -> Result<Vec<PlaceLine>, LineFault>
    ensures ok { IfOk result (λ places.
        places_read (option_map (λ s. s.now) source.entry) file.now definitions.now ≡ Ok places.items) }
    ensures err { IfErr result (λ fault.
        Fails fault (places_read (option_map (λ s. s.now) source.entry) file.now definitions.now)) }
{
    read_place_lines(alloc, file, definitions, last_in(source), source)
}

// The lines of places apart from their columns.
fn split_places(alloc: Global, places: &[PlaceLine]) -> Result<SourcePlaces, AllocError>
    ensures lines { IfOk result (λ s. s.lines.items ≡ map (λ p. p.line) places.now) }
    ensures columns { IfOk result (λ s. s.columns.items ≡ map (λ p. unwrap_or p.column 0) places.now) }
{
    Ok(SourcePlaces {
        lines: places.iter().map(|place| place.line).collect(alloc)?,
        columns: places
            .iter()
            .map(|place| place.column.unwrap_or(0))
            .collect(alloc)?,
    })
}

// The greatest number that a file of lines may have.
fn last_in(source: Option<&[u8]>) -> u64
    ensures { result ≡ last_in (option_map (λ s. s.now) source.entry) }
{
    match source {
        Some(source) => last_line(source),
        None => u64::MAX,
    }
}

/// How many lines of a code text stand before its definitions.
pub fn lines_before(code: &[u8]) -> u64
    ensures { result ≡ lines_before code.now }
{
    if line_at(code, 1) == b"B 2".as_slice() {
        1
    } else {
        0
    }
}

// The number of the line of each place of definitions that come after so many lines. Memory has no room for a text with
// more lines than can be counted.
fn place_lines(
    alloc: Global,
    definitions: &[Definition],
    opening: u64,
) -> Result<Vec<u64>, AllocError>
    ensures { IfOk result (λ lines. lines.items ≡ place_lines opening definitions.now) }
{
    let mut lines = Vec::new(alloc);
    let mut before = opening;
    for definition in definitions {
        let first = after(before, lines_before_places(definition) + 1)?;
        push_numbers(&mut lines, first, places_of(definition) as u64)?;
        before = after(before, lines_in(definition))?;
    }
    Ok(lines)
}

fn after(line: u64, count: u64) -> Result<u64, AllocError>
    ensures { IfOk result (λ number. number ≡ line + count) }
{
    line.checked_add(count).ok_or(AllocError)
}

// Adds so many numbers from one on.
fn push_numbers(lines: &mut Vec<u64>, first: u64, count: u64) -> Result<(), AllocError>
    ensures { OnOk result (lines.new.items ≡ lines.old.items ++ range_with_len first count) }
{
    let end = after(first, count)?;
    for number in first..end {
        lines.push(number)?;
    }
    Ok(())
}

// The lines of a definition before its places.
fn lines_before_places(definition: &Definition) -> u64
    ensures value { result ≡ lines_before_places definition.now }
    ensures few { result ≤ 65536 }
{
    match definition {
        Definition::Function(function) => {
            let parts = function.parts();
            (1 + parts.targets.len() + parts.strings.len()) as u64
        }
        Definition::Simple(_) | Definition::Vector(_) => 1,
    }
}

/// How many lines a definition has.
pub fn lines_in(definition: &Definition) -> u64
    ensures { result ≡ length (lines_of definition.now) }
{
    let body = match definition {
        Definition::Function(function) => {
            let parts = function.parts();
            parts.targets.len() + parts.strings.len() + parts.code.len()
        }
        Definition::Simple(simple) => {
            let parts = simple.parts();
            parts.values.len() + parts.strings.len()
        }
        Definition::Vector(vector) => {
            let parts = vector.parts();
            parts.values.len() + parts.strings.len()
        }
    };
    body as u64 + 1
}
