//! What the names of a program stand for.
ghost use Rattle.std.specs.Prelude.{◌≡◌, ◌≤◌, IsTrue, drop, find, get_or, map, option_map, take};
ghost use Rattle.blang.specs.CodeParts.{function_of};
ghost use Rattle.blang.specs.Layout.{data_end, shape_of};
ghost use Rattle.bhost.specs.Symbols.{answers, blank, defined_in, definition_symbol, entry_shown, frame_first, frames_after, instruction_symbol, label_symbol, local_kind, local_symbol, next_offset, padded, parts_in, symbol_in, symbol_told};

use crate::desk::{Answer, Query, Symbol};
use crate::loaded::LoadedProgram;
use blang::{Definition, FunctionParts};
use bmach::{FIRST_ADDRESS, name_of, size_of};
use btools::{Frame, FrameWord, Program, split_lines};
use bword::Name;

/// The kinds of symbols: a function, an external of single words, an external vector; a parameter, an automatic word,
/// an automatic vector; a label, and an instruction.
pub const FUNCTION: u8 = 1;

pub const SIMPLE: u8 = 2;

pub const VECTOR: u8 = 3;

pub const PARAMETER: u8 = 4;

pub const AUTOMATIC: u8 = 5;

pub const AUTOMATIC_VECTOR: u8 = 6;

pub const LABEL: u8 = 7;

pub const INSTRUCTION: u8 = 8;

// A definition, with what is kept of it.
#[derive(Clone, Copy)]
pub(crate) struct Entry<'a> {
    address: u32,
    definition: &'a Definition,
    frame: Option<&'a Frame>,
    lines: &'a [u64],
    columns: &'a [u64],
}

/// Tells what is asked for of the names of a program.
pub(crate) fn tell(loaded: &LoadedProgram, query: &Query) -> Answer
    ensures { result ≡ symbol_told loaded.now query.now }
{
    let Some(entry) = entry_for(&loaded.program, query) else {
        return Answer::Missing;
    };
    match symbol_in(entry, query) {
        Some(symbol) => Answer::Tells(symbol),
        None => Answer::Missing,
    }
}

// The first definition that a query is about.
fn entry_for<'a>(program: &'a Program, query: &Query) -> Option<Entry<'a>>
    requires { data_end (map shape_of program.now.definitions.items) ≤ 65536 }
    ensures { option_map entry_shown result ≡ find (answers query.now) (defined_in program.now) }
{
    let mut address = u32::from(FIRST_ADDRESS);
    let mut rest = program.definitions.as_slice();
    let mut frames = program.names.frames.as_slice();
    let mut lines = program.names.lines.as_slice();
    let mut columns = program.columns.as_slice();
    while let [definition, later @ ..] = rest {
        let (frame, later_frames) = split_frames(frames, definition);
        let (own, later_lines) = split_lines(lines, definition);
        let (own_columns, later_columns) = split_lines(columns, definition);
        let entry = Entry {
            address,
            definition,
            frame,
            lines: own,
            columns: own_columns,
        };
        if answers(query, entry) {
            return Some(entry);
        }
        address += u32::from(size_of(definition));
        rest = later;
        frames = later_frames;
        lines = later_lines;
        columns = later_columns;
    }
    None
}

// The names of the frame of a definition, and those of the definitions after it.
fn split_frames<'a>(
    frames: &'a [Frame],
    definition: &Definition,
) -> (Option<&'a Frame>, &'a [Frame])
    ensures own { option_map (λ frame. frame.now) result.0 ≡ frame_first definition.now frames.now }
    ensures later { result.1.now ≡ frames_after definition.now frames.now }
{
    match definition {
        Definition::Function(_) => match frames {
            [frame, later @ ..] => (Some(frame), later),
            [] => (None, frames),
        },
        Definition::Simple(_) | Definition::Vector(_) => (None, frames),
    }
}

// Whether a query is about this definition.
fn answers(query: &Query, entry: Entry<'_>) -> bool
    requires { entry.address ≤ 65536 }
    ensures { result ≡ answers query.now (entry_shown entry.entry) }
{
    match query {
        Query::Named(name) => name_of(entry.definition) == *name,
        Query::At(address) => {
            entry.address <= *address
                && *address < entry.address + u32::from(size_of(entry.definition))
        }
        Query::Local(strings, _) | Query::Label(strings, _) | Query::Instruction(strings, _) => {
            matches!(entry.definition, Definition::Function(_)) && entry.address + 1 == *strings
        }
    }
}

// What a query asks of its definition.
fn symbol_in(entry: Entry<'_>, query: &Query) -> Option<Symbol>
    ensures { result ≡ symbol_in (entry_shown entry.entry) query.now }
{
    match query {
        Query::Named(_) | Query::At(_) => Some(definition_symbol(entry)),
        Query::Local(_, number) => local_symbol(entry, *number),
        Query::Label(_, number) => label_symbol(entry, *number),
        Query::Instruction(_, place) => instruction_symbol(entry, *place),
    }
}

// The symbol of a definition.
fn definition_symbol(entry: Entry<'_>) -> Symbol
    ensures { result ≡ definition_symbol (entry_shown entry.entry) }
{
    let symbol = Symbol {
        name: padded(name_of(entry.definition)),
        address: entry.address,
        words: u32::from(size_of(entry.definition)),
        line: kept_at(entry.lines, 0),
        column: kept_at(entry.columns, 0),
        ..Symbol::blank()
    };
    match entry.definition {
        Definition::Function(function) => {
            let parts = function.parts();
            Symbol {
                kind: FUNCTION,
                parameters: parts.parameters,
                frame: parts.frame,
                labels: parts.targets.len(),
                instructions: parts.code.len(),
                ..symbol
            }
        }
        Definition::Simple(_) => Symbol {
            kind: SIMPLE,
            ..symbol
        },
        Definition::Vector(_) => Symbol {
            kind: VECTOR,
            ..symbol
        },
    }
}

// The parts of a function.
fn parts_in(definition: &Definition) -> Option<&FunctionParts>
    ensures { option_map (λ parts. function_of parts.now) result ≡ parts_in definition.now }
{
    match definition {
        Definition::Function(function) => Some(function.parts()),
        Definition::Simple(_) | Definition::Vector(_) => None,
    }
}

// The symbol of a named word of a function's frame.
fn local_symbol(entry: Entry<'_>, number: usize) -> Option<Symbol>
    ensures { result ≡ local_symbol (entry_shown entry.entry) number }
{
    let parts = parts_in(entry.definition)?;
    let words = entry.frame?.words.as_slice();
    let word = words.get(number)?;
    let end = next_offset(words, number, parts.frame);
    Some(Symbol {
        name: padded(word.name),
        kind: local_kind(word, parts.parameters),
        address: word.offset,
        words: end.saturating_sub(word.offset),
        ..Symbol::blank()
    })
}

// Where the words end that belong to a named word of a frame of this size.
fn next_offset(words: &[FrameWord], number: usize, frame: u16) -> u32
    ensures { result ≡ next_offset words.now number frame }
{
    let Some(next) = number.checked_add(1) else {
        return u32::from(frame);
    };
    match words.get(next) {
        Some(word) => word.offset,
        None => u32::from(frame),
    }
}

// The kind of a named word of a frame.
fn local_kind(word: &FrameWord, parameters: u16) -> u8
    ensures { result ≡ local_kind word.now parameters }
{
    if word.is_vector {
        AUTOMATIC_VECTOR
    } else if word.offset < u32::from(parameters) {
        PARAMETER
    } else {
        AUTOMATIC
    }
}

// The symbol of a label of a function.
fn label_symbol(entry: Entry<'_>, number: usize) -> Option<Symbol>
    ensures { result ≡ label_symbol (entry_shown entry.entry) number }
{
    let place = *parts_in(entry.definition)?.targets.get(number)?;
    let name = *entry.frame?.labels.get(number)?;
    Some(Symbol {
        name: padded(name),
        kind: LABEL,
        address: u32::from(place),
        line: kept_at(entry.lines, usize::from(place)),
        column: kept_at(entry.columns, usize::from(place)),
        ..Symbol::blank()
    })
}

// The symbol of an instruction of a function.
fn instruction_symbol(entry: Entry<'_>, place: u32) -> Option<Symbol>
    ensures { result ≡ instruction_symbol (entry_shown entry.entry) place }
{
    let number = place as usize;
    if number >= parts_in(entry.definition)?.code.len() {
        return None;
    }
    Some(Symbol {
        kind: INSTRUCTION,
        address: place,
        line: kept_at(entry.lines, number),
        column: kept_at(entry.columns, number),
        ..Symbol::blank()
    })
}

// What is kept of a place, or 0 where nothing is.
fn kept_at(kept: &[u64], place: usize) -> u64
    ensures { result ≡ get_or kept.now place 0 }
{
    kept.get(place).copied().unwrap_or(0)
}

// A name with zeros after it.
fn padded(name: Name) -> [u8; 9]
    ensures { result ≡ padded name }
{
    let text = name.as_bytes();
    let mut padded = [0; 9];
    padded[..text.len()].copy_from_slice(text);
    padded
}

impl Symbol {
    /// One of nothing.
    pub fn blank() -> Symbol
        ensures { result ≡ blank }
    {
        Symbol {
            name: [0; 9],
            kind: 0,
            parameters: 0,
            address: 0,
            words: 0,
            frame: 0,
            labels: 0,
            instructions: 0,
            line: 0,
            column: 0,
        }
    }
}
