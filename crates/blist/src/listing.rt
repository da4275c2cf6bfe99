//! The code of a source, with what it comes from.
ghost use Rattle.std.specs.Prelude.{◌≡◌, ◌<◌, ◌+◌, ◌%◌, [], ◌∷◌, ◌++◌, Decides, IfOk, None, OnOk, filter, map, option_map};
ghost use Rattle.std.specs.List.{flat_map};
ghost use Rattle.blang.specs.CodeParts.{function_of, simple_of, vector_of};
ghost use Rattle.blang.specs.declared.code.Definition.TheVariants as definition;
ghost use Rattle.blist.specs.CodeListExcluded.{NoCodeListings};
ghost use Rattle.blist.specs.ListExcluded.{NoListings};
ghost use Rattle.blist.specs.ListingTexts.{
  code_rows,
  definition_rows,
  instr_named,
  label_named,
  row_text,
  source_beside,
  string_rows,
  target_rows,
  value_rows,
  word_named,
};
ghost use Rattle.blist.specs.Listings.{Lists, frames_after, is_wanted, list_text, wanted};
ghost use Rattle.blist.specs.declared.rows.CodeSpot.TheVariants as spot;
ghost use Rattle.blist.specs.declared.rows.Named.TheVariants as named;
ghost use Rattle.btools.specs.Origins.{origin_shown};
ghost use Rattle.btools.specs.Programs.{told_ends};
ghost use Rattle.btools.specs.SourceLines.{source_lines};

use crate::rows::{CodeSpot, Named, RowColumns, push_row};
use crate::source_lines::line_text;
use bcode::{Page, push_header_line, push_instr_line, push_ival_line, push_number_line};
use blang::status::{self, Status};
use blang::{Definition, FunctionParts, Instr, Ival, SimpleParts, VectorParts};
use bmach::name_of;
use btools::{
    Frame, Origin, Program, Text, read_program, split_lines, split_source, tell, tell_fault,
};
use bword::ByteOut;
use std::alloc::{AllocError, Global};

/// The columns of a listing.
const HEADING: &[u8] =
    b" place  line  code          source                                  name\n";

/// The message for a name that the source doesn't define.
const UNDEFINED: &[u8] = b"error: the source has no definition of this NAME\n";

/// Writes the code of a source, or of its definitions of one name, beside the line of the source that each instruction
/// comes from. A code text is listed so, too, with the line of each instruction, and beside its source if it has lines
/// of one.
///
/// The status is 0, or that of `go` if the source doesn't compile or load, and that of `run` for a code text. If no
/// definition has the name, a line says so, and the status is 135, as it is for a file of lines that doesn't suit the
/// code.
pub fn list<O: ByteOut, D: ByteOut>(
    alloc: Global,
    source: &[u8],
    origin: Origin<'_>,
    name: Option<&str>,
    out: &mut O,
    diag: &mut D,
) -> Status
    ensures lists { Lists (origin_shown origin.entry) source.now (option_map (λ n. n.now) name.entry) (told_ends
        (O.outgoing out.old) (O.outgoing out.new) (D.outgoing diag.old) (D.outgoing diag.new)) result }
    ensures out_lender { O.lender out.new ≡ O.lender out.old }
    ensures diag_lender { D.lender diag.new ≡ D.lender diag.old }
{
    let program = match read_program(alloc, source, origin) {
        Ok(program) => program,
        Err(fault) => return tell_fault(&fault, diag),
    };
    if is_none_wanted(&program.definitions, name) {
        return tell(UNDEFINED, status::WRONG_COMMAND, diag);
    }
    match listing(alloc, &program, origin.beside(source), name) {
        Ok(text) => tell(text.as_slice(), status::DONE, out),
        Err(_) => status::MEMORY,
    }
}

fn is_none_wanted(definitions: &[Definition], name: Option<&str>) -> bool
    ensures { Decides result (wanted (option_map (λ n. n.now) name.entry) definitions.now ≡ []) }
{
    for definition in definitions {
        if is_wanted(definition, name) {
            return false;
        }
    }
    true
}

fn is_wanted(definition: &Definition, name: Option<&str>) -> bool
    ensures { result ≡ is_wanted (option_map (λ n. n.now) name.entry) definition.now }
{
    match name {
        None => true,
        Some(name) => name_of(definition).as_str() == name,
    }
}

fn listing(
    alloc: Global,
    program: &Program,
    source: &[u8],
    name: Option<&str>,
) -> Result<Text, AllocError>
    ensures { IfOk result (λ text. text ≡ list_text program.now.image source.now (option_map (λ n. n.now) name.entry)
        program.now.definitions.items program.now.names.lines.items program.now.names.frames.items) }
{
    let texts = split_source(alloc, source)?;
    let mut text = Text::new(alloc);
    text.push(HEADING)?;
    let mut frames = program.names.frames.as_slice();
    let mut lines = program.names.lines.as_slice();
    for definition in &program.definitions {
        let (own, later) = split_lines(lines, definition);
        if is_wanted(definition, name) {
            let told = Sources {
                lines: own,
                frame: frames.first(),
                texts: texts.as_slice(),
            };
            let address = program.image.address(&name_of(definition)).unwrap_or(0);
            push_definition(&mut text, definition, address, told)?;
        }
        lines = later;
        frames = frames_after(definition, frames);
    }
    Ok(text)
}

// The names of the functions after a definition.
fn frames_after<'a>(definition: &Definition, frames: &'a [Frame]) -> &'a [Frame]
    ensures { result.now ≡ frames_after definition.now frames.now }
{
    match definition {
        Definition::Function(_) => frames.get(1..).unwrap_or(&[]),
        _ => frames,
    }
}

// What is known of the source of a definition.
#[derive(Clone, Copy)]
struct Sources<'a> {
    // The line of each instruction or initial value.
    lines: &'a [u64],
    // The names of a function.
    frame: Option<&'a Frame>,
    // The lines of the source.
    texts: &'a [&'a [u8]],
}

// The rows of a definition at an address.
fn push_definition(
    text: &mut Text,
    definition: &Definition,
    address: u16,
    told: Sources<'_>,
) -> Result<(), AllocError>
    ensures { OnOk result (text.new ≡ text.old ++ definition_rows (map (λ line. line.now) told.entry.texts.now) address
        told.entry.lines.now (option_map (λ frame. frame.now) told.entry.frame) definition.now) }
{
    match definition {
        Definition::Function(function) => push_function(text, function.parts(), address, told),
        Definition::Simple(simple) => push_simple(text, simple.parts(), address, told),
        Definition::Vector(vector) => push_vector(text, vector.parts(), address, told),
    }
}

fn push_function(
    text: &mut Text,
    parts: &FunctionParts,
    address: u16,
    told: Sources<'_>,
) -> Result<(), AllocError>
    ensures { OnOk result (text.new ≡ text.old ++ definition_rows (map (λ line. line.now) told.entry.texts.now) address
        told.entry.lines.now (option_map (λ frame. frame.now) told.entry.frame)
        (definition.Function (function_of parts.now))) }
{
    let counts = [
        usize::from(parts.parameters),
        usize::from(parts.frame),
        parts.targets.len(),
        parts.strings.len(),
        parts.code.len(),
    ];
    let mut page = Page::new();
    push_header_line(&mut page, b'F', parts.name, &counts);
    push_header(text, &page, address)?;
    push_targets(text, &parts.targets, told.frame)?;
    push_strings(text, &parts.strings, address.wrapping_add(1))?;
    push_code(text, &parts.code, told)
}

fn push_simple(
    text: &mut Text,
    parts: &SimpleParts,
    address: u16,
    told: Sources<'_>,
) -> Result<(), AllocError>
    ensures { OnOk result (text.new ≡ text.old ++ definition_rows (map (λ line. line.now) told.entry.texts.now) address
        told.entry.lines.now (option_map (λ frame. frame.now) told.entry.frame)
        (definition.Simple (simple_of parts.now))) }
{
    let counts = [parts.values.len(), parts.strings.len()];
    let mut page = Page::new();
    push_header_line(&mut page, b'X', parts.name, &counts);
    push_header(text, &page, address)?;
    push_values(text, &parts.values, address, told.lines)?;
    let words = low_word(parts.values.len().max(1));
    push_strings(text, &parts.strings, address.wrapping_add(words))
}

fn push_vector(
    text: &mut Text,
    parts: &VectorParts,
    address: u16,
    told: Sources<'_>,
) -> Result<(), AllocError>
    ensures { OnOk result (text.new ≡ text.old ++ definition_rows (map (λ line. line.now) told.entry.texts.now) address
        told.entry.lines.now (option_map (λ frame. frame.now) told.entry.frame)
        (definition.Vector (vector_of parts.now))) }
{
    let counts = [
        usize::from(parts.words),
        parts.values.len(),
        parts.strings.len(),
    ];
    let mut page = Page::new();
    push_header_line(&mut page, b'V', parts.name, &counts);
    push_header(text, &page, address)?;
    let first = address.wrapping_add(1);
    push_values(text, &parts.values, first, told.lines)?;
    let words = low_word(usize::from(parts.words).max(parts.values.len()));
    push_strings(text, &parts.strings, first.wrapping_add(words))
}

// A number modulo 65536, as addresses are reckoned.
fn low_word(number: usize) -> u16
    ensures { result ≡ number % 65536 }
{
    (number % 65536) as u16
}

fn push_header(text: &mut Text, page: &Page, address: u16) -> Result<(), AllocError>
    ensures { OnOk result (text.new ≡ text.old ++ row_text (spot.Address address) None page.now [] named.Nothing) }
{
    let told = RowColumns {
        spot: CodeSpot::Address(address),
        line: None,
        source: b"",
        named: Named::Nothing,
    };
    push_row(text, page, told)
}

// The targets of labels.
fn push_targets(text: &mut Text, targets: &[u16], frame: Option<&Frame>) -> Result<(), AllocError>
    ensures { OnOk result (text.new ≡ text.old ++ target_rows (option_map (λ f. f.now) frame.entry) targets.now) }
{
    for (index, target) in targets.iter().enumerate() {
        let mut page = Page::new();
        push_number_line(&mut page, b't', *target);
        let told = RowColumns {
            spot: CodeSpot::Nowhere,
            line: None,
            source: b"",
            named: label_in(frame, index),
        };
        push_row(text, &page, told)?;
    }
    Ok(())
}

// String words, which lie from an address on.
fn push_strings(text: &mut Text, words: &[u16], address: u16) -> Result<(), AllocError>
    ensures { OnOk result (text.new ≡ text.old ++ string_rows address words.now) }
{
    for (index, word) in words.iter().enumerate() {
        let mut page = Page::new();
        push_number_line(&mut page, b'w', *word);
        let told = RowColumns {
            spot: CodeSpot::Address(address.wrapping_add(low_word(index))),
            line: None,
            source: b"",
            named: Named::Characters(*word),
        };
        push_row(text, &page, told)?;
    }
    Ok(())
}

// Initial values with their lines, which lie from an address on.
fn push_values(
    text: &mut Text,
    values: &[Ival],
    address: u16,
    lines: &[u64],
) -> Result<(), AllocError>
    ensures { OnOk result (text.new ≡ text.old ++ value_rows address lines.now values.now) }
{
    for (index, value) in values.iter().enumerate() {
        let mut page = Page::new();
        push_ival_line(&mut page, *value);
        let told = RowColumns {
            spot: CodeSpot::Address(address.wrapping_add(low_word(index))),
            line: lines.get(index).copied(),
            source: b"",
            named: Named::Nothing,
        };
        push_row(text, &page, told)?;
    }
    Ok(())
}

// Instructions with their lines, the text of each line beside the first one that comes from it.
fn push_code(text: &mut Text, code: &[Instr], told: Sources<'_>) -> Result<(), AllocError>
    ensures { OnOk result (text.new ≡ text.old ++ code_rows (map (λ line. line.now) told.entry.texts.now)
        told.entry.lines.now (option_map (λ frame. frame.now) told.entry.frame) code.now) }
{
    let mut before = None;
    for (place, instr) in code.iter().enumerate() {
        let line = told.lines.get(place).copied();
        let mut page = Page::new();
        push_instr_line(&mut page, instr);
        let row = RowColumns {
            spot: CodeSpot::Place(place),
            line,
            source: source_beside(told.texts, before, line),
            named: named(told.frame, instr),
        };
        push_row(text, &page, row)?;
        before = line;
    }
    Ok(())
}

// The text of a line, unless it is the line before.
fn source_beside<'a>(texts: &[&'a [u8]], before: Option<u64>, line: Option<u64>) -> &'a [u8]
    ensures { result.now ≡ source_beside (map (λ line. line.now) texts.now) before line }
{
    match (before, line) {
        (_, None) => b"",
        (Some(before), Some(line)) if before == line => b"",
        (_, Some(line)) => line_text(texts, line),
    }
}

// The name of what an instruction speaks of.
fn named(frame: Option<&Frame>, instr: &Instr) -> Named
    ensures { result ≡ instr_named (option_map (λ f. f.now) frame.entry) instr.now }
{
    match instr {
        Instr::Automatic(offset) => word_in(frame, *offset),
        Instr::Label(number) => label_in(frame, usize::from(*number)),
        _ => Named::Nothing,
    }
}

fn word_in(frame: Option<&Frame>, offset: u16) -> Named
    ensures { result ≡ word_named (option_map (λ f. f.now) frame.entry) offset }
{
    let Some(frame) = frame else {
        return Named::Nothing;
    };
    match frame.word(u32::from(offset)) {
        Some((name, false)) => Named::Name(name),
        Some((name, true)) => Named::First(name),
        None => Named::Nothing,
    }
}

fn label_in(frame: Option<&Frame>, number: usize) -> Named
    ensures { result ≡ label_named (option_map (λ f. f.now) frame.entry) number }
{
    let Some(frame) = frame else {
        return Named::Nothing;
    };
    match frame.labels.get(number) {
        Some(name) => Named::Name(*name),
        None => Named::Nothing,
    }
}

/// No listing has another status than that of its source, or another line.
pub fn wrong_listings_are_excluded()
    ensures { NoListings }
{}

/// The same holds of each code text, and no other text has a listing.
pub fn wrong_code_listings_are_excluded()
    ensures { NoCodeListings }
{}
