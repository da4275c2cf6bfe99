//! Reading a file of lines.
ghost use Rattle.std.specs.Prelude.{◌≡◌, ◌∷◌, ◌++◌, [], IfErr, IfOk, Ok, map, option_map};
ghost use Rattle.blang.specs.Layout.{shape_of};
ghost use Rattle.blang.specs.Lines.{size_of};
ghost use Rattle.bauthor.specs.AuthorFiles.{lines_of, read_from};
ghost use Rattle.bauthor.specs.LineFiles.{Fails, line_read, lines_read, lines_wanted, places_from, places_wanted};
ghost use Rattle.bauthor.specs.Readers.{LinesAdvance, lines_by, lines_shown};
ghost use Rattle.bauthor.specs.declared.fault.LineWanted.TheVariants as wanted;

use crate::fault::{LineFault, LineWanted};
use crate::place_line::PlaceLine;
use crate::splitting::{is_over, split_lines};
use blang::Definition;
use bword::Name;
use std::alloc::Global;

/// Reads the lines of the places of a code text of these definitions, none of them above the last one. Their columns
/// are those of the lines of the source, if that is known.
pub fn read_place_lines(
    alloc: Global,
    file: &[u8],
    definitions: &[Definition],
    last: u64,
    source: Option<&[u8]>,
) -> Result<Vec<PlaceLine>, LineFault>
    ensures ok { IfOk result (λ places. lines_read last (option_map (λ s. s.now) source.entry) file.now definitions.now
        ≡ Ok places.items) }
    ensures err { IfErr result (λ fault. Fails fault
        (lines_read last (option_map (λ s. s.now) source.entry) file.now definitions.now)) }
{
    let Ok(lines) = split_lines(alloc, file) else {
        return Err(LineFault::Memory);
    };
    let Some(source) = source else {
        return read_places(alloc, lines.as_slice(), definitions, last, None);
    };
    match split_lines(alloc, source) {
        Ok(own) => read_places(
            alloc,
            lines.as_slice(),
            definitions,
            last,
            Some(own.as_slice()),
        ),
        Err(_) => Err(LineFault::Memory),
    }
}

fn read_places(
    alloc: Global,
    lines: &[&[u8]],
    definitions: &[Definition],
    last: u64,
    source: Option<&[&[u8]]>,
) -> Result<Vec<PlaceLine>, LineFault>
    ensures ok { IfOk result (λ places. read_from (line_read (lines_shown source.entry)) wanted.End 1
        (lines_wanted last definitions.now) (map (λ line. line.now) lines.now) ≡ Ok places.items) }
    ensures err { IfErr result (λ fault. Fails fault (read_from (line_read (lines_shown source.entry)) wanted.End 1
        (lines_wanted last definitions.now) (map (λ line. line.now) lines.now))) }
{
    let mut reader = LineReader {
        places: Vec::new(alloc),
        source,
        lines,
        at: 0,
        number: 1,
    };
    match reader.take_all(definitions, last) {
        Ok(()) => reader.finish(),
        Err(fault) => Err(fault),
    }
}

/// How many instructions or initial values a definition has.
pub fn places_of(definition: &Definition) -> usize
    ensures { result ≡ size_of definition.now }
{
    match definition {
        Definition::Function(function) => function.parts().code.len(),
        Definition::Simple(simple) => simple.parts().values.len(),
        Definition::Vector(vector) => vector.parts().values.len(),
    }
}

fn name_of(definition: &Definition) -> Name
    ensures { result ≡ (shape_of definition.now).name }
{
    match definition {
        Definition::Function(function) => function.parts().name,
        Definition::Simple(simple) => simple.parts().name,
        Definition::Vector(vector) => vector.parts().name,
    }
}

// What was read of lines, how many of them, and the number of the next one; and the lines of the source.
#[derive(Drop)]
struct LineReader<'a> {
    places: Vec<PlaceLine>,
    source: Option<&'a [&'a [u8]]>,
    lines: &'a [&'a [u8]],
    at: usize,
    number: u64,
}

impl LineReader<'_> {
    fn take_all(&mut self, definitions: &[Definition], last: u64) -> Result<(), LineFault>
        ensures { LinesAdvance (lines_wanted last definitions.now) self.old result self.new }
    {
        for definition in definitions {
            match self.take_definition(definition, last) {
                Ok(()) => {}
                Err(fault) => return Err(fault),
            }
        }
        Ok(())
    }

    fn take_definition(&mut self, definition: &Definition, last: u64) -> Result<(), LineFault>
        ensures { LinesAdvance (places_wanted last definition.now) self.old result self.new }
    {
        self.take_places(name_of(definition), places_of(definition), last)
    }

    fn take_places(&mut self, name: Name, places: usize, last: u64) -> Result<(), LineFault>
        ensures { LinesAdvance (places_from last name 0 places) self.old result self.new }
    {
        for place in 0..places {
            match self.take(LineWanted::Number(last, name, place)) {
                Ok(()) => {}
                Err(fault) => return Err(fault),
            }
        }
        Ok(())
    }

    // The next line, if it is what is wanted.
    fn take(&mut self, wanted: LineWanted) -> Result<(), LineFault>
        ensures { LinesAdvance (wanted ∷ []) self.old result self.new }
    {
        let Some(line) = self.lines.get(self.at) else {
            return Err(LineFault::Line(self.number, wanted));
        };
        let Some(found) = wanted.read(self.source, line) else {
            return Err(LineFault::Line(self.number, wanted));
        };
        let Some(next) = self.number.checked_add(1) else {
            return Err(LineFault::Memory);
        };
        if self.places.push(found).is_err() {
            return Err(LineFault::Memory);
        }
        self.number = next;
        self.at += 1;
        Ok(())
    }

    // What was read, if nothing comes after the last newline.
    fn finish(self) -> Result<Vec<PlaceLine>, LineFault>
        ensures ok { IfOk result (λ places. lines_by self.entry [] ≡ Ok places.items) }
        ensures err { IfErr result (λ fault. Fails fault (lines_by self.entry [])) }
    {
        if is_over(self.lines.get(self.at..).unwrap_or(&[])) {
            Ok(self.places)
        } else {
            Err(LineFault::Line(self.number, LineWanted::End))
        }
    }
}
