//! Reading a file of names.
ghost use Rattle.std.specs.Prelude.{◌≡◌, ◌∷◌, ◌++◌, [], IfErr, IfOk, Ok, length, map};
ghost use Rattle.bauthor.specs.AuthorFiles.{lines_of, read_from};
ghost use Rattle.bauthor.specs.NameFiles.{Fails, function_wanted, labels_from, name_read, names_read, names_wanted};
ghost use Rattle.bauthor.specs.NameFiles.{parts_wanted, words_from};
ghost use Rattle.bauthor.specs.Readers.{Advances, read_by};
ghost use Rattle.bauthor.specs.declared.fault.Wanted.TheVariants as wanted;

use crate::fault::{NameFault, Wanted};
use crate::line::{NameLine, read_line};
use crate::splitting::{is_over, split_lines};
use blang::{Definition, FunctionParts};
use bword::Name;
use std::alloc::Global;

/// Reads the names of the words and labels of the functions of a code text of these definitions.
pub fn read_names(
    alloc: Global,
    file: &[u8],
    definitions: &[Definition],
) -> Result<Vec<NameLine>, NameFault>
    ensures ok { IfOk result (λ names. names_read file.now definitions.now ≡ Ok names.items) }
    ensures err { IfErr result (λ fault. Fails fault (names_read file.now definitions.now)) }
{
    match split_lines(alloc, file) {
        Ok(lines) => read_lines(alloc, lines.as_slice(), definitions),
        Err(_) => Err(NameFault::Memory),
    }
}

fn read_lines(
    alloc: Global,
    lines: &[&[u8]],
    definitions: &[Definition],
) -> Result<Vec<NameLine>, NameFault>
    ensures ok { IfOk result (λ names.
        read_from name_read wanted.End 1 (names_wanted definitions.now) (map (λ line. line.now) lines.now)
        ≡ Ok names.items) }
    ensures err { IfErr result (λ fault. Fails fault
        (read_from name_read wanted.End 1 (names_wanted definitions.now) (map (λ line. line.now) lines.now))) }
{
    let mut reader = Reader {
        names: Vec::new(alloc),
        lines,
        at: 0,
        number: 1,
    };
    match reader.take_all(definitions) {
        Ok(()) => reader.finish(),
        Err(fault) => Err(fault),
    }
}

// What was read of lines, how many of them, and the number of the next one.
#[derive(Drop)]
struct Reader<'a> {
    names: Vec<NameLine>,
    lines: &'a [&'a [u8]],
    at: usize,
    number: u64,
}

impl Reader<'_> {
    fn take_all(&mut self, definitions: &[Definition]) -> Result<(), NameFault>
        ensures { Advances (names_wanted definitions.now) self.old result self.new }
    {
        for definition in definitions {
            match self.take_definition(definition) {
                Ok(()) => {}
                Err(NameFault::Line(number, wanted)) => return Err(NameFault::Line(number, wanted)),
                Err(NameFault::Memory) => return Err(NameFault::Memory),
            }
        }
        Ok(())
    }

    fn take_definition(&mut self, definition: &Definition) -> Result<(), NameFault>
        ensures { Advances (function_wanted definition.now) self.old result self.new }
    {
        match definition {
            Definition::Function(function) => self.take_function(function.parts()),
            Definition::Simple(_) | Definition::Vector(_) => Ok(()),
        }
    }

    fn take_function(&mut self, parts: &FunctionParts) -> Result<(), NameFault>
        ensures { Advances (parts_wanted parts.now.name parts.now.frame (length parts.now.targets.items))
            self.old result self.new }
    {
        match self.take(Wanted::Function(parts.name)) {
            Ok(()) => self.take_parts(parts),
            Err(fault) => Err(fault),
        }
    }

    fn take_parts(&mut self, parts: &FunctionParts) -> Result<(), NameFault>
        ensures { Advances (words_from parts.now.name 0 parts.now.frame
            ++ labels_from parts.now.name 0 (length parts.now.targets.items)) self.old result self.new }
    {
        match self.take_words(parts.name, parts.frame) {
            Ok(()) => self.take_labels(parts.name, parts.targets.len()),
            Err(fault) => Err(fault),
        }
    }

    fn take_words(&mut self, function: Name, frame: u16) -> Result<(), NameFault>
        ensures { Advances (words_from function 0 frame) self.old result self.new }
    {
        for word in 0..frame {
            match self.take(Wanted::Word(function, word)) {
                Ok(()) => {}
                Err(fault) => return Err(fault),
            }
        }
        Ok(())
    }

    fn take_labels(&mut self, function: Name, labels: usize) -> Result<(), NameFault>
        ensures { Advances (labels_from function 0 labels) self.old result self.new }
    {
        for label in 0..labels {
            match self.take(Wanted::Label(function, label)) {
                Ok(()) => {}
                Err(fault) => return Err(fault),
            }
        }
        Ok(())
    }

    // The next line, if it is what is wanted.
    fn take(&mut self, wanted: Wanted) -> Result<(), NameFault>
        ensures { Advances (wanted ∷ []) self.old result self.new }
    {
        let Some(line) = self.lines.get(self.at) else {
            return Err(NameFault::Line(self.number, wanted));
        };
        let Some(found) = read_line(line) else {
            return Err(NameFault::Line(self.number, wanted));
        };
        if !wanted.suits(&found) {
            return Err(NameFault::Line(self.number, wanted));
        }
        let Some(next) = self.number.checked_add(1) else {
            return Err(NameFault::Memory);
        };
        if self.names.push(found).is_err() {
            return Err(NameFault::Memory);
        }
        self.number = next;
        self.at += 1;
        Ok(())
    }

    // The names, if nothing comes after the last newline.
    fn finish(self) -> Result<Vec<NameLine>, NameFault>
        ensures ok { IfOk result (λ names. read_by self.entry [] ≡ Ok names.items) }
        ensures err { IfErr result (λ fault. Fails fault (read_by self.entry [])) }
    {
        if is_over(self.lines.get(self.at..).unwrap_or(&[])) {
            Ok(self.names)
        } else {
            Err(NameFault::Line(self.number, Wanted::End))
        }
    }
}
