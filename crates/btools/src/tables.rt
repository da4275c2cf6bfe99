//! What is known of the functions of a program.
ghost use Rattle.std.specs.Prelude.{◌<◌};
ghost use Rattle.std.specs.List.{AllPairs};

use crate::program::{Program, split_lines};
use blang::{Definition, FunctionParts};
use bmach::{FIRST_ADDRESS, size_of};
use std::alloc::{AllocError, Global};

/// A function of a program.
#[derive(Clone, Copy)]
pub struct FunctionEntry<'a> {
    /// The address of its first string word.
    pub strings: u32,
    pub parts: &'a FunctionParts,
    /// The lines of its instructions.
    lines: &'a [u64],
    /// Their columns; none at all where none are told.
    columns: &'a [u64],
}

/// The functions of a program, in order.
pub struct Tables<'a> {
    entries: Vec<FunctionEntry<'a>>,
    ghost in_order: { AllPairs (λ e f. e.strings < f.strings) entries.items },
}

// Not derived: a derived drop is compiled and proved once more in each crate that drops such tables.
impl Drop for Tables<'_> {
    fn drop(self) {
        let Tables { entries: _ } = self;
    }
}

impl<'a> Tables<'a> {
    ghost use Rattle.std.specs.Prelude.{◌≡◌, ◌≤◌, IfOk, map, option_map};
    ghost use Rattle.blang.specs.Layout.{data_end, shape_of};
    ghost use Rattle.btools.specs.ProgramLines.{columned_entry, columns_shown, line_in, lined_entry, lined_functions};
    ghost use Rattle.btools.specs.ProgramLines.{lines_shown, lines_with};
    ghost use Rattle.btools.specs.Functions.{LiesAt, entries_of, function_with, function_named, functions_of, placed_entry};

    pub fn new(alloc: Global, program: &'a Program) -> Result<Self, AllocError>
        requires { data_end (map shape_of program.now.definitions.items) ≤ 65536 }
        ensures functions { IfOk result (λ t. entries_of t ≡ functions_of program.now.definitions.items) }
        ensures lines { IfOk result (λ t. lines_shown t ≡ lined_functions program.now.definitions.items program.now.names.lines.items) }
        ensures columns { IfOk result (λ t.
            columns_shown t ≡ lined_functions program.now.definitions.items program.now.columns.items) }
    {
        let mut entries = Vec::new(alloc);
        let mut address = u32::from(FIRST_ADDRESS);
        let mut lines = program.names.lines.as_slice();
        let mut columns = program.columns.as_slice();
        for definition in &program.definitions {
            let (own, later) = split_lines(lines, definition);
            let (own_columns, later_columns) = split_lines(columns, definition);
            if let Definition::Function(function) = definition {
                let parts = function.parts();
                let strings = address + 1;
                entries.push(FunctionEntry {
                    strings,
                    parts,
                    lines: own,
                    columns: own_columns,
                })?;
            }
            address += u32::from(size_of(definition));
            lines = later;
            columns = later_columns;
        }
        Ok(Tables { entries })
    }

    /// The functions, in order.
    pub fn entries(&self) -> &[FunctionEntry<'a>]
        ensures { result.now ≡ self.now.entries.items }
    {
        self.entries.as_slice()
    }

    /// The number of the function whose string words begin there, from 0.
    pub fn position(&self, strings: u32) -> Option<usize>
        ensures { LiesAt self.now.entries.items strings result }
    {
        let mut low = 0;
        let mut size = self.entries.len();
        while size > 0 {
            let half = size / 2;
            let place = low + half;
            let entry = self.entries[place];
            if entry.strings == strings {
                return Some(place);
            }
            if entry.strings < strings {
                low = place + 1;
                size -= half + 1;
            } else {
                size = half;
            }
        }
        None
    }

    /// The function whose string words begin there.
    pub fn entry(&self, strings: u32) -> Option<FunctionEntry<'a>>
        ensures function { option_map placed_entry result ≡ function_with (entries_of self.now) strings }
        ensures lines { option_map lined_entry result ≡ lines_with (lines_shown self.now) strings }
        ensures columns { option_map columned_entry result ≡ lines_with (columns_shown self.now) strings }
    {
        match self.position(strings) {
            Some(place) => Some(self.entries[place]),
            None => None,
        }
    }

    /// The function of a name.
    pub fn named(&self, name: &str) -> Option<FunctionEntry<'a>>
        ensures { option_map placed_entry result ≡ function_named (entries_of self.now) name.now }
    {
        for entry in &self.entries {
            if entry.parts.name.as_str() == name {
                return Some(*entry);
            }
        }
        None
    }

    /// The line of an instruction of a function, or 0 where none is known.
    pub fn line(&self, entry: Option<FunctionEntry<'a>>, place: usize) -> u64
        ensures { result ≡ line_in (option_map lined_entry entry.entry) place }
    {
        match entry {
            Some(entry) => entry.lines.get(place).copied().unwrap_or(0),
            None => 0,
        }
    }

    /// The column of an instruction of a function, from 1 on, or 0 where none is known.
    pub fn column(&self, entry: Option<FunctionEntry<'a>>, place: usize) -> u64
        ensures { result ≡ line_in (option_map columned_entry entry.entry) place }
    {
        match entry {
            Some(entry) => entry.columns.get(place).copied().unwrap_or(0),
            None => 0,
        }
    }
}
