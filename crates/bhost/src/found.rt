//! A function of a program in memory, for which no memory is asked.
ghost use Rattle.std.specs.Prelude.{◌≡◌, ◌≤◌, find, map, option_map, ◌==◌};
ghost use Rattle.blang.specs.Layout.{data_end, shape_of};
ghost use Rattle.btools.specs.Functions.{function_with, functions_of, name_in};
ghost use Rattle.btools.specs.ProgramLines.{line_in, lined_functions, lines_with};
ghost use Rattle.bhost.specs.FoundFunctions.{columned_found, function_in, lined_found, lines_in, placed_found};

use blang::{Definition, FunctionParts};
use bmach::{FIRST_ADDRESS, size_of};
use btools::{Program, split_lines};

/// A function, with what is kept of its instructions.
#[derive(Clone, Copy)]
pub(crate) struct Found<'a> {
    /// The address of its first string word.
    strings: u32,
    pub(crate) parts: &'a FunctionParts,
    lines: &'a [u64],
    columns: &'a [u64],
}

/// The function whose string words begin there.
pub(crate) fn function_at(program: &Program, strings: u32) -> Option<Found<'_>>
    requires { data_end (map shape_of program.now.definitions.items) ≤ 65536 }
    ensures function { option_map placed_found result
        ≡ function_with (functions_of program.now.definitions.items) strings }
    ensures lines { option_map lined_found result
        ≡ lines_with (lined_functions program.now.definitions.items program.now.names.lines.items) strings }
    ensures columns { option_map columned_found result
        ≡ lines_with (lined_functions program.now.definitions.items program.now.columns.items) strings }
{
    let mut found = None;
    let mut address = u32::from(FIRST_ADDRESS);
    let mut lines = program.names.lines.as_slice();
    let mut columns = program.columns.as_slice();
    for definition in &program.definitions {
        let (own, later) = split_lines(lines, definition);
        let (own_columns, later_columns) = split_lines(columns, definition);
        found = found.or(function_in(definition, address, strings, own, own_columns));
        address += u32::from(size_of(definition));
        lines = later;
        columns = later_columns;
    }
    found
}

// The function that a definition at an address is, if its string words begin there.
fn function_in<'a>(
    definition: &'a Definition,
    address: u32,
    strings: u32,
    lines: &'a [u64],
    columns: &'a [u64],
) -> Option<Found<'a>>
    requires { address ≤ 65536 }
    ensures function { option_map placed_found result
        ≡ find (λ f. f.strings == strings) (function_in definition.now address) }
    ensures lines { option_map lined_found result
        ≡ find (λ f. f.strings == strings) (lines_in definition.now address lines.now) }
    ensures columns { option_map columned_found result
        ≡ find (λ f. f.strings == strings) (lines_in definition.now address columns.now) }
{
    match definition {
        Definition::Function(function) if address + 1 == strings => Some(Found {
            strings,
            parts: function.parts(),
            lines,
            columns,
        }),
        _ => None,
    }
}

/// The line of an instruction, or 0 where none is known.
pub(crate) fn line_at(found: Option<Found<'_>>, place: usize) -> u64
    ensures { result ≡ line_in (option_map lined_found found.entry) place }
{
    match found {
        Some(found) => found.lines.get(place).copied().unwrap_or(0),
        None => 0,
    }
}

/// The column of an instruction, or 0 where none is known.
pub(crate) fn column_at(found: Option<Found<'_>>, place: usize) -> u64
    ensures { result ≡ line_in (option_map columned_found found.entry) place }
{
    match found {
        Some(found) => found.columns.get(place).copied().unwrap_or(0),
        None => 0,
    }
}
