//! What is told of a function, and of a definition.
ghost use Rattle.std.specs.Prelude.{◌≡◌, option_map};
ghost use Rattle.blang.specs.Layout.{shape_of};
ghost use Rattle.btools.specs.Functions.{instr_in, kind_text, name_in, placed_entry};

use crate::tables::FunctionEntry;
use blang::{Definition, Instr};

/// The name of a function.
pub fn name_of<'a>(entry: Option<FunctionEntry<'a>>) -> &'a [u8]
    ensures { result.now ≡ name_in (option_map placed_entry entry.entry) }
{
    match entry {
        Some(entry) => entry.parts.name.as_bytes(),
        None => b"",
    }
}

/// The instruction at a place of a function.
pub fn instr_at(entry: Option<FunctionEntry<'_>>, place: usize) -> Option<Instr>
    ensures { result ≡ instr_in (option_map placed_entry entry.entry) place }
{
    match entry {
        Some(entry) => entry.parts.code.get(place).copied(),
        None => None,
    }
}

/// What a definition is, in a word.
pub fn kind_name(definition: &Definition) -> &'static [u8]
    ensures { result.now ≡ kind_text (shape_of definition.now).kind }
{
    match definition {
        Definition::Function(_) => b"function",
        Definition::Simple(_) => b"simple",
        Definition::Vector(_) => b"vector",
    }
}
