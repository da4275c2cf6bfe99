//! What the compiler of an author writes beside a code text.
#![tactic(auto)]

mod fault;
mod line;
mod number;
mod place_line;
mod place_lines;
mod reading;
mod splitting;

ghost use Rattle.bauthor.specs.Written.{WrittenLinesAreRead, WrittenNamesAreRead};

pub use fault::{LineFault, LineWanted, NameFault, Wanted};
pub use line::NameLine;
pub use place_line::PlaceLine;
pub use place_lines::{places_of, read_place_lines};
pub use reading::read_names;

/// A file of names is read just where it is written so: what it says is read, and what is read stands in it.
pub fn written_names_are_read()
    ensures { WrittenNamesAreRead }
{}

/// The same of a file of lines.
pub fn written_lines_are_read()
    ensures { WrittenLinesAreRead }
{}
