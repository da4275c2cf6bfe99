//! What is told of a program beside its run.
ghost use Rattle.std.specs.Prelude.{◌≡◌, ◌++◌, OnOk};
ghost use Rattle.btrace.specs.RowTexts.{legend_of, line_text};

use bsources::SourceFiles;
use btools::{Tables, Text, push_file};
use std::alloc::AllocError;

/// The functions of a program, and the files of its source.
#[derive(Clone, Copy)]
pub struct Legend<'a, 'b, 'c> {
    pub tables: &'a Tables<'b>,
    pub files: SourceFiles<'c>,
}

/// Adds the number of a line, at the right of a column. For a line after the first file it is that in its own file,
/// whose name follows.
pub fn push_line(
    text: &mut Text,
    width: usize,
    legend: &Legend<'_, '_, '_>,
    line: u64,
) -> Result<(), AllocError>
    ensures { OnOk result (text.new ≡ text.old ++ line_text width (legend_of legend.now).files line) }
{
    match legend.files.beyond_first(line) {
        None => text.push_right_number(width, line),
        Some(at) => {
            text.push_right_number(width, at.line)?;
            text.push(b" of ")?;
            push_file(text, at.file.as_bytes())
        }
    }
}
