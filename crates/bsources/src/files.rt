//! The files of a source, and their lines.
ghost use Rattle.std.specs.Prelude.{◌≡◌, option_map};
ghost use Rattle.bsources.specs.Files.{beyond_first, file_of, file_shown, files_shown, line_shown, own_line};
ghost use Rattle.bsources.specs.OwnLines.{LinesLieInTheirFiles};

use crate::Following;
use memchr::memchr_iter;

/// A file of a source: its name, and how many lines it has.
#[derive(Clone, Copy)]
pub struct SourceFile<'a> {
    pub name: &'a str,
    /// A newline ends a line; the line after the last one counts, too, also where it is empty.
    pub lines: u64,
}

/// A line of a file, from 1.
#[derive(Clone, Copy)]
pub struct FileLine<'a> {
    pub file: &'a str,
    pub line: u64,
}

/// The files of a source: the first one, and those that come after it, each after a newline.
#[derive(Clone, Copy)]
pub struct SourceFiles<'a> {
    pub first: SourceFile<'a>,
    pub rest: &'a Following<'a>,
}

impl<'a> SourceFile<'a> {
    /// The file of a name, with this text.
    pub fn new(name: &'a str, text: &[u8]) -> Self
        ensures { file_shown result ≡ file_of name.now text.now }
    {
        SourceFile {
            name,
            lines: memchr_iter(b'\n', text).count() as u64 + 1,
        }
    }
}

impl<'a> SourceFiles<'a> {
    /// In which file a line of the whole lies, and its number there. Lines are counted from 1; those after the last
    /// file's are its own.
    pub fn own_line(&self, line: u64) -> FileLine<'a>
        ensures { line_shown result ≡ own_line (files_shown self.now) line }
    {
        match self.beyond_first(line) {
            Some(at) => at,
            None => FileLine {
                file: self.first.name,
                line,
            },
        }
    }

    /// The same for a line after the first file, and `None` for one of the first file.
    pub fn beyond_first(&self, line: u64) -> Option<FileLine<'a>>
        ensures { option_map line_shown result ≡ beyond_first (files_shown self.now) line }
    {
        if line <= self.first.lines {
            return None;
        }
        self.rest.own_line(line - self.first.lines)
    }
}

/// The line of each place of a source is told as the file in whose text the place is, and the line there.
pub fn lines_lie_in_their_files()
    ensures { LinesLieInTheirFiles }
{}
