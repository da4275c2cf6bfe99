//! The texts that follow the first one of a source.
ghost use Rattle.std.specs.Prelude.{◌≡◌, ◌==◌, ◌≤◌, ◌+◌, [], ◌∷◌, ◌++◌, List, OnOk, length, map, option_map};
ghost use Rattle.bsources.specs.FileLines.{NamedText, followed, later_shown, line_among, line_shown};
ghost use Rattle.bsources.specs.OwnLines.{IsPlaceOf, ends_of, start_of};

use crate::{FileLine, SourceFile};
use std::alloc::{AllocError, Global};
use std::marker::Model;

/// A file that follows the first one of a source.
#[derive(Clone, Copy)]
pub struct LaterFile<'a> {
    pub file: SourceFile<'a>,
    /// The number of its last line, counted from the first line after the first file on.
    pub end: u64,
}

/// The texts that follow the first one of a source, each after a newline, and their files.
#[derive(Drop)]
pub struct Following<'a> {
    text: Vec<u8>,
    files: Vec<LaterFile<'a>>,
    lines: u64,
}

impl<'a> Model for Following<'a> {
    ghost use Rattle.std.specs.Prelude.{map};
    ghost use Rattle.bsources.specs.FileLines.{Followed, later_shown};
    ghost use Rattle.bsources.specs.OwnLines.{HasEnds};

    ghost Value = { Followed };

    ghost view = { λ f. record { text = f.text.items; files = map later_shown f.files.items } };

    ghost invariant = { λ f. HasEnds f.files.items f.lines };
}

impl<'a> Following<'a> {
    /// No text; it takes no memory yet.
    pub fn new(alloc: Global) -> Self
        ensures { result ≡ followed [] }
    {
        Following {
            text: Vec::new(alloc),
            files: Vec::new(alloc),
            lines: 0,
        }
    }

    /// Adds the text of a file.
    pub fn push(&mut self, name: &'a str, text: &[u8]) -> Result<(), AllocError>
        ensures { (texts : List NamedText) → self.old ≡ followed texts
            → OnOk result (self.new ≡ followed (texts ++ record { name = name.now; text = text.now } ∷ [])) }
    {
        self.text.push(b'\n')?;
        self.text.extend_from_slice(text)?;
        let file = SourceFile::new(name, text);
        // No memory holds so many lines.
        let Some(end) = self.lines.checked_add(file.lines) else {
            return Err(AllocError);
        };
        self.files.push(LaterFile { file, end })?;
        self.lines = end;
        Ok(())
    }

    /// Their bytes, each text after a newline.
    pub fn text(&self) -> &[u8]
        ensures { result.now ≡ self.now.text }
    {
        self.text.as_slice()
    }

    /// Their files.
    pub fn files(&self) -> &[LaterFile<'a>]
        ensures { map later_shown result.now ≡ self.now.files }
    {
        self.files.as_slice()
    }

    /// Whether there are none.
    pub fn is_empty(&self) -> bool
        ensures { result ≡ (length self.now.files == 0) }
    {
        self.files.is_empty()
    }

    /// In which of their files a line lies, and its number there, where lines are counted from the first one on.
    pub(crate) fn own_line(&self, line: u64) -> Option<FileLine<'a>>
        ensures { option_map line_shown result ≡ line_among self.now.files line }
    {
        let files = self.files.as_slice();
        let last = files.len().checked_sub(1)?;
        let place = place_of(files, line, last);
        Some(FileLine {
            file: files[place].file.name,
            line: line - start_of(files, place),
        })
    }
}

// How many lines come before the file at a place.
fn start_of(files: &[LaterFile<'_>], place: usize) -> u64
    requires { place ≤ length files.now }
    ensures { result ≡ start_of (ends_of files.now) place }
{
    if place == 0 {
        return 0;
    }
    files[place - 1].end
}

// The place of the file of a line: the first whose end isn't before it, or the last one.
fn place_of(files: &[LaterFile<'_>], line: u64, last: usize) -> usize
    requires { last + 1 ≡ length files.now }
    ensures { IsPlaceOf (ends_of files.now) line last result }
{
    let (mut low, mut high) = (0, last);
    while low < high {
        let middle = low + (high - low) / 2;
        if line <= files[middle].end {
            high = middle;
        } else {
            low = middle + 1;
        }
    }
    low
}
