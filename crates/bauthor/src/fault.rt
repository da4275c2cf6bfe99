//! What the lines of a file of an author have to be, and what is wrong in one.
ghost use Rattle.std.specs.Prelude.{◌≡◌};
ghost use Rattle.bauthor.specs.LineFiles.{line_read};
ghost use Rattle.bauthor.specs.NameLines.{suits};
ghost use Rattle.bauthor.specs.Readers.{lines_shown};

use crate::line::NameLine;
use crate::place_line::{PlaceLine, place_read};
use bword::Name;

/// What a line of a file of names has to be.
#[derive(Clone, Copy)]
pub enum Wanted {
    /// The first one of a function of this name.
    Function(Name),
    /// One of a word of its frame, from 0 on.
    Word(Name, u16),
    /// One of a label of this function, from 0 on.
    Label(Name, usize),
    /// There has to be none.
    End,
}

impl Wanted {
    /// Whether a line is what is wanted. The first word of a frame is no further word of a vector.
    pub(crate) fn suits(&self, line: &NameLine) -> bool
        ensures { result ≡ suits self.now line.now }
    {
        match self {
            Wanted::Function(name) => match line {
                NameLine::Function(found) => name.as_bytes() == found.as_bytes(),
                _ => false,
            },
            Wanted::Word(_, word) => match line {
                NameLine::Word(_) => true,
                NameLine::More => *word > 0,
                _ => false,
            },
            Wanted::Label(_, _) => match line {
                NameLine::Label(_) => true,
                _ => false,
            },
            Wanted::End => false,
        }
    }
}

/// Why a file isn't one of the names of a code text.
#[derive(Clone, Copy)]
pub enum NameFault {
    /// The first wrong line, from 1 on, and what it has to be.
    Line(u64, Wanted),
    /// Memory ran out.
    Memory,
}

/// What a line of a file of lines has to be.
#[derive(Clone, Copy)]
pub enum LineWanted {
    /// A number up to this one, alone or with a column of it, for a place of the definition of this name, from
    /// 0 on.
    Number(u64, Name, usize),
    /// There has to be none.
    End,
}

impl LineWanted {
    /// How a line is read, where this is wanted.
    pub(crate) fn read(&self, source: Option<&[&[u8]]>, text: &[u8]) -> Option<PlaceLine>
        ensures { result ≡ line_read (lines_shown source.entry) self.now text.now }
    {
        match self {
            LineWanted::Number(last, _, _) => place_read(*last, source, text),
            LineWanted::End => None,
        }
    }
}

/// Why a file isn't one of the lines of a code text.
#[derive(Clone, Copy)]
pub enum LineFault {
    /// The first wrong line, from 1 on, and what it has to be.
    Line(u64, LineWanted),
    /// Memory ran out.
    Memory,
}
