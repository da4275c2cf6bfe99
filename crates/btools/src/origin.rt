//! What a program is read from.
ghost use Rattle.std.specs.Prelude.{◌≡◌};
ghost use Rattle.btools.specs.Origins.{beside, origin_shown};

use bword::Edition;

/// What a program is read from.
#[derive(Clone, Copy)]
pub enum Origin<'a> {
    /// A source of B, in this edition.
    Source(Edition),
    /// A code text, made by any compiler.
    Code(CodeText<'a>),
}

/// A code text, and what its author gives beside it.
#[derive(Clone, Copy)]
pub struct CodeText<'a> {
    pub code: &'a [u8],
    /// A file with the line of each place on a line of its own, and its column after a blank, if that is told. Without
    /// it the lines are those of the code text.
    pub lines: Option<&'a [u8]>,
    /// The source that has these lines, if it is known. No number is above that of its last line.
    pub source: Option<&'a [u8]>,
    /// A file of the names of the words and labels of its functions. Without it they have none.
    pub names: Option<&'a [u8]>,
}

impl Origin<'_> {
    /// What stands beside the lines of a program: its source, and nothing beside the own lines of a code text.
    pub fn beside(self, source: &[u8]) -> &[u8]
        ensures { result.now ≡ beside (origin_shown self.entry) source.now }
    {
        match self {
            Origin::Source(_) => source,
            Origin::Code(text) => match text.lines {
                Some(_) => source,
                None => b"",
            },
        }
    }
}
