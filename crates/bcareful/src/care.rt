//! What is asked of a careful run.
ghost use Rattle.std.specs.Prelude.{◌≡◌};
ghost use Rattle.bcareful.specs.Runs.{finds_wraps, stays};

use bsources::SourceFiles;
use btools::Origin;

/// What a run does about its findings.
#[derive(Clone, Copy)]
pub enum Care {
    /// It stays at the first one.
    Stays,
    /// The same, and it is a finding, too, where the sum, the difference or the product of two numbers is none from
    /// -32768 to 32767.
    Wraps,
    /// It goes on. In the end all findings are told, each place once, unless a read or a write failed, or memory ran
    /// out.
    Warns,
}

impl Care {
    pub fn stays(self) -> bool
        ensures { result ≡ stays self }
    {
        match self {
            Care::Stays | Care::Wraps => true,
            Care::Warns => false,
        }
    }

    pub fn finds_wraps(self) -> bool
        ensures { result ≡ finds_wraps self }
    {
        match self {
            Care::Wraps => true,
            Care::Stays | Care::Warns => false,
        }
    }
}

/// A program that is run carefully, for at most so many steps.
#[derive(Clone, Copy)]
pub struct CarefulRequest<'a> {
    /// What it is read from.
    pub origin: Origin<'a>,
    /// The files of the source.
    pub files: SourceFiles<'a>,
    pub care: Care,
    pub steps: u64,
}
