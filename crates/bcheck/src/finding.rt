//! What was found, and where.
ghost use Rattle.std.specs.Prelude.{◌≡◌};
ghost use Rattle.bcheck.specs.Checks.{severity_word};

use crate::advice::Matter;
use crate::edit::Edit;
use crate::excerpt::Excerpt;
use crate::words::Words;
use bsources::FileLine;
use bword::Name;

/// The most findings that are told of a source, which is as many as a person reads.
pub(crate) const MOST_FINDINGS: usize = 100;

/// A piece of the source.
#[derive(Clone, Copy)]
pub(crate) struct Place {
    pub line: u64,
    /// The place of its first byte in the source, from 0.
    pub start: usize,
    /// How many bytes it has.
    pub len: usize,
}

/// What is said of a piece of the source.
#[derive(Clone, Copy)]
pub(crate) struct Finding {
    pub matter: Matter,
    /// The name that it is about, and another one that is meant perhaps.
    pub name: Option<Name>,
    pub other: Option<Name>,
    pub place: Place,
    /// A second place, of which it speaks.
    pub related: Option<Place>,
}

impl Finding {
    /// What speaks of no name and of no second place.
    pub(crate) fn new(matter: Matter, place: Place) -> Self
        ensures { result.matter ≡ matter }
    {
        Finding {
            matter,
            name: None,
            other: None,
            place,
            related: None,
        }
    }
}

/// The line and the columns of a second place.
#[derive(Clone, Copy)]
pub(crate) struct SecondPlace<'a> {
    pub at: FileLine<'a>,
    /// Whether the source has several files.
    pub is_of_several: bool,
    pub column: usize,
    /// The column in units of UTF-16.
    pub unit: usize,
}

/// What is told of a finding.
#[derive(Clone, Copy)]
pub(crate) struct Told<'a> {
    pub at: FileLine<'a>,
    pub excerpt: Excerpt<'a>,
    pub second: Option<SecondPlace<'a>>,
    pub severity: Severity,
    pub words: &'a Words,
    /// Edits that mend it.
    pub edits: &'a [Edit<'a>],
}

/// Whether a source is refused for what was found.
#[derive(Clone, Copy)]
pub(crate) enum Severity {
    Error,
    /// The source compiles and loads all the same.
    Warning,
}

impl Severity {
    /// How it is written.
    pub(crate) fn word(self) -> &'static [u8]
        ensures { result.now ≡ severity_word self }
    {
        match self {
            Severity::Error => b"error",
            Severity::Warning => b"warning",
        }
    }
}
