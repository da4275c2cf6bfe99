//! The source lines of a definition, while it is made.
ghost use Rattle.std.specs.Prelude.{◌≡◌, ◌≤◌, length};
ghost use Rattle.blang.specs.declared.limits.TheConstants.{MAX_INSTRUCTIONS};
ghost use Rattle.bemit.specs.Trails.{no_lines, padded, filled_to, noted_at};

use arrayvec::ArrayVec;
use blang::MAX_INSTRUCTIONS;
use std::marker::Model;

/// The source line of each instruction of a definition, or of each of its initial values.
///
/// A line is noted with a place. What is made from there on is of this line, up to the place that is noted next.
#[derive(Drop)]
pub struct LineTable {
    // The lines of what was made up to the last note.
    lines: ArrayVec<u64, MAX_INSTRUCTIONS>,
    // The line that was noted last.
    line: u64,
}

impl Model for LineTable {
    ghost use Rattle.bemit.specs.Trails.{Lines};

    ghost Value = { Lines };

    ghost view = { λ t. record { lines = t.lines.items; line = t.line } };
}

impl LineTable {
    /// A table without lines.
    pub fn new() -> Self
        ensures { result ≡ no_lines }
    {
        LineTable {
            lines: ArrayVec::new(),
            line: 0,
        }
    }

    /// Forgets all lines, for the next definition.
    pub fn clear(&mut self)
        ensures { self.new ≡ no_lines }
    {
        self.lines.clear();
        self.line = 0;
    }

    /// What was made up to this place, since the last note, is of the line of that.
    pub fn fill(&mut self, place: u16)
        requires { place ≤ MAX_INSTRUCTIONS }
        ensures { self.new ≡ filled_to place self.old }
    {
        fill(&mut self.lines, usize::from(place), self.line);
    }

    /// What is made from this place on is of this line.
    pub fn note(&mut self, place: u16, line: u64)
        requires { place ≤ MAX_INSTRUCTIONS }
        ensures { self.new ≡ noted_at place line self.old }
    {
        self.fill(place);
        self.line = line;
    }

    /// The lines of what was made up to the place that was noted or filled to last.
    pub fn lines(&self) -> &[u64]
        ensures lines { result.now ≡ self.now.lines }
        ensures few { length result.now ≤ MAX_INSTRUCTIONS }
    {
        self.lines.as_slice()
    }
}

// Adds this line until there are so many lines at least.
fn fill(lines: &mut ArrayVec<u64, MAX_INSTRUCTIONS>, count: usize, line: u64)
    requires { count ≤ MAX_INSTRUCTIONS }
    ensures { lines.new.items ≡ padded count line lines.old.items }
{
    while lines.len() < count {
        lines.push(line);
    }
}
