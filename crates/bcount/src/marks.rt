//! The costliest lines.
ghost use Rattle.std.specs.Prelude.{◌≡◌, ◌==◌, ◌<◌, IfOk, IfSome, OnOk, length, nat_lt, take};
ghost use Rattle.std.specs.List.{list_any, position};
ghost use Rattle.bcount.specs.Marks.{marks_of, inserted};

use crate::lines::LineCount;
use std::alloc::{AllocError, Global};

/// How many lines are marked.
const MARKED: usize = 3;

/// A line by the number of those before it, and how many steps its code took.
#[derive(Clone, Copy)]
pub struct MarkedLine {
    pub index: usize,
    pub steps: u64,
}

/// The lines that took most steps, the costliest first.
pub fn marks_of(alloc: Global, lines: &[LineCount]) -> Result<Vec<MarkedLine>, AllocError>
    ensures { IfOk result (λ v. v.items ≡ marks_of lines.now) }
{
    let mut marks = Vec::new(alloc);
    for index in 0..lines.len() {
        let steps = lines[index].steps;
        if steps > 0 {
            place(&mut marks, MarkedLine { index, steps })?;
        }
    }
    Ok(marks)
}

// Puts a line before the first one that took fewer steps, and lets go of the last one if there are too many.
fn place(marks: &mut Vec<MarkedLine>, mark: MarkedLine) -> Result<(), AllocError>
    ensures { OnOk result (marks.new.items ≡ take MARKED (inserted mark marks.old.items)) }
{
    let cheaper = cheaper(marks, mark.steps);
    marks.insert(cheaper.unwrap_or(marks.len()), mark)?;
    marks.truncate(MARKED);
    Ok(())
}

// The first line that took fewer steps.
fn cheaper(marks: &[MarkedLine], steps: u64) -> Option<usize>
    ensures value { result ≡ position (λ m. nat_lt m.steps steps) marks.now }
    ensures within { IfSome result (λ n. n < length marks.now) }
{
    marks.iter().position(|mark| mark.steps < steps)
}

/// Whether a line is one of them.
pub fn is_marked(marks: &[MarkedLine], index: usize) -> bool
    ensures { result ≡ list_any (λ m. m.index == index) marks.now }
{
    marks.iter().any(|mark| mark.index == index)
}
