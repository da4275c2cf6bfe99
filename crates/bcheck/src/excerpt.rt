//! The piece of the source that is shown of a place.
ghost use Rattle.std.specs.List.{All};
ghost use Rattle.std.specs.Prelude.{◌≡◌, ◌+◌, ◌-◌, ◌<◌, ◌≤◌, IsTrue, drop, length, min, take};
ghost use Rattle.bword.specs.ByteEnds.{most};
ghost use Rattle.bcheck.specs.Checks.{is_in_line};
ghost use Rattle.bcheck.specs.Findings.{IsExcerpt, IsMilestone};
ghost use Rattle.bplaces.specs.Units.{units_after};

use crate::finding::Place;
use crate::places::{Milestone, parts, position};
use bplaces::UnitPlace;

/// The most bytes of a line of the source that are shown.
const SHOWN_BYTES: usize = 76;

/// How many bytes stand before a mark in a line that isn't shown from its beginning.
const BEFORE_MARK: usize = 38;

/// Where a place stands, the bytes of its line that are shown, before it and from it on, and how many are marked.
#[derive(Clone, Copy)]
pub(crate) struct Excerpt<'a> {
    pub line: u64,
    pub column: usize,
    pub left: &'a [u8],
    pub right: &'a [u8],
    pub marks: usize,
    /// The column, and the one after the marks, in units of UTF-16.
    pub unit: usize,
    pub unit_end: usize,
}

impl Excerpt<'_> {
    /// The column after the marks.
    pub(crate) fn mark_end(&self) -> u64
        ensures { result ≡ min (self.now.column + self.now.marks) most }
    {
        (self.column as u64).saturating_add(self.marks as u64)
    }
}

/// What is shown of a place of the source.
pub(crate) fn excerpt_at<'a>(
    source: &'a [u8],
    milestones: &[Milestone],
    place: &Place,
) -> Excerpt<'a>
    requires { All (IsMilestone source.now) milestones.now }
    ensures { IsExcerpt source.now place.now.start result }
{
    let (before, rest) = parts(source, place.start);
    let (line, column, units) = position(source, milestones, place.start);
    let len = place.len.max(1);
    let left_len = left_length(column, len, SHOWN_BYTES, BEFORE_MARK).min(before.len());
    let room = SHOWN_BYTES.saturating_sub(left_len);
    let (_, left) = before.split_at(before.len() - left_len);
    let (right, _) = rest.split_at(line_length(rest, room));
    let marks = len.min(room).max(1);
    Excerpt {
        line,
        column,
        left,
        right,
        marks,
        unit: units.column,
        unit_end: unit_end(units, rest, right, marks),
    }
}

// The column in units after so many marks, of which each after the end of what is shown has one.
fn unit_end(units: UnitPlace, rest: &[u8], right: &[u8], marks: usize) -> usize
    requires { length right.now ≤ length rest.now }
    ensures { result ≡ min ((units_after units (take (min marks (length right.now)) rest.now)
        (drop (min marks (length right.now)) rest.now)).column + (marks - length right.now)) most }
{
    let last = units.along(rest, marks.min(right.len()));
    last.column
        .saturating_add(marks.saturating_sub(right.len()))
}

/// How many bytes are shown before a place that has `len` itself: all, where both are no more than are shown, or else
/// at most this many.
pub(crate) fn left_length(column: usize, len: usize, shown: usize, most: usize) -> usize
    requires { 0 < column }
    ensures { result < column }
{
    let before = column - 1;
    if before.saturating_add(len) <= shown {
        before
    } else {
        before.min(most)
    }
}

/// How many bytes stand before the end of the line, up to so many.
pub(crate) fn line_length(rest: &[u8], most: usize) -> usize
    ensures within { result ≤ length rest.now }
    ensures in_line { IsTrue (is_in_line (take result rest.now)) }
{
    let end = rest.len().min(most);
    for index in 0..end {
        if rest[index] == b'\n' {
            return index;
        }
    }
    end
}
