//! Places of a source, found from the left.
ghost use Rattle.std.specs.Prelude.{◌≡◌, ◌≤◌, IfOk, length};
ghost use Rattle.bnaming.specs.Spots.{IsMark, spot_at};

use bplaces::{UnitPlace, next_column, next_line};
use std::alloc::AllocError;

/// A place: its line, and its columns in bytes and in units of UTF-16, from 1.
#[derive(Clone, Copy)]
pub(crate) struct Spot {
    pub line: u32,
    pub column: u32,
    pub unit: u32,
}

/// How far a source was read.
#[derive(Clone, Copy)]
pub(crate) struct Mark {
    pub at: usize,
    pub line: u64,
    pub column: usize,
    pub units: UnitPlace,
}

impl Mark {
    /// The beginning.
    pub(crate) fn first(source: &[u8]) -> Self
        ensures is { IsMark source.now result }
        ensures at { result.at ≡ 0 }
    {
        let _ = source;
        Mark {
            at: 0,
            line: 1,
            column: 1,
            units: UnitPlace::first(),
        }
    }

    /// The mark at a later place.
    pub(crate) fn to(self, source: &[u8], place: usize) -> Self
        requires is { IsMark source.now self }
        requires after { self.at ≤ place }
        requires within { place ≤ length source.now }
        ensures is { IsMark source.now result }
        ensures at { result.at ≡ place }
    {
        let Mark {
            mut line,
            mut column,
            mut units,
            ..
        } = self;
        for index in self.at..place {
            line = next_line(line, source[index]);
            column = next_column(column, source[index]);
            units = units.after(source[index], &source[index + 1..]);
        }
        Mark {
            at: place,
            line,
            column,
            units,
        }
    }

    /// Where that is. A place beyond these numbers, in a line of more than 4 GB, is refused as memory is.
    pub(crate) fn spot(self, source: &[u8]) -> Result<Spot, AllocError>
        requires { IsMark source.now self }
        ensures { IfOk result (λ s. s ≡ spot_at source.now self.at) }
    {
        let _ = source;
        let largest = u32::MAX as usize;
        if self.line > u64::from(u32::MAX) || self.column > largest || self.units.column > largest {
            return Err(AllocError);
        }
        Ok(Spot {
            line: self.line as u32,
            column: self.column as u32,
            unit: self.units.column as u32,
        })
    }
}
