//! What is kept of the rows of a trace.
ghost use Rattle.std.specs.Prelude.{◌≡◌, [], IfOk, OnOk, drop};
ghost use Rattle.blang.specs.Reports.{Reported};
ghost use Rattle.blang.specs.declared.status.TheConstants.{DONE};
ghost use Rattle.bwatch.specs.Trails.{Keeps, KeepsIf, first_of, trail_text};

use blang::status::{self, Status};
use btools::{Text, tell};
use bword::ByteOut;
use std::alloc::{AllocError, Global};
use std::collections::VecDeque;
use std::mem;

/// Which of the steps have a row.
#[derive(Clone, Copy)]
pub enum TraceRows {
    /// Those from a number on; the first step has the number 1.
    From(u64),
    /// So many of the last ones.
    Last(u64),
}

impl TraceRows {
    /// The number of the first step that may have a row.
    pub fn first(self) -> u64
        ensures { result ≡ first_of self }
    {
        match self {
            TraceRows::From(number) => number,
            TraceRows::Last(_) => 1,
        }
    }
}

/// What is written of a run so far.
#[derive(Drop)]
pub struct Trail {
    /// The heading, and after it the rows, unless only the last ones are kept.
    pub text: Text,
    /// The last rows, where only those are kept.
    pub last: VecDeque<Text>,
    /// The row of the step that is being made, and at the end what comes after the rows.
    pub row: Text,
}

impl Trail {
    /// A heading, and no row yet.
    pub fn new(alloc: Global, heading: &[u8]) -> Result<Self, AllocError>
        ensures text { IfOk result (λ t. t.text ≡ heading.now) }
        ensures last { IfOk result (λ t. t.last.items ≡ []) }
        ensures row { IfOk result (λ t. t.row ≡ []) }
    {
        let mut text = Text::new(alloc);
        text.push(heading)?;
        Ok(Trail {
            text,
            last: VecDeque::new(alloc),
            row: Text::new(alloc),
        })
    }

    /// Keeps the row of a step that was made, and lets go of the oldest one if there are too many.
    pub fn keep(&mut self, alloc: Global, rows: TraceRows) -> Result<(), AllocError>
        ensures { OnOk result (Keeps rows self.old self.new) }
    {
        match rows {
            TraceRows::From(_) => {
                self.text.push(self.row.as_slice())?;
                self.row.clear();
            }
            TraceRows::Last(count) => {
                let row = mem::replace(&mut self.row, Text::new(alloc));
                self.last.push_back(row)?;
                if self.last.len() as u64 > count {
                    self.reuse_oldest();
                }
            }
        }
        Ok(())
    }

    /// The same of a row that is shown, and nothing of another one.
    pub fn keep_if(
        &mut self,
        is_shown: bool,
        alloc: Global,
        rows: TraceRows,
    ) -> Result<(), AllocError>
        ensures { OnOk result (KeepsIf is_shown rows self.old self.new) }
    {
        if is_shown {
            self.keep(alloc, rows)
        } else {
            Ok(())
        }
    }

    // Takes the oldest row away. Its memory is that of the next one.
    fn reuse_oldest(&mut self)
        requires { self.old.row ≡ [] }
        ensures text { self.new.text ≡ self.old.text }
        ensures last { self.new.last.items ≡ drop 1 self.old.last.items }
        ensures row { self.new.row ≡ [] }
    {
        if let Some(oldest) = self.last.pop_front() {
            self.row = oldest;
            self.row.clear();
        }
    }

    /// Writes the heading, the rows that are kept, and what comes after them.
    pub fn tell<O: ByteOut>(&self, out: &mut O) -> Status
        ensures told { Reported (trail_text self.now) DONE (O.outgoing out.old) (O.outgoing out.new) result }
        ensures same { O.lender out.new ≡ O.lender out.old }
    {
        let told = tell(self.text.as_slice(), status::DONE, out);
        if told != status::DONE {
            return told;
        }
        for index in 0..self.last.len() {
            let told = tell(self.last[index].as_slice(), status::DONE, out);
            if told != status::DONE {
                return told;
            }
        }
        tell(self.row.as_slice(), status::DONE, out)
    }
}
