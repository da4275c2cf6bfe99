//! The steps of the rows of a page, and the rows that are spelled.
ghost use Rattle.std.specs.Prelude.{◌≡◌, ◌+◌, ◌-◌, ◌≤◌, ◌++◌, ◌∷◌, [], OnOk, length, slice_index};
ghost use Rattle.std.specs.List.{flat_map, range_with_len};
ghost use Rattle.bwatch.specs.Sights.{sight_at};
ghost use Rattle.bwatch.specs.Trails.{last_of};
ghost use Rattle.bshow.specs.Rows.{LinedCode, table_code};
ghost use Rattle.bshow.specs.Steps.{DidSo, KeepsRow, KnowsStep, begun_cells, idle_cells, seen_cells};

use crate::rows::{
    push_code_cell, push_done, push_number_cell, push_step_cell, push_text_cell, push_words,
    push_words_cell,
};
use bmach::{Active, Stepper};
use btools::{Tables, Text, instr_at, name_of};
use bwatch::TraceRows;
use bword::Store;
use std::alloc::{AllocError, Global};
use std::collections::VecDeque;
use std::mem;
use std::ops::Range;

/// A step, of which its row is spelled: the machine before it, and what it did.
#[derive(Drop)]
pub struct SeenStep {
    /// How many steps were made before it.
    made: u64,
    call: Active,
    operands: Vec<u16>,
    below: u64,
    /// The addresses of the words that it stores, and the words there before it and after it.
    addresses: Range<u32>,
    before: Vec<u16>,
    stored: Vec<u16>,
    read: Vec<u8>,
    written: Vec<u8>,
}

impl SeenStep {
    /// A step that is still to be seen.
    pub fn new(alloc: Global) -> Self {
        SeenStep {
            made: 0,
            call: Active {
                strings: 0,
                parameters: 0,
                place: 0,
                start: 0,
            },
            operands: Vec::new(alloc),
            below: 0,
            addresses: 0..0,
            before: Vec::new(alloc),
            stored: Vec::new(alloc),
            read: Vec::new(alloc),
            written: Vec::new(alloc),
        }
    }

    /// Becomes the step after so many, before it is made.
    pub fn see<S: Store + Drop>(
        &mut self,
        stepper: &Stepper<'_, S>,
        made: u64,
    ) -> Result<(), AllocError>
        ensures { OnOk result (KnowsStep self.new (made + 1) (sight_at stepper.now [])) }
    {
        self.made = made;
        self.call = stepper.top();
        self.below = stepper.callers() as u64;
        self.addresses = stepper.stored();
        self.operands.clear();
        self.operands.extend_from_slice(stepper.operands())?;
        self.before.clear();
        push_words(&mut self.before, stepper, &self.addresses)
    }

    /// Tells what it did, after it was made.
    pub fn did<S: Store + Drop>(
        &mut self,
        stepper: &Stepper<'_, S>,
        read: &[u8],
        written: &[u8],
    ) -> Result<(), AllocError>
        ensures { OnOk result (DidSo self.old stepper.now.store read.now written.now self.new) }
    {
        self.stored.clear();
        push_words(&mut self.stored, stepper, &self.addresses)?;
        self.read.clear();
        self.read.extend_from_slice(read)?;
        self.written.clear();
        self.written.extend_from_slice(written)
    }

    /// Has stored, read and written nothing, as the step by which a run is over.
    pub fn did_nothing(&mut self)
        ensures { (code : LinedCode) → seen_cells code self.new ≡ idle_cells code self.old }
    {
        self.addresses = 0..0;
        self.before.clear();
        self.stored.clear();
        self.read.clear();
        self.written.clear();
    }

    /// Adds the cells that tell the machine before it.
    pub fn push_call(&self, text: &mut Text, tables: &Tables<'_>) -> Result<(), AllocError>
        ensures { OnOk result (text.new ≡ text.old ++ begun_cells (table_code tables.now) self.now) }
    {
        let entry = tables.entry(self.call.strings);
        let line = tables.line(entry, self.call.place);
        text.push(b"<tr>")?;
        push_step_cell(text, self.made)?;
        push_text_cell(text, name_of(entry))?;
        push_number_cell(text, self.call.place as u64)?;
        push_number_cell(text, line)?;
        push_code_cell(text, instr_at(entry, self.call.place))?;
        push_words_cell(text, self.operands.as_slice())?;
        push_number_cell(text, self.below)?;
        push_number_cell(text, u64::from(self.call.start))
    }

    /// Adds its row.
    pub fn push(&self, text: &mut Text, tables: &Tables<'_>) -> Result<(), AllocError>
        ensures { OnOk result (text.new ≡ text.old ++ seen_cells (table_code tables.now) self.now) }
    {
        self.push_call(text, tables)?;
        push_done(
            text,
            first_of(&self.addresses),
            self.before.as_slice(),
            self.stored.as_slice(),
            self.read.as_slice(),
            self.written.as_slice(),
        )
    }
}

/// The rows of a page: those that are spelled, and the steps of those that aren't.
#[derive(Drop)]
pub struct KeptRows {
    /// The head of the page, and its rows, but for the last ones where only those are kept; in the end the page.
    pub page: Text,
    /// The last steps, where only those have a row.
    pub last: VecDeque<SeenStep>,
    /// The step that is being made, if it has a row.
    pub step: SeenStep,
}

impl KeptRows {
    /// Keeps the step that was made, and lets go of the oldest one if there are too many.
    pub fn keep(
        &mut self,
        alloc: Global,
        tables: &Tables<'_>,
        which: TraceRows,
    ) -> Result<(), AllocError>
        ensures { OnOk result (KeepsRow (table_code tables.now) which (seen_cells (table_code tables.now) self.old.step)
            self.old self.new) }
    {
        match which {
            TraceRows::From(_) => self.step.push(&mut self.page, tables),
            TraceRows::Last(count) => self.keep_last(alloc, count),
        }
    }

    // The memory of the oldest step is that of the next one.
    fn keep_last(&mut self, alloc: Global, count: u64) -> Result<(), AllocError>
        ensures { OnOk result ((self.new.page ≡ self.old.page) × (length self.old.last.items ≤ count
            → self.new.last.items ≡ last_of count (self.old.last.items ++ self.old.step ∷ []))) }
    {
        let step = mem::replace(&mut self.step, SeenStep::new(alloc));
        self.last.push_back(step)?;
        if self.last.len() as u64 > count {
            if let Some(oldest) = self.last.pop_front() {
                self.step = oldest;
            }
        }
        Ok(())
    }
}

/// Adds the rows of these steps.
#[tactic(auto, using(crate::proofs::FactParts::one_row))]
pub fn push_steps(
    page: &mut Text,
    steps: &VecDeque<SeenStep>,
    tables: &Tables<'_>,
) -> Result<(), AllocError>
    ensures { OnOk result (page.new ≡ page.old ++ flat_map (seen_cells (table_code tables.now)) steps.now.items) }
{
    for step in steps {
        step.push(page, tables)?;
    }
    Ok(())
}

// The first of these addresses, or 0 where there is none.
fn first_of(addresses: &Range<u32>) -> u32
    ensures { result ≡ slice_index (range_with_len addresses.now.start (addresses.now.end - addresses.now.start)) 0 }
{
    if addresses.start < addresses.end {
        addresses.start
    } else {
        0
    }
}
