//! How often each instruction of a program was made.
ghost use Rattle.std.specs.Prelude.{◌≡◌, ◌+◌, IfOk, List, ℕ, length, map, replicate};
ghost use Rattle.btools.specs.Functions.{LiesAt};
ghost use Rattle.bcount.specs.Tallies.{HasCounted, blank, bumped, noted, tallies_of};

use bmach::{Active, Stepper, Stop};
use btools::Tables;
use bwatch::Onlooker;
use bword::Store;
use std::alloc::{AllocError, Global};

/// A count for each instruction of each function, in order.
#[derive(Drop)]
pub struct Tallies<'a, 'b> {
    tables: &'a Tables<'b>,
    pub counts: Vec<Vec<u64>>,
    // The number of the function whose step was noted last.
    current: usize,
}

impl<'a, 'b> Tallies<'a, 'b> {
    /// No step was made yet.
    pub fn new(alloc: Global, tables: &'a Tables<'b>) -> Result<Self, AllocError>
        ensures counts { IfOk result (λ t. tallies_of t ≡ map blank tables.now.entries.items) }
        ensures tables { IfOk result (λ t. t.tables.now ≡ tables.now) }
    {
        let mut counts = Vec::new(alloc);
        for entry in tables.entries() {
            counts.push(zeros(alloc, entry.parts.code.len())?)?;
        }
        Ok(Tallies {
            tables,
            counts,
            current: 0,
        })
    }

    // Notes a step of a call.
    fn note(&mut self, call: Active)
        ensures counts { length self.old.counts.items ≡ length self.old.tables.now.entries.items
            → tallies_of self.new ≡ noted call.strings call.place self.old.tables.now.entries.items (tallies_of self.old) }
        ensures tables { self.new.tables ≡ self.old.tables }
    {
        if let Some(number) = self.number_of(call.strings) {
            self.current = number;
            if number < self.counts.len() {
                bump(&mut self.counts[number], call.place);
            }
        }
    }

    // The number of the function that has its string words there. Mostly it is that of the step before.
    fn number_of(&self, strings: u32) -> Option<usize>
        ensures { LiesAt self.now.tables.now.entries.items strings result }
    {
        let entries = self.tables.entries();
        if self.current < entries.len() && entries[self.current].strings == strings {
            return Some(self.current);
        }
        self.tables.position(strings)
    }
}

impl<'a, 'b> Onlooker for Tallies<'a, 'b> {
    ghost has_seen = { HasCounted };

    ghost awaits = { λ first now sights made. HasCounted first now sights (made + 1) };

    ghost has_told = { λ first now sights made result. HasCounted first now sights made };

    fn before<S: Store + Drop>(
        &mut self,
        stepper: &Stepper<'_, S>,
        _made: u64,
    ) -> Result<(), AllocError> {
        self.note(stepper.top());
        Ok(())
    }

    fn after<S: Store + Drop>(
        &mut self,
        _stepper: &Stepper<'_, S>,
        _made: u64,
        _written: &[u8],
    ) -> Result<(), AllocError> {
        Ok(())
    }

    fn end<S: Store + Drop>(
        &mut self,
        _stepper: &Stepper<'_, S>,
        _stop: Stop,
    ) -> Result<(), AllocError> {
        Ok(())
    }
}

// Counts the instruction at a place once more, if there is one.
fn bump(counts: &mut Vec<u64>, place: usize)
    ensures { counts.new.items ≡ bumped place counts.old.items }
{
    if place < counts.len() {
        counts[place] = counts[place].saturating_add(1);
    }
}

fn zeros(alloc: Global, count: usize) -> Result<Vec<u64>, AllocError>
    ensures { IfOk result (λ v. v.items ≡ replicate count 0) }
{
    vec![in alloc; 0; count]
}
