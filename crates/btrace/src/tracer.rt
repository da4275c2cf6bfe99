//! Who looks on at a run and keeps its rows.
ghost use Rattle.std.specs.Prelude.{◌≡◌, ◌+◌, ◌<◌, ◌^◌, ◌++◌, [], IfOk, None, OnErr, OnOk};
ghost use Rattle.bwatch.specs.Trails.{trail_text};
ghost use Rattle.btrace.specs.Loops.{again_text};
ghost use Rattle.btrace.specs.RowTexts.{legend_of};
ghost use Rattle.btrace.specs.Tracers.{AwaitsStep, HasTold, HasTraced};
ghost use Rattle.btrace.specs.Traces.{is_wanted};

use crate::legend::Legend;
use crate::looping::push_again;
use crate::places::push_places;
use crate::rows::{push_step, push_stored, push_written};
use bendless::Repeat;
use blang::Outcome;
use bmach::{Active, Stepper, Stop};
use bwatch::{Onlooker, TraceRows, Trail};
use bword::Store;
use std::alloc::{AllocError, Global};
use std::ops::Range;

/// Which steps are shown.
#[derive(Clone, Copy)]
pub struct Which {
    pub rows: TraceRows,
    /// The address of the first string word of the function whose steps are shown.
    pub function: Option<u32>,
}

impl Which {
    // Whether a step may be shown that comes after so many.
    fn shows(self, made: u64, call: Active) -> bool
        requires { made + 1 < 2 ^ 64 }
        ensures { result ≡ is_wanted self (made + 1) call.strings }
    {
        self.rows.first() <= made + 1
            && match self.function {
                None => true,
                Some(strings) => call.strings == strings,
            }
    }
}

/// The rows of a run, while it is made.
#[derive(Drop)]
pub struct Tracer<'a, 'b, 'c> {
    alloc: Global,
    legend: Legend<'a, 'b, 'c>,
    which: Which,
    pub trail: Trail,
    // Whether the step that is being made is shown.
    is_shown: bool,
    // The addresses of the words that it stores, if it is shown and the run goes on.
    stored: Range<u32>,
}

impl<'a, 'b, 'c> Tracer<'a, 'b, 'c> {
    /// No step was made yet.
    pub fn new(
        alloc: Global,
        heading: &[u8],
        legend: Legend<'a, 'b, 'c>,
        which: Which,
    ) -> Result<Self, AllocError>
        ensures legend { IfOk result (λ t. t.legend ≡ legend.entry) }
        ensures which { IfOk result (λ t. t.which ≡ which) }
        ensures text { IfOk result (λ t. t.trail.text ≡ heading.now) }
        ensures last { IfOk result (λ t. t.trail.last.items ≡ []) }
        ensures row { IfOk result (λ t. t.trail.row ≡ []) }
    {
        Ok(Tracer {
            alloc,
            legend,
            which,
            trail: Trail::new(alloc, heading)?,
            is_shown: false,
            stored: 0..0,
        })
    }
}

impl Tracer<'_, '_, '_> {
    /// Adds that a state comes again, and the place of the call in which it does.
    pub fn push_again(
        &mut self,
        legend: &Legend<'_, '_, '_>,
        again: Option<Repeat>,
    ) -> Result<(), AllocError>
        ensures told { OnOk result (trail_text self.new.trail ≡ trail_text self.old.trail ++ again_text (legend_of legend.now) again) }
        ensures some { OnErr result (again ≡ None → ⊥) }
    {
        push_again(&mut self.trail, legend, again)
    }
}

impl<'a, 'b, 'c> Onlooker for Tracer<'a, 'b, 'c> {
    ghost has_seen = { HasTraced };

    ghost awaits = { AwaitsStep };

    ghost has_told = { HasTold };

    fn before<S: Store + Drop>(
        &mut self,
        stepper: &Stepper<'_, S>,
        made: u64,
    ) -> Result<(), AllocError> {
        self.is_shown = self.which.shows(made, stepper.top());
        if !self.is_shown {
            return Ok(());
        }
        self.stored = stepper.stored();
        push_step(&mut self.trail.row, &self.legend, stepper, made)
    }

    fn after<S: Store + Drop>(
        &mut self,
        stepper: &Stepper<'_, S>,
        _made: u64,
        written: &[u8],
    ) -> Result<(), AllocError> {
        if !self.is_shown {
            return Ok(());
        }
        push_stored(&mut self.trail.row, stepper, &self.stored)?;
        push_written(&mut self.trail.row, written)?;
        self.trail.keep(self.alloc, self.which.rows)
    }

    fn end<S: Store + Drop>(
        &mut self,
        stepper: &Stepper<'_, S>,
        stop: Stop,
    ) -> Result<(), AllocError> {
        match stop.outcome {
            Outcome::Exit(_) => {
                self.trail
                    .keep_if(self.is_shown, self.alloc, self.which.rows)
            }
            Outcome::Trap(_) => {
                self.trail
                    .keep_if(self.is_shown, self.alloc, self.which.rows)?;
                push_places(&mut self.trail.row, &self.legend, stepper, stop.call)
            }
            Outcome::Limit => push_places(&mut self.trail.row, &self.legend, stepper, stop.call),
            Outcome::Device | Outcome::Memory => Ok(()),
        }
    }
}
