//! What is told of a run that goes on after its findings.
ghost use Rattle.std.specs.Prelude.{◌≡◌, ◌+◌, ◌<◌, ◌^◌, List, ℕ, IfOk, OnOk, false};
ghost use Rattle.std.specs.List.{list_any};
ghost use Rattle.btrace.specs.RowTexts.{legend_of};
ghost use Rattle.bwatch.specs.Sights.{sight_at};
ghost use Rattle.bcareful.specs.Things.{atlas_of};
ghost use Rattle.bcareful.specs.Tellings.{careful_text};
ghost use Rattle.bcareful.specs.Warned.{is_at, no_warnings, noted, warned, warnings_of};

use crate::atlas::Atlas;
use crate::finding::Finding;
use crate::telling::found_text;
use crate::watching::Found;
use bmach::{Active, Stepper};
use btools::Text;
use btrace::Legend;
use bword::Store;
use std::alloc::{AllocError, Global};

/// A place of a program: the address of the first string word of its function, and the number of the instruction.
#[derive(Clone, Copy)]
pub struct Place {
    pub strings: u32,
    pub place: usize,
}

/// What is told of the findings of a run so far.
#[derive(Drop)]
pub struct Warnings {
    /// The places of which something is told.
    pub places: Vec<Place>,
    pub text: Text,
}

/// What is told with a run.
#[derive(Clone, Copy)]
pub struct Teller<'a> {
    pub alloc: Global,
    pub atlas: Atlas<'a>,
    pub legend: Legend<'a, 'a, 'a>,
    pub source: &'a [u8],
}

impl<'a> Teller<'a> {
    // What is told of a finding at the next step of a run.
    fn text<S: Store + Drop>(
        &self,
        stepper: &Stepper<'_, S>,
        found: Found,
    ) -> Result<Text, AllocError>
        requires { found.made + 1 < 2 ^ 64 }
        ensures { IfOk result (λ text. (output : List ℕ) → text ≡ careful_text (atlas_of self.now.atlas)
            (legend_of self.now.legend) self.now.source.now (sight_at stepper.now output) found) }
    {
        found_text(
            self.alloc,
            &self.atlas,
            &self.legend,
            self.source,
            stepper,
            found,
        )
    }
}

impl Warnings {
    /// Nothing is told yet.
    pub fn new(alloc: Global) -> Self
        ensures { warnings_of result ≡ no_warnings }
    {
        Warnings {
            places: Vec::new(alloc),
            text: Text::new(alloc),
        }
    }

    /// Adds what is found at the next step of a run, unless something is told of its place.
    pub fn add<S: Store + Drop>(
        &mut self,
        teller: &Teller<'_>,
        stepper: &Stepper<'_, S>,
        finding: Option<Finding>,
        made: u64,
    ) -> Result<(), AllocError>
        requires { made + 1 < 2 ^ 64 }
        ensures { OnOk result ((output : List ℕ) → warnings_of self.new
            ≡ warned (atlas_of teller.now.atlas) (legend_of teller.now.legend) teller.now.source.now
            (sight_at stepper.now output) made finding (warnings_of self.old)) }
    {
        let Some(finding) = finding else {
            return Ok(());
        };
        let call = stepper.top();
        if self.has(call) {
            return Ok(());
        }
        let found = Found {
            finding,
            call,
            made,
        };
        let text = teller.text(stepper, found)?;
        self.note(call, text.as_slice())
    }

    // Whether something is told of the place of a call.
    fn has(&self, call: Active) -> bool
        ensures { result ≡ list_any (is_at call) (warnings_of self.now).places }
    {
        for place in &self.places {
            if place.strings == call.strings && place.place == call.place {
                return true;
            }
        }
        false
    }

    // Adds this of the place of a call, of which nothing is told yet.
    fn note(&mut self, call: Active, text: &[u8]) -> Result<(), AllocError>
        requires { list_any (is_at call) (warnings_of self.old).places ≡ false }
        ensures { OnOk result (warnings_of self.new ≡ noted call text.now (warnings_of self.old)) }
    {
        self.places.push(Place {
            strings: call.strings,
            place: call.place,
        })?;
        self.text.push(text)
    }
}
