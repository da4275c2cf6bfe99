//! Why a run has no first step where there is no memory for its store.
ghost use Rattle.std.specs.Prelude.{◌≡◌};
ghost use Rattle.bmach.specs.Stepping.{BeginsNot};

use blang::Outcome;
use bmach::{Image, Stepper};
use bword::{NoMemory, Store};
use std::alloc::Global;

// A store of zeros, which takes no word.
#[derive(Drop)]
struct NoStore;

impl Store for NoStore {
    ghost use Rattle.std.specs.Prelude.{true};
    ghost use Rattle.bword.specs.Words.{zeros};
    ghost use Rattle.bsession.specs.Zeros.{zeros_are_store};

    ghost words = { λ _. zeros };

    ghost may_refuse = { true };

    fn get(&self, _: u16) -> u16 {
        0
    }

    fn set(&mut self, _: u16, _: u16) -> Result<(), NoMemory> {
        Err(NoMemory)
    }

    ghost whole = { λ _. zeros_are_store };
}

/// Memory was refused, unless the run is over before its first step.
pub(crate) fn without_store(alloc: Global, image: &Image) -> Outcome
    ensures { BeginsNot image.now result }
{
    match Stepper::begin(alloc, image, NoStore) {
        Err(outcome) => outcome,
        Ok(_) => Outcome::Memory,
    }
}
