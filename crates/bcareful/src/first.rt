//! What is found first in a run that is made in silence.
ghost use Rattle.std.specs.Prelude.{◌≡◌, ◌∷◌, IfErr, IfOk, map};
ghost use Rattle.blang.specs.Machine.{image_of, machine};
ghost use Rattle.bmach.specs.Resolved.{IsLoadedFrom};
ghost use Rattle.bmach.specs.Stops.{active_of};
ghost use Rattle.btools.specs.Functions.{entries_of, functions_of};
ghost use Rattle.bendless.specs.Recordings.{Records};
ghost use Rattle.bcareful.specs.First.{FindsFirst, FindsNothing};
ghost use Rattle.bcareful.specs.Runs.{finds_wraps};
ghost use Rattle.bcareful.specs.Tellings.{finding_meaning};
ghost use Rattle.bcareful.specs.Things.{atlas_in, atlas_of};

use crate::atlas::{Atlas, extents_of};
use crate::care::Care;
use crate::finding::Finding;
use crate::recorded::careful_recorded;
use crate::telling::push_meaning;
use crate::watching::{Ended, Found};
use bendless::Record;
use blang::Outcome;
use bmach::{Stepper, Stop};
use bpages::PagedStore;
use btools::{Program, Tables, Text};
use bword::{ByteIn, MemOut, Store};
use std::alloc::{AllocError, Global};

/// A run that was made in silence.
#[derive(Drop)]
pub struct SilentRun {
    /// Where it stands. At a finding so many steps were made, as if they were the limit.
    pub stop: Stop,
    /// What is wrong with the next step, if the run stays at a finding.
    pub meaning: Option<Text>,
    /// What was read.
    pub read: Record,
}

/// Runs a program for at most so many steps, up to its first finding, and writes nothing.
///
/// Fails with a trap if the run has no first step, and where memory is refused before or after the run. Where it is
/// refused in the run, that is its outcome.
pub fn find_first<I: ByteIn>(
    alloc: Global,
    program: &Program,
    tables: &Tables<'_>,
    care: Care,
    steps: u64,
    input: &mut I,
) -> Result<SilentRun, Outcome>
    requires loaded { IsLoadedFrom program.now.definitions.items program.now.image }
    requires functions { entries_of tables.now ≡ functions_of program.now.definitions.items }
    ensures finds { IfOk result (λ r. FindsFirst
        (atlas_in program.now.definitions.items program.now.names.frames.items (finds_wraps care))
        (image_of program.now.definitions.items).functions (machine program.now.definitions.items) steps
        (I.incoming input.old) (I.incoming input.new) r.stop r.meaning) }
    ensures records { IfOk result (λ r. Records r.read (I.incoming input.old) (I.incoming input.new)) }
    ensures nothing { IfErr result (FindsNothing program.now.definitions.items program.now.image steps
        (I.incoming input.old) (I.incoming input.new)) }
    ensures same { I.lender input.new ≡ I.lender input.old }
{
    let Ok(extents) = extents_of(alloc, &program.definitions) else {
        return Err(Outcome::Memory);
    };
    let Ok(store) = PagedStore::new(alloc) else {
        return Err(Outcome::Memory);
    };
    let mut stepper = match Stepper::begin(alloc, &program.image, store) {
        Ok(stepper) => stepper,
        Err(outcome) => return Err(outcome),
    };
    let atlas = Atlas {
        program,
        tables,
        extents: extents.as_slice(),
        wraps: care.finds_wraps(),
    };
    let mut silent = MemOut::new(alloc);
    let ran = careful_recorded(alloc, &atlas, &mut stepper, steps, input, &mut silent);
    match ran.ended {
        Ended::Over(stop) => Ok(SilentRun {
            stop,
            meaning: None,
            read: ran.record,
        }),
        Ended::Found(found) => match finding_meaning(alloc, &atlas, &stepper, found.finding) {
            Ok(text) => Ok(SilentRun {
                stop: stop_of(found),
                meaning: Some(text),
                read: ran.record,
            }),
            Err(_) => Err(Outcome::Memory),
        },
    }
}

// Where a run stands that stays at a finding.
fn stop_of(found: Found) -> Stop
    ensures { result ≡ record { outcome = Outcome.Limit; call = found.call; steps = found.made } }
{
    Stop {
        outcome: Outcome::Limit,
        call: found.call,
        steps: found.made,
    }
}

// What is wrong with the next step.
fn finding_meaning<S: Store + Drop>(
    alloc: Global,
    atlas: &Atlas<'_>,
    stepper: &Stepper<'_, S>,
    finding: Finding,
) -> Result<Text, AllocError>
    ensures { IfOk result (λ text. text ≡ finding_meaning (atlas_of atlas.now)
        (active_of stepper.now.call ∷ map active_of stepper.now.below) finding) }
{
    let mut text = Text::new(alloc);
    push_meaning(&mut text, atlas, stepper, finding)?;
    Ok(text)
}
