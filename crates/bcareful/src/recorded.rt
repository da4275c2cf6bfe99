//! Careful runs, and what was read in them.
ghost use Rattle.std.specs.Prelude.{◌≡◌, ◌+◌, ◌<◌, ◌^◌};
ghost use Rattle.btools.specs.Programs.{steps_from};
ghost use Rattle.btrace.specs.RowTexts.{legend_of};
ghost use Rattle.bendless.specs.Recordings.{Records};
ghost use Rattle.bcareful.specs.Things.{atlas_of};
ghost use Rattle.bcareful.specs.Carefuls.{CarefulGives};
ghost use Rattle.bcareful.specs.Warned.{WarnGives};
ghost use Rattle.bcareful.specs.declared.watching.Found.{Found};

use crate::atlas::Atlas;
use crate::warnings::Teller;
use crate::watching::{Ended, Warned, careful_steps, warned_steps};
use bendless::{Record, Recorder};
use bmach::Stepper;
use bword::{ByteIn, ByteOut, Store};
use std::alloc::Global;

/// A run that stays at its first finding, and what was read in it.
#[derive(Drop)]
pub struct CarefulRun {
    pub ended: Ended,
    pub record: Record,
}

/// Makes so many steps, or fewer where the run has a finding, is over, or is broken off, and keeps what is read.
pub fn careful_recorded<S: Store + Drop, I: ByteIn, O: ByteOut>(
    alloc: Global,
    atlas: &Atlas<'_>,
    stepper: &mut Stepper<'_, S>,
    steps: u64,
    input: &mut I,
    out: &mut O,
) -> CarefulRun
    ensures gives { CarefulGives (atlas_of atlas.now) stepper.old.image.functions (steps_from stepper.old) steps
        (I.incoming input.old) (I.incoming input.new) (O.outgoing out.old) (O.outgoing out.new) stepper.new
        result.ended }
    ensures counts { (found : Found) → result.ended ≡ Ended.Found found → found.made + 1 < 2 ^ 64 }
    ensures records { Records result.record (I.incoming input.old) (I.incoming input.new) }
    ensures input { I.lender input.new ≡ I.lender input.old }
    ensures out { O.lender out.new ≡ O.lender out.old }
{
    let mut recorder = Recorder::new(alloc, input);
    let ended = careful_steps(alloc, atlas, stepper, steps, &mut recorder, out);
    let record = recorder.take_record(alloc);
    let _ = recorder.into_input();
    CarefulRun { ended, record }
}

/// A run that goes on after its findings, and what was read in it.
#[derive(Drop)]
pub struct WarnedRun {
    pub warned: Warned,
    pub record: Record,
}

/// Makes so many steps, or fewer where the run is over or is broken off, tells each place of a finding once, and keeps
/// what is read.
pub fn warned_recorded<S: Store + Drop, I: ByteIn, O: ByteOut>(
    teller: &Teller<'_>,
    stepper: &mut Stepper<'_, S>,
    steps: u64,
    input: &mut I,
    out: &mut O,
) -> WarnedRun
    ensures gives { WarnGives (atlas_of teller.now.atlas) (legend_of teller.now.legend) teller.now.source.now
        stepper.old.image.functions (steps_from stepper.old) steps
        (I.incoming input.old) (I.incoming input.new) (O.outgoing out.old) (O.outgoing out.new)
        result.warned.stop result.warned.text }
    ensures records { Records result.record (I.incoming input.old) (I.incoming input.new) }
    ensures input { I.lender input.new ≡ I.lender input.old }
    ensures out { O.lender out.new ≡ O.lender out.old }
{
    let alloc = teller.alloc;
    let mut recorder = Recorder::new(alloc, input);
    let warned = warned_steps(teller, stepper, steps, &mut recorder, out);
    let record = recorder.take_record(alloc);
    let _ = recorder.into_input();
    WarnedRun { warned, record }
}
