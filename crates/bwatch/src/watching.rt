//! Runs on which somebody looks.
ghost use Rattle.std.specs.Prelude.{◌≡◌, ℕ, ◌+◌, ◌<◌, ◌^◌, IfOk, OnErr};
ghost use Rattle.bmach.specs.Readings.{ReadBySteps, ReadInStep};
ghost use Rattle.bmach.specs.Stepping.{machine_at};
ghost use Rattle.bmach.specs.Turns.{KeepsBelow, LeavesWords};
ghost use Rattle.blang.specs.Machine.{machine, step};
ghost use Rattle.bmach.specs.Resolved.{IsLoadedFrom};
ghost use Rattle.btools.specs.Programs.{steps_from};
ghost use Rattle.bwatch.specs.Sights.{Sights};
ghost use Rattle.bwatch.specs.Watches.{Leaves, Stands, WatchGives, Watches};
ghost use Rattle.bwatch.specs.Steps.{StepGives, stop_at};
ghost use Rattle.blang.specs.declared.run.Outcome.TheVariants as outcomes;

use crate::onlooker::Onlooker;
use blang::{Outcome, Trap};
use bmach::{Active, Stepper, Stop};
use bpages::PagedStore;
use btools::Program;
use bword::{ByteIn, MemOut, Store};
use std::alloc::{AllocError, Global};

/// What came of a run on which somebody looked.
#[derive(Clone, Copy)]
pub enum Watched {
    /// It had no first step.
    Unbegun(Trap),
    /// It was over, or could not read, or all steps were made.
    Ended(Stop),
}

/// Runs a program for at most so many steps, while somebody looks on; or fails where memory is refused.
///
/// What the program writes is shown to the onlooker, and goes nowhere else. After a failed read nobody is told of an end.
pub fn watch<I: ByteIn, W: Onlooker>(
    alloc: Global,
    program: &Program,
    steps: u64,
    input: &mut I,
    onlooker: &mut W,
) -> Result<Watched, AllocError>
    requires loaded { IsLoadedFrom program.now.definitions.items program.now.image }
    requires begins { (sights : Sights) → W.has_seen onlooker.old onlooker.old sights 0 }
    ensures gives { IfOk result (WatchGives program.now.definitions.items program.now.image steps
        (I.incoming input.old) (I.incoming input.new) (Leaves (W.awaits onlooker.old onlooker.new) (W.has_told onlooker.old onlooker.new))) }
    ensures read { OnErr result (ReadBySteps (machine program.now.definitions.items) steps (I.incoming input.old) (I.incoming input.new)) }
    ensures same { I.lender input.new ≡ I.lender input.old }
{
    let Ok(store) = PagedStore::new(alloc) else {
        return Err(AllocError);
    };
    match Stepper::begin(alloc, &program.image, store) {
        Ok(stepper) => Ok(Watched::Ended(watch_steps(alloc, stepper, steps, input, onlooker)?)),
        Err(outcome) => match outcome {
            Outcome::Trap(trap) => Ok(Watched::Unbegun(trap)),
            Outcome::Memory => Err(AllocError),
            Outcome::Exit(_) | Outcome::Limit | Outcome::Device => unreachable!(),
        },
    }
}

// Makes so many steps, or fewer where the run is over before, while somebody looks on.
fn watch_steps<S: Store + Drop, I: ByteIn, W: Onlooker>(
    alloc: Global,
    mut stepper: Stepper<'_, S>,
    steps: u64,
    input: &mut I,
    onlooker: &mut W,
) -> Result<Stop, AllocError>
    requires { (sights : Sights) → W.has_seen onlooker.old onlooker.old sights 0 }
    ensures gives { IfOk result (λ stop. Watches stepper.entry.image.functions (steps_from stepper.entry) steps
        (I.incoming input.old) (I.incoming input.new) stop.outcome stop.steps (Leaves (W.awaits onlooker.old onlooker.new) (W.has_told onlooker.old onlooker.new))) }
    ensures read { OnErr result (ReadBySteps (steps_from stepper.entry) steps (I.incoming input.old) (I.incoming input.new)) }
    ensures same { I.lender input.new ≡ I.lender input.old }
{
    let stop = make_steps(alloc, &mut stepper, steps, input, onlooker)?;
    match stop.outcome {
        Outcome::Device => Ok(stop),
        _ => {
            onlooker.end(&stepper, stop)?;
            Ok(stop)
        }
    }
}

// Makes so many steps, or fewer, and tells where the run stands.
fn make_steps<S: Store + Drop, I: ByteIn, W: Onlooker>(
    alloc: Global,
    stepper: &mut Stepper<'_, S>,
    steps: u64,
    input: &mut I,
    onlooker: &mut W,
) -> Result<Stop, AllocError>
    requires { (sights : Sights) → W.has_seen onlooker.old onlooker.old sights 0 }
    ensures gives { IfOk result (λ stop. Watches stepper.old.image.functions (steps_from stepper.old) steps
        (I.incoming input.old) (I.incoming input.new) stop.outcome stop.steps
        (Stands stepper.new (W.has_seen onlooker.old onlooker.new) (W.awaits onlooker.old onlooker.new) stop)) }
    ensures read { OnErr result (ReadBySteps (steps_from stepper.old) steps (I.incoming input.old) (I.incoming input.new)) }
    ensures same { I.lender input.new ≡ I.lender input.old }
{
    for made in 0..steps {
        let call = stepper.top();
        match make_step(alloc, stepper, made, input, onlooker)? {
            Ok(()) => {}
            Err(outcome) => return stop_at(outcome, call, made),
        }
    }
    Ok(Stop {
        outcome: Outcome::Limit,
        call: stepper.top(),
        steps,
    })
}

// Where a run stands that is over with the step after so many, or was broken off in it.
fn stop_at(outcome: Outcome, call: Active, made: u64) -> Result<Stop, AllocError>
    requires { made + 1 < 2 ^ 64 }
    ensures stops { IfOk result (λ stop. (stop ≡ stop_at outcome call made) × (outcome ≡ outcomes.Memory → ⊥)) }
    ensures refused { OnErr result (outcome ≡ outcomes.Memory) }
{
    let steps = match outcome {
        Outcome::Memory => return Err(AllocError),
        Outcome::Device => made,
        Outcome::Exit(_) | Outcome::Trap(_) | Outcome::Limit => made + 1,
    };
    Ok(Stop {
        outcome,
        call,
        steps,
    })
}

// Makes a step.
fn make_step<S: Store + Drop, I: ByteIn, W: Onlooker>(
    alloc: Global,
    stepper: &mut Stepper<'_, S>,
    made: u64,
    input: &mut I,
    onlooker: &mut W,
) -> Result<Result<(), Outcome>, AllocError>
    requires { made + 1 < 2 ^ 64 }
    ensures gives { (first : _) → IfOk result (StepGives (W.has_seen first onlooker.old) (W.awaits first onlooker.new) (W.has_seen first onlooker.new)
        made stepper.old stepper.new (I.incoming input.old) (I.incoming input.new)) }
    ensures read { OnErr result (ReadInStep stepper.old.image (machine_at stepper.old) (I.incoming input.old) (I.incoming input.new)) }
    ensures words { IfOk result (λ r. LeavesWords (λ left before. step stepper.old.image (machine_at stepper.old left before)) r
        stepper.new.store) }
    ensures below { IfOk result (λ r. KeepsBelow r stepper.old.below stepper.new.below) }
    ensures image { stepper.new.image ≡ stepper.old.image }
    ensures same { I.lender input.new ≡ I.lender input.old }
{
    onlooker.before(stepper, made)?;
    let mut written = MemOut::new(alloc);
    match stepper.step(input, &mut written) {
        Ok(()) => {
            onlooker.after(stepper, made, written.bytes())?;
            Ok(Ok(()))
        }
        Err(outcome) => Ok(Err(outcome)),
    }
}
