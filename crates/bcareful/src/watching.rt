//! Careful runs.
ghost use Rattle.std.specs.Prelude.{◌≡◌, [], IfOk, reverse};
ghost use Rattle.btools.specs.Programs.{steps_from};
ghost use Rattle.bcareful.specs.Things.{atlas_of};
ghost use Rattle.bcareful.specs.Marks.{marks_of, unbegun};
ghost use Rattle.bcareful.specs.Effects.{changed_in, effect_of, next_step, step_by};
ghost use Rattle.bcareful.specs.Findings.{finding_of};
ghost use Rattle.bcareful.specs.Carefuls.{CarefulGives};
ghost use Rattle.bcareful.specs.Stays.{StaysAtFirst};
ghost use Rattle.bcareful.specs.Warned.{WarnGives, kept_text};
ghost use Rattle.btrace.specs.RowTexts.{legend_of};

use crate::atlas::Atlas;
use crate::effect::{Effect, instr_effect};
use crate::finding::{Finding, instr_finding};
use crate::marks::Marks;
use crate::moment::{Moment, Pointed, operand_of};
use crate::warnings::{Teller, Warnings};
use blang::Outcome;
use bmach::{Active, Stepper, Stop};
use btools::Text;
use bword::{ByteIn, ByteOut, Store};
use std::alloc::{AllocError, Global};

/// Where a run stays.
#[derive(Clone, Copy)]
pub struct Found {
    pub finding: Finding,
    /// The running call.
    pub call: Active,
    /// How many steps were made.
    pub made: u64,
}

/// What came of a careful run.
#[derive(Clone, Copy)]
pub enum Ended {
    /// It stays at a finding.
    Found(Found),
    /// It had none, up to this stop.
    Over(Stop),
}

/// What is known of the next step.
#[derive(Clone, Copy)]
pub struct Look {
    pub finding: Option<Finding>,
    pub effect: Effect,
}

/// Makes so many steps, or fewer where the run has a finding, is over, or is broken off.
pub fn careful_steps<S: Store + Drop, I: ByteIn, O: ByteOut>(
    alloc: Global,
    atlas: &Atlas<'_>,
    stepper: &mut Stepper<'_, S>,
    steps: u64,
    input: &mut I,
    out: &mut O,
) -> Ended
    ensures gives { CarefulGives (atlas_of atlas.now) stepper.old.image.functions (steps_from stepper.old) steps
        (I.incoming input.old) (I.incoming input.new) (O.outgoing out.old) (O.outgoing out.new) stepper.new result }
    ensures input { I.lender input.new ≡ I.lender input.old }
    ensures out { O.lender out.new ≡ O.lender out.old }
{
    let Ok(mut marks) = first_marks(alloc, atlas, stepper.top()) else {
        return over(Outcome::Memory, stepper.top(), 0);
    };
    for made in 0..steps {
        let call = stepper.top();
        let look = look_at(atlas, stepper, &marks);
        if let Some(finding) = look.finding {
            return Ended::Found(Found {
                finding,
                call,
                made,
            });
        }
        match stepper.step(input, out) {
            Ok(()) => {}
            Err(outcome) => return over(outcome, call, made + 1),
        }
        match marks.change(atlas, look.effect, stepper.top()) {
            Ok(()) => {}
            Err(_) => return over(Outcome::Memory, call, made + 1),
        }
    }
    let last = stepper.top();
    over(Outcome::Limit, last, steps)
}

// A run that had no finding up to this outcome, in this call, with so many steps.
fn over(outcome: Outcome, call: Active, steps: u64) -> Ended
    ensures { result ≡ Ended.Over (record { outcome = outcome; call = call; steps = steps }) }
{
    Ended::Over(Stop {
        outcome,
        call,
        steps,
    })
}

/// What came of a run that goes on after its findings.
#[derive(Drop)]
pub struct Warned {
    pub stop: Stop,
    /// What is told of the findings; nothing, where memory was refused.
    pub text: Text,
}

/// Makes so many steps, or fewer where the run is over or is broken off, and tells each place of a finding once.
pub fn warned_steps<S: Store + Drop, I: ByteIn, O: ByteOut>(
    teller: &Teller<'_>,
    stepper: &mut Stepper<'_, S>,
    steps: u64,
    input: &mut I,
    out: &mut O,
) -> Warned
    ensures gives { WarnGives (atlas_of teller.now.atlas) (legend_of teller.now.legend) teller.now.source.now
        stepper.old.image.functions (steps_from stepper.old) steps
        (I.incoming input.old) (I.incoming input.new) (O.outgoing out.old) (O.outgoing out.new)
        result.stop result.text }
    ensures input { I.lender input.new ≡ I.lender input.old }
    ensures out { O.lender out.new ≡ O.lender out.old }
{
    let alloc = teller.alloc;
    let atlas = &teller.atlas;
    let mut warnings = Warnings::new(alloc);
    let Ok(mut marks) = first_marks(alloc, atlas, stepper.top()) else {
        return refused(alloc, stepper.top(), 0);
    };
    for made in 0..steps {
        let call = stepper.top();
        let look = look_at(atlas, stepper, &marks);
        match warnings.add(teller, stepper, look.finding, made) {
            Ok(()) => {}
            Err(_) => return refused(alloc, call, made),
        }
        match stepper.step(input, out) {
            Ok(()) => {}
            Err(outcome) => return warned_at(alloc, outcome, call, made + 1, warnings.text),
        }
        match marks.change(atlas, look.effect, stepper.top()) {
            Ok(()) => {}
            Err(_) => return refused(alloc, call, made),
        }
    }
    let last = stepper.top();
    warned_at(alloc, Outcome::Limit, last, steps, warnings.text)
}

// A run that was broken off for want of memory.
fn refused(alloc: Global, call: Active, made: u64) -> Warned
    ensures stop { result.stop ≡ record { outcome = Outcome.Memory; call = call; steps = made } }
    ensures text { result.text ≡ [] }
{
    Warned {
        stop: Stop {
            outcome: Outcome::Memory,
            call,
            steps: made,
        },
        text: Text::new(alloc),
    }
}

// A run that came to this, and what is told of it.
fn warned_at(alloc: Global, outcome: Outcome, call: Active, steps: u64, text: Text) -> Warned
    ensures stop { result.stop ≡ record { outcome = outcome; call = call; steps = steps } }
    ensures text { result.text ≡ kept_text outcome text }
{
    match outcome {
        Outcome::Memory => refused(alloc, call, steps),
        Outcome::Exit(_) | Outcome::Trap(_) | Outcome::Limit | Outcome::Device => Warned {
            stop: Stop {
                outcome,
                call,
                steps,
            },
            text,
        },
    }
}

// The marks before the first step, where this call runs.
fn first_marks(alloc: Global, atlas: &Atlas<'_>, call: Active) -> Result<Marks, AllocError>
    ensures { IfOk result (λ m. marks_of m ≡ changed_in (atlas_of atlas.now) (Effect.Begins 0) call
        (unbegun (atlas_of atlas.now))) }
{
    let mut marks = Marks::new(alloc, atlas)?;
    marks.change(atlas, Effect::Begins(0), call)?;
    Ok(marks)
}

// What is known of the next step of a run.
fn look_at<S: Store + Drop>(atlas: &Atlas<'_>, stepper: &Stepper<'_, S>, marks: &Marks) -> Look
    ensures finding { result.finding ≡ finding_of (next_step (atlas_of atlas.now) stepper.now (marks_of marks.now)) }
    ensures effect { result.effect ≡ effect_of (next_step (atlas_of atlas.now) stepper.now (marks_of marks.now)) }
{
    let operands = stepper.operands();
    let pointed = Pointed {
        counted: stepper.word(operand_of(operands, 0)),
        modified: stepper.word(operand_of(operands, 1)),
    };
    look_by(atlas, stepper.top(), operands, pointed, marks)
}

// The same of a call with these operands, the topmost last, that point at these words.
fn look_by(
    atlas: &Atlas<'_>,
    call: Active,
    operands: &[u16],
    pointed: Pointed,
    marks: &Marks,
) -> Look
    ensures finding { result.finding
        ≡ finding_of (step_by (atlas_of atlas.now) call (reverse operands.now) pointed (marks_of marks.now)) }
    ensures effect { result.effect
        ≡ effect_of (step_by (atlas_of atlas.now) call (reverse operands.now) pointed (marks_of marks.now)) }
{
    let none = Look {
        finding: None,
        effect: Effect::Takes(0),
    };
    let Some(site) = atlas.located(call.strings) else {
        return none;
    };
    let moment = Moment {
        atlas: *atlas,
        call,
        site,
        operands,
        pointed,
        marks,
    };
    match site.parts.code.get(call.place) {
        Some(instr) => {
            let effect = instr_effect(&moment, *instr);
            Look {
                finding: instr_finding(&moment, instr, effect.operands_taken()),
                effect,
            }
        }
        None => none,
    }
}

/// Up to the first step with a finding a careful run is the machine's, and there it stays.
pub fn careful_runs_stay_at_the_first_finding()
    ensures { StaysAtFirst }
{}
