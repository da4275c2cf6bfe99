//! What the loop of a run does, between two states that are the same.
ghost use Rattle.std.specs.Prelude.{◌≡◌, ◌-◌, ◌++◌, [], IfOk, IfSome, List, OnOk, false, reverse, slice_index, slice_index_or, slice_set, true, ℕ};
ghost use Rattle.std.specs.List.{range_with_len};
ghost use Rattle.blang.specs.Machine.{image_of, machine};
ghost use Rattle.blang.specs.declared.run.Outcome.TheVariants as outcomes;
ghost use Rattle.bmach.specs.Resolved.{IsLoadedFrom};
ghost use Rattle.btools.specs.Functions.{entries_of};
ghost use Rattle.bwatch.specs.Sights.{sights_of};
ghost use Rattle.bendless.specs.Loops.{HasNoted, HasNotedNext, HasNotedAll, asks_with, in_loop, in_own, is_idle, marked, noted_of, notes_in, two_rounds, unmarked, unnoted, with_asking};

use crate::recorder::Record;
use crate::replay::Replay;
use crate::search::Repeat;
use blang::{Instr, Outcome, STORE_WORDS};
use bmach::{Active, Stepper, Stop};
use btools::{Program, Tables, instr_at};
use bwatch::{Onlooker, Watched, watch};
use bword::Store;
use std::alloc::{AllocError, Global};
use std::ops::Range;

/// The value of the function `getchar`.
const GETCHAR: u16 = 3;

/// What is noted of the steps of a loop.
#[derive(Drop)]
pub struct LoopNotes {
    /// The call that first asked for input.
    pub asks: Option<Active>,
    /// The addresses of the words that its call has read since it had no operand.
    pub reads: Vec<u16>,
    /// At which addresses its conditions have read words.
    pub tested: Vec<bool>,
    /// At which addresses a step stores words.
    pub stored: Vec<bool>,
}

impl LoopNotes {
    /// Of no step.
    fn new(alloc: Global) -> Result<Self, AllocError>
        ensures { IfOk result (λ notes. noted_of notes ≡ unnoted) }
    {
        Ok(LoopNotes {
            asks: None,
            reads: Vec::new(alloc),
            tested: no_marks(alloc)?,
            stored: no_marks(alloc)?,
        })
    }

    /// Whether the conditions of the loop have read a word that no step stores.
    pub fn is_idle(&self, address: u16) -> bool
        ensures { result ≡ is_idle (noted_of self.now) address }
    {
        is_marked(&self.tested, address) && !is_marked(&self.stored, address)
    }

    // Notes the call that asks for input first.
    fn note_asking(&mut self, call: Active, instr: &Option<Instr>, operands: &[u16])
        ensures { noted_of self.new ≡ with_asking call instr.now (reverse operands.now) (noted_of self.old) }
    {
        match self.asks {
            Some(_) => {}
            None => {
                if asks_with(instr, operands) {
                    self.asks = Some(call);
                }
            }
        }
    }

    // Notes what an instruction does, if it is one of the loop's own call.
    fn note_own(
        &mut self,
        is_own: bool,
        instr: &Option<Instr>,
        operands: &[u16],
    ) -> Result<(), AllocError>
        ensures { OnOk result (noted_of self.new ≡ in_own is_own instr.now (reverse operands.now) (noted_of self.old)) }
    {
        if is_own {
            self.note_reading(instr, operands)
        } else {
            Ok(())
        }
    }

    // Notes what it reads, and that a condition ends.
    fn note_reading(&mut self, instr: &Option<Instr>, operands: &[u16]) -> Result<(), AllocError>
        ensures { OnOk result (noted_of self.new ≡ in_loop instr.now (reverse operands.now) (noted_of self.old)) }
    {
        if operands.is_empty() {
            self.reads.clear();
        }
        match instr {
            Some(Instr::Load) => self.reads.push(operand(operands, 0))?,
            Some(Instr::JumpIfZero(_)) if operands.len() == 1 => {
                mark_each(&mut self.tested, self.reads.as_slice());
            }
            _ => {}
        }
        Ok(())
    }
}

fn no_marks(alloc: Global) -> Result<Vec<bool>, AllocError>
    ensures { IfOk result (λ marks. marks.items ≡ unmarked) }
{
    let mut marks = Vec::new(alloc);
    marks.resize(STORE_WORDS as usize, false)?;
    Ok(marks)
}

fn is_marked(marks: &Vec<bool>, address: u16) -> bool
    ensures { result ≡ slice_index_or marks.now.items address false }
{
    match marks.get(usize::from(address)) {
        Some(is_marked) => *is_marked,
        None => false,
    }
}

fn mark(marks: &mut Vec<bool>, address: usize)
    ensures { marks.new.items ≡ slice_set marks.old.items address true }
{
    if let Some(is_marked) = marks.get_mut(address) {
        *is_marked = true;
    }
}

fn mark_each(marks: &mut Vec<bool>, addresses: &[u16])
    ensures { marks.new.items ≡ marked marks.old.items addresses.now }
{
    for address in addresses {
        mark(marks, usize::from(*address));
    }
}

fn mark_all(marks: &mut Vec<bool>, addresses: &Range<u32>)
    ensures { marks.new.items ≡ marked marks.old.items (range_with_len addresses.now.start (addresses.now.end - addresses.now.start)) }
{
    for address in addresses.start..addresses.end {
        mark(marks, address as usize);
    }
}

// Whether an instruction calls `getchar` with these operands, the topmost last.
fn asks_with(instr: &Option<Instr>, operands: &[u16]) -> bool
    ensures { result ≡ asks_with (reverse operands.now) instr.now }
{
    match instr {
        Some(Instr::Call(arguments)) => operand(operands, *arguments) == GETCHAR,
        _ => false,
    }
}

// The operand that has so many above it, or 0 where there is none.
fn operand(operands: &[u16], above: u16) -> u16
    ensures { result ≡ slice_index (reverse operands.now) above }
{
    let above = above as usize;
    if above >= operands.len() {
        return 0;
    }
    operands[operands.len() - 1 - above]
}

/// Who looks on at the loop of a run.
#[derive(Drop)]
pub struct LoopWatcher<'a, 'b> {
    tables: &'a Tables<'b>,
    repeat: Repeat,
    notes: LoopNotes,
}

impl<'a, 'b> LoopWatcher<'a, 'b> {
    // What was noted, if the run made all of its steps.
    fn into_notes(self, outcome: Outcome) -> Option<LoopNotes>
        ensures { IfSome result (λ notes. (notes ≡ self.entry.notes) × (outcome ≡ outcomes.Limit)) }
    {
        let LoopWatcher {
            tables: _,
            repeat: _,
            notes,
        } = self;
        match outcome {
            Outcome::Limit => Some(notes),
            _ => None,
        }
    }
}

impl<'a, 'b> Onlooker for LoopWatcher<'a, 'b> {
    ghost has_seen = { HasNoted };

    ghost awaits = { HasNotedNext };

    ghost has_told = { HasNotedAll };

    fn before<S: Store + Drop>(
        &mut self,
        stepper: &Stepper<'_, S>,
        made: u64,
    ) -> Result<(), AllocError> {
        if made < self.repeat.first {
            return Ok(());
        }
        let call = stepper.top();
        let instr = instr_at(self.tables.entry(call.strings), call.place);
        let operands = stepper.operands();
        self.notes.note_asking(call, &instr, operands);
        let is_own = stepper.callers() == self.repeat.callers;
        self.notes.note_own(is_own, &instr, operands)?;
        mark_all(&mut self.notes.stored, &stepper.stored());
        Ok(())
    }

    fn after<S: Store + Drop>(
        &mut self,
        _stepper: &Stepper<'_, S>,
        _made: u64,
        _written: &[u8],
    ) -> Result<(), AllocError> {
        Ok(())
    }

    fn end<S: Store + Drop>(
        &mut self,
        _stepper: &Stepper<'_, S>,
        _stop: Stop,
    ) -> Result<(), AllocError> {
        Ok(())
    }
}

// After how many steps two rounds of the loop are made.
fn two_rounds(repeat: Repeat) -> u64
    ensures { result ≡ two_rounds repeat }
{
    repeat
        .again
        .saturating_add(repeat.again.saturating_sub(repeat.first))
}

/// What the loop of a run does, where a state was found that comes again; nothing where memory is refused.
pub fn look_at_loop(
    alloc: Global,
    program: &Program,
    tables: &Tables<'_>,
    read: &Record,
    repeat: Repeat,
) -> Option<LoopNotes>
    requires { IsLoadedFrom program.now.definitions.items program.now.image }
    ensures { IfSome result (λ notes. (more : List ℕ) → (read.now.is_over ≡ true → more ≡ [])
        → noted_of notes ≡ notes_in (entries_of tables.now) (sights_of (image_of program.now.definitions.items).functions
        (machine program.now.definitions.items) (read.now.bytes.items ++ more)) repeat) }
{
    let mut input = Replay::new(read.bytes.as_slice(), read.is_over);
    let mut watcher = LoopWatcher {
        tables,
        repeat,
        notes: LoopNotes::new(alloc).ok()?,
    };
    let steps = two_rounds(repeat);
    let Ok(watched) = watch(alloc, program, steps, &mut input, &mut watcher) else {
        return None;
    };
    // This call tells a proof that the end was answered only if it is known.
    let _ = input.left();
    match watched {
        Watched::Ended(stop) => watcher.into_notes(stop.outcome),
        Watched::Unbegun(_) => None,
    }
}
