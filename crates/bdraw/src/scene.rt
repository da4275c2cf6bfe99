//! What is drawn: memory at a moment, and the calls that are active.
ghost use Rattle.std.specs.Prelude.{◌≡◌, ◌-◌, ◌==◌, ℕ, List, [], ◌∷◌, IfOk, find, length, map, option_map, reverse, slice_index, take, zip};
ghost use Rattle.bmach.specs.Stops.{active_of};
ghost use Rattle.btools.specs.FrameNames.{frame_seen};
ghost use Rattle.btools.specs.Functions.{entries_of, placed_entry};

use bmach::{Active, Image, Stepper};
use btools::{Frame, FunctionEntry, Program, Tables};
use bword::Store;
use std::alloc::{AllocError, Global};

/// The most active calls that are drawn.
const MOST_CALLS: usize = 16;

/// Words that can be looked at.
pub trait Memory {
    // They, by their addresses.
    ghost seen_words: { Self → List ℕ };

    /// The word at an address.
    fn look(&self, address: u16) -> u16
        ensures { result ≡ slice_index (seen_words self.now) address };
}

impl Memory for Image {
    ghost seen_words = { λ i. i.words };

    fn look(&self, address: u16) -> u16 {
        self.word(address)
    }
}

impl<'a, S: Store + Drop> Memory for Stepper<'a, S> {
    ghost seen_words = { λ s. s.store };

    fn look(&self, address: u16) -> u16 {
        self.word(address)
    }
}

/// A moment of a run.
#[derive(Clone, Copy)]
pub enum Moment {
    /// Before its first step.
    Before,
    /// After so many steps.
    After(u64),
    /// At its end, after so many steps.
    End(u64),
}

/// The innermost active calls, the running one last.
#[derive(Drop)]
pub struct DrawnCalls {
    pub drawn: Vec<Active>,
    /// How many more there are.
    pub others: u64,
}

/// Memory at a moment.
#[derive(Drop)]
pub struct Scene<'a, M: Memory> {
    pub program: &'a Program,
    pub tables: &'a Tables<'a>,
    pub memory: &'a M,
    pub moment: Moment,
    pub calls: &'a DrawnCalls,
}

/// No calls, as before a run.
pub fn no_calls(alloc: Global) -> DrawnCalls
    ensures drawn { result.drawn.items ≡ [] }
    ensures others { result.others ≡ 0 }
{
    DrawnCalls {
        drawn: Vec::new(alloc),
        others: 0,
    }
}

/// The active calls of a run: this one, and those below the running one.
pub fn calls_of<S: Store + Drop>(
    alloc: Global,
    stepper: &Stepper<'_, S>,
    running: Active,
) -> Result<DrawnCalls, AllocError>
    ensures drawn { IfOk result (λ calls. calls.drawn.items ≡ reverse (take 16 (running ∷ map active_of stepper.now.below))) }
    ensures others { IfOk result (λ calls. calls.others ≡ length (running ∷ map active_of stepper.now.below) - 16) }
{
    let callers = stepper.callers().min(MOST_CALLS - 1);
    let mut drawn = Vec::new(alloc);
    drawn.push(running)?;
    for number in 0..callers {
        if let Some(call) = stepper.caller(number) {
            drawn.push(call)?;
        }
    }
    drawn.reverse();
    Ok(DrawnCalls {
        drawn,
        others: (stepper.callers() - callers) as u64,
    })
}

/// The function that has its string words there, and the names of its frame.
pub fn function_of<'a>(
    tables: &'a Tables<'a>,
    frames: &'a [Frame],
    strings: u32,
) -> Option<(FunctionEntry<'a>, &'a Frame)>
    ensures { option_map (λ f. (placed_entry f.0, frame_seen f.1.now)) result
        ≡ find (λ f. f.0.strings == strings) (zip (entries_of tables.now) (map frame_seen frames.now)) }
{
    let entries = tables.entries();
    for number in 0..entries.len().min(frames.len()) {
        if entries[number].strings == strings {
            return Some((entries[number], &frames[number]));
        }
    }
    None
}
