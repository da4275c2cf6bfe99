//! Calls of the machine, and what comes of a step.
ghost use Rattle.std.specs.Prelude.{◌≡◌, ◌≤◌};

use crate::image::LoadedFunction;
use crate::number::Base;
use crate::operands::Operands;
use crate::{Library, Outcome, Trap};

/// The running call.
#[derive(Drop)]
pub struct Call<'a> {
    pub function: &'a LoadedFunction,
    /// The address of its frame.
    pub start: u32,
    /// The place of its next operation.
    pub place: usize,
    /// The operands of all active calls.
    pub operands: Operands,
    ghost low: { start ≤ 65536 },
}

/// A call that waits for another one to return.
#[derive(Clone, Copy)]
pub struct Caller<'a> {
    pub function: &'a LoadedFunction,
    pub start: u32,
    pub place: usize,
    /// Where its own operands begin.
    pub base: usize,
    ghost low: { start ≤ 65536 },
}

/// The active calls.
#[derive(Drop)]
pub struct Calls<'a> {
    pub top: Call<'a>,
    /// The others, the nearest last.
    pub below: Vec<Caller<'a>>,
}

/// What a called value is.
#[derive(Clone, Copy)]
pub enum Callee<'a> {
    NoFunction,
    OfLibrary(Library),
    OfProgram(&'a LoadedFunction),
}

/// The outcome where an operand is missing, or an instruction.
pub const STUCK: Outcome = Outcome::Trap(Trap::Stuck);

/// What came of an operation that looks at one call alone.
#[derive(Clone, Copy)]
pub enum Pace {
    GoesOn,
    /// There is no room for the word that the call gets.
    Gives(u16),
    /// The callee below so many arguments is to be called; the call is after its operation.
    Calls(u16),
    /// The topmost word is to be returned.
    Returns,
    /// The run is over.
    Ends(Outcome),
}

/// How the steps of an operation were made.
#[derive(Clone, Copy)]
pub enum Made {
    Not,
    /// So many, as many places further.
    On(u64),
    /// So many, the last of which jumped; the place after it if it hadn't.
    Jumped(u64, usize),
}

/// Where the steps of a call have come.
#[derive(Drop)]
pub struct Pause<'a> {
    pub call: Call<'a>,
    /// How many steps are left.
    pub left: u64,
}

/// Where the steps of all calls have come.
#[derive(Drop)]
pub struct Rest<'a> {
    pub calls: Calls<'a>,
    /// How many steps are left.
    pub left: u64,
    /// The outcome, if the run was over in the next step.
    pub over: Option<Outcome>,
}

/// An active call.
#[derive(Clone, Copy)]
pub struct Active {
    /// The address of the first string word of its function, by which that is told from others.
    pub strings: u32,
    /// How many parameters its function has: the first words of its frame.
    pub parameters: u16,
    /// The place of its next instruction.
    pub place: usize,
    /// The address of its frame.
    pub start: u32,
}

/// What a run came to, and where.
#[derive(Clone, Copy)]
pub struct Stop {
    pub outcome: Outcome,
    /// After a trap the running call before the step that was one; at the limit the one after the last step.
    pub call: Active,
    /// How many steps were made, the one that was a trap among them. One that was broken off may be among them.
    pub steps: u64,
}

/// What a run came to, and the calls there.
#[derive(Drop)]
pub struct Ran<'a> {
    pub calls: Calls<'a>,
    pub stop: Stop,
}

impl Active {
    /// A call of a function, with the place of its next instruction and the address of its frame.
    pub fn new(function: &LoadedFunction, place: usize, start: u32) -> Active
        ensures { result ≡ record {
          strings = function.now.strings;
          parameters = function.now.parameters;
          place = place;
          start = start;
        } }
    {
        Active {
            strings: function.strings,
            parameters: function.parameters,
            place,
            start,
        }
    }
}

/// What a call asks for.
#[derive(Clone, Copy)]
pub enum Flow {
    GoesOn,
    /// The caller gets a word.
    Gives(u16),
    /// The caller gets the next byte.
    Reads,
    /// The character's bytes are to be written, and the caller gets it.
    WritesCharacter(u16),
    /// The number is to be written to the base, and the caller gets 0.
    WritesNumber(u16, Base),
}
