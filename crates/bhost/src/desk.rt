//! What is asked of a session, and what it answers.
use blang::Outcome;
use bsession::{CodePlace, Limits, SliceEnd, StopEnd, WatchedWord};
use bword::Name;
use std::alloc::Global;

/// Before which steps a slice stops: what a debugger's breakpoints and watchpoints come to.
#[derive(Drop)]
pub struct StopList {
    pub places: Vec<CodePlace>,
    pub near: Vec<CodePlace>,
    pub callers: usize,
    pub returned: usize,
    pub words: Vec<WatchedWord>,
}

/// What is done with a session.
#[derive(Drop)]
pub enum Deed {
    /// A run begins, in place of the one before.
    Begin,
    /// So many steps are made at most.
    Continue(u64),
    /// So many steps are made at most, up to the first one before which it stops.
    ContinueTo(StopList, u64),
    /// It is set how much the run may hold.
    Limit(Limits),
    /// The bytes on the desk come after those that were fed.
    Feed,
    /// No more bytes come.
    Close,
    /// So many bytes of the output are taken at most, and put on the desk.
    Take(usize),
    /// It is told where the run stands.
    Look,
    /// It is told of an active call. The running one has number 0, and the one that called it 1.
    Frame(usize),
    /// The word at an address is told.
    Read(u16),
    /// A word is stored at an address.
    Store(u16, u16),
    /// The name is put on the desk of the function whose first string word has this address.
    Name(u32),
    /// It is told what a name stands for, or an address, or a place.
    Tell(Query),
    /// A copy of the run is kept after those that are.
    Copy,
    /// The copy of a number becomes the run, which is kept in its place.
    Swap(usize),
    /// The copy of a number is let go of, and those after it have a number less.
    Forget(usize),
    /// The run is given up, with its copies.
    End,
}

/// What is asked of the names of a program. A function is named by the address of its first string word.
#[derive(Clone, Copy)]
pub enum Query {
    /// The definition of a name.
    Named(Name),
    /// The definition of which the word at an address is one.
    At(u32),
    /// A named word of the frame of a function, by its number, from 0 on: first come the parameters.
    Local(u32, usize),
    /// A label of a function, by its number.
    Label(u32, usize),
    /// An instruction of a function, by its place.
    Instruction(u32, u32),
}

/// What a name stands for.
#[repr(C)]
#[derive(Clone, Copy)]
pub struct Symbol {
    /// The bytes of the name, and zeros after them. An instruction has none.
    pub name: [u8; 9],
    /// What it is, from `FUNCTION` on.
    pub kind: u8,
    /// How many parameters a function has.
    pub parameters: u16,
    /// The address of a definition, the offset of a word in its frame, or the place of a label or an instruction.
    pub address: u32,
    /// How many words a definition takes, its string words among them, or how many of the frame, a vector's own among
    /// them.
    pub words: u32,
    /// How many words the frame of a function has, its parameters among them.
    pub frame: u16,
    /// How many labels and instructions a function has.
    pub labels: usize,
    pub instructions: usize,
    /// The line of the first place of a definition, or of a label or an instruction, or 0 where none is known.
    pub line: u64,
    /// Its column, from 1 on, or 0 where none is known.
    pub column: u64,
}

/// Where a run stands.
#[derive(Clone, Copy)]
pub struct Standing {
    /// The address of the first string word of the running function.
    pub strings: u32,
    /// The place of its next instruction.
    pub place: usize,
    /// How many calls are below the running one.
    pub callers: usize,
    /// How many steps were made.
    pub steps: u64,
    /// The line of the next instruction, or 0 where none is known.
    pub line: u64,
    /// Its column, from 1 on, or 0 where none is known.
    pub column: u64,
}

/// An active call.
#[repr(C)]
#[derive(Clone, Copy)]
pub struct Frame {
    /// The address of the first string word of its function.
    pub strings: u32,
    /// The place of its next instruction.
    pub place: usize,
    /// The address of its frame: of its first parameter, or of its first automatic word.
    pub start: u32,
    /// How many parameters its function has.
    pub parameters: u16,
    /// The line of its next instruction, or of its call that is active, or 0 where none is known.
    pub line: u64,
    /// The column, from 1 on, or 0 where none is known.
    pub column: u64,
}

/// What a session answers.
#[derive(Clone, Copy)]
pub enum Answer {
    Done,
    /// A slice has ended.
    Ended(SliceEnd),
    /// A slice with stops has ended.
    Walked(StopEnd),
    /// A run hasn't begun.
    Unbegun(Outcome),
    /// The input was closed.
    Closed,
    /// There is no such name, no function lies there, or there are not so many calls.
    Missing,
    /// There is no program, or no run where one is wanted, or one where none is; and nothing was done.
    Unready,
    /// Memory was refused, and nothing was done; or it was refused before, and the session is lost.
    Refused,
    /// The run stands there.
    Stands(Standing),
    /// The call is this one.
    Calls(Frame),
    /// This word is there.
    Word(u16),
    /// It stands for this.
    Tells(Symbol),
}

/// What goes to a session and comes back.
#[derive(Drop)]
pub struct Desk {
    pub alloc: Global,
    pub deed: Deed,
    pub bytes: Vec<u8>,
    pub answer: Answer,
}
