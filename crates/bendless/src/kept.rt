//! A state that is kept of a run, to be compared with later ones.
ghost use Rattle.std.specs.Prelude.{◌≡◌, true, IfNone, IfOk, length};
ghost use Rattle.bendless.specs.Keeps.{IsAt, IsKept, IsSameState, repeat_of, words_in};

use crate::search::Repeat;
use bmach::{Active, Stepper};
use bword::Store;
use std::alloc::{AllocError, Global};

// How many words a store has.
const STORE_LEN: usize = 65536;

/// A state of a run, as it was after so many steps.
#[derive(Drop)]
pub struct Kept {
    pub made: u64,
    pub call: Active,
    /// How many calls are below the running one.
    pub callers: usize,
    /// How many bytes of the input are left.
    pub left: usize,
    pub operands: Vec<u16>,
    pub words: Vec<u16>,
    /// An address at which the words differed when they were compared.
    pub differs: u16,
}

impl Kept {
    /// The state of a run after so many steps.
    pub fn of<S: Store + Drop>(
        alloc: Global,
        stepper: &Stepper<'_, S>,
        left: usize,
        made: u64,
    ) -> Result<Kept, AllocError>
        ensures { IfOk result (λ k. IsKept k stepper.now left made) }
    {
        let operands = Vec::from_slice(alloc, stepper.operands())?;
        let words = read_words(alloc, stepper)?;
        Ok(Kept {
            made,
            call: stepper.top(),
            callers: stepper.callers(),
            left,
            operands,
            words,
            differs: 0,
        })
    }

    /// Whether a run is in this state.
    pub fn is_at<S: Store + Drop>(&mut self, stepper: &Stepper<'_, S>, left: usize) -> bool
        requires { length self.old.words.items ≡ 65536 }
        ensures is_at { result ≡ true → IsAt self.old stepper.now left }
        ensures same { IsSameState self.old self.new }
    {
        if stepper.top().place != self.call.place
            || stepper.callers() != self.callers
            || left != self.left
            || stepper.word(self.differs) != self.words[usize::from(self.differs)]
            || stepper.operands() != self.operands.as_slice()
        {
            return false;
        }
        match self.other_word(stepper) {
            None => true,
            Some(address) => {
                self.differs = address;
                false
            }
        }
    }

    /// This state, which the run is in again after so many steps.
    pub fn again(&self, made: u64) -> Repeat
        ensures { result ≡ repeat_of self.now made }
    {
        Repeat {
            first: self.made,
            again: made,
            call: self.call,
            callers: self.callers,
        }
    }

    // An address at which a run has another word.
    fn other_word<S: Store + Drop>(&self, stepper: &Stepper<'_, S>) -> Option<u16>
        requires { length self.now.words.items ≡ 65536 }
        ensures { IfNone result (self.now.words.items ≡ words_in stepper.now.store) }
    {
        for address in 0..STORE_LEN {
            if stepper.word(address as u16) != self.words[address] {
                return Some(address as u16);
            }
        }
        None
    }
}

// The words of the store of a run.
fn read_words<S: Store + Drop>(
    alloc: Global,
    stepper: &Stepper<'_, S>,
) -> Result<Vec<u16>, AllocError>
    ensures { IfOk result (λ words. words.items ≡ words_in stepper.now.store) }
{
    let mut words = Vec::with_capacity(alloc, STORE_LEN)?;
    for address in 0..STORE_LEN {
        words.push(stepper.word(address as u16))?;
    }
    Ok(words)
}
