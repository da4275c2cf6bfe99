//! The sentence that tells how a run ended.
ghost use Rattle.std.specs.Prelude.{◌≡◌, ◌++◌, OnOk};
ghost use Rattle.bshow.specs.Facts.{exit_sentence, sentence, trap_sentence, trap_words, unbegun_sentence};

use blang::{Outcome, Trap};
use btools::Text;
use std::alloc::AllocError;

/// Adds the sentence for a run of so many steps.
pub fn push_sentence(text: &mut Text, outcome: Outcome, made: u64) -> Result<(), AllocError>
    ensures { OnOk result (text.new ≡ text.old ++ sentence outcome made) }
{
    match outcome {
        Outcome::Exit(status) => push_exit(text, status, made),
        Outcome::Trap(trap) => push_trap(text, trap_words(trap), made),
        Outcome::Limit | Outcome::Device | Outcome::Memory => {
            text.push(b"The run goes on after step ")?;
            text.push_number(made)?;
            text.push(b".")
        }
    }
}

fn push_exit(text: &mut Text, status: u8, made: u64) -> Result<(), AllocError>
    ensures { OnOk result (text.new ≡ text.old ++ exit_sentence status made) }
{
    text.push(b"The run ended with status ")?;
    text.push_number(u64::from(status))?;
    text.push(b", in step ")?;
    text.push_number(made)?;
    text.push(b".")
}

fn push_trap(text: &mut Text, words: &[u8], made: u64) -> Result<(), AllocError>
    ensures { OnOk result (text.new ≡ text.old ++ trap_sentence words.now made) }
{
    text.push(b"The run was stopped by ")?;
    text.push(words)?;
    text.push(b", in step ")?;
    text.push_number(made)?;
    text.push(b".")
}

/// Adds the sentence for a run that had no first step.
pub fn push_unbegun(text: &mut Text, trap: Trap) -> Result<(), AllocError>
    ensures { OnOk result (text.new ≡ text.old ++ unbegun_sentence trap) }
{
    text.push(b"The run never began: it was stopped by ")?;
    text.push(trap_words(trap))?;
    text.push(b".")
}

fn trap_words(trap: Trap) -> &'static [u8]
    ensures { result.now ≡ trap_words trap }
{
    match trap {
        Trap::ZeroDivisor => b"trap dz, a division by 0",
        Trap::NotAFunction => b"trap fn, a call of a value that is no function",
        Trap::NotALabel => b"trap gt, a goto to a value that is no label of its function",
        Trap::NoRoom => b"trap st, a frame without room in memory",
        Trap::TooDeep => b"trap dp, more than 4096 active calls",
        Trap::BadBase => b"trap bs, a base of printn that isn't from 2 to 10",
        Trap::Stuck => b"trap sk, a step without an instruction or operands",
    }
}
