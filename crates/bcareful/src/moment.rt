//! A run before a step.
ghost use Rattle.std.specs.Prelude.{◌≡◌, reverse, slice_index};
ghost use Rattle.bcareful.specs.Effects.{argument, argument_mark, character_address, moment_of, operand};
ghost use Rattle.bcareful.specs.Marks.{running};
ghost use Rattle.bcareful.specs.Things.{frame_thing, string_at};

use crate::atlas::{Atlas, Site};
use crate::marks::Marks;
use crate::thing::{Mark, Thing, frame_thing, string_at};
use bmach::Active;

/// A run before a step, in a call of a function.
#[derive(Clone, Copy)]
pub struct Moment<'a> {
    pub atlas: Atlas<'a>,
    pub call: Active,
    pub site: Site<'a>,
    /// The operands of the call, the topmost last.
    pub operands: &'a [u16],
    pub pointed: Pointed,
    pub marks: &'a Marks,
}

/// The words of memory that a step may count or modify.
#[derive(Clone, Copy)]
pub struct Pointed {
    /// The one at the address that has no operand above it.
    pub counted: u16,
    /// The one at the address that has one operand above it.
    pub modified: u16,
}

/// The operand among these, the topmost last, that has so many above it, or 0.
pub fn operand_of(operands: &[u16], above: usize) -> u16
    ensures { result ≡ slice_index (reverse operands.now) above }
{
    if above >= operands.len() {
        return 0;
    }
    operands[operands.len() - 1 - above]
}

impl<'a> Moment<'a> {
    /// The operand that has so many above it, or 0.
    pub fn operand(&self, above: usize) -> u16
        ensures { result ≡ operand (moment_of self.now) above }
    {
        operand_of(self.operands, above)
    }

    /// The thing of a word of the frame.
    pub fn automatic(&self, offset: u16) -> Thing
        ensures { result ≡ frame_thing (moment_of self.now).call (running (moment_of self.now).marks.calls)
            (moment_of self.now).site.words (moment_of self.now).site.function.frame offset }
    {
        let owner = self.marks.owner();
        frame_thing(
            self.call,
            owner,
            self.site.words,
            self.site.parts.frame,
            offset,
        )
    }

    /// The string of the function with this offset.
    pub fn text(&self, offset: u16) -> Thing
        ensures { result ≡ string_at (moment_of self.now).call.strings (moment_of self.now).site.function.strings
            offset }
    {
        string_at(self.call.strings, &self.site.parts.strings, offset)
    }

    /// An argument of a call with so many, or 0.
    pub fn argument(&self, count: usize, number: usize) -> u16
        ensures { result ≡ argument (moment_of self.now) count number }
    {
        if number < count {
            self.operand(count - number - 1)
        } else {
            0
        }
    }

    /// The mark of an argument of a call with so many.
    pub fn argument_mark(&self, count: usize, number: usize) -> Mark
        ensures { result ≡ argument_mark (moment_of self.now) count number }
    {
        if number < count {
            self.marks.operand(count - number - 1)
        } else {
            Mark::Plain
        }
    }

    /// The address of the word that a call of `char` reads, or one of `lchar` stores.
    pub fn character_address(&self, count: usize) -> u16
        ensures { result ≡ character_address (moment_of self.now) count }
    {
        self.argument(count, 0)
            .wrapping_add(self.argument(count, 1) / 2)
    }
}
