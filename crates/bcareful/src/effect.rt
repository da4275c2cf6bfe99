//! What a step does to marks.
ghost use Rattle.std.specs.Prelude.{◌≡◌};
ghost use Rattle.bcareful.specs.Effects.{call_effect, combined, instr_effect, moment_of, operand, operands_taken};

use crate::moment::Moment;
use crate::thing::{Mark, Part};
use blang::Instr;
use bword::BinOp;

/// What a step does to the marks of words and operands.
#[derive(Clone, Copy)]
pub enum Effect {
    /// It takes so many operands.
    Takes(usize),
    /// It takes so many, and puts one.
    Puts(usize, Mark),
    /// It takes so many, and puts the word that it stores at the address.
    Stores(usize, u16, Mark),
    /// It takes so many, puts a plain one, and sets a character of the word at the address, which has this mark then.
    Sets(usize, u16, Mark),
    /// It takes so many arguments and the callee below them, and a call begins.
    Begins(u16),
    /// It takes so many, puts one, and a call is over.
    Ends(usize, Mark),
}

impl Effect {
    /// How many operands a step with this effect takes.
    pub fn operands_taken(self) -> usize
        ensures { result ≡ operands_taken self }
    {
        match self {
            Effect::Begins(count) => usize::from(count) + 1,
            Effect::Takes(count)
            | Effect::Puts(count, _)
            | Effect::Stores(count, ..)
            | Effect::Sets(count, ..)
            | Effect::Ends(count, _) => count,
        }
    }
}

// The mark of what an operator gives.
fn combined(operator: BinOp, left: Mark, right: Mark) -> Mark
    ensures { result ≡ combined operator left right }
{
    match operator {
        BinOp::Add => match (left, right) {
            (Mark::Of(_), Mark::Of(_)) => Mark::Plain,
            (Mark::Of(thing), _) | (_, Mark::Of(thing)) => Mark::Of(thing),
            _ => Mark::Plain,
        },
        BinOp::Sub => match (left, right) {
            (Mark::Of(_), Mark::Of(_)) => Mark::Plain,
            (Mark::Of(thing), _) => Mark::Of(thing),
            _ => Mark::Plain,
        },
        _ => Mark::Plain,
    }
}

/// What an instruction does to marks.
pub fn instr_effect(moment: &Moment<'_>, instr: Instr) -> Effect
    ensures { result ≡ instr_effect (moment_of moment.now) instr }
{
    match instr {
        Instr::Constant(_) | Instr::Label(_) => Effect::Puts(0, Mark::Plain),
        Instr::External(name) => Effect::Puts(0, Mark::Of(moment.atlas.external(&name))),
        Instr::Automatic(offset) => Effect::Puts(0, Mark::Of(moment.automatic(offset))),
        Instr::Text(offset) => Effect::Puts(0, Mark::Of(moment.text(offset))),
        Instr::Load => Effect::Puts(1, moment.marks.word(moment.operand(0))),
        Instr::Store => Effect::Stores(2, moment.operand(1), moment.marks.operand(0)),
        Instr::Binary(operator) => {
            let left = moment.marks.operand(1);
            Effect::Puts(2, combined(operator, left, moment.marks.operand(0)))
        }
        Instr::Modify(operator) => {
            let address = moment.operand(1);
            let left = moment.marks.word(address);
            Effect::Stores(
                2,
                address,
                combined(operator, left, moment.marks.operand(0)),
            )
        }
        Instr::Negate | Instr::Not => Effect::Puts(1, Mark::Plain),
        Instr::Increment(_) => {
            let address = moment.operand(0);
            Effect::Stores(1, address, moment.marks.word(address))
        }
        Instr::JumpIfCase { value, .. } if moment.operand(0) != value => Effect::Takes(0),
        Instr::Jump(_) => Effect::Takes(0),
        Instr::JumpIfZero(_) | Instr::Goto | Instr::JumpIfCase { .. } | Instr::Pop => {
            Effect::Takes(1)
        }
        Instr::Call(count) => call_effect(moment, count),
        Instr::Return => Effect::Ends(moment.operands.len(), moment.marks.operand(0)),
    }
}

// What a call with so many arguments does.
fn call_effect(moment: &Moment<'_>, count: u16) -> Effect
    ensures { result ≡ call_effect (moment_of moment.now) count (operand (moment_of moment.now) count) }
{
    let arguments = usize::from(count);
    match moment.operand(arguments) {
        2 => {
            let address = moment.character_address(arguments);
            let part = Part::at(moment.argument(arguments, 1));
            let mark = moment.marks.word(address).with_part(part);
            Effect::Sets(arguments + 1, address, mark)
        }
        0..=6 => Effect::Puts(arguments + 1, Mark::Plain),
        _ => Effect::Begins(count),
    }
}
