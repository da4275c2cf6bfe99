//! What is found at a step.
ghost use Rattle.std.specs.Prelude.{◌≡◌, false};
ghost use Rattle.bcareful.specs.Effects.{instr_effect, mark, moment_of, operand, operands_taken};
ghost use Rattle.bcareful.specs.Findings.{call_touch, counts_by, found_word, instr_finding, is_address, unset_part};
ghost use Rattle.bcareful.specs.Findings.{result_finding, thing_finding, touch, touch_finding, word_finding};
ghost use Rattle.bcareful.specs.Findings.{wrap_finding, wraps};

use crate::moment::Moment;
use crate::thing::{Mark, Part, Thing};
use blang::{Increment, Instr};
use bword::BinOp;

/// What is wrong with a step.
#[derive(Clone, Copy)]
pub enum Finding {
    /// It reads this word, or a character of it, and nothing has set this part of the word.
    Never(Part, u16),
    /// It reads or stores a word through an address that has left the thing of which it was made.
    Index(Thing, u16),
    /// It reads or stores one of the first words or one past the last frame.
    Low(u16),
    /// It reads or stores a character of this word that comes after the end of a string.
    Past(u16),
    /// It reads or stores this word, of which the address was made in a call that is over.
    Over(u16),
    /// The result of this operator on these words, as signed numbers, is no word.
    Wraps(BinOp, u16, u16),
}

/// A word of memory that a step reads or stores.
#[derive(Clone, Copy)]
pub struct Touched {
    pub address: u16,
    /// The mark of its address.
    pub origin: Mark,
    pub reads: bool,
    /// What of the word.
    pub part: Part,
}

// The word of memory that an instruction reads or stores.
fn touch(moment: &Moment<'_>, instr: Instr) -> Option<Touched>
    ensures { result ≡ touch (moment_of moment.now) instr }
{
    match instr {
        Instr::Load | Instr::Increment(_) => Some(touch_through(moment, 0, true)),
        Instr::Store => Some(touch_through(moment, 1, false)),
        Instr::Modify(_) => Some(touch_through(moment, 1, true)),
        Instr::Call(count) => call_touch(moment, usize::from(count)),
        _ => None,
    }
}

// The word at the address that has so many operands above it.
fn touch_through(moment: &Moment<'_>, above: usize, reads: bool) -> Touched
    ensures { result ≡ record {
      address = operand (moment_of moment.now) above;
      origin = mark (moment_of moment.now) above;
      reads = reads;
      part = Part.Whole;
    } }
{
    Touched {
        address: moment.operand(above),
        origin: moment.marks.operand(above),
        reads,
        part: Part::Whole,
    }
}

fn call_touch(moment: &Moment<'_>, count: usize) -> Option<Touched>
    ensures { result ≡ call_touch (moment_of moment.now) count (operand (moment_of moment.now) count) }
{
    let callee = moment.operand(count);
    if callee == 1 || callee == 2 {
        Some(Touched {
            address: moment.character_address(count),
            origin: moment.argument_mark(count, 0),
            reads: callee == 1,
            part: Part::at(moment.argument(count, 1)),
        })
    } else {
        None
    }
}

/// What is found at an instruction that takes so many operands; nothing where the machine is stuck for want of them.
pub fn instr_finding(moment: &Moment<'_>, instr: &Instr, taken: usize) -> Option<Finding>
    requires { taken ≡ operands_taken (instr_effect (moment_of moment.now) instr.now) }
    ensures { result ≡ instr_finding (moment_of moment.now) instr.now }
{
    if moment.operands.len() < taken {
        return None;
    }
    found_word(moment, *instr).or(wrap_finding(moment, *instr))
}

// What is found at the word that an instruction reads or stores.
fn found_word(moment: &Moment<'_>, instr: Instr) -> Option<Finding>
    ensures { result ≡ found_word (moment_of moment.now) instr }
{
    match touch(moment, instr) {
        Some(touch) => touch_finding(moment, touch),
        None => None,
    }
}

// What is found at the result of an operation.
fn wrap_finding(moment: &Moment<'_>, instr: Instr) -> Option<Finding>
    ensures { result ≡ wrap_finding (moment_of moment.now) instr }
{
    if !moment.atlas.wraps {
        return None;
    }
    let right = moment.operand(0);
    let of_right = moment.marks.operand(0);
    let address = moment.operand(1);
    match instr {
        Instr::Binary(operator) => {
            let of_left = moment.marks.operand(1);
            result_finding(moment, operator, (address, right), (of_left, of_right))
        }
        Instr::Modify(operator) => {
            let of_left = moment.marks.word(address);
            result_finding(
                moment,
                operator,
                (moment.pointed.modified, right),
                (of_left, of_right),
            )
        }
        Instr::Increment(which) => {
            let words = (moment.pointed.counted, 1);
            let of_left = moment.marks.word(right);
            result_finding(moment, counts_by(which), words, (of_left, Mark::Plain))
        }
        _ => None,
    }
}

fn counts_by(which: Increment) -> BinOp
    ensures { result ≡ counts_by which }
{
    match which {
        Increment::PreIncrement | Increment::PostIncrement => BinOp::Add,
        Increment::PreDecrement | Increment::PostDecrement => BinOp::Sub,
    }
}

fn result_finding(
    moment: &Moment<'_>,
    operator: BinOp,
    words: (u16, u16),
    marks: (Mark, Mark),
) -> Option<Finding>
    ensures { result ≡ result_finding (moment_of moment.now) operator words.0 words.1 marks.0 marks.1 }
{
    let (left, right) = words;
    let (of_left, of_right) = marks;
    let is_number = !is_address(of_left) && !is_address(of_right);
    if moment.atlas.wraps && is_number && wraps(operator, left, right) {
        Some(Finding::Wraps(operator, left, right))
    } else {
        None
    }
}

fn is_address(mark: Mark) -> bool
    ensures { result ≡ is_address mark }
{
    match mark {
        Mark::Of(_) => true,
        Mark::Unset | Mark::First | Mark::Second | Mark::Plain => false,
    }
}

// Whether the sum, the difference or the product of two words, as signed numbers, is no word.
fn wraps(operator: BinOp, left: u16, right: u16) -> bool
    ensures { result ≡ wraps operator left right }
{
    let (left, right) = (left.cast_signed(), right.cast_signed());
    match operator {
        BinOp::Add => left.checked_add(right).is_none(),
        BinOp::Sub => left.checked_sub(right).is_none(),
        BinOp::Mul => left.checked_mul(right).is_none(),
        _ => false,
    }
}

fn touch_finding(moment: &Moment<'_>, touch: Touched) -> Option<Finding>
    ensures { result ≡ touch_finding (moment_of moment.now) touch.origin touch }
{
    match touch.origin {
        Mark::Of(thing) => thing_finding(moment, thing, touch),
        Mark::Unset | Mark::First | Mark::Second | Mark::Plain => {
            if touch.address < 7 {
                return Some(Finding::Low(touch.address));
            }
            word_finding(moment, touch)
        }
    }
}

// What is found at a word through an address that was made of this thing.
fn thing_finding(moment: &Moment<'_>, thing: Thing, touch: Touched) -> Option<Finding>
    ensures { result ≡ thing_finding (moment_of moment.now) thing touch }
{
    if moment.marks.is_over(thing) {
        return Some(Finding::Over(touch.address));
    }
    if thing.is_outside(touch.address) {
        return Some(Finding::Index(thing, touch.address));
    }
    if thing.is_past_end(touch.part, touch.address) {
        return Some(Finding::Past(touch.address));
    }
    word_finding(moment, touch)
}

fn word_finding(moment: &Moment<'_>, touch: Touched) -> Option<Finding>
    ensures { result ≡ word_finding (moment_of moment.now) touch }
{
    let end = u64::from(moment.call.start) + u64::from(moment.site.parts.frame);
    if u64::from(touch.address) >= end {
        return Some(Finding::Low(touch.address));
    }
    if !touch.reads {
        return None;
    }
    match unset_part(touch.part, moment.marks.word(touch.address)) {
        Some(part) => Some(Finding::Never(part, touch.address)),
        None => None,
    }
}

// What of a word with this mark nothing has set, where this part of it is read.
fn unset_part(part: Part, mark: Mark) -> Option<Part>
    ensures { result ≡ unset_part part mark }
{
    match (part, mark) {
        (_, Mark::Unset) => Some(Part::Whole),
        (Part::Whole | Part::Second, Mark::First) => Some(Part::Second),
        (Part::Whole | Part::First, Mark::Second) => Some(Part::First),
        _ => None,
    }
}
