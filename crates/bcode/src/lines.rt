//! Lines, read from the front of a text.
ghost use Rattle.std.specs.Prelude.{◌≡◌, ◌≢◌, ◌<◌, ◌≤◌, ◌∷◌, [], decimal};
ghost use Rattle.blang.specs.CodeParts.{IsInstrWithin, IsIvalWithin};
ghost use Rattle.blang.specs.Text.{line, instr_line, ival_line};
ghost use Rattle.blang.specs.declared.limits.TheConstants.{WORD_VALUES};
ghost use Rattle.bcode.specs.Headers.{header_text, IsHeaderWithin};
ghost use Rattle.bcode.specs.LineReading.{
  choose,
  counted_readers,
  line_ended,
  operand_at,
  name_operand_at,
  less_at,
  greater_at,
  operator_at,
  increment_at,
  case_at,
  instr_at,
  ival_line_at,
  number_line_at,
  sizes_at,
  function_header_at,
  simple_header_at,
  vector_header_at,
  any_header_at,
  header_at,
};
ghost use Rattle.bcode.specs.Reading.{Gives};

use crate::header::Header;
use crate::line_form::LineForm;
use crate::parts::{expect, name, number};
use crate::{Increment, Instr, Ival};
use blang::{Sizes, WORD_VALUES};
use bword::{BinOp, Name};

// The text after the end of a line, beside what stood in the line.
#[tactic(auto, unfolding(crate::specs::LineReading::line_ended))]
#[inline(always)]
fn ended<T: Drop>(value: T, text: &[u8]) -> Option<(T, &[u8])>
    ensures { Gives (λ r. (r.0, r.1.now)) result (line_ended value text.now) }
{
    let rest = expect(text, b'\n')?;
    Some((value, rest))
}

#[tactic(auto, unfolding(crate::specs::LineReading::operand_at))]
#[inline(always)]
fn operand(text: &[u8], below: u32) -> Option<(u16, &[u8])>
    requires { below ≤ WORD_VALUES }
    ensures { Gives (λ r. (r.0, r.1.now)) result (operand_at below text.now) }
{
    let rest = expect(text, b' ')?;
    number(rest, b'\n', below)
}

#[tactic(auto, unfolding(crate::specs::LineReading::name_operand_at))]
#[inline(always)]
fn name_operand(text: &[u8]) -> Option<(Name, &[u8])>
    ensures { Gives (λ r. (r.0, r.1.now)) result (name_operand_at text.now) }
{
    let rest = expect(text, b' ')?;
    name(rest, b'\n')
}

#[tactic(auto, unfolding(crate::specs::LineReading::less_at))]
#[inline(always)]
fn less(text: &[u8]) -> Option<(BinOp, &[u8])>
    ensures { Gives (λ r. (r.0, r.1.now)) result (less_at text.now) }
{
    let (byte, rest) = text.split_first()?;
    match *byte {
        b'\n' => Some((BinOp::Lt, rest)),
        b'=' => ended(BinOp::Le, rest),
        b'<' => ended(BinOp::Shl, rest),
        _ => None,
    }
}

#[tactic(auto, unfolding(crate::specs::LineReading::greater_at))]
#[inline(always)]
fn greater(text: &[u8]) -> Option<(BinOp, &[u8])>
    ensures { Gives (λ r. (r.0, r.1.now)) result (greater_at text.now) }
{
    let (byte, rest) = text.split_first()?;
    match *byte {
        b'\n' => Some((BinOp::Gt, rest)),
        b'=' => ended(BinOp::Ge, rest),
        b'>' => ended(BinOp::Shr, rest),
        _ => None,
    }
}

#[tactic(auto, unfolding(crate::specs::LineReading::operator_at))]
#[inline(always)]
fn operator(text: &[u8]) -> Option<(BinOp, &[u8])>
    ensures { Gives (λ r. (r.0, r.1.now)) result (operator_at text.now) }
{
    let (byte, rest) = expect(text, b' ')?.split_first()?;
    match *byte {
        b'|' => ended(BinOp::Or, rest),
        b'&' => ended(BinOp::And, rest),
        b'=' => ended(BinOp::Eq, expect(rest, b'=')?),
        b'!' => ended(BinOp::Ne, expect(rest, b'=')?),
        b'<' => less(rest),
        b'>' => greater(rest),
        b'-' => ended(BinOp::Sub, rest),
        b'+' => ended(BinOp::Add, rest),
        b'%' => ended(BinOp::Rem, rest),
        b'*' => ended(BinOp::Mul, rest),
        b'/' => ended(BinOp::Div, rest),
        _ => None,
    }
}

#[tactic(auto, unfolding(crate::specs::LineReading::increment_at))]
#[inline(always)]
fn increment(text: &[u8]) -> Option<(Increment, &[u8])>
    ensures { Gives (λ r. (r.0, r.1.now)) result (increment_at text.now) }
{
    let (byte, rest) = expect(text, b' ')?.split_first()?;
    match *byte {
        b'0' => ended(Increment::PreIncrement, rest),
        b'1' => ended(Increment::PreDecrement, rest),
        b'2' => ended(Increment::PostIncrement, rest),
        b'3' => ended(Increment::PostDecrement, rest),
        _ => None,
    }
}

#[tactic(auto, unfolding(crate::specs::LineReading::case_at))]
#[inline(always)]
fn case(text: &[u8], below: u32) -> Option<(Instr, &[u8])>
    requires { below ≤ WORD_VALUES }
    ensures { Gives (λ r. (r.0, r.1.now)) result (case_at below text.now) }
{
    let rest = expect(text, b' ')?;
    let (value, rest) = number(rest, b' ', WORD_VALUES)?;
    let (target, rest) = number(rest, b'\n', below)?;
    Some((Instr::JumpIfCase { value, target }, rest))
}

// An instruction with a number, after its letter.
#[inline(always)]
fn counted(letter: u8, text: &[u8], sizes: Sizes) -> Option<(Instr, &[u8])>
    ensures { Gives (λ r. (r.0, r.1.now)) result (choose (counted_readers sizes) letter text.now) }
{
    match letter {
        b'c' => {
            let (n, rest) = operand(text, WORD_VALUES)?;
            Some((Instr::Constant(n), rest))
        }
        b'a' => {
            let (n, rest) = operand(text, u32::from(sizes.frame))?;
            Some((Instr::Automatic(n), rest))
        }
        b's' => {
            let (n, rest) = operand(text, u32::from(sizes.strings))?;
            Some((Instr::Text(n), rest))
        }
        b'l' => {
            let (n, rest) = operand(text, u32::from(sizes.labels))?;
            Some((Instr::Label(n), rest))
        }
        b'j' => {
            let (n, rest) = operand(text, u32::from(sizes.code))?;
            Some((Instr::Jump(n), rest))
        }
        b'z' => {
            let (n, rest) = operand(text, u32::from(sizes.code))?;
            Some((Instr::JumpIfZero(n), rest))
        }
        b'k' => {
            let (n, rest) = operand(text, WORD_VALUES)?;
            Some((Instr::Call(n), rest))
        }
        _ => None,
    }
}

/// The line of an instruction in a function of these sizes.
#[derive(Clone, Copy)]
pub struct InstrLine {
    pub sizes: Sizes,
}

impl LineForm for InstrLine {
    type Value = Instr;

    ghost spell = { λ _. instr_line };

    ghost within = { λ form. IsInstrWithin form.sizes };

    ghost reader = { λ form. instr_at form.sizes };

    #[tactic(auto, unfolding(crate::specs::LineReading::instr_at))]
    #[inline(always)]
    fn read_from(self, text: &[u8]) -> Option<(Instr, &[u8])> {
        let (letter, rest) = text.split_first()?;
        match *letter {
            b'x' => match name_operand(rest) {
                Some((name, rest)) => Some((Instr::External(name), rest)),
                None => None,
            },
            b'v' => ended(Instr::Load, rest),
            b'w' => ended(Instr::Store, rest),
            b'b' => {
                let (operator, rest) = operator(rest)?;
                Some((Instr::Binary(operator), rest))
            }
            b'm' => {
                let (operator, rest) = operator(rest)?;
                Some((Instr::Modify(operator), rest))
            }
            b'n' => ended(Instr::Negate, rest),
            b'h' => ended(Instr::Not, rest),
            b'i' => {
                let (which, rest) = increment(rest)?;
                Some((Instr::Increment(which), rest))
            }
            b'g' => ended(Instr::Goto, rest),
            b'e' => case(rest, u32::from(self.sizes.code)),
            b'r' => ended(Instr::Return, rest),
            b'p' => ended(Instr::Pop, rest),
            letter => counted(letter, rest, self.sizes),
        }
    }
}

/// The line of an initial value of a definition with this many string words.
#[derive(Clone, Copy)]
pub struct IvalLine {
    pub strings: u16,
}

impl LineForm for IvalLine {
    type Value = Ival;

    ghost spell = { λ _. ival_line };

    ghost within = { λ form. IsIvalWithin form.strings };

    ghost reader = { λ form. ival_line_at form.strings };

    #[tactic(auto, unfolding(crate::specs::LineReading::ival_line_at))]
    #[inline(always)]
    fn read_from(self, text: &[u8]) -> Option<(Ival, &[u8])> {
        let (letter, rest) = text.split_first()?;
        match *letter {
            b'c' => {
                let (n, rest) = operand(rest, WORD_VALUES)?;
                Some((Ival::Number(n), rest))
            }
            b'x' => match name_operand(rest) {
                Some((name, rest)) => Some((Ival::Name(name), rest)),
                None => None,
            },
            b's' => {
                let (offset, rest) = operand(rest, u32::from(self.strings))?;
                Some((Ival::Text(offset), rest))
            }
            _ => None,
        }
    }
}

/// The line of a letter and a number below a bound.
#[derive(Clone, Copy)]
pub struct NumberLine {
    pub letter: u8,
    pub below: u32,
    ghost is_letter: { letter ≢ 10 },
    ghost fits: { below ≤ WORD_VALUES },
}

/// The line of a string word.
pub const STRING_LINE: NumberLine = NumberLine {
    letter: b'w',
    below: WORD_VALUES,
};

impl LineForm for NumberLine {
    type Value = u16;

    ghost spell = { λ form n. line ((form.letter ∷ []) ∷ decimal n ∷ []) };

    ghost within = { λ form n. n < form.below };

    ghost reader = { λ form. number_line_at form.letter form.below };

    #[tactic(auto, unfolding(crate::specs::LineReading::number_line_at))]
    #[inline(always)]
    fn read_from(self, text: &[u8]) -> Option<(u16, &[u8])> {
        let rest = expect(text, self.letter)?;
        operand(rest, self.below)
    }
}

#[tactic(auto, unfolding(crate::specs::LineReading::sizes_at))]
fn sizes(text: &[u8]) -> Option<(Sizes, &[u8])>
    ensures { Gives (λ r. (r.0, r.1.now)) result (sizes_at text.now) }
{
    let (frame, rest) = number(text, b' ', WORD_VALUES)?;
    let (labels, rest) = number(rest, b' ', WORD_VALUES)?;
    let (strings, rest) = number(rest, b' ', WORD_VALUES)?;
    let (code, rest) = number(rest, b'\n', WORD_VALUES)?;
    let sizes = Sizes {
        frame,
        labels,
        strings,
        code,
    };
    Some((sizes, rest))
}

#[tactic(auto, unfolding(crate::specs::LineReading::function_header_at))]
fn function_header(text: &[u8]) -> Option<(Header, &[u8])>
    ensures { Gives (λ r. (r.0, r.1.now)) result (function_header_at text.now) }
{
    let rest = expect(text, b' ')?;
    let Some((name, rest)) = name(rest, b' ') else {
        return None;
    };
    let (parameters, rest) = number(rest, b' ', WORD_VALUES)?;
    let (sizes, rest) = sizes(rest)?;
    Some((
        Header::Function {
            name,
            parameters,
            sizes,
        },
        rest,
    ))
}

#[tactic(auto, unfolding(crate::specs::LineReading::simple_header_at))]
fn simple_header(text: &[u8]) -> Option<(Header, &[u8])>
    ensures { Gives (λ r. (r.0, r.1.now)) result (simple_header_at text.now) }
{
    let rest = expect(text, b' ')?;
    let Some((name, rest)) = name(rest, b' ') else {
        return None;
    };
    let (values, rest) = number(rest, b' ', WORD_VALUES)?;
    let (strings, rest) = number(rest, b'\n', WORD_VALUES)?;
    Some((
        Header::Simple {
            name,
            values,
            strings,
        },
        rest,
    ))
}

#[tactic(auto, unfolding(crate::specs::LineReading::vector_header_at))]
fn vector_header(text: &[u8]) -> Option<(Header, &[u8])>
    ensures { Gives (λ r. (r.0, r.1.now)) result (vector_header_at text.now) }
{
    let rest = expect(text, b' ')?;
    let Some((name, rest)) = name(rest, b' ') else {
        return None;
    };
    let (words, rest) = number(rest, b' ', WORD_VALUES)?;
    let (values, rest) = number(rest, b' ', WORD_VALUES)?;
    let (strings, rest) = number(rest, b'\n', WORD_VALUES)?;
    Some((
        Header::Vector {
            name,
            words,
            values,
            strings,
        },
        rest,
    ))
}

// The first line of a definition, whatever its numbers.
#[tactic(auto, unfolding(crate::specs::LineReading::any_header_at))]
fn any_header(text: &[u8]) -> Option<(Header, &[u8])>
    ensures { Gives (λ r. (r.0, r.1.now)) result (any_header_at text.now) }
{
    let (letter, rest) = text.split_first()?;
    match *letter {
        b'F' => function_header(rest),
        b'X' => simple_header(rest),
        b'V' => vector_header(rest),
        b'E' => ended(Header::End, rest),
        _ => None,
    }
}

/// The first line of a definition within its ranges, or the last one of a code text.
#[derive(Clone, Copy)]
pub struct HeaderLine;

impl LineForm for HeaderLine {
    type Value = Header;

    ghost spell = { λ _. header_text };

    ghost within = { λ _. IsHeaderWithin };

    ghost reader = { λ _. header_at };

    #[tactic(auto, unfolding(crate::specs::LineReading::header_at))]
    fn read_from(self, text: &[u8]) -> Option<(Header, &[u8])> {
        let Some((header, rest)) = any_header(text) else {
            return None;
        };
        if header.fits() {
            Some((header, rest))
        } else {
            None
        }
    }
}
