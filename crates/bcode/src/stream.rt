//! The lines of a text that comes byte by byte.
ghost use Rattle.std.specs.Prelude.{◌≡◌, ◌∷◌, ◌++◌, ◌<◌, ◌≤◌, [], if◌then◌else◌, MatchResult, None, OnErr, OnOk, flat_map, length, true};
ghost use Rattle.bcode.specs.Ahead.{LineGives, EndGives};
ghost use Rattle.bcode.specs.Copying.{BeginsWith, HasSome, SomeLinesGive, PutsFound};
ghost use Rattle.bcode.specs.LineReading.{IsForm};
ghost use Rattle.bcode.specs.Streams.{TakingGives};
ghost use Rattle.blang.specs.Text.{edition_line};

use crate::CodeFault;
use crate::code_stop::CodeStop;
use crate::line_form::LineForm;
use arrayvec::ArrayVec;
use blang::LINE_LEN;
use bword::{ByteIn, Device};
use std::alloc::{AllocError, Global};
use std::marker::Model;

/// A line, or as much of one as tells that it is none of a code text.
type Line = ArrayVec<u8, LINE_LEN>;

/// The lines of a stream. It takes each to its last byte, and no byte after it.
#[derive(Drop)]
pub struct Stream<I: ByteIn> {
    input: I,
    line: u64,
    // The bytes of the line that was read last.
    bytes: Line,
}

impl<I: ByteIn> Model for Stream<I> {
    ghost use Rattle.std.specs.Prelude.{◌+◌, ◌*◌, ◌≤◌, ◌^◌};
    ghost use Rattle.bword.specs.ByteEnds.{Incoming};
    ghost use Rattle.bcode.specs.Ahead.{Ahead};

    ghost Value = { Ahead };

    ghost view = { λ s. record { end = I.incoming s.input; lender = I.lender s.input; line = s.line } };

    // A line has two bytes at least, so that the number of none passes a u64.
    ghost invariant = { λ s. 2 * s.line + Incoming.bound (I.incoming s.input) ≤ 2 ^ 64 + 1 };
}

impl<I: ByteIn> Stream<I> {
    /// All lines of the stream.
    pub fn new(input: I) -> Self
        ensures { result ≡ record { end = I.incoming input; lender = I.lender input; line = 1 } }
    {
        Stream {
            input,
            line: 1,
            bytes: ArrayVec::new(),
        }
    }

    /// The stream, after the lines that were read.
    pub fn into_end(self) -> I
        ensures end { I.incoming result ≡ self.end }
        ensures lender { I.lender result ≡ self.lender }
    {
        self.input
    }

    /// The number of the next line.
    pub fn line(&self) -> u64
        ensures { result ≡ self.now.line }
    {
        self.line
    }

    /// Whether no byte is left; else one is taken.
    pub fn is_over(&mut self) -> Result<bool, Device>
        ensures { EndGives self.old result self.new }
    {
        Ok(self.input.next()?.is_none())
    }

    /// The line that a text of the second edition begins with.
    pub fn opening(&mut self) -> Result<(), CodeStop>
        ensures { LineGives (λ _. edition_line) (λ _. Unit {0}) self.old result self.new }
    {
        read_line(&mut self.input, &mut self.bytes)?;
        if !self.bytes.as_slice().starts_with(b"B 2\n") {
            return Err(CodeStop::Fault(CodeFault::Line(self.line)));
        }
        self.line += 1;
        Ok(())
    }

    /// The value in the next line, which has this form.
    #[inline(always)]
    pub fn read<F: LineForm>(&mut self, form: F) -> Result<F::Value, CodeStop>
        requires { IsForm (F.spell form) (F.within form) (F.reader form) }
        ensures { LineGives (F.spell form) (F.within form) self.old result self.new }
    {
        let ahead = self.input.ahead();
        let Some(found) = form.read_from(ahead) else {
            return Ok(self.fetch(form)?);
        };
        let (value, rest) = found;
        let count = ahead.len() - rest.len();
        self.input.take(count);
        self.line += 1;
        Ok(value)
    }

    // The same of a line that isn't whole among the bytes ahead, or that is none of a code text: it is taken byte by
    // byte. `read` hands the answer on by `?`, so that the place where this writes it has no other use.
    #[cold]
    #[inline(never)]
    fn fetch<F: LineForm>(&mut self, form: F) -> Result<F::Value, CodeStop>
        requires { IsForm (F.spell form) (F.within form) (F.reader form) }
        ensures { LineGives (F.spell form) (F.within form) self.old result self.new }
    {
        read_line(&mut self.input, &mut self.bytes)?;
        let Some(found) = form.read_from(self.bytes.as_slice()) else {
            return Err(CodeStop::Fault(CodeFault::Line(self.line)));
        };
        self.line += 1;
        Ok(found.0)
    }

    /// Takes lines of this form, one at least and so many at most, and puts their values after others.
    pub fn read_several<F: LineForm>(
        &mut self,
        form: F,
        most: u16,
        values: &mut Vec<F::Value>,
    ) -> Result<u16, CodeStop>
        requires shape { IsForm (F.spell form) (F.within form) (F.reader form) }
        requires some { 0 < most }
        ensures { SomeLinesGive (F.spell form) (F.within form) (λ xs. xs) most
            self.old values.old.items result self.new values.new.items }
    {
        let ahead = self.input.ahead();
        let (count, rest) = values_at(form, most, ahead, values, true)?;
        if count == 0 {
            return self.read_one(form, most, values);
        }
        let len = ahead.len() - rest.len();
        self.input.take(len);
        self.line += u64::from(count);
        Ok(count)
    }

    // The same of one line, as `fetch` takes it.
    #[cold]
    #[inline(never)]
    fn read_one<F: LineForm>(
        &mut self,
        form: F,
        most: u16,
        values: &mut Vec<F::Value>,
    ) -> Result<u16, CodeStop>
        requires shape { IsForm (F.spell form) (F.within form) (F.reader form) }
        requires some { 0 < most }
        ensures { SomeLinesGive (F.spell form) (F.within form) (λ xs. xs) most
            self.old values.old.items result self.new values.new.items }
    {
        read_line(&mut self.input, &mut self.bytes)?;
        let (count, _) = values_at(form, 1, self.bytes.as_slice(), values, true)?;
        if count == 0 {
            return Err(CodeStop::Fault(CodeFault::Line(self.line)));
        }
        self.line += 1;
        Ok(1)
    }

    /// Takes lines of this form, one at least and so many at most, and puts them after a text.
    pub fn copy<F: LineForm>(
        &mut self,
        form: F,
        most: u16,
        text: &mut Vec<u8>,
    ) -> Result<u16, CodeStop>
        requires shape { IsForm (F.spell form) (F.within form) (F.reader form) }
        requires some { 0 < most }
        ensures { SomeLinesGive (F.spell form) (F.within form) (flat_map (F.spell form)) most
            self.old text.old.items result self.new text.new.items }
    {
        let ahead = self.input.ahead();
        let (count, rest) = lines_at(*text.allocator(), form, most, ahead);
        if count == 0 {
            return self.copy_one(form, most, text);
        }
        let len = ahead.len() - rest.len();
        text.extend_from_slice(&ahead[..len])?;
        self.input.take(len);
        self.line += u64::from(count);
        Ok(count)
    }

    // The same of one line, as `fetch` takes it.
    #[cold]
    #[inline(never)]
    fn copy_one<F: LineForm>(
        &mut self,
        form: F,
        most: u16,
        text: &mut Vec<u8>,
    ) -> Result<u16, CodeStop>
        requires shape { IsForm (F.spell form) (F.within form) (F.reader form) }
        requires some { 0 < most }
        ensures { SomeLinesGive (F.spell form) (F.within form) (flat_map (F.spell form)) most
            self.old text.old.items result self.new text.new.items }
    {
        read_line(&mut self.input, &mut self.bytes)?;
        let (count, _) = lines_at(*text.allocator(), form, 1, self.bytes.as_slice());
        if count == 0 {
            return Err(CodeStop::Fault(CodeFault::Line(self.line)));
        }
        self.line += 1;
        text.extend_from_slice(self.bytes.as_slice())?;
        Ok(1)
    }
}

// How many lines of a form a text begins with, up to so many, and the text after them. Where their values are kept, they
// are put after others. For each form this stands in a program once, so that it holds the reader of the form's line.
#[inline(never)]
fn values_at<'a, F: LineForm>(
    form: F,
    most: u16,
    text: &'a [u8],
    values: &mut Vec<F::Value>,
    keeps: bool,
) -> Result<(u16, &'a [u8]), AllocError>
    requires { IsForm (F.spell form) (F.within form) (F.reader form) }
    ensures { MatchResult result
        (λ r. (r.0 ≤ most) × (r.0 < most → F.reader form r.1.now ≡ None)
        × PutsFound (F.spell form) (F.within form) keeps r.0 text.now r.1.now values.old.items values.new.items)
        (λ _. (keeps ≡ true) × HasSome (F.spell form) (F.within form) most text.now) }
{
    let mut rest = text;
    for count in 0..most {
        let Some(found) = form.read_from(rest) else {
            return Ok((count, rest));
        };
        keep(values, found.0, keeps)?;
        rest = found.1;
    }
    Ok((most, rest))
}

// Puts a value after others, if it is kept.
#[inline(always)]
fn keep<T: Copy>(values: &mut Vec<T>, value: T, keeps: bool) -> Result<(), AllocError>
    ensures kept { OnOk result (values.new.items ≡ values.old.items ++ (if keeps then value ∷ [] else [])) }
    ensures refused { OnErr result (keeps ≡ true) }
{
    if keeps {
        values.push(value)?;
    }
    Ok(())
}

// The same without their values.
fn lines_at<F: LineForm>(alloc: Global, form: F, most: u16, text: &[u8]) -> (u16, &[u8])
    requires { IsForm (F.spell form) (F.within form) (F.reader form) }
    ensures few { result.0 ≤ most }
    ensures none { result.0 < most → F.reader form result.1.now ≡ None }
    ensures lines { BeginsWith (F.spell form) (F.within form) result.0 text.now result.1.now }
{
    match values_at(form, most, text, &mut Vec::new(alloc), false) {
        Ok(found) => found,
        Err(_) => (0, text),
    }
}

// Takes a line, or as much of one as tells that it is none of a code text.
#[inline(always)]
fn read_line<I: ByteIn>(input: &mut I, line: &mut Line) -> Result<(), Device>
    ensures gives { TakingGives (I.incoming input.old) result line.new.items (I.incoming input.new) }
    ensures few { OnOk result (length line.new.items ≤ LINE_LEN) }
    ensures same { I.lender input.new ≡ I.lender input.old }
{
    line.clear();
    while !line.is_full() {
        let Some(byte) = input.next()? else {
            break;
        };
        line.push(byte);
        if byte == b'\n' {
            break;
        }
    }
    Ok(())
}
