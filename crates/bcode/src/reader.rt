//! The reader of a code text that comes in a stream.
ghost use Rattle.std.specs.Prelude.{◌≡◌, false};
ghost use Rattle.bcode.specs.Ahead.{NextDefinitionGives, OpeningGives, EndingGives};
ghost use Rattle.bcode.specs.CodeExcluded.{Excluded};
ghost use Rattle.bcode.specs.Copying.{TextGives, is_last_text};
ghost use Rattle.bcode.specs.Readers.{SameReader, StepGives, code_step, reader_start, to_open};
ghost use Rattle.bcode.specs.Readers as readers;

use crate::code_stop::CodeStop;
use crate::copy::copy_definition;
use crate::read::next_definition;
use crate::stream::Stream;
use crate::{CodeFault, CodeStep, Definition};
use bword::{ByteIn, Edition};
use std::alloc::Global;
use std::marker::Model;
use std::snapshot::Snapshot;

/// The definitions of a code text of one edition, read as they come.
///
/// It holds the line that it reads and what it has read of one definition.
#[derive(Drop)]
pub struct CodeReader<I: ByteIn> {
    // What the end was at first, for contracts alone: this takes no room.
    first_input: Snapshot<I>,
    alloc: Global,
    edition: Edition,
    lines: Stream<I>,
    is_begun: bool,
    is_closed: bool,
}

impl<I: ByteIn> Model for CodeReader<I> {
    ghost use Rattle.std.specs.Prelude.{◌≡◌, false};
    ghost use Rattle.bcode.specs.Readers.{CodeReader, MoreCanBeRead, reader_of, reader_start};

    ghost Value = { CodeReader };

    ghost view = { λ r. reader_of
        (reader_start r.edition (I.incoming r.first_input.value) (I.lender r.first_input.value)) r.lines r.is_begun r.is_closed };

    ghost invariant = { λ r. r.is_closed ≡ false → MoreCanBeRead (reader_of
        (reader_start r.edition (I.incoming r.first_input.value) (I.lender r.first_input.value)) r.lines r.is_begun r.is_closed) };
}

impl<I: ByteIn> CodeReader<I> {
    /// A reader of a text of this edition that has read nothing.
    pub fn new(alloc: Global, input: I, edition: Edition) -> Self
        ensures { result ≡ readers.new (reader_start edition (I.incoming input) (I.lender input)) }
    {
        CodeReader {
            first_input: Snapshot::of(&input),
            alloc,
            edition,
            lines: Stream::new(input),
            is_begun: false,
            is_closed: false,
        }
    }

    /// Reads the next definition, to the end of its last line and no byte further.
    ///
    /// A line at fault is read to its end, and no byte further. One that is longer than any of a code text is at fault
    /// when its 128th byte was taken. After the first answer that isn't `Definition`, each call answers `Closed` and
    /// reads nothing.
    pub fn next(&mut self) -> CodeStep
        ensures gives { StepGives self.old result self.new }
        ensures keeps { SameReader self.old self.new }
    {
        if self.is_closed {
            return CodeStep::Closed;
        }
        let opens = self.opens();
        self.is_begun = true;
        let step = CodeStep::of(read_next(self.alloc, opens, &mut self.lines));
        self.is_closed = step.is_last();
        step
    }

    /// Reads the next definition as `next` does, and puts its text after another one; or tells that there is none.
    ///
    /// It is for a reader that has answered nothing but definitions.
    pub fn copy_next(&mut self, text: &mut Vec<u8>) -> Result<bool, CodeStop>
        requires { self.old.is_closed ≡ false }
        ensures gives { TextGives (λ r. StepGives self.old (code_step r) self.new) result text.old.items text.new.items }
        ensures keeps { SameReader self.old self.new }
    {
        let opens = self.opens();
        self.is_begun = true;
        let result = copy_next(opens, &mut self.lines, text);
        self.is_closed = is_last(&result);
        result
    }

    /// The stream, after the bytes that were taken.
    pub fn into_end(self) -> I
        ensures end { I.incoming result ≡ self.ahead.end }
        ensures lender { I.lender result ≡ self.ahead.lender }
    {
        self.lines.into_end()
    }

    // Whether the text begins with a line that is still to be read.
    fn opens(&self) -> bool
        ensures { result ≡ to_open self.now.is_begun self.now.first.edition }
    {
        match self.edition {
            Edition::One => false,
            Edition::Two => !self.is_begun,
        }
    }
}

// The definition that comes next, or nothing at the end. What the text begins with may come first.
fn read_next<I: ByteIn>(
    alloc: Global,
    opens: bool,
    lines: &mut Stream<I>,
) -> Result<Option<Definition>, CodeStop>
    ensures { NextDefinitionGives opens lines.old result lines.new }
{
    read_opening(opens, lines)?;
    match next_definition(alloc, lines)? {
        Some(definition) => Ok(Some(definition)),
        None => {
            read_end(lines)?;
            Ok(None)
        }
    }
}

// The same with its text in its place.
fn copy_next<I: ByteIn>(
    opens: bool,
    lines: &mut Stream<I>,
    text: &mut Vec<u8>,
) -> Result<bool, CodeStop>
    ensures { TextGives (λ r. NextDefinitionGives opens lines.old r lines.new) result text.old.items text.new.items }
{
    read_opening(opens, lines)?;
    if copy_definition(lines, text)? {
        return Ok(true);
    }
    read_end(lines)?;
    Ok(false)
}

// Whether nothing comes after it.
fn is_last(answer: &Result<bool, CodeStop>) -> bool
    ensures { result ≡ is_last_text answer.now }
{
    !matches!(answer, Ok(true))
}

// The line that the text begins with, if it is still to be read.
fn read_opening<I: ByteIn>(opens: bool, lines: &mut Stream<I>) -> Result<(), CodeStop>
    ensures { OpeningGives opens lines.old result lines.new }
{
    if opens { lines.opening() } else { Ok(()) }
}

// The end of the input, after the last line.
fn read_end<I: ByteIn>(lines: &mut Stream<I>) -> Result<(), CodeStop>
    ensures { EndingGives lines.old result lines.new }
{
    if lines.is_over()? {
        return Ok(());
    }
    Err(CodeStop::Fault(CodeFault::Line(lines.line())))
}

/// At a line that is at fault no byte after it is taken, and no more of its bytes than a line of code has.
pub fn wrong_readers_are_excluded()
    ensures { Excluded }
{}
