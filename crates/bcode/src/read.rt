//! Code texts, read.
ghost use Rattle.std.specs.Prelude.{◌≡◌, List, IfOk, IfErr, MatchResult};
ghost use Rattle.bcode.specs.Ahead.{LinesGive, BodyGives, DefinitionGives};
ghost use Rattle.bcode.specs.Faults.{IsEditionOf, IsFaultOf};
ghost use Rattle.bcode.specs.Headers.{IsHeaderWithin};
ghost use Rattle.bcode.specs.LineReading.{IsForm};
ghost use Rattle.blang.specs.Text.{IsCodeText};
ghost use Rattle.blang.specs.declared.code.Definition.{Definition};
ghost use Rattle.bcode.specs.declared.fault.CodeFault.TheVariants.{Memory};
ghost use Rattle.bcode.specs.declared.header.Header.TheVariants as headers;

use crate::code_stop::CodeStop;
use crate::header::Header;
use crate::line_form::LineForm;
use crate::lines::{HeaderLine, InstrLine, IvalLine, NumberLine, STRING_LINE};
use crate::reader::CodeReader;
use crate::stream::Stream;
use crate::{
    CodeFault, CodeStep, Definition, Function, FunctionParts, Simple, SimpleParts, Vector,
    VectorParts,
};
use blang::Sizes;
use bword::{ByteIn, Edition, MemIn, Name};
use std::alloc::Global;

/// Reads a code text, all of it.
///
/// A `Line` tells how far the text could still have become a code text: with more text after the lines
/// before this one it could, and with no text after this one, if it is there, it could not.
pub fn read_code(alloc: Global, text: &[u8]) -> Result<Vec<Definition>, CodeFault>
    ensures ok { IfOk result (λ v. IsCodeText text.now v.items) }
    ensures only { (ds : List Definition) → IsCodeText text.now ds
        → MatchResult result (λ v. v.items ≡ ds) (λ e. e ≡ Memory) }
    ensures fault { IfErr result (IsFaultOf text.now) }
    // No text is that of two lists of definitions.
    ensures unique { (ds es : List Definition) → IsCodeText text.now ds → IsCodeText text.now es → ds ≡ es }
{
    let mut reader = CodeReader::new(alloc, MemIn::new(text), edition_of(text));
    let mut definitions = Vec::new(alloc);
    'definitions: loop {
        match reader.next() {
            CodeStep::Definition(definition) => definitions.push(definition)?,
            CodeStep::End => return Ok(definitions),
            CodeStep::Fault(fault) => return Err(fault),
            CodeStep::Device => {
                // A text in memory doesn't fail.
                let _text = reader.into_end();
                unreachable!()
            }
            CodeStep::Closed => unreachable!(),
        }
    }
}

// The edition whose first line the text begins with.
fn edition_of(text: &[u8]) -> Edition
    ensures { IsEditionOf text.now result }
{
    if text.starts_with(b"B 2\n") {
        Edition::Two
    } else {
        Edition::One
    }
}

/// The definition that comes next, or nothing at the last line.
pub fn next_definition<I: ByteIn>(
    alloc: Global,
    lines: &mut Stream<I>,
) -> Result<Option<Definition>, CodeStop>
    ensures { DefinitionGives lines.old result lines.new }
{
    match lines.read(HeaderLine)? {
        Header::Function {
            name,
            parameters,
            sizes,
        } => Ok(Some(function(alloc, lines, name, parameters, sizes)?)),
        Header::Simple {
            name,
            values,
            strings,
        } => Ok(Some(simple(alloc, lines, name, values, strings)?)),
        Header::Vector {
            name,
            words,
            values,
            strings,
        } => Ok(Some(vector(alloc, lines, name, words, values, strings)?)),
        Header::End => Ok(None),
    }
}

fn function<I: ByteIn>(
    alloc: Global,
    lines: &mut Stream<I>,
    name: Name,
    parameters: u16,
    sizes: Sizes,
) -> Result<Definition, CodeStop>
    requires { IsHeaderWithin (headers.Function name parameters sizes) }
    ensures { BodyGives (headers.Function name parameters sizes) lines.old result lines.new }
{
    let target = NumberLine {
        letter: b't',
        below: u32::from(sizes.code),
    };
    let targets = several(alloc, lines, target, sizes.labels)?;
    let strings = several(alloc, lines, STRING_LINE, sizes.strings)?;
    let code = several(alloc, lines, InstrLine { sizes }, sizes.code)?;
    Ok(Definition::Function(Function::from_parts(FunctionParts {
        name,
        parameters,
        frame: sizes.frame,
        targets,
        strings,
        code,
    })))
}

fn simple<I: ByteIn>(
    alloc: Global,
    lines: &mut Stream<I>,
    name: Name,
    count: u16,
    strings: u16,
) -> Result<Definition, CodeStop>
    requires { IsHeaderWithin (headers.Simple name count strings) }
    ensures { BodyGives (headers.Simple name count strings) lines.old result lines.new }
{
    let values = several(alloc, lines, IvalLine { strings }, count)?;
    let strings = several(alloc, lines, STRING_LINE, strings)?;
    Ok(Definition::Simple(Simple::from_parts(SimpleParts {
        name,
        values,
        strings,
    })))
}

fn vector<I: ByteIn>(
    alloc: Global,
    lines: &mut Stream<I>,
    name: Name,
    words: u16,
    count: u16,
    strings: u16,
) -> Result<Definition, CodeStop>
    requires { IsHeaderWithin (headers.Vector name words count strings) }
    ensures { BodyGives (headers.Vector name words count strings) lines.old result lines.new }
{
    let values = several(alloc, lines, IvalLine { strings }, count)?;
    let strings = several(alloc, lines, STRING_LINE, strings)?;
    Ok(Definition::Vector(Vector::from_parts(VectorParts {
        name,
        words,
        values,
        strings,
    })))
}

// So many lines of a form.
fn several<I: ByteIn, F: LineForm>(
    alloc: Global,
    lines: &mut Stream<I>,
    form: F,
    count: u16,
) -> Result<Vec<F::Value>, CodeStop>
    requires { IsForm (F.spell form) (F.within form) (F.reader form) }
    ensures { LinesGive (F.spell form) (F.within form) (λ v. v.items) count lines.old result lines.new }
{
    let mut values = Vec::with_capacity(alloc, usize::from(count))?;
    let mut left = count;
    while left > 0 {
        left -= lines.read_several(form, left, &mut values)?;
    }
    Ok(values)
}
