//! The lines of a code text, copied as they are read.
ghost use Rattle.std.specs.Prelude.{◌≡◌, ◌++◌, MatchResult, flat_map, replicate};
ghost use Rattle.bcode.specs.Ahead.{DefinitionGives};
ghost use Rattle.bcode.specs.Copying.{AllLinesGive, KindsGive, TextGives};
ghost use Rattle.bcode.specs.Headers.{header_text};
ghost use Rattle.bcode.specs.LineReading.{IsForm};
ghost use Rattle.bcode.specs.Stopping.{instruction, kinds_after, string, target, value};

use crate::code_stop::CodeStop;
use crate::header::Header;
use crate::line_form::LineForm;
use crate::lines::{HeaderLine, InstrLine, IvalLine, NumberLine, STRING_LINE};
use crate::page::{Page, push_header_line};
use crate::stream::Stream;
use blang::Sizes;
use bword::ByteIn;
use std::alloc::AllocError;

/// Puts the text of the definition that comes next after another text, and tells whether one comes.
pub fn copy_definition<I: ByteIn>(
    lines: &mut Stream<I>,
    text: &mut Vec<u8>,
) -> Result<bool, CodeStop>
    ensures { TextGives (λ r. DefinitionGives lines.old r lines.new) result text.old.items text.new.items }
{
    let header = lines.read(HeaderLine)?;
    if header.is_end() {
        return Ok(false);
    }
    copy_header(header, text)?;
    copy_body(header, lines, text)?;
    Ok(true)
}

// The first line of a definition.
fn copy_header(header: Header, text: &mut Vec<u8>) -> Result<(), AllocError>
    ensures { MatchResult result (λ _. text.new.items ≡ text.old.items ++ header_text header) (λ _. Unit {0}) }
{
    let mut page = Page::new();
    match header {
        Header::Function {
            name,
            parameters,
            sizes,
        } => push_header_line(
            &mut page,
            b'F',
            name,
            &[
                usize::from(parameters),
                usize::from(sizes.frame),
                usize::from(sizes.labels),
                usize::from(sizes.strings),
                usize::from(sizes.code),
            ],
        ),
        Header::Simple {
            name,
            values,
            strings,
        } => push_header_line(
            &mut page,
            b'X',
            name,
            &[usize::from(values), usize::from(strings)],
        ),
        Header::Vector {
            name,
            words,
            values,
            strings,
        } => push_header_line(
            &mut page,
            b'V',
            name,
            &[
                usize::from(words),
                usize::from(values),
                usize::from(strings),
            ],
        ),
        Header::End => return text.extend_from_slice(b"E\n"),
    }
    text.extend_from_slice(page.as_slice())
}

// The lines after it.
fn copy_body<I: ByteIn>(
    header: Header,
    lines: &mut Stream<I>,
    text: &mut Vec<u8>,
) -> Result<(), CodeStop>
    ensures { KindsGive (kinds_after header) lines.old text.old.items result lines.new text.new.items }
{
    match header {
        Header::Function { sizes, .. } => copy_function(sizes, lines, text),
        Header::Simple {
            values,
            strings,
            ..
        } => copy_values(values, strings, lines, text),
        Header::Vector {
            values,
            strings,
            ..
        } => copy_values(values, strings, lines, text),
        Header::End => Ok(()),
    }
}

fn copy_function<I: ByteIn>(
    sizes: Sizes,
    lines: &mut Stream<I>,
    text: &mut Vec<u8>,
) -> Result<(), CodeStop>
    ensures { KindsGive (replicate sizes.labels (target sizes.code)
        ++ (replicate sizes.strings string ++ replicate sizes.code (instruction sizes)))
        lines.old text.old.items result lines.new text.new.items }
{
    let target = NumberLine {
        letter: b't',
        below: u32::from(sizes.code),
    };
    copy_several(target, sizes.labels, lines, text)?;
    copy_several(STRING_LINE, sizes.strings, lines, text)?;
    copy_several(InstrLine { sizes }, sizes.code, lines, text)?;
    Ok(())
}

fn copy_values<I: ByteIn>(
    values: u16,
    strings: u16,
    lines: &mut Stream<I>,
    text: &mut Vec<u8>,
) -> Result<(), CodeStop>
    ensures { KindsGive (replicate values (value strings) ++ replicate strings string)
        lines.old text.old.items result lines.new text.new.items }
{
    copy_several(IvalLine { strings }, values, lines, text)?;
    copy_several(STRING_LINE, strings, lines, text)?;
    Ok(())
}

// So many lines of a form.
fn copy_several<I: ByteIn, F: LineForm>(
    form: F,
    count: u16,
    lines: &mut Stream<I>,
    text: &mut Vec<u8>,
) -> Result<(), CodeStop>
    requires { IsForm (F.spell form) (F.within form) (F.reader form) }
    ensures { AllLinesGive (F.spell form) (F.within form) (flat_map (F.spell form)) count
        lines.old text.old.items result lines.new text.new.items }
{
    let mut left = count;
    while left > 0 {
        left -= lines.copy(form, left, text)?;
    }
    Ok(())
}
