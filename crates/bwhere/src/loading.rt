//! Why a code text doesn't load, and where that is in it.
ghost use Rattle.std.specs.Prelude.{◌≡◌, ◌++◌, OnOk};
ghost use Rattle.bwhere.specs.Wheres.{code_line_text, line_using, number_after, twice_text, undefined_text, uses, unloaded_text};

use crate::due::part_at;
use blang::LoadFault;
use btools::{Text, line_at, push_source_line};
use std::alloc::AllocError;

/// Adds why a code text doesn't load.
pub(crate) fn push_unloaded(
    text: &mut Text,
    code: &[u8],
    fault: &LoadFault,
) -> Result<(), AllocError>
    ensures { OnOk result (text.new ≡ text.old ++ unloaded_text code.now fault.now) }
{
    match fault {
        LoadFault::Undefined(name) => push_undefined(text, code, name.as_bytes()),
        LoadFault::Duplicate(name) => push_twice(text, name.as_bytes()),
        LoadFault::TooLarge => text.push(
            b"  means: the data end would be above 65536, or there are more than 65535 labels\n",
        ),
        LoadFault::NoMain => text.push(b"  means: there is no function main\n"),
        LoadFault::Memory => Ok(()),
    }
}

fn push_undefined(text: &mut Text, code: &[u8], name: &[u8]) -> Result<(), AllocError>
    ensures { OnOk result (text.new ≡ text.old ++ undefined_text code.now name.now) }
{
    push_line(text, code, line_using(code, name))?;
    text.push(b"  means: ")?;
    text.push(name)?;
    text.push(b" is neither defined nor in the library\n")?;
    Ok(())
}

fn push_twice(text: &mut Text, name: &[u8]) -> Result<(), AllocError>
    ensures { OnOk result (text.new ≡ text.old ++ twice_text name.now) }
{
    text.push(b"  means: ")?;
    text.push(name)?;
    text.push(b" is defined twice\n")
}

/// Adds the number of a line of a code text, and the line.
pub(crate) fn push_line(text: &mut Text, code: &[u8], number: u64) -> Result<(), AllocError>
    ensures { OnOk result (text.new ≡ text.old ++ code_line_text code.now number) }
{
    text.push(b"at     line ")?;
    text.push_right_number(4, number)?;
    text.push(b"\n    ")?;
    push_source_line(text, line_at(code, number))?;
    text.push(b"\n")?;
    Ok(())
}

// The number of the first line that uses a name, from 1; 0 where there is none.
fn line_using(code: &[u8], name: &[u8]) -> u64
    ensures { result ≡ line_using code.now name.now }
{
    let mut lines = code.split(|byte| *byte == b'\n');
    number_after(lines.position(|line| uses(line, name)))
}

// The number of the line after so many, or 0.
fn number_after(before: Option<usize>) -> u64
    ensures { result ≡ number_after before }
{
    match before {
        Some(before) => (before as u64).saturating_add(1),
        None => 0,
    }
}

// Whether a line is that of a value or an instruction with this name.
fn uses(line: &[u8], name: &[u8]) -> bool
    ensures { result ≡ uses line.now name.now }
{
    part_at(line, 0) == b"x".as_slice() && part_at(line, 1) == name
}
