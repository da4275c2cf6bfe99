//! What a page tells beside its rows, as one object of JSON.
ghost use Rattle.std.specs.Prelude.{◌≡◌, ◌≤◌, ◌++◌, OnOk, map, reverse};
ghost use Rattle.blang.specs.Layout.{data_end, shape_of};
ghost use Rattle.bsources.specs.Files.{file_shown, files_shown};
ghost use Rattle.bshow.specs.Facts.{calls_text, definition_text, definitions_text, file_text, files_text};
ghost use Rattle.bshow.specs.Facts.{frame_text, frame_word_text, sizes_text};
ghost use Rattle.bshow.specs.OwnTexts.{FilesReadBack};
ghost use Rattle.bshow.specs.Facts.{call_text, frames_text, memory_text, program_text, run_text, some_word};

use crate::escapes::push_escaped;
use blang::Definition;
use bmach::{Active, FIRST_ADDRESS, Stepper, name_of, size_of};
use bsources::{SourceFile, SourceFiles};
use btools::{Frame, FrameWord, Program, Text, push_signed};
use bword::Store;
use std::alloc::AllocError;

/// How many words the store has.
const WORDS: u32 = 65536;

/// Adds what is known before the run: the files, the source, the input that was given, the definitions and the frames.
pub fn push_program(
    text: &mut Text,
    program: &Program,
    files: SourceFiles<'_>,
    source: &[u8],
    given: &[u8],
) -> Result<(), AllocError>
    requires { data_end (map shape_of program.now.definitions.items) ≤ 65536 }
    ensures { OnOk result (text.new ≡ text.old ++ program_text (files_shown files.entry) source.now given.now
        program.now.definitions.items program.now.names.frames.items) }
{
    text.push(b"{\"parts\":")?;
    push_files(text, files)?;
    text.push(b",\"source\":\"")?;
    push_escaped(text, source)?;
    text.push(b"\",\"given\":\"")?;
    push_escaped(text, given)?;
    text.push(b"\",\"definitions\":")?;
    push_definitions(text, program.definitions.as_slice())?;
    text.push(b",\"frames\":")?;
    push_frames(text, program.names.frames.as_slice())
}

fn push_files(text: &mut Text, files: SourceFiles<'_>) -> Result<(), AllocError>
    ensures { OnOk result (text.new ≡ text.old ++ files_text (files_shown files.entry)) }
{
    text.push(b"[")?;
    push_file(text, &files.first)?;
    for later in files.rest.files() {
        push_file(text, &later.file)?;
    }
    text.push(b"0]")
}

/// The files that a page names, and the lines that each has, give back the text of each from the source.
pub fn own_texts_read_back()
    ensures { FilesReadBack }
{}

fn push_file(text: &mut Text, file: &SourceFile<'_>) -> Result<(), AllocError>
    ensures { OnOk result (text.new ≡ text.old ++ file_text (file_shown file.now)) }
{
    text.push(b"[\"")?;
    push_escaped(text, file.name.as_bytes())?;
    text.push(b"\",")?;
    text.push_number(file.lines)?;
    text.push(b"],")
}

fn push_definitions(text: &mut Text, definitions: &[Definition]) -> Result<(), AllocError>
    requires { data_end (map shape_of definitions.now) ≤ 65536 }
    ensures { OnOk result (text.new ≡ text.old ++ definitions_text definitions.now) }
{
    text.push(b"[")?;
    let mut address = u32::from(FIRST_ADDRESS);
    for definition in definitions {
        push_definition(text, definition, address)?;
        address += u32::from(size_of(definition));
    }
    text.push_number(u64::from(address))?;
    text.push(b"]")
}

fn push_definition(text: &mut Text, definition: &Definition, address: u32) -> Result<(), AllocError>
    ensures { OnOk result (text.new ≡ text.old ++ definition_text address definition.now) }
{
    text.push(b"[")?;
    text.push_number(u64::from(address))?;
    text.push(b",\"")?;
    push_escaped(text, name_of(definition).as_bytes())?;
    text.push(b"\"")?;
    push_sizes(text, definition)?;
    text.push(b"],")
}

fn push_sizes(text: &mut Text, definition: &Definition) -> Result<(), AllocError>
    ensures { OnOk result (text.new ≡ text.old ++ sizes_text definition.now) }
{
    match definition {
        Definition::Function(function) => {
            let parts = function.parts();
            text.push(b",")?;
            text.push_number(u64::from(parts.parameters))?;
            text.push(b",")?;
            text.push_number(u64::from(parts.frame))
        }
        Definition::Simple(simple) => {
            text.push(b",")?;
            text.push_number(simple.parts().values.len().max(1) as u64)
        }
        Definition::Vector(vector) => {
            let parts = vector.parts();
            text.push(b",[")?;
            text.push_number((parts.words as usize).max(parts.values.len()) as u64)?;
            text.push(b"]")
        }
    }
}

fn push_frames(text: &mut Text, frames: &[Frame]) -> Result<(), AllocError>
    ensures { OnOk result (text.new ≡ text.old ++ frames_text frames.now) }
{
    text.push(b"[")?;
    for frame in frames {
        push_frame(text, frame)?;
    }
    text.push(b"0]")
}

fn push_frame(text: &mut Text, frame: &Frame) -> Result<(), AllocError>
    ensures { OnOk result (text.new ≡ text.old ++ frame_text frame.now) }
{
    text.push(b"[")?;
    for word in frame.words.as_slice() {
        push_frame_word(text, *word)?;
    }
    text.push(b"0],")
}

fn push_frame_word(text: &mut Text, word: FrameWord) -> Result<(), AllocError>
    ensures { OnOk result (text.new ≡ text.old ++ frame_word_text word) }
{
    text.push(b"[\"")?;
    push_escaped(text, word.name.as_bytes())?;
    text.push(b"\",")?;
    text.push_number(u64::from(word.offset))?;
    text.push(b"],")
}

/// Adds the active calls below the running one, the nearest first.
fn push_calls(text: &mut Text, calls: &[Active]) -> Result<(), AllocError>
    ensures { OnOk result (text.new ≡ text.old ++ calls_text (reverse calls.now)) }
{
    text.push(b"[")?;
    for call in calls.iter().rev() {
        push_call(text, *call)?;
    }
    text.push(b"0]")
}

fn push_call(text: &mut Text, call: Active) -> Result<(), AllocError>
    ensures { OnOk result (text.new ≡ text.old ++ call_text call) }
{
    text.push(b"[")?;
    text.push_number(u64::from(call.strings))?;
    text.push(b",")?;
    text.push_number(u64::from(call.start))?;
    text.push(b"],")
}

/// Adds what is known after the run: the calls before the step after so many, of which the nearest stands last, the
/// words that aren't 0, each after its address, and what was read and written.
pub fn push_run<S: Store + Drop>(
    text: &mut Text,
    stepper: &Stepper<'_, S>,
    calls: &[Active],
    at: u64,
    heard: &[u8],
    output: &[u8],
) -> Result<(), AllocError>
    ensures { OnOk result (text.new ≡ text.old
        ++ run_text (reverse calls.now) at stepper.now.store heard.now output.now) }
{
    text.push(b",\"calls_at\":")?;
    text.push_number(at)?;
    text.push(b",\"calls\":")?;
    push_calls(text, calls)?;
    text.push(b",\"words\":")?;
    push_memory(text, stepper)?;
    text.push(b",\"heard\":\"")?;
    push_escaped(text, heard)?;
    text.push(b"\",\"output\":\"")?;
    push_escaped(text, output)?;
    text.push(b"\"")
}

fn push_memory<S: Store + Drop>(text: &mut Text, stepper: &Stepper<'_, S>) -> Result<(), AllocError>
    ensures { OnOk result (text.new ≡ text.old ++ memory_text stepper.now.store) }
{
    text.push(b"[")?;
    for address in 0..WORDS {
        push_word(text, address, stepper.word(address as u16))?;
    }
    text.push(b"0]")
}

fn push_word(text: &mut Text, address: u32, word: u16) -> Result<(), AllocError>
    ensures { OnOk result (text.new ≡ text.old ++ some_word address word) }
{
    if word == 0 {
        return Ok(());
    }
    text.push_number(u64::from(address))?;
    text.push(b",")?;
    push_signed(text, word)?;
    text.push(b",")
}
