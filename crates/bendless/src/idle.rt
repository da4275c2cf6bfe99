//! The names of the words that the conditions of a loop read, and that nothing in it changes.
ghost use Rattle.std.specs.Prelude.{◌≡◌, ◌++◌, OnOk, map};
ghost use Rattle.btools.specs.FrameNames.{frame_seen, word_seen};
ghost use Rattle.btools.specs.Functions.{entries_of};
ghost use Rattle.bendless.specs.Idle.{external_name, external_names, idle_name, frame_names, idle_names, spaced, words_with};
ghost use Rattle.bendless.specs.Loops.{noted_of};

use crate::looping::LoopNotes;
use blang::Definition;
use bmach::{Active, FIRST_ADDRESS, name_of, size_of};
use btools::{Frame, FrameWord, Program, Tables, Text};
use std::alloc::AllocError;

/// Adds the names of the words of a program, of which these notes were made in the loop of this call: first those of its
/// frame, then those of externals.
pub fn push_idle_names(
    text: &mut Text,
    program: &Program,
    tables: &Tables<'_>,
    call: Active,
    notes: &LoopNotes,
) -> Result<(), AllocError>
    ensures { OnOk result (text.new ≡ text.old ++ idle_names (entries_of tables.now) program.now.definitions.items
        program.now.names.frames.items call (noted_of notes.now)) }
{
    let words = words_with(tables, program.names.frames.as_slice(), call.strings);
    push_frame_names(text, words, call, notes)?;
    push_external_names(text, &program.definitions, notes)
}

// The words of the frame of the function that has its string words there.
fn words_with<'a>(tables: &Tables<'_>, frames: &'a [Frame], strings: u32) -> &'a [FrameWord]
    ensures { map word_seen result.now ≡ words_with (entries_of tables.now) (map frame_seen frames.now) strings }
{
    let entries = tables.entries();
    for number in 0..entries.len().min(frames.len()) {
        if entries[number].strings == strings {
            return frames[number].words.as_slice();
        }
    }
    &[]
}

fn push_frame_names(
    text: &mut Text,
    words: &[FrameWord],
    call: Active,
    notes: &LoopNotes,
) -> Result<(), AllocError>
    ensures { OnOk result (text.new ≡ text.old ++ frame_names (noted_of notes.now) call.start (map word_seen words.now)) }
{
    for word in words {
        push_frame_name(text, *word, call, notes)?;
    }
    Ok(())
}

// The name of a word of a frame. That of a vector stands for its words, and isn't told.
fn push_frame_name(
    text: &mut Text,
    word: FrameWord,
    call: Active,
    notes: &LoopNotes,
) -> Result<(), AllocError>
    ensures { OnOk result (text.new ≡ text.old ++ idle_name (noted_of notes.now) call.start (word_seen word)) }
{
    let address = (call.start % 65536) as u16;
    if word.is_vector || !notes.is_idle(address.wrapping_add((word.offset % 65536) as u16)) {
        return Ok(());
    }
    push_name(text, word.name.as_bytes())
}

fn push_external_names(
    text: &mut Text,
    definitions: &[Definition],
    notes: &LoopNotes,
) -> Result<(), AllocError>
    ensures { OnOk result (text.new ≡ text.old ++ external_names (noted_of notes.now) 7 definitions.now) }
{
    let mut address = FIRST_ADDRESS;
    for definition in definitions {
        push_external_name(text, definition, address, notes)?;
        address = address.wrapping_add(size_of(definition));
    }
    Ok(())
}

// The name of an external that isn't a function or a vector.
fn push_external_name(
    text: &mut Text,
    definition: &Definition,
    address: u16,
    notes: &LoopNotes,
) -> Result<(), AllocError>
    ensures { OnOk result (text.new ≡ text.old ++ external_name (noted_of notes.now) address definition.now) }
{
    match definition {
        Definition::Simple(_) if notes.is_idle(address) => {
            push_name(text, name_of(definition).as_bytes())
        }
        _ => Ok(()),
    }
}

fn push_name(text: &mut Text, name: &[u8]) -> Result<(), AllocError>
    ensures { OnOk result (text.new ≡ text.old ++ spaced name.now) }
{
    text.push(b" ")?;
    text.push(name)
}
