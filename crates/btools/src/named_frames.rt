//! The names of the words and labels of the functions of a code text, by its file of names.
ghost use Rattle.std.specs.Prelude.{◌≡◌, ◌+◌, ◌++◌, IfOk, MatchResult, OnOk, drop, filter_map, length, map, take};
ghost use Rattle.blang.specs.Text.{IsCodeText};
ghost use Rattle.btools.specs.NamedFrames.{HasFrames, frames_named, function_names, is_vector, label_of, lines_named};
ghost use Rattle.btools.specs.NamedFrames.{names_after, own_named, words_named};
ghost use Rattle.btools.specs.Origins.{HasNoCode, IsLined, code_text_shown};

use crate::names::{Frame, FrameWord};
use crate::origin::CodeText;
use crate::program::ProgramFault;
use bauthor::{NameFault, NameLine, read_names};
use blang::{Definition, FunctionParts};
use bword::Name;
use std::alloc::{AllocError, Global};

/// The names of the functions of a code text of these definitions.
pub(crate) fn frames_of_text(
    alloc: Global,
    text: CodeText<'_>,
    definitions: &[Definition],
) -> Result<Vec<Frame>, ProgramFault>
    requires code { IsCodeText text.code.now definitions.now }
    requires lined { IsLined (code_text_shown text) definitions.now }
    ensures { MatchResult result (λ v. HasFrames (code_text_shown text.entry) definitions.now v.items)
        (HasNoCode (code_text_shown text.entry)) }
{
    let Some(file) = text.names else {
        return Ok(Vec::new(alloc));
    };
    let lines = match read_names(alloc, file, definitions) {
        Ok(lines) => lines,
        Err(NameFault::Line(number, wanted)) => return Err(ProgramFault::Unnamed(number, wanted)),
        Err(NameFault::Memory) => return Err(ProgramFault::Memory),
    };
    match frames_named(alloc, definitions, &lines) {
        Ok(frames) => Ok(frames),
        Err(_) => Err(ProgramFault::Memory),
    }
}

fn frames_named(
    alloc: Global,
    definitions: &[Definition],
    lines: &[NameLine],
) -> Result<Vec<Frame>, AllocError>
    ensures { IfOk result (λ v. map function_names v.items ≡ frames_named definitions.now lines.now) }
{
    let mut frames = Vec::new(alloc);
    let mut rest = lines;
    for definition in definitions {
        push_frame(alloc, &mut frames, definition, rest)?;
        rest = names_after(definition, rest);
    }
    Ok(frames)
}

// Adds the names of a definition, if it is a function, whose lines come first.
fn push_frame(
    alloc: Global,
    frames: &mut Vec<Frame>,
    definition: &Definition,
    lines: &[NameLine],
) -> Result<(), AllocError>
    ensures { OnOk result (map function_names frames.new.items
        ≡ map function_names frames.old.items ++ own_named definition.now lines.now) }
{
    if let Definition::Function(function) = definition {
        let own = split_names(lines, function.parts()).0;
        frames.push(frame_named(alloc, own)?)?;
    }
    Ok(())
}

// The lines after those of a definition.
fn names_after<'a>(definition: &Definition, lines: &'a [NameLine]) -> &'a [NameLine]
    ensures { result.now ≡ names_after definition.now lines.now }
{
    match definition {
        Definition::Function(function) => split_names(lines, function.parts()).1,
        Definition::Simple(_) | Definition::Vector(_) => lines,
    }
}

// The lines of the words and labels of a function, whose own line comes first, and those after them.
fn split_names<'a>(lines: &'a [NameLine], parts: &FunctionParts) -> (&'a [NameLine], &'a [NameLine])
    ensures own { result.0.now ≡ take (parts.now.frame + length parts.now.targets.items) (drop 1 lines.now) }
    ensures later { result.1.now ≡ drop (parts.now.frame + length parts.now.targets.items) (drop 1 lines.now) }
{
    let rest = lines.get(1..).unwrap_or(&[]);
    let own = usize::from(parts.frame) + parts.targets.len();
    rest.split_at(rest.len().min(own))
}

fn frame_named(alloc: Global, lines: &[NameLine]) -> Result<Frame, AllocError>
    ensures { IfOk result (λ frame. function_names frame ≡ lines_named lines.now) }
{
    let words = words_named(alloc, lines)?;
    let labels = labels_named(alloc, lines)?;
    Ok(Frame { words, labels })
}

fn words_named(alloc: Global, lines: &[NameLine]) -> Result<Vec<FrameWord>, AllocError>
    ensures { IfOk result (λ words. words.items ≡ words_named 0 lines.now) }
{
    let mut words = Vec::new(alloc);
    let mut offset = 0u32;
    let mut rest = lines;
    while let [line, later @ ..] = rest {
        if let NameLine::Word(name) = line {
            words.push(FrameWord {
                name: *name,
                offset,
                is_vector: is_vector(later),
            })?;
        }
        offset = offset.checked_add(1).ok_or(AllocError)?;
        rest = later;
    }
    Ok(words)
}

// Whether words of a vector come next.
fn is_vector(lines: &[NameLine]) -> bool
    ensures { result ≡ is_vector lines.now }
{
    match lines {
        [NameLine::More, ..] => true,
        _ => false,
    }
}

fn labels_named(alloc: Global, lines: &[NameLine]) -> Result<Vec<Name>, AllocError>
    ensures { IfOk result (λ labels. labels.items ≡ filter_map label_of lines.now) }
{
    let mut labels = Vec::new(alloc);
    for line in lines {
        if let NameLine::Label(name) = line {
            labels.push(*name)?;
        }
    }
    Ok(labels)
}
