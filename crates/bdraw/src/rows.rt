//! What stands in the rows of a picture.
ghost use Rattle.std.specs.Prelude.{◌≡◌, ◌<◌, ◌∷◌, ◌++◌, [], OnOk, if◌then◌else◌, nat_lt};
ghost use Rattle.blang.specs.CodeParts.{function_of};
ghost use Rattle.blang.specs.Layout.{shape_of, words_before_strings};
ghost use Rattle.btools.specs.Characters.{shown_word};
ghost use Rattle.btools.specs.FrameNames.{frame_seen, name_shown};
ghost use Rattle.bdraw.specs.Pictures.{above, at_places, box, box_at, boxes, characters, count_text, dots, fill_of, frame_name, frame_row, heading, label, library_name, library_row, name_row, words_row};
ghost use Rattle.bdraw.specs.declared.shapes.Shape.TheVariants as shape;

use crate::scene::{Memory, Scene};
use crate::shapes::{Cell, Fill, HALF_BOX, Label, LabelStyle, MARGIN, Shape};
use blang::{Definition, FunctionParts};
use bmach::{FIRST_ADDRESS, LIBRARY, name_of, size_of};
use btools::{Frame, Text, kind_name, push_characters};
use bword::Name;
use std::alloc::{AllocError, Global};

/// The most words of a name or of a frame that are drawn.
const MOST_WORDS: u16 = 9;

/// Where the boxes of a row begin, and the distance of boxes.
const FIRST_BOX: u32 = 160;

const BOX_STEP: u32 = 62;

/// Adds a row with the words that each program has.
pub fn push_library<M: Memory>(
    shapes: &mut Vec<Shape>,
    alloc: Global,
    scene: &Scene<'_, M>,
    y: u32,
) -> Result<(), AllocError>
    ensures { OnOk result (shapes.new.items ≡ shapes.old.items
        ++ library_row scene.now.program.now.image (M.seen_words scene.now.memory.now) y) }
{
    let name_y = y.wrapping_add(14);
    push_text(
        shapes,
        alloc,
        MARGIN,
        name_y,
        LabelStyle::Name,
        b"the library",
    )?;
    push_words(shapes, alloc, scene, y, 0, FIRST_ADDRESS)?;
    push_library_names(shapes, alloc, y)
}

fn push_library_names(shapes: &mut Vec<Shape>, alloc: Global, y: u32) -> Result<(), AllocError>
    ensures { OnOk result (shapes.new.items ≡ shapes.old.items
        ++ at_places (λ place. above y place (library_name place) ∷ []) 7) }
{
    for place in 0..FIRST_ADDRESS {
        push_above(shapes, alloc, y, place, library_name(place).as_bytes())?;
    }
    Ok(())
}

// The name of a word that each program has.
fn library_name(place: u16) -> &'static str
    requires { place < 7 }
    ensures { result.now ≡ library_name place }
{
    if place == 0 {
        "unused"
    } else {
        LIBRARY[place as usize - 1].0
    }
}

/// Adds a row with a name of the source and its first words.
pub fn push_name<M: Memory>(
    shapes: &mut Vec<Shape>,
    alloc: Global,
    scene: &Scene<'_, M>,
    y: u32,
    definition: &Definition,
) -> Result<(), AllocError>
    ensures { OnOk result (shapes.new.items ≡ shapes.old.items
        ++ name_row scene.now.program.now.image (M.seen_words scene.now.memory.now) (shape_of definition.now) y) }
{
    let name = name_of(definition);
    let address = scene.program.image.address(&name).unwrap_or(0);
    let count = size_of(definition);
    push_heading(
        shapes,
        alloc,
        y,
        name.as_bytes(),
        kind_name(definition),
        count,
    )?;
    push_words(shapes, alloc, scene, y, address, count)?;
    let others = words_before_strings(definition);
    push_strings(
        shapes,
        alloc,
        scene,
        y,
        address,
        others,
        count.min(MOST_WORDS),
    )
}

/// Adds a row with the frame of a function at an address, its words with their names.
pub fn push_frame<M: Memory>(
    shapes: &mut Vec<Shape>,
    alloc: Global,
    scene: &Scene<'_, M>,
    y: u32,
    function: &FunctionParts,
    frame: &Frame,
    start: u16,
) -> Result<(), AllocError>
    ensures { OnOk result (shapes.new.items ≡ shapes.old.items
        ++ frame_row scene.now.program.now.image (M.seen_words scene.now.memory.now) (function_of function.now)
        (frame_seen frame.now) start y) }
{
    let count = function.frame;
    push_heading(shapes, alloc, y, function.name.as_bytes(), b"frame", count)?;
    push_words(shapes, alloc, scene, y, start, count)?;
    push_frame_names(shapes, alloc, frame, y, count.min(MOST_WORDS))
}

// Adds a name, and below it what it is and how many words it has.
fn push_heading(
    shapes: &mut Vec<Shape>,
    alloc: Global,
    y: u32,
    name: &[u8],
    kind: &[u8],
    count: u16,
) -> Result<(), AllocError>
    ensures { OnOk result (shapes.new.items ≡ shapes.old.items ++ heading y name.now kind.now count) }
{
    push_text(
        shapes,
        alloc,
        MARGIN,
        y.wrapping_add(14),
        LabelStyle::Name,
        name,
    )?;
    let mut note = Text::new(alloc);
    note.push(kind)?;
    note.push(b", ")?;
    push_count(&mut note, u64::from(count), b"word")?;
    push_label(shapes, MARGIN, y.wrapping_add(28), LabelStyle::Note, note)
}

/// Adds a number of things: `1 step`, `2 steps`.
pub fn push_count(text: &mut Text, count: u64, thing: &[u8]) -> Result<(), AllocError>
    ensures { OnOk result (text.new ≡ text.old ++ count_text count thing.now) }
{
    text.push_number(count)?;
    text.push(b" ")?;
    text.push(thing)?;
    text.push(if count == 1 { b"" } else { b"s" })
}

/// Adds a label.
pub fn push_label(
    shapes: &mut Vec<Shape>,
    x: u32,
    y: u32,
    style: LabelStyle,
    words: Text,
) -> Result<(), AllocError>
    ensures { OnOk result (shapes.new.items ≡ shapes.old.items ++ label x y style words ∷ []) }
{
    shapes.push(Shape::Label(Label { x, y, style, words }))?;
    Ok(())
}

fn push_text(
    shapes: &mut Vec<Shape>,
    alloc: Global,
    x: u32,
    y: u32,
    style: LabelStyle,
    words: &[u8],
) -> Result<(), AllocError>
    ensures { OnOk result (shapes.new.items ≡ shapes.old.items ++ label x y style words.now ∷ []) }
{
    let mut text = Text::new(alloc);
    text.push(words)?;
    push_label(shapes, x, y, style, text)
}

// Adds a text above a box.
fn push_above(
    shapes: &mut Vec<Shape>,
    alloc: Global,
    y: u32,
    place: u16,
    words: &[u8],
) -> Result<(), AllocError>
    ensures { OnOk result (shapes.new.items ≡ shapes.old.items ++ above y place words.now ∷ []) }
{
    let x = box_at(place) + HALF_BOX;
    push_text(
        shapes,
        alloc,
        x,
        y.saturating_sub(4),
        LabelStyle::Above,
        words,
    )
}

// Adds the boxes of so many words from an address on, as far as they have room.
fn push_words<M: Memory>(
    shapes: &mut Vec<Shape>,
    alloc: Global,
    scene: &Scene<'_, M>,
    y: u32,
    first: u16,
    count: u16,
) -> Result<(), AllocError>
    ensures { OnOk result (shapes.new.items ≡ shapes.old.items
        ++ words_row scene.now.program.now.image (M.seen_words scene.now.memory.now) y first count) }
{
    push_boxes(shapes, scene, y, first, count.min(MOST_WORDS))?;
    push_dots(shapes, alloc, y, count)
}

fn push_dots(shapes: &mut Vec<Shape>, alloc: Global, y: u32, count: u16) -> Result<(), AllocError>
    ensures { OnOk result (shapes.new.items ≡ shapes.old.items ++ dots y count) }
{
    if count <= MOST_WORDS {
        return Ok(());
    }
    let x = box_at(MOST_WORDS);
    push_text(
        shapes,
        alloc,
        x,
        y.wrapping_add(14),
        LabelStyle::Name,
        b"..",
    )
}

fn push_boxes<M: Memory>(
    shapes: &mut Vec<Shape>,
    scene: &Scene<'_, M>,
    y: u32,
    first: u16,
    count: u16,
) -> Result<(), AllocError>
    ensures { OnOk result (shapes.new.items ≡ shapes.old.items
        ++ boxes scene.now.program.now.image (M.seen_words scene.now.memory.now) y first count) }
{
    for place in 0..count {
        let cell = cell_at(scene, y, place, first.wrapping_add(place));
        shapes.push(Shape::Cell(cell))?;
    }
    Ok(())
}

// The box of a word, at a place of a row.
fn cell_at<M: Memory>(scene: &Scene<'_, M>, y: u32, place: u16, address: u16) -> Cell
    ensures { shape.Cell result
        ≡ box scene.now.program.now.image (M.seen_words scene.now.memory.now) y place address }
{
    let word = scene.memory.look(address);
    Cell {
        x: box_at(place),
        y,
        address,
        word,
        fill: fill_of(word, scene.program.image.word(address)),
    }
}

fn box_at(place: u16) -> u32
    ensures { result ≡ box_at place }
{
    FIRST_BOX + BOX_STEP * u32::from(place)
}

// Whether a word is another one than before the run.
fn fill_of(word: u16, first: u16) -> Fill
    ensures { result ≡ fill_of word first }
{
    if word == first {
        Fill::Same
    } else {
        Fill::Changed
    }
}

// Adds the characters of string words, which come after so many others from an address on.
fn push_strings<M: Memory>(
    shapes: &mut Vec<Shape>,
    alloc: Global,
    scene: &Scene<'_, M>,
    y: u32,
    address: u16,
    others: u16,
    count: u16,
) -> Result<(), AllocError>
    ensures { OnOk result (shapes.new.items ≡ shapes.old.items
        ++ at_places (characters scene.now.program.now.image (M.seen_words scene.now.memory.now) y address others) count) }
{
    for place in 0..count {
        let word = scene.memory.look(address.wrapping_add(place));
        push_string_word(shapes, alloc, y, place, others, word)?;
    }
    Ok(())
}

fn push_string_word(
    shapes: &mut Vec<Shape>,
    alloc: Global,
    y: u32,
    place: u16,
    others: u16,
    word: u16,
) -> Result<(), AllocError>
    ensures { OnOk result (shapes.new.items ≡ shapes.old.items
        ++ (if nat_lt place others then [] else above y place (shown_word word) ∷ [])) }
{
    if place < others {
        return Ok(());
    }
    let mut text = Text::new(alloc);
    push_characters(&mut text, word)?;
    push_above(shapes, alloc, y, place, text.as_slice())
}

// Adds the names of the first words of a frame.
fn push_frame_names(
    shapes: &mut Vec<Shape>,
    alloc: Global,
    frame: &Frame,
    y: u32,
    count: u16,
) -> Result<(), AllocError>
    ensures { OnOk result (shapes.new.items ≡ shapes.old.items
        ++ at_places (λ place. frame_name y place (name_shown (frame_seen frame.now) place)) count) }
{
    for place in 0..count {
        push_frame_name(shapes, alloc, frame.word(u32::from(place)), y, place)?;
    }
    Ok(())
}

fn push_frame_name(
    shapes: &mut Vec<Shape>,
    alloc: Global,
    name: Option<(Name, bool)>,
    y: u32,
    place: u16,
) -> Result<(), AllocError>
    ensures { OnOk result (shapes.new.items ≡ shapes.old.items ++ frame_name y place name) }
{
    let Some((name, is_first)) = name else {
        return Ok(());
    };
    let mut text = Text::new(alloc);
    text.push(name.as_bytes())?;
    text.push(if is_first { b"[0]" } else { b"" })?;
    push_above(shapes, alloc, y, place, text.as_slice())
}

// How many words of a definition come before its string words.
fn words_before_strings(definition: &Definition) -> u16
    ensures { result ≡ words_before_strings (shape_of definition.now).kind (shape_of definition.now).values }
{
    match definition {
        Definition::Function(_) => 1,
        Definition::Simple(simple) => simple.parts().values.len().max(1) as u16,
        Definition::Vector(vector) => {
            let parts = vector.parts();
            (1 + (parts.words as usize).max(parts.values.len())) as u16
        }
    }
}
