//! Where the rows of a picture stand.
ghost use Rattle.std.specs.Prelude.{◌≡◌, ◌∷◌, ◌++◌, [], IfOk, OnOk, codes, decimal, map as map_each};
ghost use Rattle.std.specs.List.{flat_map};
ghost use Rattle.blang.specs.Layout.{shape_of};
ghost use Rattle.bdraw.specs.Draws.{title_of};
ghost use Rattle.bdraw.specs.Pictures.{box_row, call_rows, calls_left_out, count_text, down, library_row, name_row, names_left_out, place_text, rows_of, text_row};
ghost use Rattle.bdraw.specs.Stacks.{Adds, Holds, drawn_in};

use crate::rows::{push_count, push_frame, push_label, push_library, push_name};
use crate::scene::{Memory, Moment, Scene, function_of};
use crate::shapes::{LabelStyle, MARGIN, Shape};
use blang::Definition;
use bmach::{Active, name_of};
use btools::{Program, Text};
use std::alloc::{AllocError, Global};

/// The most names that are drawn.
const MOST_NAMES: usize = 48;

/// How far below a row of boxes the next row is, and below a line of text.
const ROW_HEIGHT: u32 = 50;

const LINE_HEIGHT: u32 = 32;

/// The height of the first row, below the title.
const FIRST_ROW: u32 = 56;

/// The shapes of a picture, from above.
#[derive(Drop)]
pub struct Picture {
    pub shapes: Vec<Shape>,
    pub height: u32,
}

/// Draws a scene.
pub fn picture_of<M: Memory>(alloc: Global, scene: &Scene<'_, M>) -> Result<Picture, AllocError>
    ensures { IfOk result (Holds (rows_of (drawn_in scene.now.program.now scene.now.tables.now)
        (M.seen_words scene.now.memory.now) scene.now.calls.now.drawn.items scene.now.calls.now.others)) }
{
    let mut picture = Picture {
        shapes: Vec::new(alloc),
        height: FIRST_ROW,
    };
    picture.add_library(alloc, scene)?;
    let definitions = scene.program.definitions.as_slice();
    let count = MOST_NAMES.min(definitions.len());
    picture.add_names(alloc, scene, &definitions[..count])?;
    picture.add_names_left_out(alloc, scene.program, &definitions[count..])?;
    picture.add_line(LabelStyle::Name, data_end_of(alloc, scene.program)?)?;
    picture.add_calls_left_out(alloc, scene.calls.others)?;
    picture.add_frames(alloc, scene)?;
    Ok(picture)
}

/// The title of a picture, which says when it was drawn.
pub fn title_of(alloc: Global, moment: Moment) -> Result<Text, AllocError>
    ensures { IfOk result (λ title. title ≡ title_of moment) }
{
    let mut title = Text::new(alloc);
    match moment {
        Moment::Before => title.push(b"memory before the run")?,
        Moment::After(steps) => push_changes(&mut title, b"memory after ", steps)?,
        Moment::End(steps) => {
            push_changes(&mut title, b"memory where the run is over, after ", steps)?
        }
    }
    Ok(title)
}

fn push_changes(title: &mut Text, when: &[u8], steps: u64) -> Result<(), AllocError>
    ensures { OnOk result (title.new ≡ title.old ++ when.now ++ count_text steps (codes "step") ++ codes "; filled words have changed") }
{
    title.push(when)?;
    push_count(title, steps, b"step")?;
    title.push(b"; filled words have changed")
}

fn data_end_of(alloc: Global, program: &Program) -> Result<Text, AllocError>
    ensures { IfOk result (λ text. text ≡ codes "data end " ++ decimal program.now.image.data_end) }
{
    let mut text = Text::new(alloc);
    text.push(b"data end ")?;
    text.push_number(u64::from(program.image.data_end()))?;
    Ok(text)
}

impl Picture {
    // The next row begins so far below.
    fn end_row(&mut self, height: u32)
        ensures shapes { self.new.shapes ≡ self.old.shapes }
        ensures height { self.new.height ≡ down self.old.height height }
    {
        self.height = self.height.wrapping_add(height);
    }

    // A line of text between rows.
    fn add_line(&mut self, style: LabelStyle, words: Text) -> Result<(), AllocError>
        ensures { OnOk result (Adds (text_row style words ∷ []) self.old self.new) }
    {
        push_label(&mut self.shapes, MARGIN, self.height, style, words)?;
        self.end_row(LINE_HEIGHT);
        Ok(())
    }

    fn add_library<M: Memory>(
        &mut self,
        alloc: Global,
        scene: &Scene<'_, M>,
    ) -> Result<(), AllocError>
        ensures { OnOk result (Adds (box_row (library_row scene.now.program.now.image (M.seen_words scene.now.memory.now)) ∷ [])
            self.old self.new) }
    {
        push_library(&mut self.shapes, alloc, scene, self.height)?;
        self.end_row(ROW_HEIGHT);
        Ok(())
    }

    fn add_names<M: Memory>(
        &mut self,
        alloc: Global,
        scene: &Scene<'_, M>,
        definitions: &[Definition],
    ) -> Result<(), AllocError>
        ensures { OnOk result (Adds (map_each (λ d. box_row (name_row scene.now.program.now.image
            (M.seen_words scene.now.memory.now) (shape_of d))) definitions.now) self.old self.new) }
    {
        for definition in definitions {
            self.add_name(alloc, scene, definition)?;
        }
        Ok(())
    }

    fn add_name<M: Memory>(
        &mut self,
        alloc: Global,
        scene: &Scene<'_, M>,
        definition: &Definition,
    ) -> Result<(), AllocError>
        ensures { OnOk result (Adds (box_row (name_row scene.now.program.now.image (M.seen_words scene.now.memory.now)
            (shape_of definition.now)) ∷ []) self.old self.new) }
    {
        push_name(&mut self.shapes, alloc, scene, self.height, definition)?;
        self.end_row(ROW_HEIGHT);
        Ok(())
    }

    fn add_names_left_out(
        &mut self,
        alloc: Global,
        program: &Program,
        rest: &[Definition],
    ) -> Result<(), AllocError>
        ensures { OnOk result (Adds (names_left_out program.now.image rest.now) self.old self.new) }
    {
        if rest.is_empty() {
            return Ok(());
        }
        let mut note = Text::new(alloc);
        push_count(&mut note, rest.len() as u64, b"name")?;
        note.push(b" more: ")?;
        push_place(&mut note, program, &rest[0])?;
        note.push(b" to ")?;
        push_place(&mut note, program, &rest[rest.len() - 1])?;
        self.add_line(LabelStyle::Note, note)
    }

    fn add_calls_left_out(&mut self, alloc: Global, others: u64) -> Result<(), AllocError>
        ensures { OnOk result (Adds (calls_left_out others) self.old self.new) }
    {
        if others == 0 {
            return Ok(());
        }
        let mut note = Text::new(alloc);
        push_count(&mut note, others, b"frame")?;
        note.push(b" more, of the outermost calls")?;
        self.add_line(LabelStyle::Note, note)
    }

    // The frames of the active calls.
    fn add_frames<M: Memory>(
        &mut self,
        alloc: Global,
        scene: &Scene<'_, M>,
    ) -> Result<(), AllocError>
        ensures { OnOk result (Adds (flat_map (call_rows (drawn_in scene.now.program.now scene.now.tables.now)
            (M.seen_words scene.now.memory.now)) scene.now.calls.now.drawn.items) self.old self.new) }
    {
        for call in &scene.calls.drawn {
            self.add_frame(alloc, scene, *call)?;
        }
        Ok(())
    }

    // The frame of a call.
    fn add_frame<M: Memory>(
        &mut self,
        alloc: Global,
        scene: &Scene<'_, M>,
        call: Active,
    ) -> Result<(), AllocError>
        ensures { OnOk result (Adds (call_rows (drawn_in scene.now.program.now scene.now.tables.now)
            (M.seen_words scene.now.memory.now) call) self.old self.new) }
    {
        let frames = scene.program.names.frames.as_slice();
        let Some((entry, frame)) = function_of(scene.tables, frames, call.strings) else {
            return Ok(());
        };
        let start = (call.start % 65536) as u16;
        push_frame(
            &mut self.shapes,
            alloc,
            scene,
            self.height,
            entry.parts,
            frame,
            start,
        )?;
        self.end_row(ROW_HEIGHT);
        Ok(())
    }
}

// Adds a name and its address.
fn push_place(text: &mut Text, program: &Program, definition: &Definition) -> Result<(), AllocError>
    ensures { OnOk result (text.new ≡ text.old ++ place_text program.now.image definition.now) }
{
    let name = name_of(definition);
    text.push(name.as_bytes())?;
    text.push(b" at ")?;
    text.push_number(u64::from(program.image.address(&name).unwrap_or(0)))
}
