//! The shapes of a picture, and the SVG text of each.
ghost use Rattle.std.specs.Prelude.{◌≡◌, ◌++◌, IfOk, OnOk, decimal};
ghost use Rattle.bdraw.specs.Shapes.{attribute, cell_text, escape, escaped, fill_name, label_text, svg_opening, picture_text, shape_text, style_name, text_element, title_text};

use btools::Text;
use std::alloc::{AllocError, Global};

/// Whether a word is another one than before the run.
#[derive(Clone, Copy)]
pub enum Fill {
    Same,
    Changed,
}

/// A box with a word of memory, and its address below.
#[derive(Clone, Copy)]
pub struct Cell {
    pub x: u32,
    pub y: u32,
    pub address: u16,
    pub word: u16,
    pub fill: Fill,
}

/// How a label is written.
#[derive(Clone, Copy)]
pub enum LabelStyle {
    Name,
    Note,
    /// Above a box, in its middle.
    Above,
}

/// A line of text.
#[derive(Drop)]
pub struct Label {
    pub x: u32,
    pub y: u32,
    pub style: LabelStyle,
    pub words: Text,
}

/// A box or a text of a picture.
#[derive(Drop)]
pub enum Shape {
    Cell(Cell),
    Label(Label),
}

/// Half the width of a box.
pub const HALF_BOX: u32 = 28;

/// Where texts begin, and the height of the title.
pub const MARGIN: u32 = 16;

const TITLE_HEIGHT: u32 = 24;

/// How the shapes look.
const STYLES: &[u8] = b"text { font: 12px monospace } .title { font-weight: bold }
.note { font-size: 10px; fill: #555 } .word { text-anchor: middle }
.below { font-size: 9px; fill: #777; text-anchor: middle }
.above { font-size: 10px; fill: #05a; text-anchor: middle }
rect { fill: white; stroke: #333 } .page { stroke: none } .changed { fill: #fec }";

/// The text of a picture of this title and height.
pub fn picture_text(
    alloc: Global,
    title: &[u8],
    height: u32,
    shapes: &[Shape],
) -> Result<Text, AllocError>
    ensures { IfOk result (λ text. text ≡ picture_text title.now height shapes.now) }
{
    let mut text = Text::new(alloc);
    text.push(b"<svg xmlns='http://www.w3.org/2000/svg' width='760'")?;
    push_attribute(&mut text, b"height", height)?;
    text.push(b">\n<style>")?;
    text.push(STYLES)?;
    text.push(b"</style>\n<rect class='page' width='100%' height='100%'/>\n")?;
    push_title(&mut text, title)?;
    for shape in shapes {
        push_shape(&mut text, shape)?;
    }
    text.push(b"</svg>\n")?;
    Ok(text)
}

fn push_title(text: &mut Text, title: &[u8]) -> Result<(), AllocError>
    ensures { OnOk result (text.new ≡ text.old ++ title_text title.now) }
{
    push_opening(text, b"text", b"title", MARGIN, TITLE_HEIGHT)?;
    text.push(b">")?;
    push_escaped(text, title)?;
    text.push(b"</text>\n")
}

fn push_shape(text: &mut Text, shape: &Shape) -> Result<(), AllocError>
    ensures { OnOk result (text.new ≡ text.old ++ shape_text shape.now) }
{
    match shape {
        Shape::Cell(cell) => push_cell(text, cell),
        Shape::Label(label) => push_label(text, label),
    }
}

fn push_cell(text: &mut Text, cell: &Cell) -> Result<(), AllocError>
    ensures { OnOk result (text.new ≡ text.old ++ cell_text cell.now) }
{
    push_opening(text, b"rect", fill_name(cell.fill), cell.x, cell.y)?;
    text.push(b" width='56' height='20'/>\n")?;
    let middle = cell.x.wrapping_add(HALF_BOX);
    push_number(text, b"word", middle, cell.y.wrapping_add(14), cell.word)?;
    push_number(
        text,
        b"below",
        middle,
        cell.y.wrapping_add(29),
        cell.address,
    )
}

fn push_label(text: &mut Text, label: &Label) -> Result<(), AllocError>
    ensures { OnOk result (text.new ≡ text.old ++ label_text label.now) }
{
    push_opening(text, b"text", style_name(label.style), label.x, label.y)?;
    text.push(b">")?;
    push_escaped(text, label.words.as_slice())?;
    text.push(b"</text>\n")
}

fn push_number(text: &mut Text, class: &[u8], x: u32, y: u32, number: u16) -> Result<(), AllocError>
    ensures { OnOk result (text.new ≡ text.old ++ text_element class.now x y (decimal number)) }
{
    push_opening(text, b"text", class, x, y)?;
    text.push(b">")?;
    text.push_number(u64::from(number))?;
    text.push(b"</text>\n")
}

// The beginning of a tag, up to its place.
fn push_opening(text: &mut Text, tag: &[u8], class: &[u8], x: u32, y: u32) -> Result<(), AllocError>
    ensures { OnOk result (text.new ≡ text.old ++ svg_opening tag.now class.now x y) }
{
    text.push(b"<")?;
    text.push(tag)?;
    text.push(b" class='")?;
    text.push(class)?;
    text.push(b"'")?;
    push_attribute(text, b"x", x)?;
    push_attribute(text, b"y", y)
}

fn push_attribute(text: &mut Text, name: &[u8], number: u32) -> Result<(), AllocError>
    ensures { OnOk result (text.new ≡ text.old ++ attribute name.now number) }
{
    text.push(b" ")?;
    text.push(name)?;
    text.push(b"='")?;
    text.push_number(u64::from(number))?;
    text.push(b"'")
}

fn fill_name(fill: Fill) -> &'static [u8]
    ensures { result.now ≡ fill_name fill }
{
    match fill {
        Fill::Same => b"same",
        Fill::Changed => b"changed",
    }
}

fn style_name(style: LabelStyle) -> &'static [u8]
    ensures { result.now ≡ style_name style }
{
    match style {
        LabelStyle::Name => b"name",
        LabelStyle::Note => b"note",
        LabelStyle::Above => b"above",
    }
}

// A text in which no byte is read as a part of a tag.
fn push_escaped(text: &mut Text, words: &[u8]) -> Result<(), AllocError>
    ensures { OnOk result (text.new ≡ text.old ++ escaped words.now) }
{
    for byte in words {
        push_escape(text, *byte)?;
    }
    Ok(())
}

fn push_escape(text: &mut Text, byte: u8) -> Result<(), AllocError>
    ensures { OnOk result (text.new ≡ text.old ++ escape byte) }
{
    match byte {
        b'&' => text.push(b"&amp;"),
        b'<' => text.push(b"&lt;"),
        b'>' => text.push(b"&gt;"),
        32..=126 => text.push(&[byte]),
        _ => text.push(b"."),
    }
}
