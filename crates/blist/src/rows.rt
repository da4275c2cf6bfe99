//! The rows of a listing.
ghost use Rattle.std.specs.Prelude.{◌≡◌, ◌++◌, OnOk, codes, decimal};
ghost use Rattle.btools.specs.Columns.{right};
ghost use Rattle.blist.specs.ListingTexts.{column_byte, columns_text, named_columns, named_text, number_text, row_text, source_column, spot_text, unnamed_columns};

use bcode::Page;
use btools::{Text, push_characters};
use bword::Name;
use itoa::Buffer;
use std::alloc::AllocError;

/// How wide the columns of code and of the source are. A blank follows each.
const CODE_WIDTH: usize = 13;

const SOURCE_WIDTH: usize = 39;

/// The place or the address of a line of code.
#[derive(Clone, Copy)]
pub enum CodeSpot {
    Nowhere,
    /// At this place of its function.
    Place(usize),
    /// At this address of memory.
    Address(u16),
}

/// The name beside a line of code.
#[derive(Clone, Copy)]
pub enum Named {
    Nothing,
    Name(Name),
    /// The first word of the vector of this name.
    First(Name),
    /// The characters of a word.
    Characters(u16),
}

/// The columns beside a line of code.
#[derive(Clone, Copy)]
pub struct RowColumns<'a> {
    pub spot: CodeSpot,
    /// The line of the source, and its text if the row shows it.
    pub line: Option<u64>,
    pub source: &'a [u8],
    pub named: Named,
}

/// Adds the row of the line of code on a page.
pub fn push_row(text: &mut Text, page: &Page, told: RowColumns<'_>) -> Result<(), AllocError>
    ensures { OnOk result (text.new ≡ text.old
        ++ row_text told.entry.spot told.entry.line page.now told.entry.source.now told.entry.named) }
{
    push_spot(text, told.spot)?;
    push_line_number(text, told.line)?;
    let line = page.as_slice();
    let code = &line[..line.len().saturating_sub(1)];
    push_columns(text, code, told.source, told.named)?;
    text.push(b"\n")
}

fn push_spot(text: &mut Text, spot: CodeSpot) -> Result<(), AllocError>
    ensures { OnOk result (text.new ≡ text.old ++ right 6 (spot_text spot)) }
{
    match spot {
        CodeSpot::Nowhere => text.push_blanks(6),
        CodeSpot::Place(place) => text.push_right_number(6, place as u64),
        CodeSpot::Address(address) => push_address(text, address),
    }
}

// An address, as `@7`.
fn push_address(text: &mut Text, address: u16) -> Result<(), AllocError>
    ensures { OnOk result (text.new ≡ text.old ++ right 6 (codes "@" ++ decimal address)) }
{
    let mut buffer = Buffer::new();
    let digits = buffer.format(address).as_bytes();
    text.push_blanks(5_usize.saturating_sub(digits.len()))?;
    text.push(b"@")?;
    text.push(digits)
}

fn push_line_number(text: &mut Text, line: Option<u64>) -> Result<(), AllocError>
    ensures { OnOk result (text.new ≡ text.old ++ right 6 (number_text line) ++ codes "  ") }
{
    match line {
        None => text.push_blanks(8),
        Some(line) => {
            text.push_right_number(6, line)?;
            text.push(b"  ")
        }
    }
}

// A line of code, and what stands beside it.
fn push_columns(text: &mut Text, code: &[u8], source: &[u8], named: Named) -> Result<(), AllocError>
    ensures { OnOk result (text.new ≡ text.old ++ columns_text code.now source.now named) }
{
    match named {
        Named::Nothing => push_unnamed(text, code, source),
        named => push_with_name(text, code, source, named),
    }
}

fn push_unnamed(text: &mut Text, code: &[u8], source: &[u8]) -> Result<(), AllocError>
    ensures { OnOk result (text.new ≡ text.old ++ unnamed_columns code.now source.now) }
{
    if source.is_empty() {
        return text.push(code);
    }
    text.push_left(CODE_WIDTH, code)?;
    text.push(b" ")?;
    push_source(text, source)
}

fn push_with_name(
    text: &mut Text,
    code: &[u8],
    source: &[u8],
    named: Named,
) -> Result<(), AllocError>
    ensures { OnOk result (text.new ≡ text.old ++ named_columns code.now source.now (named_text named)) }
{
    text.push_left(CODE_WIDTH, code)?;
    text.push(b" ")?;
    push_source(text, source)?;
    text.push_blanks(SOURCE_WIDTH.saturating_sub(source.len()))?;
    text.push(b" ")?;
    push_named(text, named)
}

// As much of a line of the source as its column has room for.
fn push_source(text: &mut Text, source: &[u8]) -> Result<(), AllocError>
    ensures { OnOk result (text.new ≡ text.old ++ source_column source.now) }
{
    let len = source.len().min(SOURCE_WIDTH);
    for byte in &source[..len] {
        text.push(&[column_byte(*byte)])?;
    }
    Ok(())
}

// A byte as it is shown.
fn column_byte(byte: u8) -> u8
    ensures { result ≡ column_byte byte }
{
    match byte {
        b'\t' => b' ',
        32..=126 => byte,
        _ => b'.',
    }
}

fn push_named(text: &mut Text, named: Named) -> Result<(), AllocError>
    ensures { OnOk result (text.new ≡ text.old ++ named_text named) }
{
    match named {
        Named::Nothing => Ok(()),
        Named::Name(name) => text.push(name.as_bytes()),
        Named::First(name) => {
            text.push(name.as_bytes())?;
            text.push(b"[0]")
        }
        Named::Characters(word) => push_characters(text, word),
    }
}
