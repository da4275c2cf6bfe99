//! The layout of memory.
ghost use Rattle.std.specs.Prelude.{◌≡◌, ◌++◌, IfOk, OnOk};
ghost use Rattle.blang.specs.Layout.{shape_of};
ghost use Rattle.blist.specs.ListExcluded.{NoMaps};
ghost use Rattle.blist.specs.Maps.{Maps, dots, map_row, map_text, words_from};
ghost use Rattle.btools.specs.Origins.{origin_shown};
ghost use Rattle.btools.specs.Programs.{told_ends};

use blang::Definition;
use blang::status::{self, Status};
use bmach::{Image, name_of, size_of};
use btools::{Origin, Text, kind_name, read_program, tell, tell_fault};
use bword::ByteOut;
use std::alloc::{AllocError, Global};

/// How many words of a name are shown.
const SHOWN: u16 = 6;

/// The columns, and the words that each program has.
const HEADING: &[u8] = b"  word  name      kind      words  values
     0            unused        1  0
     1  char      library       1  1
     2  lchar     library       1  2
     3  getchar   library       1  3
     4  putchar   library       1  4
     5  printn    library       1  5
     6  exit      library       1  6
";

/// Writes the address of each name of a program, how many words it has, its first words, and the data end.
///
/// The status is 0, or that of `go` if there is no program.
pub fn map<O: ByteOut, D: ByteOut>(
    alloc: Global,
    source: &[u8],
    origin: Origin<'_>,
    out: &mut O,
    diag: &mut D,
) -> Status
    ensures maps { Maps (origin_shown origin.entry) source.now (told_ends
        (O.outgoing out.old) (O.outgoing out.new) (D.outgoing diag.old) (D.outgoing diag.new)) result }
    ensures out_lender { O.lender out.new ≡ O.lender out.old }
    ensures diag_lender { D.lender diag.new ≡ D.lender diag.old }
{
    let program = match read_program(alloc, source, origin) {
        Ok(program) => program,
        Err(fault) => return tell_fault(&fault, diag),
    };
    match map_text(alloc, &program.image, &program.definitions) {
        Ok(text) => tell(text.as_slice(), status::DONE, out),
        Err(_) => status::MEMORY,
    }
}

fn map_text(alloc: Global, image: &Image, definitions: &[Definition]) -> Result<Text, AllocError>
    ensures { IfOk result (λ text. text ≡ map_text image.now definitions.now) }
{
    let mut text = Text::new(alloc);
    text.push(HEADING)?;
    for definition in definitions {
        push_row(&mut text, image, definition)?;
    }
    text.push(b"data end ")?;
    text.push_number(u64::from(image.data_end()))?;
    text.push(b"\n")?;
    Ok(text)
}

fn push_row(text: &mut Text, image: &Image, definition: &Definition) -> Result<(), AllocError>
    ensures { OnOk result (text.new ≡ text.old ++ map_row image.now (shape_of definition.now)) }
{
    let name = name_of(definition);
    let address = image.address(&name).unwrap_or(0);
    let words = size_of(definition);
    text.push_right_number(6, u64::from(address))?;
    text.push(b"  ")?;
    text.push_left(10, name.as_bytes())?;
    text.push_left(8, kind_name(definition))?;
    text.push_right_number(7, u64::from(words))?;
    text.push(b" ")?;
    push_words(text, image, address, words.min(SHOWN))?;
    push_dots(text, words)?;
    text.push(b"\n")
}

// Whether there are more words than are shown.
fn push_dots(text: &mut Text, words: u16) -> Result<(), AllocError>
    ensures { OnOk result (text.new ≡ text.old ++ dots words) }
{
    if words > SHOWN {
        text.push(b" ..")
    } else {
        Ok(())
    }
}

// So many words from an address on.
fn push_words(text: &mut Text, image: &Image, address: u16, count: u16) -> Result<(), AllocError>
    ensures { OnOk result (text.new ≡ text.old ++ words_from image.now address count) }
{
    for index in 0..count {
        text.push(b" ")?;
        text.push_number(u64::from(image.word(address.wrapping_add(index))))?;
    }
    Ok(())
}

/// No map has another text than that of the layout of the source's code, or another status or line.
pub fn wrong_maps_are_excluded()
    ensures { NoMaps }
{}
