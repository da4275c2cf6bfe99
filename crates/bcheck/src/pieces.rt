//! The pieces that the text of a finding consists of.
ghost use Rattle.std.specs.List.{flat_map};
ghost use Rattle.std.specs.Prelude.{◌≡◌, ◌<◌, ◌∷◌, ◌++◌, OnOk, Some, codes, replicate, true};
ghost use Rattle.bcheck.specs.Checks.{cut_mark, edits_text, file_member, shown_byte, shown_text};
ghost use Rattle.bcheck.specs.Pieces.{change_text, edit_text, line_text, piece_text, spot_text};

use crate::edit::Edit;
use crate::finding::SecondPlace;
use btools::{Text, push_file, push_quoted};
use std::alloc::AllocError;

/// A piece of a text.
#[derive(Clone, Copy)]
pub enum Fragment<'a> {
    /// These bytes.
    Words(&'a [u8]),
    /// The digits of a number.
    Number(u64),
    /// A string of JSON.
    Quoted(&'a [u8]),
    /// The name of a file, on one line.
    File(&'a [u8]),
    /// One character for each byte of the source, so that a mark below it stands right.
    Shown(&'a [u8]),
    /// So many blanks.
    Blanks(usize),
    /// So many marks.
    Marks(usize),
}

/// Adds pieces, one after another.
pub fn push_all(text: &mut Text, pieces: &[Fragment<'_>]) -> Result<(), AllocError>
    ensures { OnOk result (text.new ≡ text.old ++ flat_map piece_text pieces.now) }
{
    for piece in pieces {
        push(text, *piece)?;
    }
    Ok(())
}

/// Adds the line and the columns of a second place, for an editor, if there is one.
pub(crate) fn push_second(
    text: &mut Text,
    second: Option<SecondPlace<'_>>,
) -> Result<(), AllocError>
    ensures { OnOk result (text.new ≡ text.old ++ spot_text second.entry) }
{
    match second {
        Some(spot) => push_spot(text, &spot),
        None => Ok(()),
    }
}

fn push_spot(text: &mut Text, spot: &SecondPlace<'_>) -> Result<(), AllocError>
    ensures { OnOk result (text.new ≡ text.old ++ spot_text (Some spot.now)) }
{
    text.push(b",\"related\":{")?;
    push_file_of(text, spot.is_of_several, spot.at.file)?;
    push_all(
        text,
        &[
            Fragment::Words(b"\"line\":"),
            Fragment::Number(spot.at.line),
            Fragment::Words(b",\"column\":"),
            Fragment::Number(spot.column as u64),
            Fragment::Words(b",\"utf16_column\":"),
            Fragment::Number(spot.unit as u64),
            Fragment::Words(b"}"),
        ],
    )
}

fn push_file_of(text: &mut Text, is_told: bool, file: &str) -> Result<(), AllocError>
    ensures { OnOk result (text.new ≡ text.old ++ file_member is_told file.now) }
{
    if is_told {
        push_file_member(text, file.as_bytes())
    } else {
        Ok(())
    }
}

/// Adds edits, for an editor, if there are any.
pub(crate) fn push_edits(text: &mut Text, edits: &[Edit<'_>]) -> Result<(), AllocError>
    ensures { OnOk result (text.new ≡ text.old ++ edits_text edit_text edits.now) }
{
    match edits {
        [] => Ok(()),
        [first, others @ ..] => push_list(text, first, others),
    }
}

fn push_list(text: &mut Text, first: &Edit<'_>, others: &[Edit<'_>]) -> Result<(), AllocError>
    ensures { OnOk result (text.new ≡ text.old ++ edits_text edit_text (first.now ∷ others.now)) }
{
    text.push(b",\"edits\":[")?;
    push_edit(text, first)?;
    for edit in others {
        push_next(text, edit)?;
    }
    text.push(b"]")
}

fn push_next(text: &mut Text, edit: &Edit<'_>) -> Result<(), AllocError>
    ensures { OnOk result (text.new ≡ text.old ++ (codes "," ++ edit_text edit.now)) }
{
    text.push(b",")?;
    push_edit(text, edit)
}

fn push_edit(text: &mut Text, edit: &Edit<'_>) -> Result<(), AllocError>
    ensures { OnOk result (text.new ≡ text.old ++ edit_text edit.now) }
{
    text.push(b"{")?;
    push_file_of(text, edit.is_of_several, edit.at.file)?;
    push_all(
        text,
        &[
            Fragment::Words(b"\"line\":"),
            Fragment::Number(edit.at.line),
            Fragment::Words(b",\"column\":"),
            Fragment::Number(edit.column as u64),
            Fragment::Words(b",\"end\":"),
            Fragment::Number(edit.end()),
            Fragment::Words(b",\"utf16_column\":"),
            Fragment::Number(edit.unit as u64),
            Fragment::Words(b",\"utf16_end\":"),
            Fragment::Number(edit.unit_end as u64),
            Fragment::Words(b",\"offset\":"),
            Fragment::Number(edit.start as u64),
            Fragment::Words(b",\"length\":"),
            Fragment::Number(edit.len as u64),
            Fragment::Words(b",\"text\":"),
            Fragment::Quoted(edit.text),
            Fragment::Words(b"}"),
        ],
    )
}

/// Adds for people the line with each edit.
pub(crate) fn push_lines(text: &mut Text, edits: &[Edit<'_>]) -> Result<(), AllocError>
    ensures { OnOk result (text.new ≡ text.old ++ flat_map line_text edits.now) }
{
    for edit in edits {
        push_line(text, edit)?;
    }
    Ok(())
}

fn push_line(text: &mut Text, edit: &Edit<'_>) -> Result<(), AllocError>
    ensures { OnOk result (text.new ≡ text.old ++ line_text edit.now) }
{
    push_all(
        text,
        &[
            Fragment::Words(b"\n  line "),
            Fragment::Number(edit.at.line),
            Fragment::Words(b" mended: "),
            Fragment::Shown(edit.left),
            Fragment::Words(edit.text),
            Fragment::Shown(edit.right),
            Fragment::Words(cut_mark(edit.is_cut)),
        ],
    )
}

/// Adds the line that tells of an edit that was made.
pub(crate) fn push_change(text: &mut Text, edit: &Edit<'_>) -> Result<(), AllocError>
    ensures { OnOk result (text.new ≡ text.old ++ change_text edit.now) }
{
    push_all(
        text,
        &[
            Fragment::File(edit.at.file.as_bytes()),
            Fragment::Words(b":"),
            Fragment::Number(edit.at.line),
            Fragment::Words(b":"),
            Fragment::Number(edit.column as u64),
            Fragment::Words(b": mended: "),
            Fragment::Shown(edit.left),
            Fragment::Words(edit.text),
            Fragment::Shown(edit.right),
            Fragment::Words(cut_mark(edit.is_cut)),
            Fragment::Words(b"\n"),
        ],
    )
}

fn cut_mark(is_cut: bool) -> &'static [u8]
    ensures { result.now ≡ cut_mark is_cut }
{
    if is_cut { b" .." } else { b"" }
}

// Adds the member of an object that names a file.
fn push_file_member(text: &mut Text, file: &[u8]) -> Result<(), AllocError>
    ensures { OnOk result (text.new ≡ text.old ++ file_member true file.now) }
{
    push_all(
        text,
        &[
            Fragment::Words(b"\"file\":"),
            Fragment::Quoted(file),
            Fragment::Words(b","),
        ],
    )
}

fn push(text: &mut Text, piece: Fragment<'_>) -> Result<(), AllocError>
    ensures { OnOk result (text.new ≡ text.old ++ piece_text piece.entry) }
{
    match piece {
        Fragment::Words(words) => text.push(words),
        Fragment::Number(number) => text.push_number(number),
        Fragment::Quoted(words) => push_quoted(text, words),
        Fragment::File(name) => push_file(text, name),
        Fragment::Shown(bytes) => push_shown(text, bytes),
        Fragment::Blanks(count) => text.push_blanks(count),
        Fragment::Marks(count) => push_marks(text, count),
    }
}

fn push_shown(text: &mut Text, bytes: &[u8]) -> Result<(), AllocError>
    ensures { OnOk result (text.new ≡ text.old ++ flat_map shown_text bytes.now) }
{
    for byte in bytes {
        text.push(&[shown_as(*byte)])?;
    }
    Ok(())
}

fn shown_as(byte: u8) -> u8
    ensures { result ≡ shown_byte byte }
{
    match byte {
        b'\t' => b' ',
        b' '..=b'~' => byte,
        _ => b'?',
    }
}

fn push_marks(text: &mut Text, count: usize) -> Result<(), AllocError>
    ensures { OnOk result (text.new ≡ text.old ++ replicate count 94) }
{
    for marked in 0..count {
        let _ = marked;
        text.push(b"^")?;
    }
    Ok(())
}
