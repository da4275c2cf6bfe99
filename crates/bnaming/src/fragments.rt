//! What texts are put together of.
ghost use Rattle.std.specs.Prelude.{◌≡◌, ◌++◌, OnOk};
ghost use Rattle.std.specs.List.{flat_map};
ghost use Rattle.bnaming.specs.Fragments.{fragment_text};

use btools::{Text, push_quoted};
use std::alloc::AllocError;

/// A part of a text.
#[derive(Clone, Copy)]
pub(crate) enum Fragment<'a> {
    /// These bytes.
    Words(&'a [u8]),
    /// The digits of a number.
    Number(u64),
    /// A string of JSON.
    Quoted(&'a [u8]),
}

/// Adds parts, one after another.
pub(crate) fn push_all(text: &mut Text, parts: &[Fragment<'_>]) -> Result<(), AllocError>
    ensures { OnOk result (text.new ≡ text.old ++ flat_map fragment_text parts.now) }
{
    for part in parts {
        push(text, *part)?;
    }
    Ok(())
}

fn push(text: &mut Text, part: Fragment<'_>) -> Result<(), AllocError>
    ensures { OnOk result (text.new ≡ text.old ++ fragment_text part.entry) }
{
    match part {
        Fragment::Words(words) => text.push(words),
        Fragment::Number(number) => text.push_number(number),
        Fragment::Quoted(words) => push_quoted(text, words),
    }
}
