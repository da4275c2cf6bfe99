//! The calls of the first B that read and write a character.
use crate::calls::{arguments, defines};
use crate::names::value_of_number;
use crate::row::{NoteKind, Row};
use crate::source::{Done, Draft, Source};
use crate::tokens::TokenKind;
use btools::Text;

/// Puts `getchar` for `read`, and `putchar` for `write`, where nothing defines these and they are called so.
pub(crate) fn streams(source: &Source<'_>, others: &Source<'_>, draft: &mut Draft) -> Done {
    if !defines(others, b"read") && is_called_so(source, b"read", 0) {
        rename(source, draft, b"read", b"getchar")?;
    }
    if !defines(others, b"write") && is_called_so(source, b"write", 1) {
        rename(source, draft, b"write", b"putchar")?;
    }
    Ok(())
}

/// Whether a name is called with so many arguments wherever it stands, but for declarations, and isn't defined.
pub(crate) fn is_called_so(source: &Source<'_>, name: &[u8], count: usize) -> bool {
    let mut is_called = false;
    for index in 0..source.tokens.len() {
        let open = index.wrapping_add(1);
        if !source.is(index, name) || is_listed(source, index) {
            continue;
        }
        let fits = arguments(source, open) == count;
        if !source.is_open_paren(open) || !fits {
            return false;
        }
        is_called = true;
    }
    is_called && !defines(source, name)
}

// Whether a name stands in a list of names.
fn is_listed(source: &Source<'_>, index: usize) -> bool {
    matches!(
        (
            source.word(index.wrapping_sub(1)),
            source.word(index.wrapping_add(1))
        ),
        (b"extrn" | b"extern" | b",", b"," | b";")
    )
}

fn rename(source: &Source<'_>, draft: &mut Draft, old: &[u8], new: &[u8]) -> Done {
    for index in 0..source.tokens.len() {
        if source.is(index, old) {
            draft.replace(source, index, new, Row::Stream)?;
            packed(source, draft, index.wrapping_add(2))?;
        }
    }
    Ok(())
}

// Two characters of nine bits in a number that is written alone are two of eight.
fn packed(source: &Source<'_>, draft: &mut Draft, index: usize) -> Done {
    let is_alone = source.is(index.wrapping_sub(1), b"(") && source.is(index.wrapping_add(1), b")");
    if !is_alone || source.kind(index) != Some(TokenKind::Number) {
        return Ok(());
    }
    let value = value_of_number(source.word(index)).unwrap_or(0);
    let (first, second) = (value / 512, value % 512);
    if first > 255 || second > 255 {
        return draft.note(source, index, NoteKind::Characters);
    }
    if first == 0 {
        return Ok(());
    }
    let mut text = Text::new(draft.alloc);
    text.push_number(first.saturating_mul(256).saturating_add(second))?;
    draft.replace_text(source, index, text, Row::Packed)
}
