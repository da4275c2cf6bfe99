//! Where a name stands in the source.
ghost use Rattle.std.specs.Prelude.{◌≡◌, ◌<◌, MatchOption, drop, slice_index_or, take, true};
ghost use Rattle.bcheck.specs.UndefinedNames.{IsAtName, IsNowhere, is_word_at};

use crate::finding::Place;
use crate::places::parts;
use bword::{Name, is_name_byte};

/// The place, where the name stands there as a whole word; else the first one where it does. If there is none, nothing
/// changes.
pub(crate) fn place_named(source: &[u8], place: Place, name: &Name) -> Place
    ensures { IsAtName name.now (take result.start source.now) (drop result.start source.now) }
{
    if is_word_at(source, place.start, name) {
        return place;
    }
    match first_word(source, name) {
        Some(start) => Place {
            line: place.line,
            start,
            len: place.len,
        },
        None => place,
    }
}

fn first_word(source: &[u8], name: &Name) -> Option<usize>
    ensures { MatchOption result (IsNowhere name.now source.now)
        (λ start. is_word_at name.now (take start source.now) (drop start source.now) ≡ true) }
{
    for start in 0..source.len() {
        if is_word_at(source, start, name) {
            return Some(start);
        }
    }
    None
}

fn is_word_at(source: &[u8], start: usize, name: &Name) -> bool
    ensures { result ≡ is_word_at name.now (take start source.now) (drop start source.now) }
{
    let name = name.as_bytes();
    let (before, rest) = parts(source, start);
    let (word, _) = parts(rest, name.len());
    let last = byte_at(before, before.len().saturating_sub(1));
    word == name && !is_name_byte(last) && !is_name_byte(byte_at(rest, name.len()))
}

// The byte at a place of a text, or a blank where there is none.
fn byte_at(bytes: &[u8], index: usize) -> u8
    ensures { result ≡ slice_index_or bytes.now index 32 }
{
    bytes.get(index).copied().unwrap_or(b' ')
}
