//! Edits of an old source.
ghost use Rattle.std.specs.Int.{is_in_range};
ghost use Rattle.std.specs.Prelude.{◌≡◌, ◌-◌, ◌≤◌, drop, not, take};
ghost use Rattle.std.specs.List.{list_all};
ghost use Rattle.bport.specs.Places.{is_own_text};
ghost use Rattle.bport.specs.Edits.{are_sound, fits, is_escape, is_in_quotes, opens_comment, stands_apart};
ghost use Rattle.bport.specs.Escapes.{backslash_escape, byte_escape, escape_for, escape_of, escaped, is_cut_number};
ghost use Rattle.bport.specs.Escapes.{is_cut_short, letter_escape, octal_number, octal_value, star_escape};

use crate::row::Row;
use crate::within::Within;
use btools::Text;

/// A text in the place of the bytes from `start` up to `end`, and why.
#[derive(Drop)]
pub struct Edit {
    pub start: usize,
    pub end: usize,
    pub text: Text,
    pub row: Row,
}

/// The bytes between two places.
pub(crate) fn between(source: &[u8], start: usize, end: usize) -> &[u8]
    ensures { result.now ≡ drop start (take end source.now) }
{
    let head = up_to(source, end);
    if start < head.len() {
        let (_, part) = head.split_at(start);
        part
    } else {
        &[]
    }
}

fn up_to(source: &[u8], end: usize) -> &[u8]
    ensures { result.now ≡ take end source.now }
{
    if end < source.len() {
        let (head, _) = source.split_at(end);
        head
    } else {
        source
    }
}

// The same of the places of bytes.
fn places_between(places: &[Within], start: usize, end: usize) -> &[Within]
    ensures { result.now ≡ drop start (take end places.now) }
{
    let head = places_up_to(places, end);
    if start < head.len() {
        let (_, part) = head.split_at(start);
        part
    } else {
        &[]
    }
}

fn places_up_to(places: &[Within], end: usize) -> &[Within]
    ensures { result.now ≡ take end places.now }
{
    if end < places.len() {
        let (head, _) = places.split_at(end);
        head
    } else {
        places
    }
}

/// Whether no byte between two places is a comment's or a string's own.
pub(crate) fn is_free(places: &[Within], start: usize, end: usize) -> bool {
    no_own_text(places_between(places, start, end))
}

fn no_own_text(places: &[Within]) -> bool
    ensures { result ≡ list_all (λ place. not (is_own_text place)) places.now }
{
    places.iter().all(|place| !place.is_own_text())
}

/// Whether edits are in order and apart, and each fits the bytes in whose place its text is.
pub(crate) fn are_sound(source: &[u8], places: &[Within], edits: &[Edit]) -> bool
    ensures { result ≡ are_sound source.now places.now 0 edits.now }
{
    let mut at: usize = 0;
    for edit in edits {
        if at > edit.start || edit.start > edit.end || !fits(source, places, edit) {
            return false;
        }
        at = edit.end;
    }
    at <= source.len()
}

/// Whether an edit leaves comments and strings whole, or is one of an escape.
pub(crate) fn fits(source: &[u8], places: &[Within], edit: &Edit) -> bool
    ensures { result ≡ fits source.now places.now edit.now }
{
    let old = between(source, edit.start, edit.end);
    let stood = places_between(places, edit.start, edit.end);
    let new = edit.text.as_slice();
    match edit.row {
        Row::Escape => {
            is_escape(old, stood, new) && !is_cut_short(old, source.get(edit.end).copied())
        }
        _ => {
            let byte = source.get(edit.end).copied();
            let place = places.get(edit.end).copied();
            no_own_text(stood) && (stands_apart(byte, place) || opens_comment(old, new))
        }
    }
}

// Whether no comment and no string has the place before a byte within it.
fn stands_apart(byte: Option<u8>, place: Option<Within>) -> bool
    ensures { result ≡ stands_apart byte place }
{
    match (byte, place) {
        (Some(byte), Some(place)) => !place.is_within_text(byte),
        _ => true,
    }
}

fn opens_comment(old: &[u8], new: &[u8]) -> bool
    ensures { result ≡ opens_comment old.now new.now }
{
    new == b"/*".as_slice() && (old == b"//".as_slice() || old == b"#".as_slice())
}

fn is_escape(old: &[u8], places: &[Within], new: &[u8]) -> bool
    ensures { result ≡ is_escape old.now places.now new.now }
{
    !old.is_empty() && is_in_quotes(places) && !new.is_empty() && new == escape_for(old)
}

fn is_in_quotes(places: &[Within]) -> bool
    ensures { result ≡ is_in_quotes places.now }
{
    matches!(places, [Within::String | Within::Char, ..])
}

/// The escape that stands here for these bytes in quotes, or no byte.
pub(crate) fn escape_for(old: &[u8]) -> &'static [u8]
    ensures { result.now ≡ escape_for old.now }
{
    match old {
        [b'\\', escape @ ..] => backslash_escape(escape, false),
        [b'*', escape @ ..] => star_escape(escape),
        _ => b"",
    }
}

// The same for what comes after a `*`.
fn star_escape(escape: &[u8]) -> &'static [u8]
    ensures { result.now ≡ star_escape escape.now }
{
    match escape {
        [] => b"**",
        [b'N'] => b"*n",
        [b'T'] => b"*t",
        [b'E'] => b"*e",
        [b'*'] => b"****",
        [_] => b"",
        [b'\\', rest @ ..] => backslash_escape(rest, true),
        _ => b"",
    }
}

// The same for what comes after a backslash, and for a `*` before this that stands for itself.
fn backslash_escape(escape: &[u8], is_starred: bool) -> &'static [u8]
    ensures { result.now ≡ escaped is_starred (backslash_escape escape.now) }
{
    match octal_value(escape) {
        Some(code) => byte_escape(code, is_starred),
        None => letter_escape(escape, is_starred),
    }
}

fn byte_escape(code: u64, is_starred: bool) -> &'static [u8]
    ensures { result.now ≡ escaped is_starred (byte_escape code) }
{
    match (code, is_starred) {
        (10, false) => b"*n",
        (10, true) => b"***n",
        (9, false) => b"*t",
        (9, true) => b"***t",
        (0, false) => b"*0",
        (0, true) => b"***0",
        _ => b"",
    }
}

fn letter_escape(escape: &[u8], is_starred: bool) -> &'static [u8]
    ensures { result.now ≡ escaped is_starred (letter_escape escape.now) }
{
    match escape {
        [letter] => escape_of(*letter, is_starred),
        _ => b"",
    }
}

fn escape_of(byte: u8, is_starred: bool) -> &'static [u8]
    ensures { result.now ≡ escaped is_starred (escape_of byte) }
{
    match (byte, is_starred) {
        (b'n', false) => b"*n",
        (b'n', true) => b"***n",
        (b't', false) => b"*t",
        (b't', true) => b"***t",
        (b'"', false) => b"*\"",
        (b'"', true) => b"***\"",
        (b'\'', false) => b"*'",
        (b'\'', true) => b"***'",
        (b'\\', false) => b"\\",
        (b'\\', true) => b"**\\",
        _ => b"",
    }
}

/// The number that octal digits stand for, up to three of them.
pub(crate) fn octal_value(digits: &[u8]) -> Option<u64>
    ensures { result ≡ octal_value digits.now }
{
    match digits {
        [last] => octal_number(b'0', b'0', *last),
        [middle, last] => octal_number(b'0', *middle, *last),
        [first, middle, last] => octal_number(*first, *middle, *last),
        _ => None,
    }
}

fn octal_number(first: u8, middle: u8, last: u8) -> Option<u64>
    ensures { result ≡ octal_number first middle last }
{
    if !is_octal(first) || !is_octal(middle) || !is_octal(last) {
        return None;
    }
    Some(64 * value_of(first) + (8 * value_of(middle) + value_of(last)))
}

fn value_of(digit: u8) -> u64
    ensures value { result ≡ digit - 48 }
    ensures small { result ≤ 255 }
{
    digit.saturating_sub(b'0') as u64
}

/// Whether a byte is a digit of an octal number.
pub(crate) fn is_octal(byte: u8) -> bool
    ensures { result ≡ is_in_range 48 55 byte }
{
    matches!(byte, b'0'..=b'7')
}

// Whether an octal number in quotes goes on after these bytes, also after a `*` that stands for itself.
fn is_cut_short(old: &[u8], next: Option<u8>) -> bool
    ensures { result ≡ is_cut_short old.now next }
{
    match (old, next) {
        ([b'*', rest @ ..], Some(next)) => is_cut_number(rest, next),
        (_, Some(next)) => is_cut_number(old, next),
        (_, None) => false,
    }
}

fn is_cut_number(old: &[u8], next: u8) -> bool
    ensures { result ≡ is_cut_number old.now next }
{
    match old {
        [b'\\', digits @ ..] => {
            is_octal(next) && digits.len() < 3 && octal_value(digits).is_some()
        }
        _ => false,
    }
}
