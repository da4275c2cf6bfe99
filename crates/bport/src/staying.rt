//! Signs of other forms of the language that stay.
ghost use Rattle.std.specs.Prelude.{◌≡◌, ◌<◌, ◌+◌, ◌==◌, ℕ, OnOk, codes, drop, length, slice_get, true};
ghost use Rattle.std.specs.List.{list_any};
ghost use Rattle.bport.specs.Places.{places_of};
ghost use Rattle.bport.specs.Staying.{TellsOldUpTo, begins_directive, begins_operand, begins_operator, count_in_code};
ghost use Rattle.bport.specs.Staying.{covers, ends_operand, first_sign, is_closing, is_code, is_foreign, is_fraction};
ghost use Rattle.bport.specs.Staying.{is_listing, is_of, is_of_listing, is_of_operator, is_old, is_old_at, is_old_sign};
ghost use Rattle.bport.specs.Staying.{is_opening, is_right, is_right_of, is_uneven, refuses, refuses_kind, sign_before};
ghost use Rattle.bport.specs.declared.within.Within.TheVariants as within;

use crate::edit::{Edit, between};
use crate::row::{Note, NoteKind};
use crate::within::Within;
use crate::words::is_of_word;
use std::alloc::AllocError;

/// How many notes are looked through for one of the same place.
const MOST_NOTES: usize = 1000;

/// Tells each of these signs that no edit takes out.
pub(crate) fn tell_old(
    source: &[u8],
    places: &[Within],
    edits: &[Edit],
    notes: &mut Vec<Note>,
) -> Result<(), AllocError>
    ensures { OnOk result (TellsOldUpTo (length source.now) source.now places.now edits.now notes.new.items) }
{
    let mut next: usize = 0;
    for at in 0..source.len() {
        next = first_after(edits, next, at);
        if is_old_at(source, places, at) && !is_covered(edits, next, at) {
            tell_sign(notes, at)?;
        }
    }
    Ok(())
}

// The first of the edits from one on that ends after a place.
fn first_after(edits: &[Edit], from: usize, at: usize) -> usize {
    for index in from..edits.len() {
        if edits[index].end > at {
            return index;
        }
    }
    edits.len()
}

fn is_covered(edits: &[Edit], index: usize, at: usize) -> bool
    ensures { result ≡ true → list_any (covers at) edits.now ≡ true }
{
    index < edits.len() && covers(&edits[index], at)
}

fn covers(edit: &Edit, at: usize) -> bool
    ensures { result ≡ covers at edit.now }
{
    edit.start <= at && at < edit.end
}

fn is_old_at(source: &[u8], places: &[Within], at: usize) -> bool
    requires { at < length source.now }
    ensures { result ≡ is_old_at source.now places.now at }
{
    let place = place_at(places, at);
    let (first, second) = (byte_at(source, at), byte_at(source, at + 1));
    is_old(place, first, second, byte_at(source, at + 2))
}

fn place_at(places: &[Within], at: usize) -> Option<Within>
    ensures { result ≡ slice_get places.now at }
{
    places.get(at).copied()
}

fn byte_at(source: &[u8], at: usize) -> Option<u8>
    ensures { result ≡ slice_get source.now at }
{
    source.get(at).copied()
}

fn is_old(place: Option<Within>, first: Option<u8>, second: Option<u8>, third: Option<u8>) -> bool
    ensures { result ≡ is_old place first second third }
{
    match (place, first, second) {
        (Some(Within::Code | Within::Start), Some(first), Some(second)) => {
            is_old_sign(first, second, matches!(third, Some(b'=')))
        }
        (Some(Within::Char | Within::String), Some(first), Some(second)) => {
            first == b'\\' && second == b'n'
        }
        _ => false,
    }
}

fn is_old_sign(first: u8, second: u8, is_longer: bool) -> bool
    ensures { result ≡ is_old_sign first second is_longer }
{
    match second {
        b'=' => {
            !is_longer
                && matches!(
                    first,
                    b'+' | b'-' | b'*' | b'/' | b'%' | b'&' | b'|' | b'^' | b'~'
                )
        }
        _ if first == b'$' => matches!(second, b'(' | b')'),
        b'<' | b'>' => first == second && is_longer || first == b'~',
        _ => first == second && matches!(first, b'&' | b'|') || first == b'~',
    }
}

// Tells a sign, if no note is of its place.
fn tell_sign(notes: &mut Vec<Note>, at: usize) -> Result<(), AllocError>
    ensures told { OnOk result (list_any (is_of at) notes.new.items ≡ true) }
    ensures kept { OnOk result ((other : ℕ) → list_any (is_of other) notes.old.items ≡ true
        → list_any (is_of other) notes.new.items ≡ true) }
{
    if notes.len() < MOST_NOTES && has_note(notes.as_slice(), at) {
        return Ok(());
    }
    notes.push(Note {
        start: at,
        kind: NoteKind::Sign,
    })?;
    Ok(())
}

fn has_note(notes: &[Note], at: usize) -> bool
    ensures { result ≡ list_any (is_of at) notes.now }
{
    notes.iter().any(|note| note.start == at)
}

/// Whether a note says that nothing is edited.
pub fn has_refused(notes: &[Note]) -> bool
    ensures { result ≡ list_any refuses notes.now }
{
    notes.iter().any(|note| refuses_kind(note.kind))
}

fn refuses_kind(kind: NoteKind) -> bool
    ensures { result ≡ refuses_kind kind }
{
    matches!(
        kind,
        NoteKind::Bracket
            | NoteKind::Fraction
            | NoteKind::Numbered
            | NoteKind::Accent
            | NoteKind::Star
            | NoteKind::Parted
            | NoteKind::Unfit
    )
}

/// Whether one of these notes is right that nothing is edited.
pub(crate) fn has_right(source: &[u8], places: &[Within], notes: &[Note]) -> bool
    requires { places.now ≡ places_of within.Start source.now }
    ensures { result ≡ list_any (is_right source.now) notes.now }
{
    notes.iter().any(|note| is_right_of(
        note.kind,
        source,
        places,
        note.start,
        byte_at(source, note.start),
        place_at(places, note.start),
    ))
}

fn is_right_of(
    kind: NoteKind,
    source: &[u8],
    places: &[Within],
    at: usize,
    byte: Option<u8>,
    place: Option<Within>,
) -> bool
    ensures { result ≡ is_right_of kind source.now places.now at byte place }
{
    let (Some(byte), Some(place)) = (byte, place) else {
        return false;
    };
    match kind {
        NoteKind::Numbered => {
            place == Within::Start && byte.is_ascii_digit() && is_listing(source, places)
        }
        NoteKind::Fraction if place != Within::Start => {
            is_code(place) && is_fraction_at(source, at)
        }
        NoteKind::Bracket => is_bracket(byte) && is_code(place) && is_uneven(source, places),
        NoteKind::Accent => is_foreign(byte) && is_code(place),
        _ => false,
    }
}

/// Whether no form of the language has a byte in its code.
pub(crate) fn is_foreign(byte: u8) -> bool
    ensures { result ≡ is_foreign byte }
{
    matches!(byte, b'`' | b'@' | 0..=8 | 11 | 14..=31 | 127..)
}

fn is_bracket(byte: u8) -> bool
    ensures { result ≡ list_any (λ c. byte == c) (codes "([{)]}$") }
{
    matches!(byte, b'(' | b'[' | b'{' | b')' | b']' | b'}' | b'$')
}

// Whether not as many brackets of code open as close.
fn is_uneven(source: &[u8], places: &[Within]) -> bool
    ensures { result ≡ is_uneven source.now places.now }
{
    openings(source, places) != closings(source, places)
}

fn openings(source: &[u8], places: &[Within]) -> usize
    ensures { result ≡ count_in_code is_opening source.now places.now }
{
    source
        .iter()
        .zip(places.iter())
        .filter(|(byte, place)| is_opening(**byte) && is_code(**place))
        .count()
}

fn closings(source: &[u8], places: &[Within]) -> usize
    ensures { result ≡ count_in_code is_closing source.now places.now }
{
    source
        .iter()
        .zip(places.iter())
        .filter(|(byte, place)| is_closing(**byte) && is_code(**place))
        .count()
}

// Whether each line that has more than blanks begins with a number.
fn is_listing(source: &[u8], places: &[Within]) -> bool
    ensures { result ≡ is_listing source.now places.now }
{
    source
        .iter()
        .zip(places.iter())
        .all(|(byte, place)| is_of_listing(*byte, *place))
}

fn is_of_listing(byte: u8, place: Within) -> bool
    ensures { result ≡ is_of_listing (byte, place) }
{
    place != Within::Start || byte.is_ascii_digit() || byte.is_ascii_whitespace()
}

/// Whether a `#` at a place is an operator of fractions: right before the sign of an operator that comes after an
/// operand, or between an operator and an operand.
pub(crate) fn is_fraction_at(source: &[u8], at: usize) -> bool
    ensures { result ≡ is_fraction (sign_before source.now at) (drop at source.now) }
{
    match (sign_before(source, at), between(source, at, source.len())) {
        (Some(before), [b'#', after @ ..]) => {
            if ends_operand(before) {
                begins_operator(after)
            } else {
                is_of_operator(before)
                    && first_sign(after).map_or(false, begins_operand)
                    && !begins_directive(after)
            }
        }
        _ => false,
    }
}

fn sign_before(source: &[u8], at: usize) -> Option<u8>
    ensures { result ≡ sign_before source.now at }
{
    let before = between(source, 0, at);
    before
        .iter()
        .rev()
        .copied()
        .find(|byte| !byte.is_ascii_whitespace())
}

fn first_sign(bytes: &[u8]) -> Option<u8>
    ensures { result ≡ first_sign bytes.now }
{
    bytes
        .iter()
        .copied()
        .find(|byte| !byte.is_ascii_whitespace())
}

fn begins_operand(byte: u8) -> bool
    ensures { result ≡ begins_operand byte }
{
    is_of_word(byte) || matches!(byte, b'(' | b'-' | b'*' | b'#')
}

fn ends_operand(byte: u8) -> bool
    ensures { result ≡ ends_operand byte }
{
    is_of_word(byte) || matches!(byte, b')' | b']' | b'\'' | b'"')
}

fn is_of_operator(byte: u8) -> bool
    ensures { result ≡ is_of_operator byte }
{
    matches!(
        byte,
        b'+' | b'-' | b'*' | b'/' | b'%' | b'<' | b'>' | b'=' | b'!'
    )
}

fn begins_operator(bytes: &[u8]) -> bool
    ensures { result ≡ begins_operator bytes.now }
{
    match bytes {
        [b'<' | b'>' | b'=' | b'!', b'=', b'=', ..] => false,
        [b'<' | b'>' | b'=' | b'!', b'=', ..] => true,
        [b'+' | b'-' | b'*' | b'/' | b'<' | b'>', next, ..] => {
            is_of_word(*next) || matches!(*next, b' ' | b'(' | b'#')
        }
        _ => false,
    }
}

fn begins_directive(bytes: &[u8]) -> bool
    ensures { result ≡ begins_directive bytes.now }
{
    bytes.starts_with(b"define")
        || bytes.starts_with(b"undef")
        || bytes.starts_with(b"if")
        || bytes.starts_with(b"else")
        || bytes.starts_with(b"endif")
        || bytes.starts_with(b"include")
        || bytes.starts_with(b"pragma")
}

/// Whether a byte that stands in this is code.
pub(crate) fn is_code(place: Within) -> bool
    ensures { result ≡ is_code place }
{
    matches!(
        place,
        Within::Start | Within::Code | Within::Slash | Within::CharQuote
    )
}

fn is_opening(byte: u8) -> bool
    ensures { result ≡ is_opening byte }
{
    matches!(byte, b'(' | b'[' | b'{')
}

fn is_closing(byte: u8) -> bool
    ensures { result ≡ is_closing byte }
{
    matches!(byte, b')' | b']' | b'}')
}
