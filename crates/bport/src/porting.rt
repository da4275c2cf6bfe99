//! Porting a source.
ghost use Rattle.std.specs.Prelude.{◌≡◌, ◌++◌, [], IfOk, false, true};
ghost use Rattle.bport.specs.Edits.{EditsIfFaulty, IsFaultyAlone, are_edits_of, edited};
ghost use Rattle.bport.specs.Places.{places_of};
ghost use Rattle.bport.specs.Staying.{IsLeft};
ghost use Rattle.bport.specs.declared.within.Within.TheVariants as within;

use crate::apply::{apply, joined};
use crate::calls::calls;
use crate::definitions::{Outline, outline_of};
use crate::edit::{Edit, are_sound, between, fits};
use crate::expressions::{Exclusive, exclusive_assignment, exclusive_or, is_joined, sign};
use crate::grids::edit_grids;
use crate::holders::{edit_holders, tell_holders};
use crate::logic::signs;
use crate::loops::loops_of;
use crate::meanings::{has_pair, meanings};
use crate::mentions::{heap, mentions};
use crate::names::{Constants, end_values, has_name, name, number, short_names};
use crate::parts::SourceParts;
use crate::pointers::pointer_calls;
use crate::quotes::{quoted, tell_ends};
use crate::refusing::refuse;
use crate::remarks::remarks;
use crate::row::{Note, NoteKind, Row};
use crate::scopes::{renames, tell_labels};
use crate::shape::ends_of;
use crate::source::{Dialect, Done, Draft, Source, key_of};
use crate::statements::statement;
use crate::staying::{has_refused, has_right, tell_old};
use crate::streams::streams;
use crate::taken::Taken;
use crate::tokens::TokenKind;
use crate::turned::turned_head;
use crate::within::{Within, places_of};
use crate::words::are_kept;
use btools::{Origin, ProgramFault, Text, read_program};
use bword::Edition;
use std::alloc::{AllocError, Global};

/// What came of porting a source.
#[derive(Drop)]
pub struct Ported {
    /// The source with the edits.
    pub text: Text,
    /// What was changed, in the order of the source.
    pub edits: Vec<Edit>,
    /// What was left as it stands, or may mean something else.
    pub notes: Vec<Note>,
    /// Whether it compiles and loads as it stands, and has no edit.
    pub is_program: bool,
}

/// Ports a source of an old or a later form of B to this edition, with what comes after it.
///
/// A source that compiles and loads stays as it is, also without what comes after it, and in edition 1.
///
/// # Errors
///
/// If memory was refused.
pub fn port_text(
    alloc: Global,
    source: &[u8],
    rest: &[u8],
    edition: Edition,
) -> Result<Ported, AllocError>
    ensures text { IfOk result (λ p. p.text ≡ edited source.now 0 p.edits.items) }
    ensures edits { IfOk result (λ p. are_edits_of source.now p.edits.items ≡ true) }
    ensures stays { IfOk result (λ p. EditsIfFaulty edition source.now rest.now p.is_program p.edits.items) }
    ensures left { IfOk result (λ p. p.is_program ≡ false → IsLeft source.now p.edits.items p.notes.items) }
{
    let whole = joined(alloc, source, rest)?;
    match read_program(alloc, whole.as_slice(), Origin::Source(edition)) {
        Ok(_) => of_program(alloc, source, rest, edition),
        Err(ProgramFault::Memory) => Err(AllocError),
        Err(_) => rewrite(alloc, source, rest, edition),
    }
}

// Ports what compiles and loads with what comes after it: alone it may be of another form.
fn of_program(
    alloc: Global,
    source: &[u8],
    rest: &[u8],
    edition: Edition,
) -> Result<Ported, AllocError>
    ensures text { IfOk result (λ p. p.text ≡ edited source.now 0 p.edits.items) }
    ensures edits { IfOk result (λ p. are_edits_of source.now p.edits.items ≡ true) }
    ensures stays { IfOk result (λ p. p.is_program ≡ true → p.edits.items ≡ []) }
    ensures apart { IfOk result (λ p. p.is_program ≡ false → IsFaultyAlone source.now) }
    ensures left { IfOk result (λ p. p.is_program ≡ false → IsLeft source.now p.edits.items p.notes.items) }
{
    match read_program(alloc, source, Origin::Source(Edition::One)) {
        Ok(_) => as_it_is(alloc, source, rest),
        Err(ProgramFault::Memory) => Err(AllocError),
        Err(_) => {
            let made = rewrite(alloc, source, rest, edition)?;
            if made.edits.is_empty() {
                return as_it_is(alloc, source, rest);
            }
            Ok(made)
        }
    }
}

// A program, and what it may not mean.
fn as_it_is(alloc: Global, source: &[u8], rest: &[u8]) -> Result<Ported, AllocError>
    ensures text { IfOk result (λ p. p.text ≡ edited source.now 0 p.edits.items) }
    ensures edits { IfOk result (λ p. are_edits_of source.now p.edits.items ≡ true) }
    ensures none { IfOk result (λ p. p.edits.items ≡ []) }
    ensures program { IfOk result (λ p. p.is_program ≡ true) }
{
    let mut kept = unchanged(alloc, source, true)?;
    kept.notes = plain_notes(alloc, source, rest)?;
    Ok(kept)
}

fn unchanged(alloc: Global, source: &[u8], is_program: bool) -> Result<Ported, AllocError>
    ensures text { IfOk result (λ p. p.text ≡ edited source.now 0 p.edits.items) }
    ensures edits { IfOk result (λ p. are_edits_of source.now p.edits.items ≡ true) }
    ensures none { IfOk result (λ p. p.edits.items ≡ []) }
    ensures program { IfOk result (λ p. p.is_program ≡ is_program) }
{
    let mut text = Text::new(alloc);
    text.push(source)?;
    Ok(Ported {
        text,
        edits: Vec::new(alloc),
        notes: Vec::new(alloc),
        is_program,
    })
}

// What a source that stays as it is may not mean.
fn plain_notes(alloc: Global, text: &[u8], rest: &[u8]) -> Result<Vec<Note>, AllocError> {
    let parts = SourceParts::of(alloc, text)?;
    let others = SourceParts::of(alloc, rest)?;
    let bare = parts.source(text, Edition::One);
    let ends = ends_of(alloc, &bare)?;
    let source = Source {
        ends: &ends,
        ..bare
    };
    let others = others.source(rest, Edition::One);
    let mut constants = Constants::new(alloc, text.len())?;
    let outline = outline_of(alloc, &source, &mut Draft::new(alloc), &mut constants)?;
    let named = end_values(alloc, &source, &constants, &outline)?;
    let source = Source {
        end_values: &named,
        ..source
    };
    let mut draft = Draft::new(alloc);
    tell_holders(alloc, &source, &others, &mut draft, &outline)?;
    plain_calls(alloc, &source, &others, &mut draft, &outline)?;
    tell_labels(alloc, &source, &mut draft, &outline)?;
    meanings(&source, &others, &mut draft, &outline, false)?;
    let has_heap = has_name(&source, b"givevec");
    for index in 0..source.tokens.len() {
        if let Some(kind) = plain_note(&source, index, has_heap) {
            draft.note(&source, index, kind)?;
        }
    }
    let Draft {
        alloc: _,
        edits: _,
        notes,
        ordered: _,
    } = draft;
    in_order(alloc, text, notes)
}

// Tells the calls that would be edited in another source.
fn plain_calls(
    alloc: Global,
    source: &Source<'_>,
    others: &Source<'_>,
    draft: &mut Draft,
    outline: &Outline,
) -> Done {
    let mut made = Draft::new(alloc);
    calls(alloc, source, others, &mut made, outline)?;
    for edit in &made.edits {
        let kind = match edit.row {
            Row::Base => NoteKind::Base,
            Row::StringEnd => NoteKind::Ends,
            _ => NoteKind::Zero,
        };
        draft.note_at(edit.start, kind)?;
    }
    for note in &made.notes {
        draft.note_at(note.start, note.kind)?;
    }
    Ok(())
}

// Notes in the order of a source, each kind once in a line, or once of all.
fn in_order(alloc: Global, source: &[u8], notes: Vec<Note>) -> Result<Vec<Note>, AllocError> {
    let mut sorted = notes;
    sorted.sort_by_key(|note| note.start)?;
    let mut kept: Vec<Note> = Vec::new(alloc);
    let mut once: Vec<Note> = Vec::new(alloc);
    let mut begun: usize = 0;
    let mut at: usize = 0;
    for note in sorted {
        if between(source, at, note.start).contains(&b'\n') {
            begun = kept.len();
        }
        at = note.start;
        let told = if note.kind.is_of_all() {
            once.as_slice()
        } else {
            kept.get(begun..).unwrap_or(&[])
        };
        if told.iter().any(|other| other.kind == note.kind) {
            continue;
        }
        if note.kind.is_of_all() {
            once.push(note)?;
        }
        kept.push(note)?;
    }
    Ok(kept)
}

// What a token of it may not mean.
fn plain_note(source: &Source<'_>, index: usize, has_heap: bool) -> Option<NoteKind> {
    match source.word(index) {
        b"&&" => Some(NoteKind::Ampersands),
        b"getvec" if !has_heap && source.is_call(index) => Some(NoteKind::Heap),
        [b'"' | b'\'', ..] if has_pair(source.word(index), b'\\', b"nt0\"\\") => {
            Some(NoteKind::Backslash)
        }
        _ if source.dialect != Dialect::Early && is_joined(source, index) => Some(NoteKind::Signs),
        _ => None,
    }
}

// Makes the edits, and takes them where they are sound.
fn rewrite(
    alloc: Global,
    source: &[u8],
    rest: &[u8],
    edition: Edition,
) -> Result<Ported, AllocError>
    ensures text { IfOk result (λ p. p.text ≡ edited source.now 0 p.edits.items) }
    ensures edits { IfOk result (λ p. are_edits_of source.now p.edits.items ≡ true) }
    ensures left { IfOk result (λ p. IsLeft source.now p.edits.items p.notes.items) }
    ensures program { IfOk result (λ p. p.is_program ≡ false) }
{
    let places = places_of(alloc, source)?;
    let Draft {
        alloc: _,
        edits,
        mut notes,
        ordered: _,
    } = draft_of(alloc, source, rest, edition)?;
    let edits = apart(source, &places, edits, &mut notes, alloc)?;
    let mut notes = in_order(alloc, source, notes)?;
    let is_sound = are_edits_of(alloc, source, &places, &edits)?;
    if is_sound && !has_refused(notes.as_slice()) {
        tell_old(source, &places, &edits, &mut notes)?;
        return Ok(Ported {
            text: apply(alloc, source, &edits)?,
            edits,
            notes,
            is_program: false,
        });
    }
    refused(alloc, source, &places, notes)
}

// Whether edits are in order and apart, and each fits and keeps the words that no row names.
fn are_edits_of(
    alloc: Global,
    source: &[u8],
    places: &[Within],
    edits: &[Edit],
) -> Result<bool, AllocError>
    requires { places.now ≡ places_of within.Start source.now }
    ensures { IfOk result (λ fits. fits ≡ are_edits_of source.now edits.now) }
{
    if are_sound(source, places, edits) {
        are_kept(alloc, source, edits)
    } else {
        Ok(false)
    }
}

// A source that stays, though it is no program: a note says why, or each sign of another form is told.
fn refused(
    alloc: Global,
    source: &[u8],
    places: &[Within],
    notes: Vec<Note>,
) -> Result<Ported, AllocError>
    requires { places.now ≡ places_of within.Start source.now }
    ensures text { IfOk result (λ p. p.text ≡ edited source.now 0 p.edits.items) }
    ensures edits { IfOk result (λ p. are_edits_of source.now p.edits.items ≡ true) }
    ensures left { IfOk result (λ p. IsLeft source.now p.edits.items p.notes.items) }
    ensures program { IfOk result (λ p. p.is_program ≡ false) }
{
    let mut kept = unchanged(alloc, source, false)?;
    kept.notes = notes;
    if has_right(source, places, kept.notes.as_slice()) {
        return Ok(kept);
    }
    if !has_refused(kept.notes.as_slice()) {
        kept.notes.push(Note {
            start: 0,
            kind: NoteKind::Unfit,
        })?;
    }
    tell_old(source, places, &kept.edits, &mut kept.notes)?;
    Ok(kept)
}

// The edits that are made of a source, in the order in which they are made.
fn draft_of(
    alloc: Global,
    text: &[u8],
    rest: &[u8],
    edition: Edition,
) -> Result<Draft, AllocError> {
    let parts = SourceParts::of(alloc, text)?;
    let bare = parts.source(text, edition);
    let ends = ends_of(alloc, &bare)?;
    let source = Source {
        ends: &ends,
        ..bare
    };
    let mut draft = Draft::new(alloc);
    if refuse(&source, &mut draft)? {
        return Ok(draft);
    }
    let others = SourceParts::of(alloc, rest)?;
    let others = others.source(rest, edition);
    let mut constants = Constants::new(alloc, text.len())?;
    remarks(&mut draft, &mut constants, text, source.places)?;
    let mut outline = outline_of(alloc, &source, &mut draft, &mut constants)?;
    let named = end_values(alloc, &source, &constants, &outline)?;
    let source = Source {
        end_values: &named,
        ..source
    };
    draft_words(alloc, &source, &others, &mut draft, &constants, &outline)?;
    draft_statements(alloc, &source, &mut draft, &mut outline)?;
    Ok(draft)
}

// Edits what is one word, and calls, beside the other files.
fn draft_words(
    alloc: Global,
    source: &Source<'_>,
    others: &Source<'_>,
    draft: &mut Draft,
    constants: &Constants,
    outline: &Outline,
) -> Done {
    let mut names = Taken::of(alloc, source, others)?;
    let mut short = short_names(alloc, source, others, outline, &mut names)?;
    let renamed = renames(alloc, source, outline, &mut names, &mut short)?;
    let held = edit_holders(alloc, source, others, draft, outline, &short)?;
    calls(alloc, source, others, draft, outline)?;
    for index in 0..source.tokens.len() {
        if !outline.is_gone(index) {
            token(source, draft, constants, &short, &renamed, index)?;
        }
    }
    tell_ends(source, draft)?;
    tell_labels(alloc, source, draft, outline)?;
    meanings(source, others, draft, outline, true)?;
    streams(source, others, draft)?;
    pointer_calls(alloc, source, draft, outline, &held.names)?;
    draft.order()?;
    edit_grids(alloc, source, draft, outline)?;
    draft.ordered = None;
    mentions(source, draft, outline, &short, held.starred)?;
    heap(source, others, draft, outline)
}

// Edits operators that stand for several, and statements, from the innermost ones on.
fn draft_statements(
    alloc: Global,
    source: &Source<'_>,
    draft: &mut Draft,
    outline: &mut Outline,
) -> Done {
    let exclusives = signs(alloc, source, draft, outline)?;
    exclusive_ors(source, draft, exclusives)?;
    exclusive_assignments(source, draft)?;
    draft.order()?;
    let loops = loops_of(alloc, source)?;
    for step in 0..source.tokens.len() {
        let index = source.tokens.len() - 1 - step;
        if !outline.is_gone(index) {
            statement(source, draft, outline, &loops, index)?;
        }
    }
    Ok(())
}

// Edits those that have no other one in them, then those around these, and so on.
fn exclusive_ors(source: &Source<'_>, draft: &mut Draft, exclusives: Vec<Exclusive>) -> Done {
    let mut left = exclusives;
    for _ in 0..MOST_LEVELS {
        draft.order()?;
        let mut outer = Vec::new(draft.alloc);
        let mut reached = 0;
        for found in &left {
            if found.first < reached {
                outer.push(*found)?;
            } else {
                exclusive_or(source, draft, *found)?;
            }
            reached = reached.max(found.end);
        }
        left = outer;
        if left.is_empty() {
            break;
        }
    }
    draft.order()
}

fn exclusive_assignments(source: &Source<'_>, draft: &mut Draft) -> Done {
    for index in 0..source.tokens.len() {
        if matches!(source.word(index), b"^=" | b"=^") {
            exclusive_assignment(source, draft, index)?;
        }
    }
    Ok(())
}

fn token(
    source: &Source<'_>,
    draft: &mut Draft,
    constants: &Constants,
    short: &[Option<Text>],
    renamed: &[usize],
    index: usize,
) -> Done {
    match source.kind(index) {
        Some(TokenKind::Name) if source.head_word(index) != source.word(index) => {
            turned_head(source, draft, index)
        }
        Some(TokenKind::Name) => name(source, draft, constants, short, renamed, index),
        Some(TokenKind::Number) => number(source, draft, index),
        Some(TokenKind::Char | TokenKind::String) => quoted(source, draft, index),
        Some(TokenKind::Sign) => sign(source, draft, index),
        None => Ok(()),
    }
}

/// How many exclusive ors there are in one another, at most.
const MOST_LEVELS: usize = 200;

// The edits in order, without those within what another one takes out, and those that would take out a comment, which
// are told.
fn apart(
    source: &[u8],
    places: &[Within],
    edits: Vec<Edit>,
    notes: &mut Vec<Note>,
    alloc: Global,
) -> Result<Vec<Edit>, AllocError> {
    let mut sorted = edits;
    sorted.sort_by_key(|edit| key_of(edit))?;
    let mut kept = Vec::new(alloc);
    let mut at: usize = 0;
    for edit in sorted {
        if edit.start < at || edit.start > edit.end {
            continue;
        }
        if fits(source, places, &edit) {
            at = edit.end;
            kept.push(edit)?;
        } else {
            notes.push(Note {
                start: edit.start,
                kind: NoteKind::Remark,
            })?;
        }
    }
    Ok(kept)
}
