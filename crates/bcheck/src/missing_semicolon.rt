//! A `;` that is put at a place of a source, and the places where one may lack.
ghost use Rattle.std.specs.Prelude.{◌≡◌, ◌≤◌, ◌++◌, IfOk, IfSome, OnOk, is_some, length, true, vec_items};
ghost use Rattle.bsources.specs.Files.{files_shown};
ghost use Rattle.bcheck.specs.Checks.{EachOutcome};
ghost use Rattle.bcheck.specs.Findings.{Improves, IsChange};
ghost use Rattle.bcheck.specs.Boundaries.{PutsSemicolon, boundaries, boundary_on, fault_boundaries, semicolon};
ghost use Rattle.bcheck.specs.Boundaries.{with_semicolon};
ghost use Rattle.bcheck.specs.Spares.{IsSpared, spares_at};
ghost use Rattle.bcheck.specs.Tokens.{pieces_of};

use crate::change::{Change, change_of, is_spared};
use crate::edit::{Proposal, edit_of};
use crate::places::{ends, milestones};
use crate::spans::SourceText;
use crate::verdict::{Verdict, judge};
use blex::{PlacedPiece, Scanner};
use bsources::SourceFiles;
use btools::Text;
use bword::Edition;
use std::alloc::{AllocError, Global};

/// The change that puts a missing `;` at a place of a source of these files, if it needs no choice. The caller asks
/// whether the source is better with it.
pub fn semicolon_at(
    alloc: Global,
    source: &[u8],
    edition: Edition,
    files: &SourceFiles<'_>,
    place: usize,
) -> Result<Option<Change>, AllocError>
    ensures change { IfOk result (λ found. IfSome found (λ c.
        Improves edition source.now (with_semicolon source.now place)
        → IsChange edition (files_shown files.now) source.now c)) }
    ensures puts { IfOk result (λ found. IfSome found (PutsSemicolon place)) }
    ensures spared { IfOk result (λ found. IfSome found (IsSpared edition source.now)) }
    ensures some { IfOk result (λ found. place ≤ length source.now
        → spares_at edition source.now place 0 semicolon ≡ true → is_some found ≡ true) }
{
    if place > source.len() {
        return Ok(None);
    }
    let mut text = Text::new(alloc);
    text.push(b";")?;
    let proposal = Proposal {
        start: place,
        len: 0,
        text,
        name: None,
        is_choice: false,
        is_guess: false,
        is_sure: true,
    };
    let milestones = milestones(alloc, source)?;
    let Some(edit) = edit_of(source, files, milestones.as_slice(), &proposal) else {
        return Ok(None);
    };
    let text = SourceText {
        text: source,
        edition,
    };
    if !is_spared(alloc, text, &edit)? {
        return Ok(None);
    }
    let change = change_of(alloc, &edit)?;
    Ok(Some(change))
}

/// The places before the comments and tokens on the line of the first fault of a source; none, if it has no fault.
pub fn fault_boundaries(
    alloc: Global,
    source: &[u8],
    edition: Edition,
) -> Result<Vec<usize>, AllocError>
    ensures { IfOk result (λ places. EachOutcome edition source.now
        (λ o. vec_items places ≡ fault_boundaries edition source.now o.stop)) }
{
    let text = SourceText {
        text: source,
        edition,
    };
    let judgement = judge(alloc, text)?;
    match &judgement.verdict {
        Verdict::Faulty(_, diagnostic) => boundaries(alloc, source, edition, diagnostic.line),
        Verdict::Clean => Ok(Vec::new(alloc)),
        Verdict::Unloaded(_) => Ok(Vec::new(alloc)),
    }
}

// The places before the comments and tokens of a source on a line.
fn boundaries(
    alloc: Global,
    source: &[u8],
    edition: Edition,
    line: u64,
) -> Result<Vec<usize>, AllocError>
    ensures { IfOk result (λ places. vec_items places ≡ boundaries line 0 (pieces_of edition source.now)) }
{
    let mut places = Vec::new(alloc);
    let mut scanner = Scanner::new(source, edition);
    let mut last = 0;
    loop {
        let piece = scanner.next();
        push_boundary(&mut places, line, last, &piece)?;
        if ends(piece.lexeme) {
            return Ok(places);
        }
        last = piece.end;
    }
}

// Adds a place, if what comes after it is on this line.
fn push_boundary(
    places: &mut Vec<usize>,
    line: u64,
    place: usize,
    piece: &PlacedPiece,
) -> Result<(), AllocError>
    ensures { OnOk result (vec_items places.new ≡ vec_items places.old ++ boundary_on line place piece.now) }
{
    if piece.line == line {
        places.push(place)?;
    }
    Ok(())
}
