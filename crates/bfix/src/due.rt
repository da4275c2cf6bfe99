//! A missing semicolon that is all that a text lacks: error recovery by the insertion of one token.
ghost use Rattle.std.specs.List.{All};
ghost use Rattle.std.specs.Prelude.{◌≡◌, ◌<◌, IfOk, IfSome, None, length};
ghost use Rattle.bfix.specs.Due.{IsDue, IsSettled};
ghost use Rattle.bfix.specs.Fixes.{IsMade, IsWrong, setting_of};

use crate::edits::edited;
use crate::fixing::{Frame, Led};
use crate::keeping::keeps;
use bcheck::{fault_boundaries, is_right, semicolon_at};
use bport::joined;
use std::alloc::{AllocError, Global};

/// How many bytes of sources with a `;` are looked at for one text, at most.
pub const TRIED_BYTES: usize = 2097152;

/// What the missing `;` makes of a text, if it is all that lacks on the line of the first fault, and its line.
pub(crate) fn due(alloc: Global, frame: &Frame<'_>, old: &[u8]) -> Result<Option<Led>, AllocError>
    ensures made { IfOk result (λ made. IfSome made (IsMade frame.now old.now)) }
    ensures settled { IfOk result (λ made. made ≡ None → IsSettled (setting_of frame.now) old.now) }
{
    let whole = joined(alloc, old, frame.rest)?;
    let places = fault_boundaries(alloc, whole.as_slice(), frame.edition)?;
    if places.len().saturating_mul(whole.as_slice().len()) > TRIED_BYTES {
        return Ok(None);
    }
    due_at_one(alloc, frame, old, places.as_slice())
}

// What the missing `;` makes of a text at the first of these places where it is all that lacks.
fn due_at_one(
    alloc: Global,
    frame: &Frame<'_>,
    old: &[u8],
    places: &[usize],
) -> Result<Option<Led>, AllocError>
    requires { 0 < length places.now → IsWrong frame.now old.now }
    ensures made { IfOk result (λ made. IfSome made (IsMade frame.now old.now)) }
    ensures none { IfOk result (λ made. made ≡ None
        → All (λ place. IsDue (setting_of frame.now) old.now place → ⊥) places.now) }
{
    for place in places {
        let found = due_at(alloc, frame, old, *place)?;
        if found.is_some() {
            return Ok(found);
        }
    }
    Ok(None)
}

// What the missing `;` makes of a text at a place, if it is all that lacks there.
fn due_at(
    alloc: Global,
    frame: &Frame<'_>,
    old: &[u8],
    place: usize,
) -> Result<Option<Led>, AllocError>
    requires { IsWrong frame.now old.now }
    ensures made { IfOk result (λ made. IfSome made (IsMade frame.now old.now)) }
    ensures none { IfOk result (λ made. made ≡ None → IsDue (setting_of frame.now) old.now place → ⊥) }
{
    if place > old.len() {
        return Ok(None);
    }
    let text = edited(alloc, old, place, 0, b";")?;
    let whole = joined(alloc, old, frame.rest)?;
    let new = joined(alloc, text.as_slice(), frame.rest)?;
    if text.as_slice().len() > frame.most {
        return Ok(None);
    }
    if !keeps(alloc, frame.edition, whole.as_slice(), new.as_slice())? {
        return Ok(None);
    }
    if !is_right(alloc, new.as_slice(), frame.edition, &frame.files)? {
        return Ok(None);
    }
    let found = semicolon_at(alloc, whole.as_slice(), frame.edition, &frame.files, place)?;
    let Some(change) = found else {
        return Ok(None);
    };
    Ok(Some(Led {
        text,
        lines: change.line,
    }))
}
