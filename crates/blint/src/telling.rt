//! Telling what was found, in the order of the tokens.
ghost use Rattle.std.specs.Prelude.{◌≡◌, IfOk};
ghost use Rattle.bsources.specs.Files.{beyond_first, files_shown};
ghost use Rattle.blint.specs.Told.{AreRising, TellsOne, TellsOthers, due, with_caution};
ghost use Rattle.blint.specs.Warns.{IsDue, TellsOf, is_of_rules};

use crate::cautions::Caution;
use crate::matched::{by_token, notice_at, warning_of};
use crate::tokens::Tokens;
use crate::warnings::{Slip, Warning};
use bmatch::{Notice, TokenPlace};
use bsources::SourceFiles;
use bword::Name;
use std::alloc::{AllocError, Global};

/// The most that is said of a program, which is as much as a person reads.
pub(crate) const MOST_CAUTIONS: usize = 100;

/// Tells of the tokens of the first file what the rules say, and what else was found.
pub(crate) fn told(
    alloc: Global,
    files: &SourceFiles<'_>,
    tokens: &Tokens<'_>,
    notices: &[Notice],
    others: &[Caution],
) -> Result<Vec<Caution>, AllocError>
    ensures { IfOk result (λ cautions. AreRising tokens.now.places.now
        → TellsOf (IsDue (files_shown files.now) tokens.now.places.now notices.now) cautions.items) }
{
    let firsts = by_token(alloc, tokens.places.len(), notices)?;
    let mut cautions = Vec::new(alloc);
    let mut rest = others;
    for token in 0..tokens.places.len() {
        let place = tokens.places[token];
        let notice = notice_at(firsts.as_slice(), token);
        rest = tell_others(&mut cautions, rest, place.start, notice.is_some())?;
        let warning = due(files, &place, warning_of(&notice));
        tell_due(&mut cautions, tokens, &place, &notice, warning)?;
    }
    tell_others(&mut cautions, rest, usize::MAX, false)?;
    Ok(cautions)
}

// The warning of a token at a place, if that is in the first file.
fn due(files: &SourceFiles<'_>, place: &TokenPlace, warning: Option<Warning>) -> Option<Warning>
    ensures { result ≡ due (beyond_first (files_shown files.now) place.now.line) warning }
{
    match files.beyond_first(place.line) {
        None => warning,
        Some(_) => None,
    }
}

// Tells what else was found up to a place, and answers what comes after it. Where a rule speaks of this place, it says
// nothing again.
fn tell_others<'a>(
    cautions: &mut Vec<Caution>,
    others: &'a [Caution],
    start: usize,
    is_noticed: bool,
) -> Result<&'a [Caution], AllocError>
    ensures { IfOk result (λ rest. TellsOthers start cautions.old.items cautions.new.items) }
{
    for index in 0..others.len() {
        let other = others[index];
        if other.place.start > start {
            return Ok(&others[index..]);
        }
        tell_other(cautions, &other, is_noticed)?;
    }
    Ok(&[])
}

// Tells what a finder gives, which is nothing that rules alone give.
fn tell_other(
    cautions: &mut Vec<Caution>,
    other: &Caution,
    is_noticed: bool,
) -> Result<(), AllocError>
    ensures { IfOk result (λ done. TellsOthers other.now.place.start cautions.old.items cautions.new.items) }
{
    if is_noticed || is_of_rules(other.warning) {
        return Ok(());
    }
    tell(cautions, other)
}

// Tells of a token the warning that its notice gives, if it gives one.
fn tell_due(
    cautions: &mut Vec<Caution>,
    tokens: &Tokens<'_>,
    place: &TokenPlace,
    notice: &Option<Notice>,
    warning: Option<Warning>,
) -> Result<(), AllocError>
    ensures { IfOk result (λ done. TellsOne warning place.now cautions.old.items cautions.new.items) }
{
    let Some(warning) = warning else {
        return Ok(());
    };
    tell(
        cautions,
        &Caution {
            warning,
            name: name_of(tokens, notice),
            place: *place,
            related: related_of(tokens, notice),
        },
    )
}

// The name of which a notice speaks.
fn name_of(tokens: &Tokens<'_>, notice: &Option<Notice>) -> Option<Name> {
    let notice = (*notice)?;
    tokens.name(notice.named.unwrap_or(notice.token))
}

// The second place of a notice.
fn related_of(tokens: &Tokens<'_>, notice: &Option<Notice>) -> Option<TokenPlace> {
    Some(tokens.place((*notice)?.beside?))
}

fn tell(cautions: &mut Vec<Caution>, caution: &Caution) -> Result<(), AllocError>
    ensures { IfOk result (λ done. cautions.new.items ≡ with_caution caution.now cautions.old.items) }
{
    if cautions.len() < MOST_CAUTIONS {
        cautions.push(Caution {
            warning: caution.warning,
            name: caution.name,
            place: caution.place,
            related: caution.related,
        })?;
    }
    Ok(())
}

// Whether rules alone give it, and no finder.
fn is_of_rules(warning: Warning) -> bool
    ensures { result ≡ is_of_rules warning }
{
    !matches!(
        warning,
        Warning::CommentGoesOn
            | Warning::DanglingElse
            | Warning::FormValues
            | Warning::HidesExternal
            | Warning::NearMain
            | Warning::NoMain
            | Warning::OctalNumber
            | Warning::Unset
            | Warning::UnsetVector
            | Warning::Slip(Slip::FormKind | Slip::SetLater)
    )
}
