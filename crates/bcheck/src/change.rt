//! The next edit of a source that mends it and needs no choice.
ghost use Rattle.std.specs.List.{All};
ghost use Rattle.std.specs.Prelude.{◌≡◌, IfOk, IfSome};
ghost use Rattle.bsources.specs.Files.{files_shown};
ghost use Rattle.bcheck.specs.Checks.{Judged};
ghost use Rattle.bcheck.specs.Findings.{IsChange, IsChanged, IsCompiled, IsMilestone, IsStopOf};
ghost use Rattle.bcheck.specs.Right.{IsRight};
ghost use Rattle.bcheck.specs.Spares.{IsSpared, spares_at};

use crate::advice::Matter;
use crate::bytes::Constant;
use crate::edit::{Edit, Proposal};
use crate::explain::findings;
use crate::finding::Finding;
use crate::kinds::Like;
use crate::mending::{Bench, TRIED_BYTES, only_edit};
use crate::mends::{proposals, token_at, tokens_of};
use crate::pieces::push_change;
use crate::places::{milestones, parts};
use crate::right::is_of_rules;
use crate::semicolon_mends::{is_of_assignment, semicolons};
use crate::spans::{SourceText, Spans, lexeme_at, name_at};
use crate::spares::spares;
use crate::verdict::judge;
use blang::status;
use blex::Lexeme;
use blint::Warning;
use bsources::SourceFiles;
use btools::Text;
use bword::Edition;
use std::alloc::{AllocError, Global};

/// How many bytes of sources are looked at for one change, at most: the source once for each finding.
const LOOKED_BYTES: usize = 8388608;

/// An edit of a source: the bytes that it takes out, and the text for them.
#[derive(Drop)]
pub struct Change {
    /// The place of the first byte that it takes out, from 0, and how many it takes out.
    pub start: usize,
    pub len: usize,
    pub text: Text,
    /// The line that tells of it.
    pub line: Text,
}

/// The next edit of a source of these files that mends it and needs no choice, within so many of its first bytes, if
/// there is one.
///
/// What is found has just one edit that mends it, of all that may do so; but a `;` that is all that lacks is put in any
/// case. A warning is mended where what the code says can't be meant.
pub fn next_change(
    alloc: Global,
    source: &[u8],
    edition: Edition,
    files: &SourceFiles<'_>,
    within: usize,
) -> Result<Option<Change>, AllocError>
    ensures change { IfOk result (λ found. IfSome found (IsChange edition (files_shown files.now) source.now)) }
    ensures spared { IfOk result (λ found. IfSome found (IsSpared edition source.now)) }
    ensures wrong { IfOk result (λ found. IfSome found (λ c. IsRight edition (files_shown files.now) source.now → ⊥)) }
{
    let text = SourceText {
        text: source,
        edition,
    };
    let judgement = judge(alloc, text)?;
    let findings = findings(alloc, text, files, &judgement)?;
    let milestones = milestones(alloc, source)?;
    let bench = Bench {
        source: text,
        files: *files,
        milestones: milestones.as_slice(),
        judgement: &judgement,
        findings: findings.as_slice(),
        budget: TRIED_BYTES,
    };
    let tokens = tokens_of(alloc, &bench)?;
    let is_clean = judgement.verdict.status() == status::DONE;
    let mut left = LOOKED_BYTES;
    for finding in findings.as_slice() {
        if left == 0 || !is_certain(&tokens, finding) || is_clean && !is_of_rules(finding) {
            continue;
        }
        let change = change_for(alloc, &bench, &tokens, finding, within)?;
        if change.is_some() {
            return Ok(change);
        }
        left = left.saturating_sub(source.len());
    }
    Ok(None)
}

// The change that mends what was found, within so many bytes: the one edit that does, or a `;` that is all that lacks.
fn change_for(
    alloc: Global,
    bench: &Bench<'_>,
    tokens: &Spans,
    finding: &Finding,
    within: usize,
) -> Result<Option<Change>, AllocError>
    requires milestones { All (IsMilestone bench.now.source.text.now) bench.now.milestones.now }
    requires judged { Judged bench.now.source.edition bench.now.source.text.now bench.now.judgement.now.verdict }
    requires stop { IsStopOf bench.now.source.edition bench.now.source.text.now bench.now.judgement.now.verdict }
    requires compiled { IsCompiled bench.now.source.edition bench.now.source.text.now bench.now.judgement.now.compiled }
    ensures change { IfOk result (λ found. IfSome found (IsChange bench.now.source.edition (files_shown bench.now.files)
        bench.now.source.text.now)) }
    ensures spared { IfOk result (λ found. IfSome found (IsSpared bench.now.source.edition bench.now.source.text.now)) }
{
    let semicolons = semicolons(alloc, bench, tokens, finding)?;
    if is_of_assignment(finding) {
        let change = first_change(alloc, bench, semicolons.as_slice(), within)?;
        if change.is_some() {
            return Ok(change);
        }
    }
    let proposals = proposals(alloc, bench, tokens, finding)?;
    let change = only_change(alloc, bench, proposals.as_slice(), within)?;
    if change.is_some() {
        return Ok(change);
    }
    first_change(alloc, bench, semicolons.as_slice(), within)
}

// The change that the first of these proposals is which mends what was found, within so many bytes.
fn first_change(
    alloc: Global,
    bench: &Bench<'_>,
    proposals: &[Proposal],
    within: usize,
) -> Result<Option<Change>, AllocError>
    requires milestones { All (IsMilestone bench.now.source.text.now) bench.now.milestones.now }
    requires judged { Judged bench.now.source.edition bench.now.source.text.now bench.now.judgement.now.verdict }
    requires stop { IsStopOf bench.now.source.edition bench.now.source.text.now bench.now.judgement.now.verdict }
    requires compiled { IsCompiled bench.now.source.edition bench.now.source.text.now bench.now.judgement.now.compiled }
    ensures change { IfOk result (λ found. IfSome found (IsChange bench.now.source.edition (files_shown bench.now.files)
        bench.now.source.text.now)) }
    ensures spared { IfOk result (λ found. IfSome found (IsSpared bench.now.source.edition bench.now.source.text.now)) }
{
    for index in 0..proposals.len() {
        let change = only_change(alloc, bench, &proposals[index..index + 1], within)?;
        if change.is_some() {
            return Ok(change);
        }
    }
    Ok(None)
}

// Whether what is found is a fault, or can't be meant: what a call gives or a constant is assigned.
fn is_certain(tokens: &Spans, finding: &Finding) -> bool {
    let token = token_at(tokens, finding.place.start);
    let (next, second) = (token.wrapping_add(1), token.wrapping_add(2));
    match finding.matter {
        Matter::Warning(Warning::ComparesAlone | Warning::InputEnd | Warning::NameAlone) => true,
        Matter::Warning(Warning::AssignsComparison) => {
            name_at(tokens, next).is_some() && lexeme_at(tokens, second) == Lexeme::OpenParen
        }
        Matter::Warning(Warning::ConditionAssigns) => {
            lexeme_at(tokens, token) == Lexeme::Assign(None)
                && Like::Constant.fits(&lexeme_at(tokens, next))
        }
        Matter::Warning(_) | Matter::Constant(Constant::Escape | Constant::Characters) => false,
        _ => true,
    }
}

// The change that one of the proposals is, where that one alone mends what was found, within so many bytes.
fn only_change(
    alloc: Global,
    bench: &Bench<'_>,
    proposals: &[Proposal],
    within: usize,
) -> Result<Option<Change>, AllocError>
    requires milestones { All (IsMilestone bench.now.source.text.now) bench.now.milestones.now }
    requires judged { Judged bench.now.source.edition bench.now.source.text.now bench.now.judgement.now.verdict }
    requires stop { IsStopOf bench.now.source.edition bench.now.source.text.now bench.now.judgement.now.verdict }
    requires compiled { IsCompiled bench.now.source.edition bench.now.source.text.now bench.now.judgement.now.compiled }
    ensures change { IfOk result (λ found. IfSome found (IsChange bench.now.source.edition (files_shown bench.now.files)
        bench.now.source.text.now)) }
    ensures spared { IfOk result (λ found. IfSome found (IsSpared bench.now.source.edition bench.now.source.text.now)) }
{
    let found = only_edit(alloc, bench, proposals)?;
    let Some(edit) = found else {
        return Ok(None);
    };
    if edit.start.saturating_add(edit.len) > within {
        return Ok(None);
    }
    let spared = is_spared(alloc, bench.source, &edit)?;
    if spared {
        let change = change_of(alloc, &edit)?;
        Ok(Some(change))
    } else {
        Ok(None)
    }
}

/// Whether an edit of a source needs no choice.
pub(crate) fn is_spared(
    alloc: Global,
    source: SourceText<'_>,
    edit: &Edit<'_>,
) -> Result<bool, AllocError>
    ensures { IfOk result (λ is. is ≡ spares_at source.entry.edition source.entry.text.now edit.now.start edit.now.len
        edit.now.text.now) }
{
    let (before, rest) = parts(source.text, edit.start);
    let (taken, after) = parts(rest, edit.len);
    let mut new = Text::new(alloc);
    new.push(before)?;
    new.push(edit.text)?;
    new.push(after)?;
    spares(alloc, source.edition, source.text, new.as_slice(), taken)
}

/// The change that an edit is.
pub(crate) fn change_of(alloc: Global, edit: &Edit<'_>) -> Result<Change, AllocError>
    ensures { IfOk result (IsChanged edit.now) }
{
    let mut text = Text::new(alloc);
    text.push(edit.text)?;
    let mut line = Text::new(alloc);
    push_change(&mut line, edit)?;
    Ok(Change {
        start: edit.start,
        len: edit.len,
        text,
        line,
    })
}
