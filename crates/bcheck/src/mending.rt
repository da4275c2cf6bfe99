//! Edits that mend what was found. Each is tried on the source before it is told.
ghost use Rattle.std.specs.List.{All};
ghost use Rattle.std.specs.Prelude.{ℕ, List, ◌≡◌, ◌<◌, ◌≤◌, ◌++◌, IfOk, IfSome, IsTrue, OnOk};
ghost use Rattle.std.specs.Prelude.{drop, length, nat_lt, take, vec_items};
ghost use Rattle.bword.specs.declared.edition.Edition.{Edition};
ghost use Rattle.bsources.specs.Files.{Files, files_shown};
ghost use Rattle.bcheck.specs.Checks.{Judged};
ghost use Rattle.bcheck.specs.Findings.{Improves, IsCompiled, IsMilestone, IsStopOf, IsTried, Surpasses, is_better};
ghost use Rattle.bcheck.specs.UndefinedNames.{told_subjects};

use crate::advice::Matter;
use crate::edit::{Edit, Proposal, edit_of};
use crate::explain::findings;
use crate::farther::{fault_end, goes_farther};
use crate::finding::{Finding, MOST_FINDINGS};
use crate::mention::{Mention, undefined_mentions};
use crate::places::{Milestone, parts};
use crate::spans::SourceText;
use crate::verdict::{Judgement, Verdict, judge};
use blang::Definition;
use blint::Warning;
use bsources::SourceFiles;
use btools::Text;
use bword::Name;
use std::alloc::{AllocError, Global};

/// The most edits that are told of a finding.
const MOST_EDITS: usize = 3;

/// How many bytes of sources with edits are compiled in one check, at most.
pub(crate) const TRIED_BYTES: usize = 2097152;

/// A source on which edits are tried, and what is known of it.
#[derive(Clone, Copy)]
pub(crate) struct Bench<'a> {
    pub source: SourceText<'a>,
    pub files: SourceFiles<'a>,
    pub milestones: &'a [Milestone],
    pub judgement: &'a Judgement,
    pub findings: &'a [Finding],
    /// How many bytes of sources with edits are compiled for a finding, at most.
    pub budget: usize,
}

impl Bench<'_> {
    /// How many edits are tried for each finding.
    pub(crate) fn tries(&self) -> usize {
        self.budget / self.source.text.len().max(1)
    }
}

/// Those of the proposals that mend what was found, the first ones of as many as are tried.
pub(crate) fn tried_edits<'a>(
    alloc: Global,
    bench: &Bench<'a>,
    proposals: &'a [Proposal],
) -> Result<Vec<Edit<'a>>, AllocError>
    requires milestones { All (IsMilestone bench.now.source.text.now) bench.now.milestones.now }
    requires judged { Judged bench.now.source.edition bench.now.source.text.now bench.now.judgement.now.verdict }
    requires stop { IsStopOf bench.now.source.edition bench.now.source.text.now bench.now.judgement.now.verdict }
    requires compiled { IsCompiled bench.now.source.edition bench.now.source.text.now bench.now.judgement.now.compiled }
    ensures tried { IfOk result (λ edits. All (IsTried bench.now.source.edition (files_shown bench.now.files)
        bench.now.source.text.now) (vec_items edits)) }
    ensures few { IfOk result (λ edits. length (vec_items edits) ≤ 3) }
{
    let most = bench.tries();
    let mut edits = Vec::new(alloc);
    for index in 0..proposals.len() {
        if index >= most || edits.len() >= MOST_EDITS {
            break;
        }
        let found = tried(alloc, bench, &proposals[index])?;
        push_found(&mut edits, found)?;
    }
    Ok(edits)
}

/// The edit that one of the proposals is, where that one alone mends what was found, and none is for a person to
/// choose. Each has to be tried for that.
pub(crate) fn only_edit<'a>(
    alloc: Global,
    bench: &Bench<'a>,
    proposals: &'a [Proposal],
) -> Result<Option<Edit<'a>>, AllocError>
    requires milestones { All (IsMilestone bench.now.source.text.now) bench.now.milestones.now }
    requires judged { Judged bench.now.source.edition bench.now.source.text.now bench.now.judgement.now.verdict }
    requires stop { IsStopOf bench.now.source.edition bench.now.source.text.now bench.now.judgement.now.verdict }
    requires compiled { IsCompiled bench.now.source.edition bench.now.source.text.now bench.now.judgement.now.compiled }
    ensures { IfOk result (λ edit. IfSome edit (IsTried bench.now.source.edition (files_shown bench.now.files)
        bench.now.source.text.now)) }
{
    let mut only = None;
    if proposals.len() > bench.tries() || has_choice(proposals) {
        return Ok(None);
    }
    for index in 0..proposals.len() {
        let found = tried(alloc, bench, &proposals[index])?;
        if only.is_some() && found.is_some() {
            return Ok(None);
        }
        only = either(only, found);
    }
    Ok(only)
}

fn has_choice(proposals: &[Proposal]) -> bool {
    proposals.iter().any(|proposal| proposal.is_choice)
}

// The first edit, or the other one where there is none.
fn either<'a>(first: Option<Edit<'a>>, other: Option<Edit<'a>>) -> Option<Edit<'a>>
    ensures { (edition : Edition) (files : Files) (source : List ℕ)
        → IfSome first.entry (IsTried edition files source) → IfSome other.entry (IsTried edition files source)
        → IfSome result (IsTried edition files source) }
{
    match first {
        Some(edit) => Some(edit),
        None => other,
    }
}

// Adds an edit, if there is one and not too many are there.
fn push_found<'a>(edits: &mut Vec<Edit<'a>>, found: Option<Edit<'a>>) -> Result<(), AllocError>
    ensures tried { (edition : Edition) (files : Files) (source : List ℕ)
        → All (IsTried edition files source) (vec_items edits.old) → IfSome found.entry (IsTried edition files source)
        → OnOk result (All (IsTried edition files source) (vec_items edits.new)) }
    ensures few { length (vec_items edits.old) ≤ 3 → OnOk result (length (vec_items edits.new) ≤ 3) }
{
    let Some(edit) = found else {
        return Ok(());
    };
    if edits.len() >= MOST_EDITS {
        return Ok(());
    }
    edits.push(edit)?;
    Ok(())
}

// The edit that a proposal is, if it mends what was found.
fn tried<'a>(
    alloc: Global,
    bench: &Bench<'a>,
    proposal: &'a Proposal,
) -> Result<Option<Edit<'a>>, AllocError>
    requires milestones { All (IsMilestone bench.now.source.text.now) bench.now.milestones.now }
    requires judged { Judged bench.now.source.edition bench.now.source.text.now bench.now.judgement.now.verdict }
    requires stop { IsStopOf bench.now.source.edition bench.now.source.text.now bench.now.judgement.now.verdict }
    requires compiled { IsCompiled bench.now.source.edition bench.now.source.text.now bench.now.judgement.now.compiled }
    ensures { IfOk result (λ edit. IfSome edit (IsTried bench.now.source.edition (files_shown bench.now.files)
        bench.now.source.text.now)) }
{
    let source = bench.source.text;
    let Some(edit) = edit_of(source, &bench.files, bench.milestones, proposal) else {
        return Ok(None);
    };
    let new = mended(alloc, source, proposal)?;
    let spot = Spot {
        line: edit.at.line,
        end: proposal.start.saturating_add(proposal.len),
        is_guess: proposal.is_guess,
        is_sure: proposal.is_sure,
        name: proposal.name,
    };
    if improves(alloc, bench, new.as_slice(), spot)? {
        Ok(Some(edit))
    } else {
        Ok(None)
    }
}

// A source with an edit.
fn mended(alloc: Global, source: &[u8], proposal: &Proposal) -> Result<Text, AllocError>
    ensures { IfOk result (λ new. new ≡ take proposal.now.start source.now
        ++ (proposal.now.text ++ drop proposal.now.len (drop proposal.now.start source.now))) }
{
    let (before, rest) = parts(source, proposal.start);
    let (_, after) = parts(rest, proposal.len);
    let mut new = Text::new(alloc);
    new.push(before)?;
    new.push(proposal.text.as_slice())?;
    new.push(after)?;
    Ok(new)
}

/// The line of an edit, where what it takes out ends, whether it mends nothing if something else there is wrong,
/// whether it does so whatever else is, and the name that was found fault with.
#[derive(Clone, Copy)]
struct Spot {
    line: u64,
    end: usize,
    is_guess: bool,
    is_sure: bool,
    name: Option<Name>,
}

// Whether what was found is gone in a text that an edit made, and nothing new is found, or that doesn't matter.
fn improves(alloc: Global, bench: &Bench<'_>, new: &[u8], spot: Spot) -> Result<bool, AllocError>
    requires judged { Judged bench.now.source.edition bench.now.source.text.now bench.now.judgement.now.verdict }
    requires stop { IsStopOf bench.now.source.edition bench.now.source.text.now bench.now.judgement.now.verdict }
    requires compiled { IsCompiled bench.now.source.edition bench.now.source.text.now bench.now.judgement.now.compiled }
    ensures { IfOk result (λ is. IsTrue is → Improves bench.now.source.edition bench.now.source.text.now new.now) }
{
    let source = SourceText {
        text: new,
        edition: bench.source.edition,
    };
    let judgement = judge(alloc, source)?;
    if !surpasses(alloc, &judgement, bench.judgement)? {
        return comes_farther(alloc, bench, new, spot);
    }
    if spot.is_sure {
        return Ok(true);
    }
    is_quiet(alloc, bench, source, &judgement, spot)
}

// Whether the first fault of a text that an edit made comes later than before, though on the same line.
fn comes_farther(
    alloc: Global,
    bench: &Bench<'_>,
    new: &[u8],
    spot: Spot,
) -> Result<bool, AllocError>
    requires judged { Judged bench.now.source.edition bench.now.source.text.now bench.now.judgement.now.verdict }
    ensures { IfOk result (λ is. IsTrue is → Improves bench.now.source.edition bench.now.source.text.now new.now) }
{
    if spot.is_guess {
        return Ok(false);
    }
    match &bench.judgement.verdict {
        Verdict::Faulty(_, _) => {
            let end = fault_end(bench.source, bench.judgement, bench.findings);
            goes_farther(alloc, bench.source, new, spot.end.max(end))
        }
        Verdict::Clean => Ok(false),
        Verdict::Unloaded(_) => Ok(false),
    }
}

// Whether what was judged is better than what was judged before.
fn surpasses(alloc: Global, new: &Judgement, old: &Judgement) -> Result<bool, AllocError>
    ensures { IfOk result (λ is. IsTrue is → Surpasses new.now old.now) }
{
    if !is_better(&new.verdict, &old.verdict) {
        return Ok(false);
    }
    match (&new.verdict, &old.verdict) {
        (Verdict::Unloaded(_), Verdict::Unloaded(_)) => {
            has_fewer_names(
                alloc,
                new.compiled.definitions(),
                old.compiled.definitions(),
            )
        }
        _ => Ok(true),
    }
}

// Whether fewer names are told that nothing defines.
fn has_fewer_names(
    alloc: Global,
    new: &[Definition],
    old: &[Definition],
) -> Result<bool, AllocError>
    ensures { IfOk result (λ is. IsTrue is → length (told_subjects new.now) < length (told_subjects old.now)) }
{
    let found = undefined_mentions(alloc, new)?;
    let before = undefined_mentions(alloc, old)?;
    Ok(are_less(found.as_slice(), before.as_slice()))
}

fn are_less(new: &[Mention], old: &[Mention]) -> bool
    ensures { result ≡ nat_lt (length new.now) (length old.now) }
{
    new.len() < old.len()
}

// Whether a verdict is better than an old one.
fn is_better(new: &Verdict, old: &Verdict) -> bool
    ensures { result ≡ is_better new.now old.now }
{
    match (new, old) {
        (Verdict::Faulty(_, after), Verdict::Faulty(_, before)) => before.line < after.line,
        (Verdict::Faulty(_, _), _) => false,
        (Verdict::Clean, _) => true,
        (Verdict::Unloaded(_), Verdict::Clean) => false,
        (Verdict::Unloaded(_), _) => true,
    }
}

// Whether nothing is found in a text with an edit that wasn't found before, and less than before.
fn is_quiet(
    alloc: Global,
    bench: &Bench<'_>,
    source: SourceText<'_>,
    judgement: &Judgement,
    spot: Spot,
) -> Result<bool, AllocError>
    requires judged { Judged source.edition source.text.now judgement.now.verdict }
    requires stop { IsStopOf source.edition source.text.now judgement.now.verdict }
    requires compiled { IsCompiled source.edition source.text.now judgement.now.compiled }
{
    if let Verdict::Faulty(_, _) = judgement.verdict {
        return Ok(true);
    }
    let found = findings(alloc, source, &bench.files, judgement)?;
    let new = found.as_slice();
    Ok(match (&judgement.verdict, &bench.judgement.verdict) {
        (Verdict::Clean, Verdict::Clean) => are_fewer(new, bench.findings),
        (Verdict::Clean, _) => none_at(new, spot, bench.findings.first()),
        _ => true,
    })
}

// Whether findings are some of others, but not all of them. Where no more are told, another one may come last. That a
// loop doesn't see the end of the input comes of no edit: it shows where a condition is right otherwise.
fn are_fewer(new: &[Finding], old: &[Finding]) -> bool {
    let mut place = 0;
    for finding in old {
        let next = after_endless(new, place);
        if let Some(same) = new.get(next) {
            if is_same(same, finding) {
                place = next.saturating_add(1);
            }
        }
    }
    let (before, after) = (old.len(), new.len());
    let (endless, left) = (endless_in(old), endless_in(new));
    let spare: usize = if before < MOST_FINDINGS { 0 } else { 1 };
    let is_whole = after_endless(new, place).saturating_add(spare) >= after;
    let (others, kept) = (before.saturating_sub(endless), after.saturating_sub(left));
    is_whole && (kept < others || left < endless)
}

// How many findings are that a loop doesn't see the end of the input.
fn endless_in(findings: &[Finding]) -> usize {
    findings
        .iter()
        .filter(|finding| is_endless(finding))
        .count()
}

// The next place of findings from one on that isn't such a one.
fn after_endless(findings: &[Finding], from: usize) -> usize {
    for place in from..findings.len() {
        match findings.get(place) {
            Some(finding) if is_endless(finding) => {}
            _ => return place,
        }
    }
    findings.len()
}

fn is_endless(finding: &Finding) -> bool {
    matches!(finding.matter, Matter::Warning(Warning::InputEndless))
}

// Whether two findings say the same of the same name.
fn is_same(one: &Finding, other: &Finding) -> bool {
    one.name == other.name && one.matter.advice().1 == other.matter.advice().1
}

// Whether no finding stands on the line of an edit, or speaks of its name. What comes of no edit doesn't count, nor
// does a name alone as a statement on another line than what was found.
fn none_at(findings: &[Finding], spot: Spot, found: Option<&Finding>) -> bool {
    for finding in findings {
        let is_named = finding.name.is_some() && finding.name == spot.name;
        let is_on = finding.place.line == spot.line;
        let is_own = match found {
            Some(found) => found.place.line == finding.place.line,
            None => false,
        };
        let is_here = match finding.matter {
            Matter::Warning(Warning::NameAlone) => is_on || is_named && is_own,
            Matter::Warning(warning) if comes_of_no_edit(warning) => false,
            _ => is_on || is_named,
        };
        if is_here {
            return false;
        }
    }
    true
}

// Whether no edit of a fault makes this a mistake: a number, a sum or a loop was one before.
fn comes_of_no_edit(warning: Warning) -> bool {
    matches!(
        warning,
        Warning::EndlessLoop
            | Warning::InputEndless
            | Warning::OctalNumber
            | Warning::LargeNumber
            | Warning::DividesFirst
            | Warning::ZeroQuotient
            | Warning::StringAdded
            | Warning::FormValues
            | Warning::DigitForCharacter
            | Warning::LoopPastVector
            | Warning::CountPastVector
            | Warning::CountsAway
            | Warning::InnerOnce
            | Warning::BeginsAnew
            | Warning::Slip(_)
    )
}
