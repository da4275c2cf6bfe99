//! What is said of a source after the line of the compiler.
ghost use Rattle.std.specs.List.{All};
ghost use Rattle.std.specs.Prelude.{◌≡◌, ◌<◌, ◌∷◌, [], ℕ, IfOk, List, OnOk, map, vec_items};
ghost use Rattle.bsources.specs.Files.{files_shown};
ghost use Rattle.bcheck.specs.Checks.{AreFindings, EachOutcome, Judged, status_told};
ghost use Rattle.bcheck.specs.Findings.{AddsAfter, AddsFurther, AreWarned, AreWhole, IsCompiled, IsMilestone};
ghost use Rattle.bcheck.specs.Findings.{IsReasoned, IsStopOf, TellsFault, found_at};
ghost use Rattle.bcheck.specs.RuleWarnings.{TellsWarnings, caution_at};
ghost use Rattle.bcheck.specs.declared.advice.Matter.TheVariants as matter;
ghost use Rattle.bcheck.specs.declared.verdict.Verdict.TheVariants as verdict;

use crate::advice::Matter;
use crate::compiled::{Compiled, Extent};
use crate::faults;
use crate::finding::{Finding, Place};
use crate::form::Request;
use crate::further::further_faults;
use crate::mending::{Bench, TRIED_BYTES, tried_edits};
use crate::mends::{proposals, tokens_of};
use crate::places::{milestones, place_on};
use crate::spans::{SourceText, Spans, place_of};
use crate::told::{Setting, push_told};
use crate::undefined::undefined_names;
use crate::verdict::{Judgement, Verdict};
use blang::{Diagnostic, LoadFault};
use blint::{Caution, Program, TokenPlace, lint};
use bsources::SourceFiles;
use btools::Text;
use std::alloc::{AllocError, Global};

/// What is said of a source with this verdict.
pub(crate) fn explain(
    alloc: Global,
    source: SourceText<'_>,
    asked: Request<'_>,
    judgement: &Judgement,
) -> Result<Text, AllocError>
    requires judged { Judged source.edition source.text.now judgement.now.verdict }
    requires stop { IsStopOf source.edition source.text.now judgement.now.verdict }
    requires compiled { IsCompiled source.edition source.text.now judgement.now.compiled }
    ensures { IfOk result (λ said. EachOutcome source.entry.edition source.entry.text.now
        (λ o. AreFindings asked.entry.form o (status_told judgement.now.verdict) (files_shown asked.entry.files)
        said)) }
{
    let mut said = Text::new(alloc);
    let findings = findings(alloc, source, &asked.files, judgement)?;
    let milestones = milestones(alloc, source.text)?;
    let setting = Setting {
        source,
        asked,
        milestones: milestones.as_slice(),
        severity: judgement.verdict.severity(),
    };
    let bench = Bench {
        source,
        files: asked.files,
        milestones: milestones.as_slice(),
        judgement,
        findings: findings.as_slice(),
        budget: TRIED_BYTES / findings.len().max(1),
    };
    let tokens = tokens_of(alloc, &bench)?;
    for finding in findings.as_slice() {
        let proposals = proposals(alloc, &bench, &tokens, finding)?;
        let edits = tried_edits(alloc, &bench, proposals.as_slice())?;
        let mends = edits.as_slice();
        push_told(alloc, &mut said, &setting, finding, mends)?;
    }
    push_further(alloc, &mut said, &setting, &judgement.verdict)?;
    Ok(said)
}

// Adds what is said after a fault of the functions that come later.
fn push_further(
    alloc: Global,
    said: &mut Text,
    setting: &Setting<'_>,
    verdict: &Verdict,
) -> Result<(), AllocError>
    requires { All (IsMilestone setting.now.source.text.now) setting.now.milestones.now }
    ensures { OnOk result (AddsFurther setting.now verdict.now said.old said.new) }
{
    match verdict {
        Verdict::Faulty(_, diagnostic) => push_after(alloc, said, setting, diagnostic.line),
        Verdict::Clean => Ok(()),
        Verdict::Unloaded(_) => Ok(()),
    }
}

// Adds what is said of the functions after a line.
fn push_after(
    alloc: Global,
    said: &mut Text,
    setting: &Setting<'_>,
    line: u64,
) -> Result<(), AllocError>
    requires { All (IsMilestone setting.now.source.text.now) setting.now.milestones.now }
    ensures { OnOk result (AddsAfter setting.now line said.old said.new) }
{
    let found = further_faults(alloc, setting, line)?;
    for finding in found.as_slice() {
        push_told(alloc, said, setting, finding, &[])?;
    }
    Ok(())
}

/// What is found in a source with this verdict.
pub(crate) fn findings(
    alloc: Global,
    source: SourceText<'_>,
    files: &SourceFiles<'_>,
    judgement: &Judgement,
) -> Result<Vec<Finding>, AllocError>
    requires judged { Judged source.edition source.text.now judgement.now.verdict }
    requires stop { IsStopOf source.edition source.text.now judgement.now.verdict }
    requires compiled { IsCompiled source.edition source.text.now judgement.now.compiled }
    ensures whole { IfOk result (λ found. AreWhole source.entry.edition source.entry.text.now (vec_items found)) }
    ensures reasons { IfOk result (λ found.
        All (IsReasoned source.entry.edition source.entry.text.now) (vec_items found)) }
    ensures warned { IfOk result (λ found. AreWarned source.entry.edition (files_shown files.now) source.entry.text.now
        (status_told judgement.now.verdict) (vec_items found)) }
{
    let compiled = &judgement.compiled;
    match &judgement.verdict {
        Verdict::Clean => warnings(alloc, source, files, compiled),
        Verdict::Faulty(_, diagnostic) => {
            let Ok(error) = fault_of(alloc, source, compiled, diagnostic) else {
                return Err(AllocError);
            };
            alone(alloc, &error)
        }
        Verdict::Unloaded(fault) => unloaded(alloc, source, compiled, fault),
    }
}

/// One finding.
pub(crate) fn alone(alloc: Global, finding: &Finding) -> Result<Vec<Finding>, AllocError>
    ensures { IfOk result (λ found. vec_items found ≡ finding.now ∷ []) }
{
    let mut findings = Vec::new(alloc);
    findings.push(Finding {
        matter: finding.matter,
        name: finding.name,
        other: finding.other,
        place: finding.place,
        related: finding.related,
    })?;
    Ok(findings)
}

/// What is said of the fault that a source has, on its line.
pub(crate) fn fault_of(
    alloc: Global,
    source: SourceText<'_>,
    compiled: &Compiled,
    diagnostic: &Diagnostic,
) -> Result<Finding, AllocError>
    requires { 0 < diagnostic.now.line }
    ensures { IfOk result (TellsFault source.entry.edition source.entry.text.now diagnostic.now) }
{
    let found = faults::finding(alloc, source, compiled, *diagnostic)?;
    let (text, edition, line) = (source.text, source.edition, diagnostic.line);
    Ok(Finding {
        matter: found.matter,
        name: found.name,
        other: found.other,
        place: place_on(text, edition, &found.place, line),
        related: found.related,
    })
}

// What is said of code that doesn't load.
fn unloaded(
    alloc: Global,
    source: SourceText<'_>,
    compiled: &Compiled,
    fault: &LoadFault,
) -> Result<Vec<Finding>, AllocError>
    requires judged { Judged source.edition source.text.now (verdict.Unloaded fault.now) }
    requires compiled { IsCompiled source.edition source.text.now compiled.now }
    ensures whole { IfOk result (λ found. AreWhole source.entry.edition source.entry.text.now (vec_items found)) }
    ensures reasons { IfOk result (λ found.
        All (IsReasoned source.entry.edition source.entry.text.now) (vec_items found)) }
{
    if let LoadFault::Undefined(_) = fault {
        return undefined_names(alloc, source, compiled);
    }
    let first = Extent { first: 0, end: 1 };
    let place = place_of(&Spans::between(alloc, source, first)?, 0);
    let finding = Finding::new(Matter::DataTooLarge, place);
    alone(alloc, &finding)
}

// What compiles and is probably a mistake.
fn warnings(
    alloc: Global,
    source: SourceText<'_>,
    files: &SourceFiles<'_>,
    compiled: &Compiled,
) -> Result<Vec<Finding>, AllocError>
    ensures { IfOk result (λ found. TellsWarnings source.entry.edition (files_shown files.now) source.entry.text.now
        (map (found_at source.entry.text.now) (vec_items found))) }
{
    let program = Program {
        text: source.text,
        edition: source.edition,
        files: *files,
        definitions: compiled.definitions(),
    };
    let cautions = lint(alloc, &program)?;
    warned_of(alloc, cautions.as_slice())
}

// The findings of cautions.
fn warned_of(alloc: Global, cautions: &[Caution]) -> Result<Vec<Finding>, AllocError>
    ensures { IfOk result (λ found. (source : List ℕ) → map (found_at source) (vec_items found)
        ≡ map (caution_at source) cautions.now) }
{
    let mut findings = Vec::new(alloc);
    for caution in cautions {
        findings.push(warning(caution))?;
    }
    Ok(findings)
}

fn warning(caution: &Caution) -> Finding
    ensures place { result.place.start ≡ caution.now.place.start }
    ensures matter { result.matter ≡ matter.Warning caution.now.warning }
{
    Finding {
        matter: Matter::Warning(caution.warning),
        name: caution.name,
        other: None,
        place: at(caution.place),
        related: caution.related.map(at),
    }
}

fn at(place: TokenPlace) -> Place
    ensures { result.start ≡ place.start }
{
    Place {
        line: place.line,
        start: place.start,
        len: place.len,
    }
}
