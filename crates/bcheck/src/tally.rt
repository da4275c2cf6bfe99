//! How many things a check tells of a source.
ghost use Rattle.std.specs.Prelude.{◌≢◌, IfOk};
ghost use Rattle.blang.specs.declared.status.TheConstants.{FAULT};
ghost use Rattle.bsources.specs.Files.{files_shown};
ghost use Rattle.bcheck.specs.Checks.{EachOutcome, Judged, status_told};
ghost use Rattle.bcheck.specs.Counts.{IsCountFrom, IsTally};
ghost use Rattle.bcheck.specs.Findings.{IsCompiled, IsStopOf};

use crate::explain::findings;
use crate::finding::Severity;
use crate::form::{FindingForm, Request};
use crate::further::further_faults;
use crate::places::milestones;
use crate::spans::SourceText;
use crate::told::Setting;
use crate::verdict::{Judgement, Verdict, judge};
use bsources::SourceFiles;
use bword::Edition;
use std::alloc::{AllocError, Global};

/// What the compiler and the loader say of a source, and how many faults or warnings a check of it tells.
#[derive(Drop)]
pub struct Tally {
    pub verdict: Verdict,
    pub count: usize,
}

/// What is said of a source of these files, in short.
pub fn tally_on(
    alloc: Global,
    source: &[u8],
    edition: Edition,
    files: &SourceFiles<'_>,
) -> Result<Tally, AllocError>
    ensures verdict { IfOk result (λ tally. Judged edition source.now tally.verdict) }
    ensures count { IfOk result (λ tally. EachOutcome edition source.now
        (λ o. IsTally o (files_shown files.now) tally.count)) }
{
    let text = SourceText {
        text: source,
        edition,
    };
    let judgement = judge(alloc, text)?;
    let count = count_of(alloc, text, files, &judgement)?;
    Ok(Tally {
        verdict: judgement.verdict,
        count,
    })
}

// How many things are told of a source with this verdict.
fn count_of(
    alloc: Global,
    source: SourceText<'_>,
    files: &SourceFiles<'_>,
    judgement: &Judgement,
) -> Result<usize, AllocError>
    requires judged { Judged source.edition source.text.now judgement.now.verdict }
    requires stop { IsStopOf source.edition source.text.now judgement.now.verdict }
    requires compiled { IsCompiled source.edition source.text.now judgement.now.compiled }
    ensures { IfOk result (λ count. EachOutcome source.entry.edition source.entry.text.now
        (λ o. IsTally o (files_shown files.now) count)) }
{
    match &judgement.verdict {
        Verdict::Faulty(_, diagnostic) => faults(alloc, source, files, diagnostic.line),
        Verdict::Clean => found(alloc, source, files, judgement),
        Verdict::Unloaded(_) => found(alloc, source, files, judgement),
    }
}

// How many things are found in a source that compiles.
fn found(
    alloc: Global,
    source: SourceText<'_>,
    files: &SourceFiles<'_>,
    judgement: &Judgement,
) -> Result<usize, AllocError>
    requires judged { Judged source.edition source.text.now judgement.now.verdict }
    requires stop { IsStopOf source.edition source.text.now judgement.now.verdict }
    requires compiled { IsCompiled source.edition source.text.now judgement.now.compiled }
    ensures { IfOk result (λ count. status_told judgement.now.verdict ≢ FAULT
        → EachOutcome source.entry.edition source.entry.text.now (λ o. IsTally o (files_shown files.now) count)) }
{
    let findings = findings(alloc, source, files, judgement)?;
    Ok(findings.len())
}

// How many faults are told of a source whose first one is on this line.
fn faults(
    alloc: Global,
    source: SourceText<'_>,
    files: &SourceFiles<'_>,
    line: u64,
) -> Result<usize, AllocError>
    ensures { IfOk result (IsCountFrom source.entry.edition line source.entry.text.now) }
{
    let milestones = milestones(alloc, source.text)?;
    let asked = Request {
        edition: source.edition,
        files: *files,
        form: FindingForm::Text,
    };
    let setting = Setting {
        source,
        asked,
        milestones: milestones.as_slice(),
        severity: Severity::Error,
    };
    let further = further_faults(alloc, &setting, line)?;
    Ok(further.len() + 1)
}
