//! One finding told, in the form that is asked for.
ghost use Rattle.std.specs.List.{All};
ghost use Rattle.std.specs.Prelude.{◌≤◌, OnOk, length};
ghost use Rattle.bsources.specs.Files.{files_shown};
ghost use Rattle.bcheck.specs.Findings.{IsMilestone, IsTried, TellsFinding};

use crate::edit::Edit;
use crate::excerpt::excerpt_at;
use crate::finding::{Finding, Severity, Told};
use crate::form::{FindingForm, Request};
use crate::places::{Milestone, spot_of};
use crate::spans::SourceText;
use crate::words::Words;
use crate::{json, text};
use btools::Text;
use std::alloc::{AllocError, Global};

/// What is the same for all findings of a source.
#[derive(Clone, Copy)]
pub(crate) struct Setting<'a> {
    pub source: SourceText<'a>,
    pub asked: Request<'a>,
    pub milestones: &'a [Milestone],
    pub severity: Severity,
}

/// Adds a finding, with the edits that mend it.
pub(crate) fn push_told(
    alloc: Global,
    said: &mut Text,
    setting: &Setting<'_>,
    finding: &Finding,
    edits: &[Edit<'_>],
) -> Result<(), AllocError>
    requires milestones { All (IsMilestone setting.now.source.text.now) setting.now.milestones.now }
    requires tried { All (IsTried setting.now.source.edition (files_shown setting.now.asked.files)
        setting.now.source.text.now) edits.now }
    requires few { length edits.now ≤ 3 }
    ensures { OnOk result (TellsFinding setting.now.asked.form setting.now.severity setting.now.source.edition
        (files_shown setting.now.asked.files) setting.now.source.text.now finding.now said.old said.new) }
{
    let source = setting.source.text;
    let asked = &setting.asked;
    let excerpt = excerpt_at(source, setting.milestones, &finding.place);
    let at = asked.files.own_line(excerpt.line);
    let second = spot_of(source, &asked.files, setting.milestones, &finding.related);
    let words = Words::new(alloc, source, finding, at.file, &second)?;
    let told = Told {
        at,
        excerpt,
        second,
        severity: setting.severity,
        words: &words,
        edits,
    };
    match asked.form {
        FindingForm::Text => text::write(said, &told),
        FindingForm::Json => json::write(said, &told),
    }
}
