//! Findings for editors: an object a line.
ghost use Rattle.std.specs.List.{All, list_all};
ghost use Rattle.std.specs.Prelude.{ℕ, ◌≡◌, ◌≤◌, ◌∷◌, List, [], IsTrue, OnOk, length};
ghost use Rattle.bcheck.specs.Checks.{is_on_line};
ghost use Rattle.bword.specs.declared.edition.Edition.{Edition};
ghost use Rattle.bcheck.specs.Findings.{AddsFinding, IsExcerpt, IsSecond, IsTried};
ghost use Rattle.bsources.specs.Files.{Files, line_shown, own_line};
ghost use Rattle.bcheck.specs.declared.form.FindingForm.TheVariants as form;

use crate::finding::Told;
use crate::pieces::{Fragment, push_all, push_edits, push_second};
use btools::Text;
use std::alloc::AllocError;

/// Adds a finding.
pub(crate) fn write(text: &mut Text, told: &Told<'_>) -> Result<(), AllocError>
    requires { IsTrue (list_all is_on_line
        (told.now.words.now.code.now ∷ told.now.words.now.sentence ∷ told.now.words.now.fix ∷ [])) }
    ensures { (edition : Edition) (files : Files) (source : List ℕ) (start : ℕ)
        → IsExcerpt source start told.now.excerpt → line_shown told.now.at ≡ own_line files told.now.excerpt.line
        → IsSecond files source told.now.second → All (IsTried edition files source) told.now.edits.now
        → length told.now.edits.now ≤ 3
        → OnOk result (AddsFinding form.Json told.now.severity edition files source start
        told.now.words.now.code.now told.now.words.now.sentence text.old text.new) }
{
    let excerpt = &told.excerpt;
    push_all(
        text,
        &[
            Fragment::Words(b"{\"file\":"),
            Fragment::Quoted(told.at.file.as_bytes()),
            Fragment::Words(b",\"line\":"),
            Fragment::Number(told.at.line),
            Fragment::Words(b",\"column\":"),
            Fragment::Number(excerpt.column as u64),
            Fragment::Words(b",\"severity\":\""),
            Fragment::Words(told.severity.word()),
            Fragment::Words(b"\",\"code\":"),
            Fragment::Quoted(told.words.code.as_bytes()),
            Fragment::Words(b",\"message\":"),
            Fragment::Quoted(told.words.sentence.as_slice()),
            Fragment::Words(b",\"fix\":"),
            Fragment::Quoted(told.words.fix.as_slice()),
            Fragment::Words(b",\"end\":"),
            Fragment::Number(excerpt.mark_end()),
            Fragment::Words(b",\"utf16_column\":"),
            Fragment::Number(excerpt.unit as u64),
            Fragment::Words(b",\"utf16_end\":"),
            Fragment::Number(excerpt.unit_end as u64),
        ],
    )?;
    push_second(text, told.second)?;
    push_edits(text, told.edits)?;
    text.push(b"}\n")
}
