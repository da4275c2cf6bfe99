//! Findings for people: where, what and how to fix it, with the line of the source and a mark.
ghost use Rattle.std.specs.List.{All, list_all};
ghost use Rattle.std.specs.Prelude.{ℕ, ◌≡◌, ◌≤◌, ◌∷◌, List, [], IsTrue, OnOk, length};
ghost use Rattle.bcheck.specs.Checks.{is_on_line};
ghost use Rattle.bword.specs.declared.edition.Edition.{Edition};
ghost use Rattle.bcheck.specs.Findings.{AddsFinding, IsExcerpt, IsTried};
ghost use Rattle.bsources.specs.Files.{Files, line_shown, own_line};
ghost use Rattle.bcheck.specs.declared.form.FindingForm.TheVariants as form;

use crate::finding::Told;
use crate::pieces::{Fragment, push_all, push_lines};
use btools::Text;
use std::alloc::AllocError;

/// Adds a finding.
pub(crate) fn write(text: &mut Text, told: &Told<'_>) -> Result<(), AllocError>
    requires { IsTrue (list_all is_on_line
        (told.now.words.now.code.now ∷ told.now.words.now.sentence ∷ told.now.words.now.fix ∷ [])) }
    ensures { (edition : Edition) (files : Files) (source : List ℕ) (start : ℕ)
        → IsExcerpt source start told.now.excerpt → line_shown told.now.at ≡ own_line files told.now.excerpt.line
        → All (IsTried edition files source) told.now.edits.now → length told.now.edits.now ≤ 3
        → OnOk result (AddsFinding form.Text told.now.severity edition files source start
        told.now.words.now.code.now told.now.words.now.sentence text.old text.new) }
{
    let excerpt = &told.excerpt;
    push_all(
        text,
        &[
            Fragment::File(told.at.file.as_bytes()),
            Fragment::Words(b":"),
            Fragment::Number(told.at.line),
            Fragment::Words(b":"),
            Fragment::Number(excerpt.column as u64),
            Fragment::Words(b": "),
            Fragment::Words(told.severity.word()),
            Fragment::Words(b": "),
            Fragment::Words(told.words.sentence.as_slice()),
            Fragment::Words(b"\n    "),
            Fragment::Shown(excerpt.left),
            Fragment::Shown(excerpt.right),
            Fragment::Words(b"\n    "),
            Fragment::Blanks(excerpt.left.len()),
            Fragment::Marks(excerpt.marks),
        ],
    )?;
    push_lines(text, told.edits)?;
    push_all(
        text,
        &[
            Fragment::Words(b"\n  fix: "),
            Fragment::Words(told.words.fix.as_slice()),
            Fragment::Words(b"\n"),
        ],
    )
}
