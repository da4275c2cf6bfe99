//! Whether a source is right.
ghost use Rattle.std.specs.List.{list_any};
ghost use Rattle.std.specs.Prelude.{◌≡◌, IfOk, IsTrue, false};
ghost use Rattle.blang.specs.declared.status.TheConstants.{DONE};
ghost use Rattle.bsources.specs.Files.{files_shown};
ghost use Rattle.bcheck.specs.Checks.{EachOutcome, outcome_status};
ghost use Rattle.bcheck.specs.Findings.{matter_code};
ghost use Rattle.bcheck.specs.Right.{IsRight};
ghost use Rattle.bcheck.specs.RuleWarnings.{is_rule_code};
ghost use Rattle.bword.specs.Words.{same_name};

use crate::explain::findings;
use crate::finding::Finding;
use crate::spans::SourceText;
use crate::verdict::judge;
use blang::status;
use bsources::SourceFiles;
use bword::Edition;
use std::alloc::{AllocError, Global};

/// The codes that rules alone give.
const RULE_CODES: [&str; 19] = [
    "and", "op", "if", "em", "sg", "en", "st", "no", "bs", "pr", "rt", "us", "ed", "tr", "di",
    "es", "sw", "ix", "lp",
];

/// Whether a source of these files compiles and loads, and has no finding of a code that rules alone give.
pub fn is_right(
    alloc: Global,
    source: &[u8],
    edition: Edition,
    files: &SourceFiles<'_>,
) -> Result<bool, AllocError>
    ensures done { IfOk result (λ is. IsTrue is → EachOutcome edition source.now (λ o. outcome_status o ≡ DONE)) }
    ensures wrong { IfOk result (λ is. is ≡ false → IsRight edition (files_shown files.now) source.now → ⊥) }
{
    let text = SourceText {
        text: source,
        edition,
    };
    let judgement = judge(alloc, text)?;
    if judgement.verdict.status() != status::DONE {
        return Ok(false);
    }
    let findings = findings(alloc, text, files, &judgement)?;
    Ok(!has_rule(findings.as_slice()))
}

// Whether a code that rules alone give is among those of findings.
fn has_rule(findings: &[Finding]) -> bool
    ensures { result ≡ list_any (λ f. is_rule_code (matter_code f.matter)) findings.now }
{
    for finding in findings {
        if is_of_rules(finding) {
            return true;
        }
    }
    false
}

/// Whether a finding has a code that rules alone give.
pub(crate) fn is_of_rules(finding: &Finding) -> bool
    ensures { result ≡ is_rule_code (matter_code finding.now.matter) }
{
    is_rule_code(finding.matter.advice().0)
}

fn is_rule_code(code: &str) -> bool
    ensures { result ≡ is_rule_code code.now }
{
    is_one_of(code, &RULE_CODES)
}

fn is_one_of(code: &str, codes: &[&str]) -> bool
    ensures { result ≡ list_any (λ other. same_name code.now other.now) codes.now }
{
    for other in codes {
        if code == *other {
            return true;
        }
    }
    false
}
