//! The rules of a reader.
ghost use Rattle.std.specs.Prelude.{◌≡◌, IfErr, IfOk, codes};
ghost use Rattle.bfind.specs.Finds.{IsRefused, wrong_line};

use bcheck::{Fragment, push_all};
use blang::status::{self, Status};
use bmatch::{Claim, Rule, Step};
use bplaces::{next_column, next_line};
use brulefile::{RuleName, Rules, read_rules};
use btools::{Text, tell};
use bword::ByteOut;
use std::alloc::{AllocError, Global};

/// The most bytes of a text of rules.
pub const MOST_RULES: usize = 131_072;

/// What stands before a pattern in the rule that is made of it: a line, and the beginning of the next.
const BEFORE_PATTERN: &[u8] = b"rule Find\n find ";

/// How many bytes of its line stand before the pattern.
const PATTERN_START: u64 = 6;

/// What a rule is called, and what it says.
#[derive(Drop)]
pub struct RuleWords {
    pub code: Text,
    pub message: Text,
}

/// Rules with their steps and claims, and the words of each.
#[derive(Drop)]
pub struct OwnRules {
    pub steps: Vec<Step>,
    pub claims: Vec<Claim>,
    pub rules: Vec<Rule>,
    pub words: Vec<RuleWords>,
}

/// Where a text of rules is wrong first, and why.
#[derive(Clone, Copy)]
struct Wrong {
    line: u64,
    column: u64,
    reason: &'static str,
}

/// Reads the rules of a file; or tells its first fault, and gives the status.
pub fn read_own<D: ByteOut>(
    alloc: Global,
    file: &str,
    text: &[u8],
    diag: &mut D,
) -> Result<OwnRules, Status>
    ensures silent { IfOk result (λ own. D.outgoing diag.new ≡ D.outgoing diag.old) }
    ensures refused { IfErr result (IsRefused file.now (D.outgoing diag.old) (D.outgoing diag.new)) }
    ensures diag_lender { D.lender diag.new ≡ D.lender diag.old }
{
    match own_rules(alloc, text) {
        Ok(Ok(own)) => Ok(own),
        Ok(Err(wrong)) => Err(refuse(alloc, file, wrong, diag)),
        Err(_) => Err(status::MEMORY),
    }
}

/// The rule of a pattern; or its first fault is told, and this is the status.
pub fn read_pattern<D: ByteOut>(
    alloc: Global,
    pattern: &str,
    diag: &mut D,
) -> Result<OwnRules, Status>
    ensures silent { IfOk result (λ own. D.outgoing diag.new ≡ D.outgoing diag.old) }
    ensures refused { IfErr result (IsRefused (codes "PATTERN") (D.outgoing diag.old) (D.outgoing diag.new)) }
    ensures diag_lender { D.lender diag.new ≡ D.lender diag.old }
{
    match pattern_rules(alloc, pattern) {
        Ok(Ok(own)) => Ok(own),
        Ok(Err(wrong)) => Err(refuse(alloc, "PATTERN", wrong, diag)),
        Err(_) => Err(status::MEMORY),
    }
}

fn own_rules(alloc: Global, text: &[u8]) -> Result<Result<OwnRules, Wrong>, AllocError> {
    if text.len() > MOST_RULES {
        return Ok(Err(Wrong {
            line: 1,
            column: 1,
            reason: "a file of rules has at most 131072 bytes",
        }));
    }
    if let Err(error) = str::from_utf8(text) {
        return Ok(Err(not_text(text, error.valid_up_to())));
    }
    match read_rules(alloc, text)? {
        Ok(rules) => Ok(Ok(with_words(alloc, rules)?)),
        Err(fault) => Ok(Err(Wrong {
            line: fault.line,
            column: fault.column,
            reason: fault.reason.sentence(),
        })),
    }
}

// A text that isn't UTF-8 after so many bytes.
fn not_text(text: &[u8], valid: usize) -> Wrong {
    let mut wrong = Wrong {
        line: 1,
        column: 1,
        reason: "a file of rules is a text in UTF-8",
    };
    let mut column: usize = 1;
    for byte in text.get(..valid).unwrap_or(&[]) {
        wrong.line = next_line(wrong.line, *byte);
        column = next_column(column, *byte);
    }
    wrong.column = column as u64;
    wrong
}

// Rules, each with what it says, or else with its name.
fn with_words(alloc: Global, rules: Rules<'_>) -> Result<OwnRules, AllocError> {
    let mut words = Vec::new(alloc);
    for index in 0..rules.names.len() {
        let says = rules.says.get(index).copied().unwrap_or(&[]);
        words.push(words_of(alloc, &rules.names[index], says)?)?;
    }
    Ok(own_with(rules, words))
}

// Rules with these words.
fn own_with(rules: Rules<'_>, words: Vec<RuleWords>) -> OwnRules {
    let Rules {
        steps,
        claims,
        rules,
        ..
    } = rules;
    OwnRules {
        steps,
        claims,
        rules,
        words,
    }
}

fn words_of(alloc: Global, name: &RuleName, says: &[u8]) -> Result<RuleWords, AllocError> {
    let mut code = Text::new(alloc);
    code.push(name.as_bytes())?;
    let mut message = Text::new(alloc);
    if says.is_empty() {
        message.push(b"fits rule ")?;
        message.push(name.as_bytes())?;
    } else {
        message.push(says)?;
    }
    Ok(RuleWords { code, message })
}

// The rule that finds a pattern. A newline in it is a blank.
fn pattern_rules(alloc: Global, pattern: &str) -> Result<Result<OwnRules, Wrong>, AllocError> {
    let mut text = Text::new(alloc);
    text.push(BEFORE_PATTERN)?;
    for byte in pattern.as_bytes() {
        text.push(&[if *byte == b'\n' { b' ' } else { *byte }])?;
    }
    match read_rules(alloc, text.as_slice())? {
        Ok(rules) => Ok(Ok(with_pattern_words(alloc, rules)?)),
        Err(fault) => Ok(Err(Wrong {
            line: 1,
            column: fault.column.saturating_sub(PATTERN_START).max(1),
            reason: fault.reason.sentence(),
        })),
    }
}

fn with_pattern_words(alloc: Global, rules: Rules<'_>) -> Result<OwnRules, AllocError> {
    let mut code = Text::new(alloc);
    code.push(b"find")?;
    let mut message = Text::new(alloc);
    message.push(b"the pattern fits here")?;
    let mut words = Vec::new(alloc);
    words.push(RuleWords { code, message })?;
    Ok(own_with(rules, words))
}

// Tells what is wrong in a text of rules.
fn refuse<D: ByteOut>(alloc: Global, file: &str, wrong: Wrong, diag: &mut D) -> Status
    ensures refused { IsRefused file.now (D.outgoing diag.old) (D.outgoing diag.new) result }
    ensures diag_lender { D.lender diag.new ≡ D.lender diag.old }
{
    match wrong_line(alloc, file, wrong) {
        Ok(line) => tell(line.as_slice(), status::FAULT, diag),
        Err(_) => status::MEMORY,
    }
}

fn wrong_line(alloc: Global, file: &str, wrong: Wrong) -> Result<Text, AllocError>
    ensures { IfOk result (λ line. line ≡ wrong_line file.now wrong.line wrong.column wrong.reason.now) }
{
    let mut line = Text::new(alloc);
    push_all(
        &mut line,
        &[
            Fragment::File(file.as_bytes()),
            Fragment::Words(b":"),
            Fragment::Number(wrong.line),
            Fragment::Words(b":"),
            Fragment::Number(wrong.column),
            Fragment::Words(b": error: "),
            Fragment::File(wrong.reason.as_bytes()),
            Fragment::Words(b"\n"),
        ],
    )?;
    Ok(line)
}
