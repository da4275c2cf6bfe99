//! What the rules of `b check` say of the tokens of a source.
ghost use Rattle.std.specs.Prelude.{◌≡◌, IfOk, None, replicate, slice_get};
ghost use Rattle.blint.specs.Noticed.{IsSaid, first_notices, notice_at, warning_of, with_notice};

use crate::check_rules::WARNINGS;
use crate::tokens::Tokens;
use crate::warnings::Warning;
use bmatch::{Branch, Claim, Notice, Rule, RuleTable, Step, Tree, notices_of};
use std::alloc::{AllocError, Global};

/// What rules say of a source with these branches, each place where one fits.
pub(crate) fn said_by(
    alloc: Global,
    tokens: &Tokens<'_>,
    rows: &[Branch],
    steps: &[Step],
    claims: &[Claim],
    rules: &[Rule],
) -> Result<Vec<Notice>, AllocError>
    ensures { IfOk result (λ notices. IsSaid tokens.now.text.now tokens.now.lexemes.now tokens.now.places.now rows.now
        steps.now claims.now rules.now notices.items) }
{
    let tree = Tree {
        text: tokens.text,
        lexemes: tokens.lexemes,
        places: tokens.places,
        rows,
    };
    let table = RuleTable {
        steps,
        claims,
        rules,
    };
    notices_of(alloc, &tree, &table)
}

/// Of each of so many tokens the first notice.
pub(crate) fn by_token(
    alloc: Global,
    count: usize,
    notices: &[Notice],
) -> Result<Vec<Option<Notice>>, AllocError>
    ensures { IfOk result (λ firsts. firsts.items ≡ first_notices notices.now 0 count) }
{
    let mut firsts = nothing(alloc, count)?;
    let mut left = notices.len();
    while left > 0 {
        left -= 1;
        put(&mut firsts, &notices[left]);
    }
    Ok(firsts)
}

fn put(firsts: &mut Vec<Option<Notice>>, notice: &Notice)
    ensures { firsts.new.items ≡ with_notice notice.now firsts.old.items }
{
    if let Some(first) = firsts.get_mut(notice.token) {
        *first = Some(*notice);
    }
}

fn nothing(alloc: Global, count: usize) -> Result<Vec<Option<Notice>>, AllocError>
    ensures { IfOk result (λ firsts. firsts.items ≡ replicate count None) }
{
    let mut firsts = Vec::new(alloc);
    for _ in 0..count {
        firsts.push(None)?;
    }
    Ok(firsts)
}

/// The notice of a token, if it has one.
pub(crate) fn notice_at(firsts: &[Option<Notice>], token: usize) -> Option<Notice>
    ensures { result ≡ notice_at firsts.now token }
{
    firsts.get(token).copied().unwrap_or(None)
}

/// What a notice tells.
pub(crate) fn warning_of(notice: &Option<Notice>) -> Option<Warning>
    ensures { result ≡ warning_of notice.now }
{
    match notice {
        Some(notice) => warning_at(&WARNINGS, notice.rule),
        None => None,
    }
}

fn warning_at(warnings: &[Warning], rule: usize) -> Option<Warning>
    ensures { result ≡ slice_get warnings.now rule }
{
    warnings.get(rule).copied()
}
