//! What rules tell of a source.
ghost use Rattle.std.specs.Prelude.{◌≡◌, ◌+◌, ◌++◌, ◌<◌, ◌^◌, IfOk, map};
ghost use Rattle.bmatch.specs.Notices.{first_token, function_notices, functions_at, functions_in, is_passed_over, notice_of};
ghost use Rattle.bmatch.specs.Notices.{notices_by, root_notices, rule_notices};

use crate::asking::told_token;
use crate::binds::Binds;
use crate::fits::{Sight, Span, may_begin};
use crate::holds::{Site, all_hold, fits_at};
use crate::pattern::{ROOT, Rule, RuleTable, claims_from, steps_from};
use crate::tree::{Kind, Tree, branch_at};
use btree::Construct;
use std::alloc::{AllocError, Global};

/// The most branches of a function in which a rule looks around, so that no source makes that long.
pub const MOST_BRANCHES: usize = 4_096;

/// The most branches of a source in all of which a rule looks around.
pub const MOST_IN_ALL: usize = 32_768;

/// A rule that fits, by its number, and the token that is told.
#[derive(Clone, Copy)]
pub struct Notice {
    pub rule: usize,
    pub token: usize,
    /// The token of the name of which it speaks, and that of a second place.
    pub named: Option<usize>,
    pub beside: Option<usize>,
}

/// Each place where a rule fits and its condition holds, in the order of the rules.
///
/// # Errors
///
/// If memory was refused.
pub fn notices_of(
    alloc: Global,
    tree: &Tree<'_>,
    table: &RuleTable<'_>,
) -> Result<Vec<Notice>, AllocError>
    ensures { IfOk result (λ found. found.items ≡ notices_by tree.now table.now) }
{
    let functions = functions_in(alloc, tree)?;
    let mut found = Vec::new(alloc);
    for rule in table.rules {
        rule_notices(alloc, tree, table, functions.as_slice(), rule, &mut found)?;
    }
    Ok(found)
}

// The definitions of a tree.
fn functions_in(alloc: Global, tree: &Tree<'_>) -> Result<Vec<Span>, AllocError>
    ensures { IfOk result (λ spans. spans.items ≡ functions_in tree.now) }
{
    let mut spans = Vec::new(alloc);
    for index in 0..tree.rows.len() {
        take_function(tree, index, &mut spans)?;
    }
    Ok(spans)
}

fn take_function(tree: &Tree<'_>, index: usize, spans: &mut Vec<Span>) -> Result<(), AllocError>
    requires { index + 1 < 2 ^ 64 }
    ensures { IfOk result (λ done. spans.new.items ≡ spans.old.items ++ functions_at tree.now index) }
{
    let branch = branch_at(tree.rows, index);
    if let Kind::Construct(Construct::Definition) = branch.kind {
        spans.push(Span {
            begin: branch.begin,
            end: index + 1,
        })?;
    }
    Ok(())
}

fn rule_notices(
    alloc: Global,
    tree: &Tree<'_>,
    table: &RuleTable<'_>,
    functions: &[Span],
    rule: &Rule,
    found: &mut Vec<Notice>,
) -> Result<(), AllocError>
    ensures { IfOk result (λ done.
        found.new.items ≡ found.old.items ++ rule_notices tree.now table.now functions.now rule.now) }
{
    for function in functions {
        function_notices(alloc, tree, table, rule, *function, found)?;
    }
    Ok(())
}

fn function_notices(
    alloc: Global,
    tree: &Tree<'_>,
    table: &RuleTable<'_>,
    rule: &Rule,
    function: Span,
    found: &mut Vec<Notice>,
) -> Result<(), AllocError>
    ensures { IfOk result (λ done.
        found.new.items ≡ found.old.items ++ function_notices tree.now table.now rule.now function) }
{
    if is_passed_over(tree, rule, function) {
        return Ok(());
    }
    for root in function.begin..function.end {
        root_notices(alloc, tree, table, rule, function, root, found)?;
    }
    Ok(())
}

// Whether a function or the whole source is too long for a rule.
fn is_passed_over(tree: &Tree<'_>, rule: &Rule, function: Span) -> bool
    ensures { result ≡ is_passed_over tree.now rule.now function }
{
    (rule.looks_around && function.end.saturating_sub(function.begin) > MOST_BRANCHES)
        || (rule.looks_far && tree.rows.len() > MOST_IN_ALL)
}

fn root_notices(
    alloc: Global,
    tree: &Tree<'_>,
    table: &RuleTable<'_>,
    rule: &Rule,
    function: Span,
    root: usize,
    found: &mut Vec<Notice>,
) -> Result<(), AllocError>
    requires { root + 1 < 2 ^ 64 }
    ensures { IfOk result (λ done.
        found.new.items ≡ found.old.items ++ root_notices tree.now table.now rule.now function root) }
{
    let sight = Sight {
        tree: *tree,
        steps: table.steps,
        is_loose: rule.is_loose,
    };
    let steps = steps_from(table.steps, rule.pattern);
    if !may_begin(&sight, steps, root + 1) {
        return Ok(());
    }
    let binds = Binds::nothing().with(ROOT, root);
    let mut ways = Vec::new(alloc);
    fits_at(&sight, steps, root, binds, &mut ways)?;
    if ways.is_empty() {
        return Ok(());
    }
    let site = Site { sight, function };
    let mut held = Vec::new(alloc);
    let claims = claims_from(table.claims, rule.condition);
    all_hold(alloc, &site, claims, ways.as_slice(), &mut held)?;
    tell(tree, rule, held.as_slice(), found)
}

fn tell(
    tree: &Tree<'_>,
    rule: &Rule,
    held: &[Binds],
    found: &mut Vec<Notice>,
) -> Result<(), AllocError>
    ensures { IfOk result (λ done. found.new.items ≡ found.old.items ++ map (notice_of tree.now rule.now) held.now) }
{
    for binds in held {
        found.push(Notice {
            rule: rule.number,
            token: told_token(tree, binds),
            named: first_token(tree, binds.of(rule.named)),
            beside: first_token(tree, binds.of(rule.beside)),
        })?;
    }
    Ok(())
}

fn first_token(tree: &Tree<'_>, index: Option<usize>) -> Option<usize>
    ensures { result ≡ first_token tree.now index }
{
    Some(branch_at(tree.rows, index?).first)
}
