//! Whether what else is asked holds.
ghost use Rattle.std.specs.List.{find, flat_map, range_with_len};
ghost use Rattle.std.specs.Prelude.{◌≡◌, ◌+◌, ◌-◌, ◌<◌, ◌^◌, ◌++◌, IfOk};
ghost use Rattle.bmatch.specs.Holds.{begun_by, fits_at, fits_begun, fits_claim, fits_hole, hole_span, holds_in, if_none, if_some};
ghost use Rattle.bmatch.specs.Holds.{is_loop_around, is_within, loop_around, root_of, scope_span, some_at};

use crate::asking::passes_test;
use crate::binds::Binds;
use crate::changes::change_before;
use crate::conditions::{Claim, Scope};
use crate::fits::{Left, Sight, Span, fits, may_begin};
use crate::pattern::{ROOT, Step, claims_from, steps_from};
use crate::tree::{Kind, branch_at};
use btree::Construct;
use std::alloc::{AllocError, Global};

/// Where rules look: a tree, and the function in it.
#[derive(Clone, Copy)]
pub struct Site<'a> {
    pub sight: Sight<'a>,
    pub function: Span,
}

/// What is sought: where, the hole that stands for it, and the first step of what it fits.
#[derive(Clone, Copy)]
pub(crate) struct Sought {
    pub scope: Scope,
    pub hole: u8,
    pub pattern: u16,
}

/// Adds to those found what holes stand for in each way in which claims hold.
#[cycle(holds)]
pub(crate) fn holds(
    alloc: Global,
    site: &Site<'_>,
    claims: &[Claim],
    binds: Binds,
    found: &mut Vec<Binds>,
) -> Result<(), AllocError>
    ensures { IfOk result (λ done. found.new.items ≡ found.old.items ++ holds_in site.now 0 claims.now binds) }
{
    let [claim, more @ ..] = claims else {
        found.push(binds)?;
        return Ok(());
    };
    match *claim {
        Claim::End => {
            found.push(binds)?;
            Ok(())
        }
        Claim::Not(count) => {
            let mut ways = Vec::new(alloc);
            holds(alloc, site, more, binds, &mut ways)?;
            let claims = claims_from(more, count);
            if_none_hold(alloc, site, ways.as_slice(), claims, binds, found)
        }
        Claim::Either(count) => {
            holds(alloc, site, more, binds, found)?;
            holds(alloc, site, claims_from(more, count), binds, found)
        }
        Claim::Jump(count) => holds(alloc, site, claims_from(more, count), binds, found),
        Claim::Call(count, first, second, third, fourth) => {
            let mut ways = Vec::new(alloc);
            let given = binds.given(first, second, third, fourth);
            holds(alloc, site, claims_from(more, count), given, &mut ways)?;
            if_some_hold(alloc, site, ways.as_slice(), more, binds, found)
        }
        Claim::Test(test) => {
            if passes_test(site, test, &binds) {
                holds(alloc, site, more, binds, found)
            } else {
                Ok(())
            }
        }
        Claim::Is(_, _) => fits_and_holds(alloc, site, claim, more, binds, found),
        Claim::Some(_, _, _) => fits_and_holds(alloc, site, claim, more, binds, found),
        Claim::Begun(_, _) => fits_and_holds(alloc, site, claim, more, binds, found),
    }
}

// The same where there are none of these ways.
#[cycle(holds)]
fn if_none_hold(
    alloc: Global,
    site: &Site<'_>,
    ways: &[Binds],
    claims: &[Claim],
    binds: Binds,
    found: &mut Vec<Binds>,
) -> Result<(), AllocError>
    ensures { IfOk result (λ done.
        found.new.items ≡ found.old.items ++ if_none ways.now (holds_in site.now 0 claims.now binds)) }
{
    match ways {
        [] => holds(alloc, site, claims, binds, found),
        _ => Ok(()),
    }
}

// The same where there is one of these ways.
#[cycle(holds)]
fn if_some_hold(
    alloc: Global,
    site: &Site<'_>,
    ways: &[Binds],
    claims: &[Claim],
    binds: Binds,
    found: &mut Vec<Binds>,
) -> Result<(), AllocError>
    ensures { IfOk result (λ done.
        found.new.items ≡ found.old.items ++ if_some ways.now (holds_in site.now 0 claims.now binds)) }
{
    match ways {
        [] => Ok(()),
        _ => holds(alloc, site, claims, binds, found),
    }
}

// The same with each way in which a claim of a pattern holds.
#[cycle(holds)]
fn fits_and_holds(
    alloc: Global,
    site: &Site<'_>,
    claim: &Claim,
    more: &[Claim],
    binds: Binds,
    found: &mut Vec<Binds>,
) -> Result<(), AllocError>
    ensures { IfOk result (λ done.
        found.new.items ≡ found.old.items ++ flat_map (holds_in site.now 0 more.now) (fits_claim site.now claim.now binds)) }
{
    let mut ways = Vec::new(alloc);
    fits_claim(site, claim, binds, &mut ways)?;
    all_hold(alloc, site, more, ways.as_slice(), found)
}

/// The same with each of these.
#[cycle(holds)]
pub(crate) fn all_hold(
    alloc: Global,
    site: &Site<'_>,
    claims: &[Claim],
    ways: &[Binds],
    found: &mut Vec<Binds>,
) -> Result<(), AllocError>
    ensures { IfOk result (λ done.
        found.new.items ≡ found.old.items ++ flat_map (holds_in site.now 0 claims.now) ways.now) }
{
    for way in ways {
        holds(alloc, site, claims, *way, found)?;
    }
    Ok(())
}

// Adds to those found what holes stand for in each way in which a claim alone holds, if it is one of a pattern.
fn fits_claim(
    site: &Site<'_>,
    claim: &Claim,
    binds: Binds,
    found: &mut Vec<Binds>,
) -> Result<(), AllocError>
    ensures { IfOk result (λ done. found.new.items ≡ found.old.items ++ fits_claim site.now claim.now binds) }
{
    match *claim {
        Claim::Is(hole, pattern) => fits_hole(site, hole, pattern, binds, found),
        Claim::Some(scope, hole, pattern) => {
            let sought = Sought {
                scope,
                hole,
                pattern,
            };
            fits_some(site, &sought, binds, found)
        }
        Claim::Begun(hole, pattern) => fits_begun(site, hole, pattern, binds, found),
        _ => Ok(()),
    }
}

// Whether what a hole stands for fits a pattern.
fn fits_hole(
    site: &Site<'_>,
    hole: u8,
    pattern: u16,
    binds: Binds,
    found: &mut Vec<Binds>,
) -> Result<(), AllocError>
    ensures { IfOk result (λ done.
        found.new.items ≡ found.old.items ++ fits_hole site.now pattern hole binds) }
{
    match binds.of(hole) {
        Some(index) => {
            let steps = steps_from(site.sight.steps, pattern);
            fits_at(&site.sight, steps, index, binds, found)
        }
        None => Ok(()),
    }
}

/// Adds to those found what holes stand for in each way in which steps fit one branch.
pub(crate) fn fits_at(
    sight: &Sight<'_>,
    steps: &[Step],
    index: usize,
    binds: Binds,
    found: &mut Vec<Binds>,
) -> Result<(), AllocError>
    ensures { IfOk result (λ done. found.new.items ≡ found.old.items ++ fits_at sight.now steps.now index binds) }
{
    if index >= sight.tree.rows.len() {
        return Ok(());
    }
    let span = Span {
        begin: branch_at(sight.tree.rows, index).begin,
        end: index + 1,
    };
    fits(sight, steps, span, &Left::Nothing, binds, found)
}

// Whether what changes the name of a hole last, before what was found, fits a pattern.
fn fits_begun(
    site: &Site<'_>,
    hole: u8,
    pattern: u16,
    binds: Binds,
    found: &mut Vec<Binds>,
) -> Result<(), AllocError>
    ensures { IfOk result (λ done.
        found.new.items ≡ found.old.items ++ fits_begun site.now pattern hole binds) }
{
    match begun_by(site, hole, &binds) {
        Some(index) => {
            let steps = steps_from(site.sight.steps, pattern);
            fits_at(&site.sight, steps, index, binds, found)
        }
        None => Ok(()),
    }
}

// What changes the name of a hole last, before what was found.
fn begun_by(site: &Site<'_>, hole: u8, binds: &Binds) -> Option<usize>
    ensures { result ≡ begun_by site.now hole binds.now }
{
    let end = branch_at(site.sight.tree.rows, root_of(binds)).begin;
    change_before(site, binds.of(hole)?, end)
}

fn root_of(binds: &Binds) -> usize
    ensures { result ≡ root_of binds.now }
{
    binds.of(ROOT).unwrap_or(0)
}

// Whether some branch of a scope fits a pattern.
fn fits_some(
    site: &Site<'_>,
    sought: &Sought,
    binds: Binds,
    found: &mut Vec<Binds>,
) -> Result<(), AllocError>
    ensures { IfOk result (λ done. found.new.items ≡ found.old.items
        ++ flat_map (some_at site.now sought.now binds)
        (range_with_len (scope_span site.now sought.now.scope binds).begin
        ((scope_span site.now sought.now.scope binds).end - (scope_span site.now sought.now.scope binds).begin))) }
{
    let span = scope_span(site, sought.scope, &binds);
    for index in span.begin..span.end {
        some_at(site, sought, &binds, index, found)?;
    }
    Ok(())
}

fn some_at(
    site: &Site<'_>,
    sought: &Sought,
    binds: &Binds,
    index: usize,
    found: &mut Vec<Binds>,
) -> Result<(), AllocError>
    requires { index + 1 < 2 ^ 64 }
    ensures { IfOk result (λ done.
        found.new.items ≡ found.old.items ++ some_at site.now sought.now binds.now index) }
{
    if !is_within(site, sought.scope, binds, index) {
        return Ok(());
    }
    let steps = steps_from(site.sight.steps, sought.pattern);
    if !may_begin(&site.sight, steps, index + 1) {
        return Ok(());
    }
    let binds = binds.with(sought.hole, index);
    fits_at(&site.sight, steps, index, binds, found)
}

// The innermost loop around what was found.
fn loop_around(site: &Site<'_>, root: usize) -> Option<usize>
    ensures { result ≡ loop_around site.now root }
{
    (root..site.function.end).find(|index| is_loop_around(site, root, *index))
}

fn is_loop_around(site: &Site<'_>, root: usize, index: usize) -> bool
    ensures { result ≡ is_loop_around site.now root index }
{
    let branch = branch_at(site.sight.tree.rows, index);
    matches!(branch.kind, Kind::Construct(Construct::While))
        && (root < index && branch.begin <= root)
}

// From which branch up to which a scope goes.
fn scope_span(site: &Site<'_>, scope: Scope, binds: &Binds) -> Span
    ensures { result ≡ scope_span site.now scope binds.now }
{
    let root = root_of(binds);
    match scope {
        Scope::Program | Scope::Definitions => Span {
            begin: 0,
            end: site.sight.tree.rows.len(),
        },
        Scope::Function => site.function,
        Scope::Loop => hole_span(site, loop_around(site, root)),
        Scope::Before => Span {
            begin: site.function.begin,
            end: branch_at(site.sight.tree.rows, root).begin,
        },
        Scope::After | Scope::Around => Span {
            begin: root,
            end: site.function.end,
        },
        Scope::Hole(hole) | Scope::Own(hole) => hole_span(site, binds.of(hole)),
    }
}

// The branches in what a hole stands for, with itself.
fn hole_span(site: &Site<'_>, index: Option<usize>) -> Span
    ensures { result ≡ hole_span site.now index }
{
    match index {
        Some(index) if index < site.sight.tree.rows.len() => Span {
            begin: branch_at(site.sight.tree.rows, index).begin,
            end: index + 1,
        },
        _ => Span { begin: 0, end: 0 },
    }
}

// Which branches of these are in the scope.
fn is_within(site: &Site<'_>, scope: Scope, binds: &Binds, index: usize) -> bool
    ensures { result ≡ is_within site.now scope binds.now index }
{
    let root = root_of(binds);
    let branch = branch_at(site.sight.tree.rows, index);
    match scope {
        Scope::Program | Scope::Function | Scope::Loop | Scope::Before | Scope::Hole(_) => true,
        Scope::Definitions => matches!(branch.kind, Kind::Construct(Construct::Definition)),
        Scope::After => root < branch.begin,
        Scope::Around => root < index && branch.begin <= root,
        Scope::Own(hole) => {
            let around = branch_at(site.sight.tree.rows, binds.of(hole).unwrap_or(0));
            branch.loops == around.loops
        }
    }
}
