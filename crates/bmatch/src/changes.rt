//! Changes of names.
ghost use Rattle.std.specs.List.{find, range_with_len};
ghost use Rattle.std.specs.Prelude.{◌≡◌};
ghost use Rattle.bmatch.specs.Changes.{change_before, changed_by, is_change, place_back, steps_back};

use crate::holds::Site;
use crate::same::is_same;
use crate::tree::{Branch, Kind, Tree, branch_at};
use btree::Node;

/// Whether a branch changes what another one is.
pub(crate) fn is_change(tree: &Tree<'_>, name: usize, index: usize) -> bool
    ensures { result ≡ is_change tree.now name index }
{
    match changed_by(tree.rows, index) {
        Some(changed) => is_same(tree, name, changed),
        None => false,
    }
}

// The branch that one changes, without parentheses.
fn changed_by(rows: &[Branch], index: usize) -> Option<usize>
    ensures { result ≡ changed_by rows.now index }
{
    let last = index.saturating_sub(1);
    match branch_at(rows, index).kind {
        Kind::Node(Node::Assigned(_)) => {
            let before = branch_at(rows, last).begin;
            Some(branch_at(rows, before.saturating_sub(1)).core)
        }
        Kind::Node(
            Node::PostIncrement | Node::PostDecrement | Node::PreIncrement | Node::PreDecrement,
        ) => Some(branch_at(rows, last).core),
        _ => None,
    }
}

/// The last branch of a function before another one that changes what a name is.
pub(crate) fn change_before(site: &Site<'_>, name: usize, end: usize) -> Option<usize>
    ensures { result ≡ change_before site.now name end }
{
    Some(place_back(end, steps_back(site, name, end)?))
}

// How many branches before another one it is.
fn steps_back(site: &Site<'_>, name: usize, end: usize) -> Option<usize>
    ensures { result ≡ steps_back site.now name end }
{
    let tree = &site.sight.tree;
    (0..end.saturating_sub(site.function.begin)).find(|back| is_change(
        tree,
        name,
        place_back(end, *back),
    ))
}

fn place_back(end: usize, back: usize) -> usize
    ensures { result ≡ place_back end back }
{
    end.saturating_sub(1).saturating_sub(back)
}
