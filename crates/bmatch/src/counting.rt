//! Numbers that are counted: of arguments, and of the blanks before a token.
ghost use Rattle.std.specs.Prelude.{◌≡◌, ◌+◌, ◌*◌, ◌≤◌, ◌<◌, ◌^◌};
ghost use Rattle.bmatch.specs.Counting.{arguments_between, arguments_in, blanks_at, indent_in, is_argument, is_byte};
ghost use Rattle.bmatch.specs.Counting.{place_in, width};

use crate::tree::{Branch, Kind, Tree, branch_at, core_at};
use btree::Node;

/// The most arguments that are counted, and the most blanks.
pub(crate) const MOST_COUNTED: usize = 128;

/// How many arguments a call has, or how many parameters a definition.
pub(crate) fn arguments_in(tree: &Tree<'_>, index: Option<usize>) -> Option<u64>
    ensures { result ≡ arguments_in tree.now index }
{
    let call = core_at(tree.rows, index?);
    let begin = branch_at(tree.rows, call).begin;
    let count = arguments_between(tree.rows, begin, call, MOST_COUNTED);
    Some(count.saturating_sub(1) as u64)
}

/// Which argument of a call, or which parameter of a definition, a branch is, from 1.
pub(crate) fn place_in(tree: &Tree<'_>, one: Option<usize>, around: Option<usize>) -> Option<u64>
    ensures { result ≡ place_in tree.now one around }
{
    let end = branch_at(tree.rows, one?).begin;
    let begin = branch_at(tree.rows, around?).begin;
    Some(arguments_between(tree.rows, begin, end, MOST_COUNTED) as u64)
}

// How many branches of a row are expressions, what is called among them. Of many the last ones count.
fn arguments_between(rows: &[Branch], begin: usize, end: usize, fuel: usize) -> usize
    ensures count { result ≡ arguments_between rows.now begin end fuel }
    ensures most { result ≤ fuel }
{
    if fuel == 0 || end <= begin {
        return 0;
    }
    let last = branch_at(rows, end - 1);
    let rest = arguments_between(rows, begin, last.begin, fuel - 1);
    if is_argument(last.kind) {
        rest + 1
    } else {
        rest
    }
}

fn is_argument(kind: Kind) -> bool
    ensures { result ≡ is_argument kind }
{
    match kind {
        Kind::Node(Node::NoArguments) | Kind::Construct(_) => false,
        Kind::Node(_) => true,
    }
}

/// How far a branch is indented, where it begins a line.
pub(crate) fn indent_in(tree: &Tree<'_>, index: Option<usize>) -> Option<u64>
    ensures { result ≡ indent_in tree.now index }
{
    let place = tree.places.get(branch_at(tree.rows, index?).first)?;
    blanks_at(tree.text, place.start, 0, MOST_COUNTED)
}

// How many blanks stand before a place of a line, and so many more, if nothing else does.
fn blanks_at(text: &[u8], place: usize, more: u64, fuel: usize) -> Option<u64>
    requires { more + 8 * fuel < 2 ^ 64 }
    ensures { result ≡ blanks_at text.now place more fuel }
{
    if fuel == 0 {
        return None;
    }
    let before = text.get(place.saturating_sub(1)).copied();
    if place == 0 || is_byte(before, b'\n') {
        return Some(more);
    }
    let width = width(before);
    if width > 0 {
        blanks_at(text, place - 1, more + width, fuel - 1)
    } else {
        None
    }
}

fn is_byte(byte: Option<u8>, wanted: u8) -> bool
    ensures { result ≡ is_byte byte wanted }
{
    match byte {
        Some(byte) => byte == wanted,
        None => false,
    }
}

// How many blanks a blank or a tab is; 0 for all else.
fn width(byte: Option<u8>) -> u64
    ensures width { result ≡ width byte }
    ensures most { result ≤ 8 }
{
    if is_byte(byte, b' ') {
        1
    } else if is_byte(byte, b'\t') {
        8
    } else {
        0
    }
}
