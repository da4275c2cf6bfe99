//! Whether steps of a pattern fit a row of branches.
ghost use Rattle.std.specs.List.{flat_map};
ghost use Rattle.std.specs.Prelude.{◌≡◌, ◌∷◌, ◌++◌, IfOk, take};
ghost use Rattle.bmatch.specs.Fits.{either_way, go_in, has_sides, index_for, inner_of, kind_for, kind_within, negated, other_kind};
ghost use Rattle.bmatch.specs.Fits.{mirrored, sees_sides, sides_of};
ghost use Rattle.bmatch.specs.Fits.{changes_hole, ends_of, fits_in, is_grouped, is_name_of, is_named, is_number, is_sort, is_word};
ghost use Rattle.bmatch.specs.Fits.{is_word_alone};
ghost use Rattle.bmatch.specs.Fits.{is_between, is_seen, is_value_of, leaf_binds, may_begin, rows_left, seen_at, start_of, token_told, with_leaf, with_same};
ghost use Rattle.bmatch.specs.Trees.{branch_at};
ghost use Rattle.bmatch.specs.declared.pattern.Step.TheVariants as step;

use crate::binds::Binds;
use crate::changes::is_change;
use crate::pattern::{Leaf, Sort, Spot, Step, Word, steps_from};
use crate::same::{is_same, is_same_lexeme};
use crate::tree::{Branch, Kind, Tree, branch_at, core_at, kind_at, kind_number, lexeme_at};
use blang::Keyword;
use blex::Lexeme;
use btree::{Construct, Node};
use bword::{BinOp, NAME_LEN};
use std::alloc::{AllocError, Global};

/// The branches from one number up to another.
#[derive(Clone, Copy)]
pub struct Span {
    pub begin: usize,
    pub end: usize,
}

/// Two rows, in the order in which they have to fit.
#[derive(Clone, Copy)]
pub struct Rows {
    pub one: Span,
    pub other: Span,
}

/// In which ways the last branch of a row has two sides, what is before it, and its token.
#[derive(Clone, Copy)]
pub(crate) struct EitherWay {
    pub plain: Option<Rows>,
    pub exchanged: Option<Rows>,
    pub before: Span,
    pub token: usize,
}

/// Rows that were begun, the innermost first.
#[derive(Clone, Copy)]
pub(crate) enum Left<'a> {
    Nothing,
    Row(Span, &'a Left<'a>),
}

/// A tree, the steps of all patterns, and whether a part in parentheses is no other than one without.
#[derive(Clone, Copy)]
pub struct Sight<'a> {
    pub tree: Tree<'a>,
    pub steps: &'a [Step],
    pub is_loose: bool,
}

/// Over how many branches of a row `...` goes, at most.
pub(crate) const MOST_PASSED: usize = 1_000;

/// Adds to those found what holes stand for in each way in which steps fit a row of branches, and those after them the
/// rows that were begun.
#[cycle(fits)]
pub(crate) fn fits(
    sight: &Sight<'_>,
    steps: &[Step],
    span: Span,
    left: &Left<'_>,
    binds: Binds,
    found: &mut Vec<Binds>,
) -> Result<(), AllocError>
    ensures { IfOk result (λ done. found.new.items
        ≡ found.old.items ++ fits_in sight.now 0 steps.now span.begin span.end (rows_left left.now) binds) }
{
    let [step, more @ ..] = steps else {
        return Ok(());
    };
    match *step {
        Step::Done => fits_left(sight, more, span, left, binds, found),
        Step::Tree(kind) => {
            let inner = inner_of(sight, kind, kind, span);
            fits_rows(sight, more, inner, left, binds, found)
        }
        Step::Range(first, last) => {
            let inner = inner_of(sight, first, last, span);
            fits_rows(sight, more, inner, left, binds, found)
        }
        Step::Sides(first, last, is_told) => {
            let ways = either_way(sight, first, last, span);
            let row = Left::Row(ways.before, &*left);
            let binds = binds.telling(is_told, ways.token);
            fits_both(sight, more, &ways, &row, binds, found)
        }
        Step::Leaf(leaf) => match with_leaf(sight, leaf, span, binds) {
            Some(binds) => fits(sight, more, before(sight, span), &*left, binds, found),
            None => Ok(()),
        },
        Step::Told(spot) => {
            let binds = binds.telling(true, token_told(sight, spot, span.end));
            fits(sight, more, span, &*left, binds, found)
        }
        Step::Dots => passes(sight, more, span, &*left, binds, found),
        Step::Either(count) => {
            fits(sight, more, span, &*left, binds, found)?;
            fits(sight, steps_from(more, count), span, &*left, binds, found)
        }
        Step::Jump(count) => fits(sight, steps_from(more, count), span, &*left, binds, found),
    }
}

// The same where a row has no more steps.
#[cycle(fits)]
fn fits_left(
    sight: &Sight<'_>,
    more: &[Step],
    span: Span,
    left: &Left<'_>,
    binds: Binds,
    found: &mut Vec<Binds>,
) -> Result<(), AllocError>
    ensures { IfOk result (λ done. found.new.items
        ≡ found.old.items ++ fits_in sight.now 0 (step.Done ∷ more.now) span.begin span.end (rows_left left.now) binds) }
{
    if span.begin < span.end {
        return Ok(());
    }
    match left {
        Left::Nothing => {
            found.push(binds)?;
            Ok(())
        }
        Left::Row(next, after) => fits(sight, more, *next, &**after, binds, found),
    }
}

// The same for what is in a branch with two sides, in each order of these. The first row that was begun is what is before
// the branch.
#[cycle(fits)]
fn fits_both(
    sight: &Sight<'_>,
    more: &[Step],
    ways: &EitherWay,
    left: &Left<'_>,
    binds: Binds,
    found: &mut Vec<Binds>,
) -> Result<(), AllocError>
    ensures { IfOk result (λ done. found.new.items ≡ found.old.items
        ++ (go_in ways.now.plain (λ x. fits_in sight.now 0 more.now x.one.begin x.one.end (x.other ∷ rows_left left.now) binds)
        ++ go_in ways.now.exchanged
        (λ x. fits_in sight.now 0 more.now x.one.begin x.one.end (x.other ∷ rows_left left.now) binds))) }
{
    fits_rows(sight, more, ways.plain, &*left, binds, found)?;
    fits_rows(sight, more, ways.exchanged, &*left, binds, found)
}

// The same for two rows, if they are there.
#[cycle(fits)]
fn fits_rows(
    sight: &Sight<'_>,
    more: &[Step],
    rows: Option<Rows>,
    left: &Left<'_>,
    binds: Binds,
    found: &mut Vec<Binds>,
) -> Result<(), AllocError>
    ensures { IfOk result (λ done. found.new.items ≡ found.old.items ++ go_in rows
        (λ x. fits_in sight.now 0 more.now x.one.begin x.one.end (x.other ∷ rows_left left.now) binds)) }
{
    match rows {
        Some(rows) => {
            let row = Left::Row(rows.other, &*left);
            fits(sight, more, rows.one, &row, binds, found)
        }
        None => Ok(()),
    }
}

/// Whether steps may fit the last branch that ends here, by the first of them.
pub(crate) fn may_begin(sight: &Sight<'_>, steps: &[Step], end: usize) -> bool
    ensures { result ≡ may_begin sight.now 0 steps.now end }
{
    let [step, more @ ..] = steps else {
        return false;
    };
    match *step {
        Step::Tree(kind) => is_seen(sight, kind, kind, end),
        Step::Range(first, last) => is_seen(sight, first, last, end),
        Step::Sides(first, last, _) => sees_sides(sight, first, last, end),
        Step::Either(count) => {
            may_begin(sight, more, end) || may_begin(sight, steps_from(more, count), end)
        }
        Step::Jump(count) => may_begin(sight, steps_from(more, count), end),
        Step::Done | Step::Leaf(_) | Step::Told(_) | Step::Dots => true,
    }
}

// Whether the last branch that ends here is of a kind from the first one to the last.
fn is_seen(sight: &Sight<'_>, first: Kind, last: Kind, end: usize) -> bool
    ensures { result ≡ is_seen sight.now first last end }
{
    let seen = seen_at(sight, is_grouped(first), end);
    is_between(first, last, kind_for(sight, first, seen))
}

// The kind that a branch says the same as, where another one is asked for: `*(v + i)` is `v[i]`, and `!(a < b)` is
// `a >= b`.
fn kind_within(asked: Kind, kind: Kind, inner: Kind) -> Option<Kind>
    ensures { result ≡ kind_within asked kind inner }
{
    match (asked, kind, inner) {
        (
            Kind::Node(Node::Indexed),
            Kind::Node(Node::Indirection),
            Kind::Node(Node::Binary(BinOp::Add)),
        ) => Some(asked),
        (Kind::Node(Node::Binary(_)), Kind::Node(Node::Not), Kind::Node(Node::Binary(op))) => {
            negated(op)
        }
        _ => None,
    }
}

// The comparison that holds where another one doesn't.
fn negated(op: BinOp) -> Option<Kind>
    ensures { result ≡ negated op }
{
    let other = match op {
        BinOp::Eq => BinOp::Ne,
        BinOp::Ne => BinOp::Eq,
        BinOp::Lt => BinOp::Ge,
        BinOp::Le => BinOp::Gt,
        BinOp::Gt => BinOp::Le,
        BinOp::Ge => BinOp::Lt,
        _ => return None,
    };
    Some(Kind::Node(Node::Binary(other)))
}

// The same for a branch of the tree, where a part in parentheses is no other than one without.
fn other_kind(sight: &Sight<'_>, asked: Kind, index: usize) -> Option<Kind>
    ensures { result ≡ other_kind sight.now asked index }
{
    let rows = sight.tree.rows;
    if sight.is_loose {
        let inner = core_at(rows, index.saturating_sub(1));
        kind_within(asked, kind_at(rows, index), kind_at(rows, inner))
    } else {
        None
    }
}

// The kind that a branch is then, and the number of the branch whose parts it has.
fn kind_for(sight: &Sight<'_>, asked: Kind, index: usize) -> Kind
    ensures { result ≡ kind_for sight.now asked index }
{
    other_kind(sight, asked, index).unwrap_or(kind_at(sight.tree.rows, index))
}

fn index_for(sight: &Sight<'_>, asked: Kind, index: usize) -> usize
    ensures { result ≡ index_for sight.now asked index }
{
    match other_kind(sight, asked, index) {
        Some(_) => core_at(sight.tree.rows, index.saturating_sub(1)),
        None => index,
    }
}

// Whether the last branch that ends here has two sides and is of such a kind, perhaps with these exchanged.
fn sees_sides(sight: &Sight<'_>, first: Kind, last: Kind, end: usize) -> bool
    ensures { result ≡ sees_sides sight.now first last end }
{
    let kind = kind_for(sight, first, seen_at(sight, false, end));
    has_sides(sight, false, first, last, kind) || has_sides(sight, true, first, last, kind)
}

fn has_sides(sight: &Sight<'_>, is_exchanged: bool, first: Kind, last: Kind, kind: Kind) -> bool
    ensures { result ≡ has_sides sight.now is_exchanged first last kind }
{
    if is_exchanged {
        sight.is_loose && is_between(first, last, mirrored(kind))
    } else {
        is_between(first, last, kind)
    }
}

// The operator that says the same where its sides are exchanged.
fn mirrored(kind: Kind) -> Kind
    ensures { result ≡ mirrored kind }
{
    match kind {
        Kind::Node(Node::Binary(BinOp::Lt)) => Kind::Node(Node::Binary(BinOp::Gt)),
        Kind::Node(Node::Binary(BinOp::Le)) => Kind::Node(Node::Binary(BinOp::Ge)),
        Kind::Node(Node::Binary(BinOp::Gt)) => Kind::Node(Node::Binary(BinOp::Lt)),
        Kind::Node(Node::Binary(BinOp::Ge)) => Kind::Node(Node::Binary(BinOp::Le)),
        _ => kind,
    }
}

// The two sides of the last branch of a row, if it is of a kind from the first one to the last.
fn sides_of(
    sight: &Sight<'_>,
    is_exchanged: bool,
    first: Kind,
    last: Kind,
    span: Span,
) -> Option<Rows>
    ensures { result ≡ sides_of sight.now is_exchanged first last span.begin span.end }
{
    let seen = seen_at(sight, false, span.end);
    let kind = kind_for(sight, first, seen);
    if span.begin >= span.end || !has_sides(sight, is_exchanged, first, last, kind) {
        return None;
    }
    let index = index_for(sight, first, seen);
    let begin = branch_at(sight.tree.rows, index).begin;
    let middle = start_of(sight.tree.rows, index);
    let left = Span { begin, end: middle };
    let right = Span {
        begin: middle,
        end: index,
    };
    if is_exchanged {
        Some(Rows {
            one: left,
            other: right,
        })
    } else {
        Some(Rows {
            one: right,
            other: left,
        })
    }
}

fn either_way(sight: &Sight<'_>, first: Kind, last: Kind, span: Span) -> EitherWay
    ensures { result ≡ either_way sight.now first last span.begin span.end }
{
    let index = index_for(sight, first, seen_at(sight, false, span.end));
    EitherWay {
        plain: sides_of(sight, false, first, last, span),
        exchanged: sides_of(sight, true, first, last, span),
        before: before(sight, span),
        token: branch_at(sight.tree.rows, index).token,
    }
}

fn is_between(first: Kind, last: Kind, kind: Kind) -> bool
    ensures { result ≡ is_between first last kind }
{
    let number = kind_number(kind);
    kind_number(first) <= number && number <= kind_number(last)
}

// The branches in the last one of a row, if it is of a kind from the first one to the last, and those before it.
fn inner_of(sight: &Sight<'_>, first: Kind, last: Kind, span: Span) -> Option<Rows>
    ensures { result ≡ inner_of sight.now first last span.begin span.end }
{
    let seen = seen_at(sight, is_grouped(first), span.end);
    let index = index_for(sight, first, seen);
    if span.begin < span.end && is_between(first, last, kind_for(sight, first, seen)) {
        let begin = branch_at(sight.tree.rows, index).begin;
        Some(Rows {
            one: Span { begin, end: index },
            other: before(sight, span),
        })
    } else {
        None
    }
}

// The token that is told at the end of a row.
fn token_told(sight: &Sight<'_>, spot: Spot, end: usize) -> usize
    ensures { result ≡ token_told sight.now spot end }
{
    let rows = sight.tree.rows;
    match spot {
        Spot::First => branch_at(rows, seen_at(sight, false, end)).first,
        Spot::Maker => branch_at(rows, end).token,
        Spot::Else => {
            let after = branch_at(rows, end.saturating_sub(1));
            after.first.saturating_sub(1)
        }
    }
}

// What holes stand for where the last branch of a row is this.
fn with_leaf(sight: &Sight<'_>, leaf: Leaf, span: Span, binds: Binds) -> Option<Binds>
    ensures { result ≡ with_leaf sight.now leaf span.begin span.end binds }
{
    if span.begin < span.end {
        leaf_binds(&sight.tree, leaf, seen_at(sight, false, span.end), binds)
    } else {
        None
    }
}

fn leaf_binds(tree: &Tree<'_>, leaf: Leaf, index: usize, binds: Binds) -> Option<Binds>
    ensures { result ≡ leaf_binds tree.now leaf index binds }
{
    let branch = branch_at(tree.rows, index);
    match leaf {
        Leaf::Name(bytes, len) if is_name_of(tree, branch, name_in(&bytes, len)) => Some(binds),
        Leaf::Value(value) if is_value_of(tree, branch, value) => Some(binds),
        Leaf::Word(word) if is_word_alone(tree, index, word) => Some(binds),
        Leaf::Change(hole) if changes_hole(tree, binds.of(hole), index) => Some(binds),
        Leaf::Hole(hole, sort) if is_sort(tree, branch, sort) => with_same(
            tree, binds, hole, index,
        ),
        _ => None,
    }
}

// The same for a row before any branches.
#[cycle(fits)]
fn passes(
    sight: &Sight<'_>,
    more: &[Step],
    span: Span,
    left: &Left<'_>,
    binds: Binds,
    found: &mut Vec<Binds>,
) -> Result<(), AllocError>
    ensures { IfOk result (λ done. found.new.items
        ≡ found.old.items ++ flat_map (λ end. fits_in sight.now 0 more.now span.begin end (rows_left left.now) binds)
        (ends_of sight.now.tree.rows.now MOST_PASSED span.begin span.end)) }
{
    let mut end = span.end;
    for _ in 0..MOST_PASSED {
        let here = Span {
            begin: span.begin,
            end,
        };
        fits(sight, more, here, &*left, binds, found)?;
        if end <= span.begin {
            return Ok(());
        }
        end = start_of(sight.tree.rows, end);
    }
    Ok(())
}

// Where the branch begins that is right before this one.
fn start_of(rows: &[Branch], end: usize) -> usize
    ensures { result ≡ start_of rows.now end }
{
    branch_at(rows, end.saturating_sub(1)).begin
}

// What is left of a row before its last branch.
fn before(sight: &Sight<'_>, span: Span) -> Span
    ensures begin { result.begin ≡ span.begin }
    ensures end { result.end ≡ start_of sight.now.tree.rows.now span.end }
{
    Span {
        begin: span.begin,
        end: start_of(sight.tree.rows, span.end),
    }
}

// The last branch of a row that ends here, or what stands in its parentheses.
fn seen_at(sight: &Sight<'_>, is_grouped: bool, end: usize) -> usize
    ensures { result ≡ seen_at sight.now is_grouped end }
{
    let index = end.saturating_sub(1);
    if sight.is_loose && !is_grouped {
        core_at(sight.tree.rows, index)
    } else {
        index
    }
}

fn is_grouped(kind: Kind) -> bool
    ensures { result ≡ is_grouped kind }
{
    matches!(kind, Kind::Node(Node::Grouped))
}

fn is_name_of(tree: &Tree<'_>, branch: Branch, name: &[u8]) -> bool
    ensures { result ≡ is_name_of tree.now branch name.now }
{
    match branch.kind {
        Kind::Node(Node::Name) => is_named(&lexeme_at(tree.lexemes, branch.token), name),
        _ => false,
    }
}

/// Whether a token is the name of these letters.
pub(crate) fn is_named(lexeme: &Lexeme, name: &[u8]) -> bool
    ensures { result ≡ is_named lexeme.now name.now }
{
    match lexeme {
        Lexeme::Name(own) => own.as_bytes() == name,
        _ => false,
    }
}

/// The first of these bytes, as many as this says.
pub(crate) fn name_in(bytes: &[u8; NAME_LEN], len: u8) -> &[u8]
    ensures { result.now ≡ take len bytes.now }
{
    bytes.get(..len as usize).unwrap_or(bytes)
}

fn is_value_of(tree: &Tree<'_>, branch: Branch, value: u16) -> bool
    ensures { result ≡ is_value_of tree.now branch value }
{
    match branch.kind {
        Kind::Node(Node::Constant) => is_same_lexeme(
            &lexeme_at(tree.lexemes, branch.token),
            &Lexeme::Number(value),
        ),
        _ => false,
    }
}

fn changes_hole(tree: &Tree<'_>, name: Option<usize>, index: usize) -> bool
    ensures { result ≡ changes_hole tree.now name index }
{
    match name {
        Some(name) => is_change(tree, name, index),
        None => false,
    }
}

// Whether a branch is a statement that is this word and a `;`.
fn is_word_alone(tree: &Tree<'_>, index: usize, word: Word) -> bool
    ensures { result ≡ is_word_alone tree.now index word }
{
    let branch = branch_at(tree.rows, index);
    matches!(branch.kind, Kind::Construct(Construct::Plain))
        && (branch.begin == index && is_word(word, &lexeme_at(tree.lexemes, branch.token)))
}

pub(crate) fn is_word(word: Word, lexeme: &Lexeme) -> bool
    ensures { result ≡ is_word word lexeme.now }
{
    match word {
        Word::Nothing => matches!(*lexeme, Lexeme::Semicolon),
        Word::Return => matches!(*lexeme, Lexeme::Keyword(Keyword::Return)),
        Word::Break => matches!(*lexeme, Lexeme::Keyword(Keyword::Break)),
        Word::Auto => matches!(*lexeme, Lexeme::Keyword(Keyword::Auto)),
        Word::Extrn => matches!(*lexeme, Lexeme::Keyword(Keyword::Extrn)),
    }
}

fn is_sort(tree: &Tree<'_>, branch: Branch, sort: Sort) -> bool
    ensures { result ≡ is_sort tree.now branch sort }
{
    match sort {
        Sort::Any => true,
        Sort::Name => matches!(branch.kind, Kind::Node(Node::Name)),
        Sort::Text => matches!(branch.kind, Kind::Node(Node::Text)),
        Sort::Constant => matches!(branch.kind, Kind::Node(Node::Constant)),
        Sort::Number => {
            matches!(branch.kind, Kind::Node(Node::Constant))
                && is_number(&lexeme_at(tree.lexemes, branch.token))
        }
        Sort::Character => {
            matches!(branch.kind, Kind::Node(Node::Constant))
                && !is_number(&lexeme_at(tree.lexemes, branch.token))
        }
    }
}

fn is_number(lexeme: &Lexeme) -> bool
    ensures { result ≡ is_number lexeme.now }
{
    matches!(*lexeme, Lexeme::Number(_))
}

// A hole stands for one branch, and where it comes again for one that is the same tree.
fn with_same(tree: &Tree<'_>, binds: Binds, hole: u8, index: usize) -> Option<Binds>
    ensures { result ≡ with_same tree.now binds hole index }
{
    match binds.of(hole) {
        None => Some(binds.with(hole, index)),
        Some(other) => {
            if is_same(tree, other, index) {
                Some(binds)
            } else {
                None
            }
        }
    }
}
