//! Whether two branches are the same tree.
ghost use Rattle.std.specs.Prelude.{◌≡◌};
ghost use Rattle.bmatch.specs.Same.{are_same, is_same, is_same_branch, is_same_leaf, is_same_lexeme, constant_in};

use crate::tree::{Tree, branch_at, kind_number, lexeme_at};
use blex::Lexeme;

/// Whether two branches are the same tree. No string is the same as another one.
pub(crate) fn is_same(tree: &Tree<'_>, one: usize, other: usize) -> bool
    ensures { result ≡ is_same tree.now one other }
{
    let count = one.saturating_sub(branch_at(tree.rows, one).begin);
    let other_count = other.saturating_sub(branch_at(tree.rows, other).begin);
    count == other_count
        && (is_same_branch(tree, one, other)
            && are_same(tree, one.saturating_sub(1), other.saturating_sub(1), count))
}

// Whether so many branches up to these are the same.
fn are_same(tree: &Tree<'_>, one: usize, other: usize, count: usize) -> bool
    ensures { result ≡ are_same tree.now one other count }
{
    (0..count).all(|back| is_same_branch(
        tree,
        one.saturating_sub(back),
        other.saturating_sub(back),
    ))
}

fn is_same_branch(tree: &Tree<'_>, one: usize, other: usize) -> bool
    ensures { result ≡ is_same_branch tree.now one other }
{
    let (one, other) = (branch_at(tree.rows, one), branch_at(tree.rows, other));
    let number = kind_number(one.kind);
    number == kind_number(other.kind)
        && is_same_leaf(
            number,
            &lexeme_at(tree.lexemes, one.token),
            &lexeme_at(tree.lexemes, other.token),
        )
}

// Whether tokens are the same where branches of a kind are names, constants or strings.
fn is_same_leaf(number: u16, one: &Lexeme, other: &Lexeme) -> bool
    ensures { result ≡ is_same_leaf number one.now other.now }
{
    number > 2 || (number < 2 && is_same_lexeme(one, other))
}

/// Whether both are the same name or the same value.
pub(crate) fn is_same_lexeme(one: &Lexeme, other: &Lexeme) -> bool
    ensures { result ≡ is_same_lexeme one.now other.now }
{
    match (one, other) {
        (Lexeme::Name(one), Lexeme::Name(other)) => one == other,
        _ => match (constant_in(one), constant_in(other)) {
            (Some(one), Some(other)) => one == other,
            _ => false,
        },
    }
}

/// The value of a number or of a character.
pub(crate) fn constant_in(lexeme: &Lexeme) -> Option<u16>
    ensures { result ≡ constant_in lexeme.now }
{
    match *lexeme {
        Lexeme::Number(value) | Lexeme::Character(value) => Some(value),
        _ => None,
    }
}
