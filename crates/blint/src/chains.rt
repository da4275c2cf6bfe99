//! Chains of `if` and `else` that are others than they look.
use crate::remarks::Remark;
use crate::tree::Tree;
use crate::warnings::Warning;
use blang::Keyword;
use blex::Lexeme;
use bmatch::Kind;
use btree::Construct;

/// How many levels around an `else` are looked at.
const MOST_LEVELS: usize = 64;

/// What is found of an `else` that stands like an `if` around its own, which has none.
pub(crate) fn dangling(tree: &Tree<'_>, index: usize) -> Option<Remark> {
    let first = tree.at(index).first;
    let other = else_of(tree, index)?;
    let blanks = tree.tokens.indentation(other)?;
    if tree.tokens.line_blanks(first) == blanks {
        return None;
    }
    let mut around = tree.parent(index);
    for _ in 0..MOST_LEVELS {
        let outer = tree.at(around);
        let is_if = match outer.kind {
            Kind::Construct(Construct::If) => else_of(tree, around).is_none(),
            Kind::Construct(Construct::While) => false,
            _ => return None,
        };
        if is_if && tree.tokens.line_blanks(outer.first) == blanks {
            return Remark::beside(other, Warning::DanglingElse, first);
        }
        around = tree.parent(around);
    }
    None
}

// The `else` of an `if`, which stands before one of its parts.
fn else_of(tree: &Tree<'_>, index: usize) -> Option<usize> {
    let mut part = tree.last_part(index);
    for _ in 0..index {
        let before = tree.at(part?).first.wrapping_sub(1);
        if tree.tokens.at(before) == Lexeme::Keyword(Keyword::Else) {
            return Some(before);
        }
        part = tree.part_before(index, part?);
    }
    None
}
