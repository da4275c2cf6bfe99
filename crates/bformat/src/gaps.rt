//! What stands between two tokens of a line.
use crate::kind::ItemKind;
use bword::is_name_byte;

/// What stands before a token.
#[derive(Clone, Copy, PartialEq, Eq)]
pub(crate) enum Gap {
    Nothing,
    Blank,
    /// A blank, or the end of a line where the source has one.
    Soft,
    /// The end of a line.
    Line,
    /// The end of a line, and an empty line where the source has one.
    Paragraph,
}

/// What a token is for the one after it.
#[derive(Clone, Copy, PartialEq, Eq)]
pub(crate) enum Role {
    /// An operand ends with it.
    Operand,
    /// `(` or `[`
    Open,
    Comma,
    /// An operator whose operand comes.
    Prefix,
    /// An operator between two operands, or a mark.
    Infix,
    Keyword,
}

/// The role of a token after one of another role.
pub(crate) fn role_of(kind: ItemKind, before: Role) -> Role {
    match kind {
        ItemKind::Word | ItemKind::CloseParen | ItemKind::CloseBracket => Role::Operand,
        ItemKind::OpenParen | ItemKind::OpenBracket => Role::Open,
        ItemKind::Comma => Role::Comma,
        ItemKind::Not => Role::Prefix,
        ItemKind::Sign if before != Role::Operand => Role::Prefix,
        ItemKind::Step if before == Role::Operand => Role::Operand,
        ItemKind::Step => Role::Prefix,
        ItemKind::Sign | ItemKind::Operator | ItemKind::Question | ItemKind::Colon => Role::Infix,
        _ => Role::Keyword,
    }
}

/// What stands before a token of this role, within a statement.
pub(crate) fn gap_before(before: Role, kind: ItemKind, role: Role) -> Gap {
    match kind {
        ItemKind::Comma
        | ItemKind::Semicolon
        | ItemKind::CloseParen
        | ItemKind::OpenBracket
        | ItemKind::CloseBracket => Gap::Nothing,
        ItemKind::OpenParen if before == Role::Operand || before == Role::Keyword => Gap::Nothing,
        ItemKind::Step if role == Role::Operand => Gap::Nothing,
        _ if role == Role::Infix => Gap::Soft,
        _ => match before {
            Role::Open | Role::Prefix => Gap::Nothing,
            Role::Comma | Role::Infix => Gap::Soft,
            Role::Operand | Role::Keyword => Gap::Blank,
        },
    }
}

/// Whether a token that ends with the one byte and a token that begins with the other one need a blank between them.
/// No other bytes are side by side: a blank is around an operator of two operands.
pub(crate) fn joins(last: u8, first: u8) -> bool {
    match (last, first) {
        (b'+', b'+') | (b'-', b'-') => true,
        _ => is_name_byte(last) && is_name_byte(first),
    }
}
