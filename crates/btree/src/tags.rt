//! What stands in the row.

/// A construct of a source.
#[derive(Clone, Copy, PartialEq, Eq)]
pub enum Construct {
    Definition,
    /// What stands in braces, with them.
    Block,
    If,
    /// An `if` whose `else` has come. It begins as `If`.
    IfElse,
    While,
    /// Up to its block, which is in it.
    Switch,
    /// A label, a case, a default or a declaration, up to its `:` or `;`. A statement comes after it.
    Heading,
    /// A statement that none of the others is, up to its `;`.
    Plain,
    /// Parentheses of a condition or of parameters. They have no tags.
    Parens,
}

/// A tag of the row, as in a text with tags: a construct begins, a token stands there, or a construct ends.
#[derive(Clone, Copy, PartialEq, Eq)]
pub enum Tag {
    Begins(Construct),
    Token,
    /// The innermost construct ends.
    Ends,
}

/// How far the reading of a construct has come.
#[derive(Clone, Copy, PartialEq, Eq)]
pub enum Phase {
    /// A statement begins with the next token.
    Start,
    /// A statement is over. What waited for it is over, too, unless it is an `if` and `else` comes.
    Over,
    /// Between the first token of a construct and its `;` or `:`, or the `{` of a `switch`.
    Inside,
    /// Before the end of the parentheses after `if`, `while` or the name of a function.
    Condition,
}
