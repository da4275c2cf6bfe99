//! What else is asked of what a pattern fits.
use crate::pattern::Word;
use bword::NAME_LEN;

/// A step of a condition. Each holds with what those before it have bound, and may bind holes that stand for nothing yet.
/// A pattern stands in it by its first step.
#[derive(Clone, Copy)]
pub enum Claim {
    /// Nothing else has to hold.
    End,
    /// The next claims, up to their `End`, don't hold. Those that come after so many are asked then.
    Not(u16),
    /// The next claims hold, or those that come after so many.
    Either(u16),
    /// So many claims are passed over.
    Jump(u16),
    /// The claims that come after so many hold where their first holes stand for what these four do. What their other
    /// holes stand for isn't seen here.
    Call(u16, u8, u8, u8, u8),
    /// What a hole stands for fits a pattern.
    Is(u8, u16),
    /// Some branch in a scope fits a pattern. A hole stands for that branch; `NO_HOLE` is none.
    Some(Scope, u8, u16),
    /// What changes the name of a hole last, before what was found, fits a pattern.
    Begun(u8, u16),
    /// A test of the holes and of the tokens.
    Test(Test),
}

/// Where branches are sought.
#[derive(Clone, Copy)]
pub enum Scope {
    /// In the whole source.
    Program,
    /// In the whole source, but only what is a definition.
    Definitions,
    /// In the function around.
    Function,
    /// In the innermost loop around what was found.
    Loop,
    /// In the function, before what was found, or after it.
    Before,
    After,
    /// Around what was found.
    Around,
    /// In what a hole stands for.
    Hole(u8),
    /// In what a hole stands for, but not in a loop or a `switch` that is in it.
    Own(u8),
}

#[derive(Clone, Copy)]
pub enum Relation {
    Equal,
    Unequal,
    Less,
    AtMost,
    Greater,
    AtLeast,
}

/// A number that a rule compares.
#[derive(Clone, Copy)]
pub enum Measure {
    Number(u16),
    /// The value of a hole that is a constant.
    Value(u8),
    /// The product of two such values.
    Product(u8, u8),
    /// How many bytes of the source a hole's first token has, with its quotes.
    Bytes(u8),
    /// How many arguments a call has, or how many parameters a definition.
    Arguments(u8),
    /// Which argument of a call, or which parameter of a definition, a hole is, from 1.
    Place(u8, u8),
    /// How many characters with their end a vector with this last index has room for.
    Room(u8),
    /// How many characters a string has at least.
    Letters(u8),
    /// The number of a hole's first token, and its line.
    Token(u8),
    Line(u8),
    /// How far it is indented, where it is the first one of its line. A tab counts as eight blanks.
    Indent(u8),
    /// How many words a vector has, where the name of a hole declares or defines it.
    Size(u8),
    /// The number that stands after the name of a hole.
    Given(u8),
    /// The sum of two values.
    Sum(u8, u8),
    /// What is left where the first of two values is divided by the second.
    Remainder(u8, u8),
    /// What is left where the difference of the first two values is divided by the third.
    Remains(u8, u8, u8),
}

/// A test of the holes and of the tokens.
#[derive(Clone, Copy)]
pub enum Test {
    /// Nothing is called or changed in it.
    Quiet(u8),
    /// Two numbers compare so, where both are there.
    Compares(Measure, Relation, Measure),
    /// It has a backslash and then n, t, r, 0 or a backslash.
    Backslash(u8),
    /// Its first token is this word.
    Begins(u8, Word),
    /// The token that is told stands directly before the next one.
    Joined,
    /// A token of this sign number comes after the one that is told.
    Followed(u16),
    /// The token before the one that is told is an operator.
    AfterOperator,
    /// It is the name of the function around.
    OwnName(u8),
    /// It is a parameter of the function around.
    Parameter(u8),
    /// It is a label, a case or a default.
    Heading(u8),
    /// A token of this sign number comes after its last one.
    Next(u8, u16),
    /// It is the name of the first of these bytes, as many as this says. It may be no name in a pattern.
    Spelled(u8, [u8; NAME_LEN], u8),
    /// It is the name with which a definition begins.
    Defines(u8),
    /// A number below 0, or a minus, stands after its first token, before the next `;`.
    Negative(u8),
    /// The first is in the second, or is it.
    Inside(u8, u8),
    /// The first ends before the second begins.
    Precedes(u8, u8),
    /// It is all that a statement does.
    Dropped(u8),
}
