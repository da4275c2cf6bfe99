//! Patterns of B with holes, and rules of them.
ghost use Rattle.std.specs.Prelude.{◌≡◌, drop};

use crate::conditions::Claim;
use crate::tree::Kind;
use bword::NAME_LEN;

/// How many holes a rule may have, with the one for what the whole pattern stands for.
pub const MOST_HOLES: u8 = 16;

/// The number of no hole.
pub const NO_HOLE: u8 = MOST_HOLES;

/// The hole that stands for what the whole pattern fits.
pub const ROOT: u8 = 15;

/// A step of a pattern. The steps of a row of branches speak of the last branch first, and end with `Done`.
#[derive(Clone, Copy)]
pub enum Step {
    /// The row has no more branches.
    Done,
    /// A branch of this kind. The steps for what is in it come next, up to their `Done`, and then those for what is
    /// before it.
    Tree(Kind),
    /// The same for each kind from the first one to the last, in the order of their numbers.
    Range(Kind, Kind),
    /// A branch of these kinds with two sides. The steps for its right side come next, up to their `Done`, those for
    /// its left side, up to theirs, and then those for what is before it. Where a part in parentheses is no other than
    /// one without, its sides may be exchanged, too, as in `b > a` for `a < b`. Where this is `true`, its operator is
    /// told.
    Sides(Kind, Kind, bool),
    /// A branch that is this.
    Leaf(Leaf),
    /// A token is told.
    Told(Spot),
    /// Any branches.
    Dots,
    /// The next steps fit, or those that come after so many.
    Either(u16),
    /// So many steps are passed over.
    Jump(u16),
}

/// Which token is told.
#[derive(Clone, Copy)]
pub enum Spot {
    /// The first one of the next branch.
    First,
    /// The one that makes the branch whose parts the row is. This is the first step of the row.
    Maker,
    /// The `else` before the next branch.
    Else,
}

/// A pattern without parts.
#[derive(Clone, Copy)]
pub enum Leaf {
    /// The name of the first of these bytes, as many as this says.
    Name([u8; NAME_LEN], u8),
    /// A number or a character of this value.
    Value(u16),
    /// A statement that is one word and a `;`.
    Word(Word),
    /// A branch that changes the name for which a hole stands.
    Change(u8),
    /// Any branch of a sort. What a hole stands for is the same wherever it comes.
    Hole(u8, Sort),
}

/// The word with which a statement begins.
#[derive(Clone, Copy)]
pub enum Word {
    /// `;` alone.
    Nothing,
    Return,
    Break,
    Auto,
    Extrn,
}

/// What a hole may stand for.
#[derive(Clone, Copy)]
pub enum Sort {
    Any,
    Name,
    Number,
    Character,
    /// A number or a character.
    Constant,
    Text,
}

/// A rule: where its pattern fits, and its condition holds.
#[derive(Clone, Copy)]
pub struct Rule {
    /// Its number in its table, from 0.
    pub number: usize,
    /// Its first step, and its first claim.
    pub pattern: u16,
    pub condition: u16,
    /// The hole whose first token has the name of which it speaks, and the hole of a second place; or `NO_HOLE`.
    pub named: u8,
    pub beside: u8,
    /// Whether a part in parentheses is no other than one without: else parentheses fit parentheses alone.
    pub is_loose: bool,
    /// Whether its condition looks at more than what was found, so that it isn't asked in a very long function.
    pub looks_around: bool,
    /// Whether it looks at the whole source, so that it isn't asked in a long one.
    pub looks_far: bool,
}

/// Rules, with the steps and the claims of all of them.
#[derive(Clone, Copy)]
pub struct RuleTable<'a> {
    pub steps: &'a [Step],
    pub claims: &'a [Claim],
    pub rules: &'a [Rule],
}

/// The steps from one on.
pub(crate) fn steps_from(steps: &[Step], at: u16) -> &[Step]
    ensures { result.now ≡ drop at steps.now }
{
    steps.get(at as usize..).unwrap_or(&[])
}

/// The claims from one on.
pub(crate) fn claims_from(claims: &[Claim], at: u16) -> &[Claim]
    ensures { result.now ≡ drop at claims.now }
{
    claims.get(at as usize..).unwrap_or(&[])
}
