//! Rules over the tree of a source: patterns of B with holes, and at which tokens they fit.
#![tactic(auto)]

mod asking;
mod binds;
mod changes;
mod conditions;
mod counting;
mod fits;
mod growing;
mod holds;
mod noticing;
mod pattern;
mod same;
mod tree;

pub use asking::sign_number;
pub use binds::Binds;
pub use conditions::{Claim, Measure, Relation, Scope, Test};
pub use fits::{Sight, Span};
pub use growing::grown;
pub use holds::Site;
pub use noticing::{MOST_BRANCHES, MOST_IN_ALL, Notice, notices_of};
pub use pattern::{Leaf, MOST_HOLES, NO_HOLE, ROOT, Rule, RuleTable, Sort, Spot, Step, Word};
pub use tree::{Branch, Kind, TokenPlace, Tree, branch_at, lexeme_at};
