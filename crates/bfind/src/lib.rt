//! Where the rules of a reader, or a pattern, fit in a source.
#![tactic(auto)]

mod checking;
mod looking;
mod own;
mod telling;

pub use checking::{Ruled, check_by, find_in};
pub use own::{MOST_RULES, OwnRules, RuleWords, read_own, read_pattern};
