//! Runs that tell a word that was never set, and an address off its vector.
#![tactic(auto)]

mod atlas;
mod care;
mod careful;
mod effect;
mod finding;
mod first;
mod marks;
mod moment;
mod naming;
mod recorded;
mod telling;
mod thing;
mod warnings;
mod watching;

pub use care::{Care, CarefulRequest};
pub use careful::{go_careful, wrong_careful_runs_are_excluded};
pub use first::{SilentRun, find_first};
pub use watching::careful_runs_stay_at_the_first_finding;
