//! What compiles and is probably a mistake: one cut of a source, one tree for each function, and rules over both.
#![tactic(auto)]

mod cautions;
mod chains;
mod check_rules;
mod cutting;
mod defined;
mod flow;
mod forms;
mod functions;
mod linting;
mod locals;
mod matched;
mod numbers;
mod octals;
mod remarks;
mod spelling;
mod telling;
mod tokens;
mod tree;
mod warnings;

pub use bmatch::TokenPlace;
pub use cautions::{Caution, Program};
pub use cutting::{CutSource, cut};
pub use linting::lint;
pub use spelling::is_near;
pub use warnings::{Slip, Warning};
