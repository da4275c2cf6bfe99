//! Reads a text of rules into the rules that the engine knows.
#![tactic(auto)]

mod classes;
mod cleaning;
mod conditions;
mod cutting;
mod drawing;
mod faults;
mod holes;
mod patterns;
mod reading;
#[cfg(test)]
mod tests;
mod text;

pub use faults::{FaultReason, RuleFault};
pub use reading::{MOST_LINE, MOST_NAME, RuleName, Rules, read_rules};
