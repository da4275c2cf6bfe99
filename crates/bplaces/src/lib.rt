//! Lines and columns along a source: in bytes, and in units of UTF-16.
#![tactic(auto)]

mod columns;
mod units;

pub use columns::{next_column, next_line};
pub use units::UnitPlace;
