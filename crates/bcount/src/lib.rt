//! How often each line of a program was made.
#![tactic(auto)]

mod counting;
mod lines;
mod marks;
mod source;
mod table;
mod tallies;

pub use counting::{Counting, count, steps_of_all_lines_add_up, wrong_counts_are_excluded};
pub use table::CountStyle;
