//! The code of a source and its layout in memory, written for people.
#![tactic(auto)]

mod layout;
mod listing;
mod rows;
mod source_lines;

pub use layout::{map, wrong_maps_are_excluded};
pub use listing::{list, wrong_code_listings_are_excluded, wrong_listings_are_excluded};
