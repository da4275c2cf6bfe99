//! Laying a source out in the one style of the house.
#![tactic(auto)]

mod formatting;
mod gaps;
mod kind;
mod layout;
mod reading;
mod structure;

pub use formatting::{
    CHANGES, House, Style, a_check_is_of_what_is_written, format, wrong_layouts_are_excluded,
};
