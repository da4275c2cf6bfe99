//! A run of a program, as one page to step through.
#![tactic(auto)]

mod careful;
mod ending;
mod escapes;
mod facts;
mod page;
mod parts;
mod recorder;
mod rows;
mod seen;
mod showing;

pub use careful::{show_careful, wrong_careful_pages_are_excluded};
pub use escapes::escaped_texts_stay_in_place;
pub use facts::own_texts_read_back;
pub use showing::{PageRequest, show, wrong_pages_are_excluded};
