//! Running a code text of any compiler, and telling where it went wrong.
#![tactic(auto)]

mod due;
mod form;
mod loading;
mod locating;
mod site;

pub use locating::locate_code;
