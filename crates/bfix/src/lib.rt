//! Mending a source wherever that needs no choice, also an old one that is ported.
#![tactic(auto)]

mod due;
mod edits;
mod fixing;
mod keeping;
mod porting;

pub use fixing::{FixedText, fix, fixed, wrong_fixes_are_excluded};
pub use porting::port;
