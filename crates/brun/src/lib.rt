//! Compiling a source and running its program, and running a code text.
#![tactic(auto)]

mod migrating;
mod report;
mod source;
mod text;

pub use migrating::{migrate, wrong_migrations_are_excluded};
pub use source::{go, go_edition, one_run_is_known};
pub use text::{finish, run_text};
