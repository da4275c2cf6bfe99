//! The compiler: a source's bytes in, its code text out, one definition a call.
#![tactic(auto)]

mod code_list;
mod code_out;
mod compiler;
mod compiling;
mod diagnostic;
mod step;
mod view;
mod watcher;

pub use bemit::{EntryKind, NameEntry};
pub use blang::status::{self, Status};
pub use code_out::CodeOut;
pub use compiler::Compiler;
pub use compiling::{
    compile, compile_definitions, compile_edition, compile_list, compile_watched, rows_of_names,
    wrong_compilings_are_excluded,
};
pub use diagnostic::write_diagnostic;
pub use step::Step;
pub use watcher::{Unwatched, Watcher};
