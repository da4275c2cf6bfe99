//! The tools of the program `b`, and its command line with them.
#![tactic(auto)]

mod explaining;
mod finding;
mod origins;
mod serving;
mod trying;

pub use bcore::{FileFault, MemFile, Shelf, SystemFiles};
pub use serving::{
    AllTools, files_are_read, serve, serve_with, wrong_answers_are_excluded,
    wrong_processes_are_excluded,
};
