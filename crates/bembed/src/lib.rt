//! The compiler and the machine for programs in C, and in all that calls C: texts in, texts out.
//!
//! Each call writes in the rooms of its caller. A room too small is a write that failed.
#![tactic(auto)]

mod asking;
mod before;
mod calls;
mod joined;
mod loading;
mod looking;
mod room;
mod sessions;
mod symbols;
mod with_files;

pub use calls::wrong_rooms_are_excluded;
pub use joined::NamedFile;
