//! Sources in several files: their bytes one after the other, and the file in which a line of the whole lies.
#![tactic(auto)]

mod files;
mod following;
mod joined_in;

pub use files::{FileLine, SourceFile, SourceFiles, lines_lie_in_their_files};
pub use following::{Following, LaterFile};
pub use joined_in::JoinedIn;
