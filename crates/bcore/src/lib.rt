//! The core of the program `b`: its command line, its process, and the jobs to compile and to run.
#![tactic(auto)]

mod block;
mod process;
mod serving;
mod shelf;
mod sources;
mod tools;

pub use block::{Block, Buffered, Finish};
pub use process::{
    Answering, Output, OutputEnd, Served, Streams, Task, core_is_answered, serve_host,
    serve_process,
};
pub use serving::{name_file, refuse_words, serve, serve_with};
pub use shelf::{FileFault, MemFile, Shelf, SystemFiles};
pub use sources::{NamedFault, Unread, Whole, read_source};
pub use tools::{LACKS_TOOL, NoTools, ToolJob, Tools};
