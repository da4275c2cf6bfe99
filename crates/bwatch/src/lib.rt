//! Running a program step by step, while somebody looks on.
#![tactic(auto)]

mod onlooker;
mod trail;
mod watching;

pub use onlooker::Onlooker;
pub use trail::{TraceRows, Trail};
pub use watching::{Watched, watch};
