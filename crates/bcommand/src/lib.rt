//! What the words of a command line ask for.
#![tactic(auto)]

mod commands;
mod job;
mod parsing;
mod texts;
mod words;

pub use job::{
    Care, Clash, Display, Job, MadeNames, OriginNames, Question, Rows, Search, SourceNames, Walk,
};
pub use parsing::{job_of, parse};
pub use texts::{UNREAD, clash_text};
pub use words::full_words;
