//! The parser, which compiles a definition while it reads it.
#![tactic(auto)]

mod definitions;
mod halt;
mod header;
mod heading;
mod mark;
mod operators;
mod parser;
mod statement;
mod take;
mod tokens;

pub use definitions::definition;
pub use halt::Halt;
pub use header::{DefinitionHead, HeadKind};
pub use mark::Mark;
pub use parser::Parser;
pub use tokens::Tokens;
