//! A session together with its program, for callers that know no lifetimes.
#![tactic(auto)]

mod acting;
pub mod calls;
mod desk;
mod found;
mod host;
mod loaded;
mod place;
mod runs;
pub mod symbols;

pub use desk::{Answer, Deed, Desk, Frame, Query, Standing, StopList, Symbol};
pub use host::Host;
pub use loaded::LoadedProgram;
pub use runs::Runs;
