//! The steps of a program, written for people, and where its run was over.
#![tactic(auto)]

mod legend;
mod locating;
mod looping;
mod places;
mod rows;
mod tracer;
mod tracing;

pub use legend::Legend;
pub use locating::{locate, tell_site, the_place_is_told, wrong_places_are_excluded};
pub use places::{push_site, push_source};
pub use tracing::{TraceRequest, trace, wrong_traces_are_excluded};
