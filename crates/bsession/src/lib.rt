//! A program that runs in slices, between which its input is fed, its output is taken, and its words can be seen.
#![tactic(auto)]

mod feed;
mod law;
mod pages;
mod session;
mod stops;
mod unstarted;

pub use law::{slices_are_one_run, two_slices_are_one};
pub use session::{FeedFault, Held, Limits, Session, SliceEnd, StopEnd};
pub use stops::{CodePlace, Stops, WatchedWord};
