//! Tests of the program: long sources, streams that fail and command lines, each with what comes of it.
//!
//! They stand in a crate of their own since a check of a crate with its tests proves the crate once more.
#![tactic(auto)]

#[cfg(test)]
mod command_tests;
#[cfg(test)]
mod edition_tests;
#[cfg(test)]
mod end_tests;
#[cfg(test)]
mod failing_tests;
#[cfg(test)]
mod list_tests;
#[cfg(test)]
mod migrate_tests;
#[cfg(test)]
mod process_tests;
#[cfg(test)]
mod program_tests;
#[cfg(test)]
mod source_tests;
