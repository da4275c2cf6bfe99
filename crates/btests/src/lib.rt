//! Tests of the public calls of the crates below the program, for what no contract says.
//!
//! They stand in a crate of their own since a check of a crate with its tests proves the crate once more.
#![tactic(auto)]

#[cfg(test)]
mod code_texts;
#[cfg(test)]
mod devices;
#[cfg(test)]
mod drafts;
#[cfg(test)]
mod forms;
#[cfg(test)]
mod loads;
#[cfg(test)]
mod names;
#[cfg(test)]
mod pages;
#[cfg(test)]
mod refusals;
#[cfg(test)]
mod runs;
#[cfg(test)]
mod tokens;
#[cfg(test)]
mod words;
