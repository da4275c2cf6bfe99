//! Callers of the public types and calls, as another program would have them: each once at concrete types, and those
//! that take a stream once with one of their own and once with one that is lent.
//!
//! They stand in a crate of their own since a check of a crate with its tests proves the crate once more.
#![tactic(auto)]

#[cfg(test)]
mod codes;
#[cfg(test)]
mod compilers;
#[cfg(test)]
mod drafts;
#[cfg(test)]
mod hosts;
#[cfg(test)]
mod programs;
#[cfg(test)]
mod sessions;
#[cfg(test)]
mod streams;
#[cfg(test)]
mod tokens;
#[cfg(test)]
mod words;
