//! The names and constructs of a source: where each stands, and what it is bound to.
#![tactic(auto)]

mod binding;
mod fragments;
mod naming;
mod places;
mod reading;
mod roles;
mod rows;
mod telling;

pub use naming::{
    names_are_declared_as_scanned, names_are_looked_for_in_definitions,
    names_are_those_of_definitions, tell_names, tokens_are_those_of_the_source,
};
