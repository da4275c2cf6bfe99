//! A store of words whose pages are made when a word is first put into them.
#![tactic(auto)]

mod paged_store;

pub use paged_store::PagedStore;
