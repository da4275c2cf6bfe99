//! The loader and the machine.
#![tactic(auto)]

mod act;
mod address_table;
mod addresses;
mod advance;
mod calls;
mod exchange;
mod fused;
mod image;
mod join;
mod loader;
mod machine;
mod number;
mod operands;
mod operation;
mod origin;
mod part;
mod parts;
mod quick;
mod ready;
mod resolve;
mod runs;
mod step;
mod stepper;
mod stored;
mod text;

pub use addresses::{FIRST_ADDRESS, LIBRARY};
pub use advance::MOST_STEPS;
use blang::Library;
pub use blang::{LoadFault, Outcome, Trap};
pub use image::Image;
pub use loader::{load, load_slice};
pub use machine::{Active, Stop};
pub use parts::{name_of, size_of};
pub use resolve::resolving_changes_no_run;
pub use runs::wrong_runs_are_excluded;
pub use stepper::{Stepper, run};
