//! Code that is checked before it runs.
#![tactic(auto)]

mod flaws;
mod search;
mod verifying;

ghost use Rattle.bverify.specs.Stands.{FittingCodeIsNeverStuck};

pub use flaws::{Flaw, PlacedFlaw, Verified, verify_function};
pub use verifying::{verify, verify_text};

/// Code whose functions have as many operands as their instructions take, at each place the same by every way, never
/// lacks an operand or an instruction: no run of it ends with the trap `sk`.
pub fn fitting_code_is_never_stuck()
    ensures { FittingCodeIsNeverStuck }
{}
