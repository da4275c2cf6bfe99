//! Runs that never end.
#![tactic(auto)]

mod endless;
mod idle;
mod kept;
mod looping;
mod recorder;
mod replay;
mod search;
mod telling;

ghost use Rattle.bmean.specs.Laws.{OfCode};
ghost use Rattle.bendless.specs.Endless.{NeverEnds, WantsForEver};
ghost use Rattle.bendless.specs.Repeats.{BackForEver};

pub use endless::{Endless, endless_of};
pub use recorder::{
    Extent, Record, RecordedRun, RecordedWatch, Recorder, run_recorded, watch_recorded,
};
pub use replay::Replay;
pub use search::{Repeat, repeat_of};
pub use telling::push_repeat;

/// Where a state comes again, but for what was written, the machine halts after no number of steps, and the program of
/// the code wants more fuel at every number. So it is with each state that is told as one that comes back, and the run
/// never returns from its call.
pub fn a_state_that_comes_again_never_ends()
    ensures machine { NeverEnds }
    ensures meaning { OfCode WantsForEver }
    ensures told { BackForEver }
{
    bmean::what_the_program_means_is_done();
}
