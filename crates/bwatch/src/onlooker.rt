//! Who looks on at a run.
ghost use Rattle.std.specs.Prelude.{◌≡◌, ℕ, ◌+◌, ◌<◌, ◌^◌, ◌++◌, OnOk};
ghost use Rattle.blang.specs.declared.run.Outcome.{Outcome};
ghost use Rattle.bwatch.specs.Sights.{Sights, sight_at};
ghost use Rattle.bwatch.specs.Watches.{Ending};

use bmach::{Stepper, Stop};
use bword::Store;
use std::alloc::AllocError;

/// Somebody who looks at a run before and after each of its steps, and where it ends.
pub trait Onlooker {
    // What becomes of it after so many steps, while the next one is made, and in the end.
    ghost has_seen: { (first now : Self) → Sights → (made : ℕ) → Type 0 };

    ghost awaits: { (first now : Self) → Sights → (made : ℕ) → Type 0 };

    ghost has_told: { (first now : Self) → Sights → (made : ℕ) → Outcome → Type 0 };

    /// Looks at a run before the step after so many.
    fn before<S: Store + Drop>(
        &mut self,
        stepper: &Stepper<'_, S>,
        made: u64,
    ) -> Result<(), AllocError>
        requires { made + 1 < 2 ^ 64 }
        ensures { OnOk result ((first : Self) (sights : Sights) → sights made ≡ sight_at stepper.now (sights made).output
            → has_seen first self.old sights made → awaits first self.new sights made) };

    /// Looks at a run after this step, which wrote these bytes and after which the run goes on.
    fn after<S: Store + Drop>(
        &mut self,
        stepper: &Stepper<'_, S>,
        made: u64,
        written: &[u8],
    ) -> Result<(), AllocError>
        requires { made + 1 < 2 ^ 64 }
        ensures { OnOk result ((first : Self) (sights : Sights) → sights (made + 1) ≡ sight_at stepper.now ((sights made).output ++ written.now)
            → awaits first self.old sights made → has_seen first self.new sights (made + 1)) };

    /// Looks at a run where it ends.
    fn end<S: Store + Drop>(
        &mut self,
        stepper: &Stepper<'_, S>,
        stop: Stop,
    ) -> Result<(), AllocError>
        ensures { OnOk result ((first : Self) (sights : Sights)
            → Ending stepper.now sights (has_seen first self.old sights) (awaits first self.old sights) stop.outcome stop
            → has_told first self.new sights stop.steps stop.outcome) };
}
