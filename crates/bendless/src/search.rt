//! Looking for a state that comes again.
ghost use Rattle.std.specs.Prelude.{◌≡◌, ◌++◌, ◌≤◌, List, ℕ, IfSome, [], length, true};
ghost use Rattle.blang.specs.Machine.{run, steps};
ghost use Rattle.blang.specs.declared.run.Outcome.TheVariants as outcomes;
ghost use Rattle.bword.specs.Words.{zeros};
ghost use Rattle.bmach.specs.Stepping.{machine_at};
ghost use Rattle.bendless.specs.Recordings.{is_whole};
ghost use Rattle.bendless.specs.Repeats.{Repeats};

use crate::kept::Kept;
use crate::recorder::{Extent, Record};
use crate::replay::Replay;
use bmach::{Active, Image, Outcome, Stepper};
use bpages::PagedStore;
use bword::{MemOut, Store};
use std::alloc::Global;

/// How many steps are made at most to find a state that comes again.
pub const MOST_STEPS: u64 = 10_000_000;

/// How many states are kept at most, one after another.
const MOST_KEPT: u32 = 5000;

/// A state of a run that came again.
#[derive(Clone, Copy)]
pub struct Repeat {
    /// After so many steps the run was in it.
    pub first: u64,
    /// After so many it was in it again.
    pub again: u64,
    /// The call that runs there. The steps between never return from it.
    pub call: Active,
    /// How many calls are below it.
    pub callers: usize,
}

/// Looks for a state that comes again in a run of a program that came to its limit.
///
/// None is looked for where a part of what was read isn't kept. Where memory is refused, the search is given up.
pub fn repeat_of(alloc: Global, image: &Image, read: &Record, outcome: Outcome) -> Option<Repeat>
    requires { length image.now.words ≤ 65536 }
    ensures limit { IfSome result (λ r. outcome ≡ outcomes.Limit) }
    ensures whole { IfSome result (λ r. is_whole read.now.extent ≡ true) }
    ensures repeats { IfSome result (λ r. (more : List ℕ) → (read.now.is_over ≡ true → more ≡ [])
        → Repeats (run image.now (read.now.bytes.items ++ more)) r) }
{
    match (outcome, read.extent) {
        (Outcome::Limit, Extent::Whole) => {
            let store = PagedStore::new(alloc).ok()?;
            find_repeat(alloc, image, store, read.bytes.as_slice(), read.is_over)
        }
        _ => None,
    }
}

// The same on a store whose words are all 0. Nothing of the output is written.
//
// It reads these bytes, and the end after them, if it is known. The search is given up where more would be read, and
// after `MOST_STEPS`.
fn find_repeat<S: Store + Drop>(
    alloc: Global,
    image: &Image,
    store: S,
    bytes: &[u8],
    has_end: bool,
) -> Option<Repeat>
    requires zeros { S.words store ≡ zeros }
    requires fits { length image.now.words ≤ 65536 }
    ensures { IfSome result (λ r. (more : List ℕ) → (has_end ≡ true → more ≡ [])
        → Repeats (run image.now (bytes.now ++ more)) r) }
{
    match Stepper::begin(alloc, image, store) {
        Ok(stepper) => search(alloc, stepper, bytes, has_end),
        Err(_) => None,
    }
}

// The same for a run before its first step.
fn search<S: Store + Drop>(
    alloc: Global,
    mut stepper: Stepper<'_, S>,
    bytes: &[u8],
    has_end: bool,
) -> Option<Repeat>
    requires { length stepper.store ≡ 65536 }
    ensures { IfSome result (λ r. (more : List ℕ) → (has_end ≡ true → more ≡ [])
        → Repeats (λ n. steps stepper.entry.image n (machine_at stepper.entry (bytes.now ++ more) [])) r) }
{
    let mut input = Replay::new(bytes, has_end);
    let mut kept = Kept::of(alloc, &stepper, bytes.len(), 0).ok()?;
    let mut count = 1;
    for made in 0..MOST_STEPS {
        let mut out = MemOut::new(alloc);
        match stepper.step(&mut input, &mut out) {
            Ok(()) => {}
            Err(_) => return None,
        }
        let left = input.left();
        // The state that is kept can't come again once its call has returned.
        if stepper.callers() >= kept.callers {
            if kept.is_at(&stepper, left) {
                return Some(kept.again(made + 1));
            }
            if made - kept.made < kept.made {
                continue;
            }
        }
        if count == MOST_KEPT {
            return None;
        }
        count += 1;
        kept = Kept::of(alloc, &stepper, left, made + 1).ok()?;
    }
    None
}
