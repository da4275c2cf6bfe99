//! Before which steps of a run a slice stops, as a debugger asks for it: breakpoints, watched words, and returns.
ghost use Rattle.std.specs.List.{list_any};
ghost use Rattle.std.specs.Prelude.{◌≡◌};
ghost use Rattle.bsession.specs.Stops.{has_changed, is_at, stops_before, stops_shown};

use bmach::{Active, Stepper};
use bpages::PagedStore;

/// An instruction: a function, by the address of its first string word, and a place in it.
#[repr(C)]
#[derive(Clone, Copy)]
pub struct CodePlace {
    pub strings: u32,
    pub place: usize,
}

/// A watched word: its address, and what it was.
#[repr(C)]
#[derive(Clone, Copy)]
pub struct WatchedWord {
    pub address: u16,
    pub word: u16,
}

/// Before which steps a slice stops.
#[repr(C)]
#[derive(Clone, Copy)]
pub struct Stops<'a> {
    /// Before the one at such a place, whatever calls are active: a breakpoint.
    pub places: &'a [CodePlace],
    /// Before the one at such a place, where no more calls than `callers` are below: the lines to which a step over
    /// leads.
    pub near: &'a [CodePlace],
    pub callers: usize,
    /// Where fewer calls than this are below: the function has returned.
    pub returned: usize,
    /// Where such a word is another one: a watchpoint.
    pub words: &'a [WatchedWord],
}

/// Whether a slice stops before the next step of a run.
pub(crate) fn stops_before(stops: Stops<'_>, stepper: &Stepper<'_, PagedStore>) -> bool
    ensures { result ≡ stops_before (stops_shown stops.entry) stepper.now }
{
    let callers = stepper.callers();
    callers < stops.returned
        || is_among(stops.places, stepper.top())
        || callers <= stops.callers && is_among(stops.near, stepper.top())
        || has_changed(stops.words, stepper)
}

// Whether a call goes on at one of these places.
fn is_among(places: &[CodePlace], call: Active) -> bool
    ensures { result ≡ list_any (is_at call) places.now }
{
    for place in places {
        if call.strings == place.strings && call.place == place.place {
            return true;
        }
    }
    false
}

// Whether one of these words is another one now.
fn has_changed(words: &[WatchedWord], stepper: &Stepper<'_, PagedStore>) -> bool
    ensures { result ≡ list_any (has_changed stepper.now.store) words.now }
{
    for watched in words {
        if stepper.word(watched.address) != watched.word {
            return true;
        }
    }
    false
}
