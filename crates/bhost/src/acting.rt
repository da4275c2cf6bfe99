//! What is done with a session.
ghost use Rattle.std.specs.Prelude.{◌≡◌, Some};
ghost use Rattle.bhost.specs.Deeds.{Acts, Allows, Begins, Does, IsFed, NamesFunction, IsStored, IsTaken, placed_at, stands_at};
ghost use Rattle.bhost.specs.Deeds.{frame_at, frame_of};

use crate::desk::{Answer, Deed, Desk, Frame, Standing};
use crate::found::{column_at, function_at, line_at};
use crate::loaded::LoadedProgram;
use crate::place::Place;
use crate::runs::Runs;
use crate::symbols::tell;
use bmach::Active;
use bsession::{FeedFault, Session, Stops};
use std::alloc::Global;

/// Does with a session what is asked for on the desk.
pub(crate) fn act_on<'a>(
    place: Place<Runs<'a>, Global>,
    loaded: &'a LoadedProgram,
    desk: Desk,
) -> (Place<Runs<'a>, Global>, Desk)
    requires { Allows desk.deed place.value }
    ensures { Acts desk.deed desk.bytes.items (Some loaded.now) place.entry.value result.0.value result.1.bytes.items result.1.answer }
{
    let mut desk = desk;
    match &desk.deed {
        Deed::Begin => {
            place.forget();
            let (place, answer) = begin(desk.alloc, loaded);
            desk.answer = answer;
            (place, desk)
        }
        Deed::End => {
            drop(place.into_box());
            desk.answer = Answer::Done;
            (Place::none(desk.alloc), desk)
        }
        Deed::Name(strings) => {
            desk.answer = tell_name(loaded, *strings, &mut desk.bytes);
            (place, desk)
        }
        Deed::Tell(query) => {
            desk.answer = tell(loaded, query);
            (place, desk)
        }
        Deed::Continue(_)
        | Deed::ContinueTo(_, _)
        | Deed::Limit(_)
        | Deed::Feed
        | Deed::Close
        | Deed::Take(_)
        | Deed::Look
        | Deed::Frame(_)
        | Deed::Read(_)
        | Deed::Store(_, _) => {
            let mut runs = place.into_box();
            act_within(&mut runs.session, loaded, &mut desk);
            (Place::of(runs), desk)
        }
        Deed::Copy => {
            let mut runs = place.into_box();
            desk.answer = runs.copy(desk.alloc);
            (Place::of(runs), desk)
        }
        Deed::Swap(number) => {
            let mut runs = place.into_box();
            desk.answer = runs.swap(*number);
            (Place::of(runs), desk)
        }
        Deed::Forget(number) => {
            let mut runs = place.into_box();
            desk.answer = runs.forget(*number);
            (Place::of(runs), desk)
        }
    }
}

// Begins a run.
fn begin<'a>(alloc: Global, loaded: &'a LoadedProgram) -> (Place<Runs<'a>, Global>, Answer)
    ensures { Begins loaded.now.program.image result.0.value result.1 }
{
    match Session::start(alloc, &loaded.program.image) {
        Err(outcome) => (Place::none(alloc), Answer::Unbegun(outcome)),
        Ok(session) => match Box::new(alloc, Runs::of(alloc, session)) {
            Ok(runs) => (Place::of(runs), Answer::Done),
            Err(_) => (Place::none(alloc), Answer::Refused),
        },
    }
}

// Does something between or in two slices of a run.
fn act_within(session: &mut Session<'_>, loaded: &LoadedProgram, desk: &mut Desk)
    ensures { Does desk.old.deed loaded.now session.old session.new desk.old.bytes.items desk.new.bytes.items desk.new.answer }
{
    desk.answer = match &desk.deed {
        Deed::Continue(steps) => Answer::Ended(session.continue_for(*steps)),
        Deed::ContinueTo(list, steps) => {
            let stops = Stops {
                places: list.places.as_slice(),
                near: list.near.as_slice(),
                callers: list.callers,
                returned: list.returned,
                words: list.words.as_slice(),
            };
            Answer::Walked(session.continue_to(stops, *steps))
        }
        Deed::Limit(limits) => {
            session.set_limits(*limits);
            Answer::Done
        }
        Deed::Feed => feed(session, desk.bytes.as_slice()),
        Deed::Take(count) => take(session, desk.alloc, *count, &mut desk.bytes),
        Deed::Look => look(session, loaded),
        Deed::Frame(number) => frame(session, loaded, *number),
        Deed::Read(address) => match session.word(*address) {
            Some(word) => Answer::Word(word),
            None => Answer::Refused,
        },
        Deed::Store(address, word) => store(session, *address, *word),
        Deed::Close => {
            session.close_input();
            Answer::Done
        }
        Deed::Begin
        | Deed::End
        | Deed::Name(_)
        | Deed::Tell(_)
        | Deed::Copy
        | Deed::Swap(_)
        | Deed::Forget(_) => Answer::Done,
    };
}

// Feeds bytes.
fn feed(session: &mut Session<'_>, bytes: &[u8]) -> Answer
    ensures { IsFed session.old session.new bytes.now result }
{
    match session.feed(bytes) {
        Ok(()) => Answer::Done,
        Err(FeedFault::Closed) => Answer::Closed,
        Err(FeedFault::Memory) => Answer::Refused,
    }
}

// Takes so many bytes of the output.
fn take(session: &mut Session<'_>, alloc: Global, count: usize, bytes: &mut Vec<u8>) -> Answer
    ensures { IsTaken session.old session.new count bytes.new.items result }
{
    bytes.clear();
    let output = session.output();
    let taken = &output[..output.len().min(count)];
    if !taken.is_empty() && bytes.extend_from_slice(taken).is_err() {
        return Answer::Refused;
    }
    session.take_output(alloc, count);
    Answer::Done
}

// Tells where a run stands.
fn look(session: &Session<'_>, loaded: &LoadedProgram) -> Answer
    ensures { result ≡ stands_at loaded.now session.now }
{
    let Some(call) = session.call() else {
        return Answer::Refused;
    };
    let found = function_at(&loaded.program, call.strings);
    Answer::Stands(Standing {
        strings: call.strings,
        place: call.place,
        callers: session.callers(),
        steps: session.steps(),
        line: line_at(found, call.place),
        column: column_at(found, call.place),
    })
}

// Tells of an active call.
fn frame(session: &Session<'_>, loaded: &LoadedProgram, number: usize) -> Answer
    ensures { result ≡ frame_at loaded.now session.now.state number }
{
    let Some(running) = session.call() else {
        return Answer::Refused;
    };
    if number == 0 {
        return Answer::Calls(frame_of(loaded, running, running.place));
    }
    match session.caller(number - 1) {
        Some(call) => Answer::Calls(frame_of(loaded, call, call.place.saturating_sub(1))),
        None => Answer::Missing,
    }
}

// A call, with the line and the column of one of its instructions.
fn frame_of(loaded: &LoadedProgram, call: Active, shown: usize) -> Frame
    ensures { result ≡ frame_of loaded.now call shown }
{
    let found = function_at(&loaded.program, call.strings);
    Frame {
        strings: call.strings,
        place: call.place,
        start: call.start,
        parameters: call.parameters,
        line: line_at(found, shown),
        column: column_at(found, shown),
    }
}

// Puts the name of a function on the desk.
fn tell_name(loaded: &LoadedProgram, strings: u32, bytes: &mut Vec<u8>) -> Answer
    ensures { NamesFunction (placed_at loaded.now strings) bytes.new.items result }
{
    bytes.clear();
    let Some(found) = function_at(&loaded.program, strings) else {
        return Answer::Missing;
    };
    match bytes.extend_from_slice(found.parts.name.as_bytes()) {
        Ok(()) => Answer::Done,
        Err(_) => Answer::Refused,
    }
}

// Stores a word.
fn store(session: &mut Session<'_>, address: u16, word: u16) -> Answer
    ensures { IsStored session.old session.new address word result }
{
    match session.set_word(address, word) {
        Ok(()) => Answer::Done,
        Err(_) => Answer::Refused,
    }
}
