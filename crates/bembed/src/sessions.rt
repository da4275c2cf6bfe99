//! Sessions: programs that stay in memory, and their runs, in slices.
ghost use Rattle.std.specs.Prelude.{◌≡◌, ◌≤◌, ⊤, ℕ, IsSome, List, None, [], drop, false, length, take, true};
ghost use Rattle.bhost.specs.Deeds.{ActsIfReady, is_ready};
ghost use Rattle.bhost.specs.Statuses.{Answers, GoesTo, answer_callers, answer_column, answer_frame, answer_function, answer_line, answer_place, answer_steps, answer_value, answer_word, name_status};
ghost use Rattle.bhost.specs.declared.desk.Answer.{Answer};
ghost use Rattle.bhost.specs.declared.desk.Deed.TheVariants as deed;
ghost use Rattle.bsession.specs.Stops.{stops_shown};
ghost use Rattle.bembed.specs.Calls.{edition_of};
ghost use Rattle.blang.specs.declared.status.TheConstants.{DONE};
ghost use Rattle.bembed.specs.Sessions.{IsEmpty, IsUnready, LoadsCode, LoadsSource};

use crate::calls::edition_of;
use bhost::calls::{
    UNREADY, Whereabouts, begin, close, column, copy, end, feed, forget, frame, go_on, go_to,
    limit, load, look, name_of, read, store, swap, take, unload,
};
use bhost::{Frame, Host};
use blang::status;
use bsession::{Limits, Stops};
use btools::{CodeText, Origin};
use std::alloc::Global;

/// Compiles a source, and puts its program in memory.
#[unsafe(no_mangle)]
pub extern "C" fn b_load(alloc: Global, source: &[u8], edition: u8, session: &mut Host) -> u8
    ensures loads { session.old.read ≡ None → LoadsSource (edition_of edition) source.now session.new result }
    ensures unready { IsSome session.old.read → IsUnready session.old session.new result }
{
    if session.has_program() {
        return UNREADY;
    }
    match edition_of(edition) {
        Some(edition) => load(alloc, source, Origin::Source(edition), session),
        None => {
            session.put(Host::none());
            status::WRONG_COMMAND
        }
    }
}

/// Reads a code text, and puts its program in memory.
#[unsafe(no_mangle)]
pub extern "C" fn b_load_code(alloc: Global, code: &[u8], session: &mut Host) -> u8
    ensures loads { session.old.read ≡ None → LoadsCode code.now session.new result }
    ensures unready { IsSome session.old.read → IsUnready session.old session.new result }
{
    if session.has_program() {
        return UNREADY;
    }
    let text = CodeText {
        code,
        lines: None,
        source: None,
        names: None,
    };
    load(alloc, b"", Origin::Code(text), session)
}

/// Begins a run of the program.
#[unsafe(no_mangle)]
pub extern "C" fn b_begin(alloc: Global, session: &mut Host) -> u8
    ensures program { session.new.read ≡ session.old.read }
    ensures begins { Answers deed.Begin [] session.old.read session.old.run session.new.run result (λ _ _. ⊤) }
{
    begin(alloc, session)
}

/// Makes so many steps at most.
#[unsafe(no_mangle)]
pub extern "C" fn b_continue(alloc: Global, session: &mut Host, steps: u64, value: &mut u8) -> u8
    ensures program { session.new.read ≡ session.old.read }
    ensures goes { Answers (deed.Continue steps) [] session.old.read session.old.run session.new.run result
        (λ _ told. value.new ≡ answer_value told) }
{
    go_on(alloc, session, steps, value)
}

/// Makes so many steps at most, up to the first one before which it stops.
#[unsafe(no_mangle)]
pub extern "C" fn b_continue_to(
    alloc: Global,
    session: &mut Host,
    stops: &Stops<'_>,
    steps: u64,
    value: &mut u8,
) -> u8
    ensures program { session.new.read ≡ session.old.read }
    ensures goes { GoesTo (stops_shown stops.now) steps session.old session.new result value.new }
{
    go_to(alloc, session, *stops, steps, value)
}

/// Tells of an active call: the running one has number 0, and the one that called it 1.
#[unsafe(no_mangle)]
pub extern "C" fn b_frame(alloc: Global, session: &mut Host, number: usize, told: &mut Frame) -> u8
    ensures program { session.new.read ≡ session.old.read }
    ensures tells { Answers (deed.Frame number) [] session.old.read session.old.run session.new.run result
        (λ _ answered. told.new ≡ answer_frame answered) }
{
    frame(alloc, session, number, told)
}

/// Sets how many operands, pages and bytes of output the run may hold.
#[unsafe(no_mangle)]
pub extern "C" fn b_limit(
    alloc: Global,
    session: &mut Host,
    operands: usize,
    pages: u16,
    output: usize,
) -> u8
    ensures program { session.new.read ≡ session.old.read }
    ensures limits { Answers (deed.Limit (record { operands = operands; pages = pages; output = output })) []
        session.old.read session.old.run session.new.run result (λ _ _. ⊤) }
{
    let limits = Limits {
        operands,
        pages,
        output,
    };
    limit(alloc, session, limits)
}

/// Adds bytes to the input.
#[unsafe(no_mangle)]
pub extern "C" fn b_feed(alloc: Global, session: &mut Host, bytes: &[u8]) -> u8
    ensures program { session.new.read ≡ session.old.read }
    ensures feeds { Answers deed.Feed bytes.now session.old.read session.old.run session.new.run result (λ _ _. ⊤) }
{
    feed(alloc, session, bytes)
}

/// Tells that no more input comes.
#[unsafe(no_mangle)]
pub extern "C" fn b_close_input(alloc: Global, session: &mut Host) -> u8
    ensures program { session.new.read ≡ session.old.read }
    ensures closes { Answers deed.Close [] session.old.read session.old.run session.new.run result (λ _ _. ⊤) }
{
    close(alloc, session)
}

/// Takes as much of the output as there is room for.
#[unsafe(no_mangle)]
pub extern "C" fn b_output(
    alloc: Global,
    session: &mut Host,
    room: &mut [u8],
    count: &mut usize,
) -> u8
    ensures program { session.new.read ≡ session.old.read }
    ensures takes { Answers (deed.Take (length room.old)) [] session.old.read session.old.run session.new.run result
        (λ after _. take count.new room.new ≡ take (length room.old) after) }
    ensures kept { drop count.new room.new ≡ drop count.new room.old }
    ensures within { count.new ≤ length room.old }
{
    take(alloc, session, room, count)
}

/// Tells where the run stands.
#[unsafe(no_mangle)]
pub extern "C" fn b_place(alloc: Global, session: &mut Host, there: &mut Whereabouts) -> u8
    ensures program { session.new.read ≡ session.old.read }
    ensures looks { Answers deed.Look [] session.old.read session.old.run session.new.run result
        (λ _ told. (there.new.function ≡ answer_function told) × (there.new.place ≡ answer_place told)
        × (there.new.callers ≡ answer_callers told) × (there.new.steps ≡ answer_steps told)
        × (there.new.line ≡ answer_line told)) }
{
    look(alloc, session, there)
}

/// Tells the column of the place where the run stands.
#[unsafe(no_mangle)]
pub extern "C" fn b_column(alloc: Global, session: &mut Host, told: &mut u64) -> u8
    ensures program { session.new.read ≡ session.old.read }
    ensures looks { Answers deed.Look [] session.old.read session.old.run session.new.run result
        (λ _ answered. told.new ≡ answer_column answered) }
{
    column(alloc, session, told)
}

/// Tells the name of a function, by the address of its first string word.
#[unsafe(no_mangle)]
pub extern "C" fn b_name_of(
    alloc: Global,
    session: &mut Host,
    function: u32,
    room: &mut [u8],
    count: &mut usize,
) -> u8
    ensures program { session.new.read ≡ session.old.read }
    ensures names { (name : List ℕ) × (told : Answer)
        × ActsIfReady (deed.Name function) [] session.old.read session.old.run session.new.run name told
        × (take count.new room.new ≡ take (length room.old) name)
        × (result ≡ name_status (length room.old) name told) }
    ensures kept { drop count.new room.new ≡ drop count.new room.old }
    ensures within { count.new ≤ length room.old }
{
    name_of(alloc, session, function, room, count)
}

/// Tells the word at an address.
#[unsafe(no_mangle)]
pub extern "C" fn b_word(alloc: Global, session: &mut Host, address: u16, word: &mut u16) -> u8
    ensures program { session.new.read ≡ session.old.read }
    ensures reads { Answers (deed.Read address) [] session.old.read session.old.run session.new.run result
        (λ _ told. word.new ≡ answer_word told) }
{
    read(alloc, session, address, word)
}

/// Stores a word.
#[unsafe(no_mangle)]
pub extern "C" fn b_set_word(alloc: Global, session: &mut Host, address: u16, word: u16) -> u8
    ensures program { session.new.read ≡ session.old.read }
    ensures stores { Answers (deed.Store address word) [] session.old.read session.old.run session.new.run result (λ _ _. ⊤) }
{
    store(alloc, session, address, word)
}

/// Keeps a copy of the run.
#[unsafe(no_mangle)]
pub extern "C" fn b_copy(alloc: Global, session: &mut Host) -> u8
    ensures program { session.new.read ≡ session.old.read }
    ensures copies { Answers deed.Copy [] session.old.read session.old.run session.new.run result (λ _ _. ⊤) }
{
    copy(alloc, session)
}

/// Goes on with the copy of a number, and keeps the run in its place.
#[unsafe(no_mangle)]
pub extern "C" fn b_swap(alloc: Global, session: &mut Host, number: usize) -> u8
    ensures program { session.new.read ≡ session.old.read }
    ensures swaps { Answers (deed.Swap number) [] session.old.read session.old.run session.new.run result (λ _ _. ⊤) }
{
    swap(alloc, session, number)
}

/// Lets go of the copy of a number.
#[unsafe(no_mangle)]
pub extern "C" fn b_forget(alloc: Global, session: &mut Host, number: usize) -> u8
    ensures program { session.new.read ≡ session.old.read }
    ensures forgets { Answers (deed.Forget number) [] session.old.read session.old.run session.new.run result (λ _ _. ⊤) }
{
    forget(alloc, session, number)
}

/// Gives the run up, with its copies.
#[unsafe(no_mangle)]
pub extern "C" fn b_end(alloc: Global, session: &mut Host) -> u8
    ensures program { session.new.read ≡ session.old.read }
    ensures ends { Answers deed.End [] session.old.read session.old.run session.new.run result (λ _ _. ⊤) }
{
    end(alloc, session)
}

/// Lets go of the program, where no run was begun.
#[unsafe(no_mangle)]
pub extern "C" fn b_unload(alloc: Global, session: &mut Host) -> u8
    ensures unloads { is_ready deed.Begin session.old.read session.old.run ≡ true
        → IsEmpty session.new × (result ≡ DONE) }
    ensures unready { is_ready deed.Begin session.old.read session.old.run ≡ false
        → IsUnready session.old session.new result }
{
    unload(alloc, session)
}
