//! Calls for a session with its program, which tell a status.
ghost use Rattle.std.specs.Prelude.{◌≡◌, ◌≢◌, ◌≤◌, ⊤, ℕ, IfOk, List, MatchResult, None, OnErr, [], drop, false, length, take, true};
ghost use Rattle.bhost.specs.Deeds.{ActsIfReady, is_ready, stop_set};
ghost use Rattle.bhost.specs.Statuses.{Answers, FindsName, GoesTo, HasSome, HoldsProgramOf, Loads, LoadsTelling, answer_callers, answer_column, answer_frame, answer_function, answer_line, answer_place, answer_status, answer_steps, answer_symbol, answer_value, answer_word, end_status, end_value, fault_status, held_number, name_status, trap_number, unfed_status};
ghost use Rattle.bhost.specs.declared.desk.Answer.{Answer};
ghost use Rattle.bhost.specs.declared.desk.Deed.TheVariants as deed;
ghost use Rattle.blang.specs.Compiles.{line_of};
ghost use Rattle.blang.specs.declared.status.TheConstants.{DONE};
ghost use Rattle.bsession.specs.Stops.{stops_shown};
ghost use Rattle.bword.specs.Words.{is_name};
ghost use Rattle.bsources.specs.Files.{files_shown};
ghost use Rattle.btools.specs.FaultPlaces.{fault_lines};
ghost use Rattle.btools.specs.Origins.{Code, HasNoProgramOf, Source, code_text_shown, origin_shown};

use crate::desk::{Answer, Deed, Frame, Query, StopList, Symbol};
use crate::host::Host;
use crate::loaded::LoadedProgram;
use blang::status::{self, Status};
use blang::{Outcome, Trap};
use bsession::{Held, Limits, SliceEnd, StopEnd, Stops};
use bsources::SourceFiles;
use btools::{CodeText, Origin, ProgramFault, read_program, tell_fault, tell_placed};
use bword::{ByteOut, Edition, Name};
use std::alloc::{AllocError, Global};
use std::mem;

/// A slice ends since the session has more output than it may.
pub const HAS_OUTPUT: Status = 136;
/// A slice ends since the session has more operands or pages than it may.
pub const TOO_LARGE: Status = 137;
/// A slice ends before a step at which it was to stop.
pub const STOPPED: Status = 138;
/// There is no program, or no run where one is wanted, or one where none is.
pub const UNREADY: Status = 142;

/// Where a run stands, as a call tells it.
#[repr(C)]
#[derive(Drop)]
pub struct Whereabouts {
    /// The address of the first string word of its function.
    pub function: u32,
    /// The place of its next instruction.
    pub place: usize,
    /// How many calls are below.
    pub callers: usize,
    /// How many steps were made.
    pub steps: u64,
    /// The line of the next instruction, or 0.
    pub line: u64,
}

/// Reads a program, and puts it in memory.
pub fn load(alloc: Global, source: &[u8], origin: Origin<'_>, host: &mut Host) -> Status
    requires { host.old.read ≡ None }
    ensures { Loads (origin_shown origin.entry) source.now host.new result }
{
    match read_loaded(alloc, source, origin) {
        Ok(loaded) => {
            host.put(Host::of(loaded));
            status::DONE
        }
        Err(fault) => {
            host.put(Host::none());
            fault_status(&fault)
        }
    }
}

/// Compiles a source and puts its program in memory, or tells why there is none, with the file of a fault if that isn't
/// the first one.
pub fn load_source<D: ByteOut>(
    alloc: Global,
    source: &[u8],
    edition: Edition,
    files: SourceFiles<'_>,
    host: &mut Host,
    diag: &mut D,
) -> Status
    requires { host.old.read ≡ None }
    ensures loads { LoadsTelling (Source edition) source.now host.new (record {
      lines = fault_lines (files_shown files.entry);
      before = D.outgoing diag.old;
      after = D.outgoing diag.new;
      status = result;
    }) }
    ensures diag_lender { D.lender diag.new ≡ D.lender diag.old }
{
    match read_loaded(alloc, source, Origin::Source(edition)) {
        Ok(loaded) => {
            host.put(Host::of(loaded));
            status::DONE
        }
        Err(fault) => {
            host.put(Host::none());
            tell_placed(alloc, &fault, files, diag)
        }
    }
}

/// Reads a code text and puts its program in memory, or tells why there is none.
pub fn load_text<D: ByteOut>(
    alloc: Global,
    text: CodeText<'_>,
    host: &mut Host,
    diag: &mut D,
) -> Status
    requires { host.old.read ≡ None }
    ensures loads { LoadsTelling (Code (code_text_shown text.entry)) [] host.new (record {
      lines = line_of;
      before = D.outgoing diag.old;
      after = D.outgoing diag.new;
      status = result;
    }) }
    ensures diag_lender { D.lender diag.new ≡ D.lender diag.old }
{
    match read_loaded(alloc, b"", Origin::Code(text)) {
        Ok(loaded) => {
            host.put(Host::of(loaded));
            status::DONE
        }
        Err(fault) => {
            host.put(Host::none());
            tell_fault(&fault, diag)
        }
    }
}

// Reads a program, or tells why there is none.
fn read_loaded(
    alloc: Global,
    source: &[u8],
    origin: Origin<'_>,
) -> Result<Box<LoadedProgram>, ProgramFault>
    ensures { MatchResult result (λ loaded. HoldsProgramOf (origin_shown origin.entry) source.now loaded.value)
        (HasNoProgramOf (origin_shown origin.entry) source.now) }
{
    let program = read_program(alloc, source, origin)?;
    match Box::new(alloc, LoadedProgram { program }) {
        Ok(loaded) => Ok(loaded),
        Err(_) => Err(ProgramFault::Memory),
    }
}

// The status of a program that could not be read.
fn fault_status(fault: &ProgramFault) -> Status
    ensures { result ≡ fault_status fault.now }
{
    match fault {
        ProgramFault::Faulty(_) => status::FAULT,
        ProgramFault::Unread(_) => status::REFUSED,
        ProgramFault::Unlined(_, _) | ProgramFault::Unnamed(_, _) => status::WRONG_COMMAND,
        ProgramFault::Unloaded(_) => status::REFUSED,
        ProgramFault::Memory => status::MEMORY,
    }
}

/// Begins a run.
pub fn begin(alloc: Global, host: &mut Host) -> Status
    ensures program { host.new.read ≡ host.old.read }
    ensures begins { Answers deed.Begin [] host.old.read host.old.run host.new.run result (λ _ _. ⊤) }
{
    let desk = host.ask(alloc, Deed::Begin, Vec::new(alloc));
    status_of(desk.answer)
}

/// Makes so many steps at most, and tells beside the status that of a program which has halted, the number of a trap, or
/// that of what is too large.
pub fn go_on(alloc: Global, host: &mut Host, steps: u64, value: &mut u8) -> Status
    ensures program { host.new.read ≡ host.old.read }
    ensures goes { Answers (deed.Continue steps) [] host.old.read host.old.run host.new.run result
        (λ _ told. value.new ≡ answer_value told) }
{
    let desk = host.ask(alloc, Deed::Continue(steps), Vec::new(alloc));
    *value = value_of(desk.answer);
    status_of(desk.answer)
}

/// Makes so many steps at most, up to the first one before which it stops. Where memory is refused for the stops, nothing
/// is done.
pub fn go_to(alloc: Global, host: &mut Host, stops: Stops<'_>, steps: u64, value: &mut u8) -> Status
    ensures program { host.new.read ≡ host.old.read }
    ensures goes { GoesTo (stops_shown stops.entry) steps host.old host.new result value.new }
{
    let Ok(list) = listed(alloc, stops) else {
        *value = 0;
        return status::MEMORY;
    };
    let desk = host.ask(alloc, Deed::ContinueTo(list, steps), Vec::new(alloc));
    *value = value_of(desk.answer);
    status_of(desk.answer)
}

// The stops, in memory of their own.
fn listed(alloc: Global, stops: Stops<'_>) -> Result<StopList, AllocError>
    ensures listed { IfOk result (λ list. stop_set list ≡ stops_shown stops.entry) }
    ensures some { OnErr result (HasSome (stops_shown stops.entry)) }
{
    let mut places = Vec::new(alloc);
    places.extend_from_slice(stops.places)?;
    let mut near = Vec::new(alloc);
    near.extend_from_slice(stops.near)?;
    let mut words = Vec::new(alloc);
    words.extend_from_slice(stops.words)?;
    let (callers, returned) = (stops.callers, stops.returned);
    Ok(StopList {
        places,
        near,
        callers,
        returned,
        words,
    })
}

/// Tells of an active call: the running one has number 0, and the one that called it 1.
pub fn frame(alloc: Global, host: &mut Host, number: usize, told: &mut Frame) -> Status
    ensures program { host.new.read ≡ host.old.read }
    ensures tells { Answers (deed.Frame number) [] host.old.read host.old.run host.new.run result
        (λ _ answered. told.new ≡ answer_frame answered) }
{
    let desk = host.ask(alloc, Deed::Frame(number), Vec::new(alloc));
    *told = match desk.answer {
        Answer::Calls(frame) => frame,
        _ => Frame {
            strings: 0,
            place: 0,
            start: 0,
            parameters: 0,
            line: 0,
            column: 0,
        },
    };
    status_of(desk.answer)
}

/// Sets how much the run may hold.
pub fn limit(alloc: Global, host: &mut Host, limits: Limits) -> Status
    ensures program { host.new.read ≡ host.old.read }
    ensures limits { Answers (deed.Limit limits) [] host.old.read host.old.run host.new.run result (λ _ _. ⊤) }
{
    let desk = host.ask(alloc, Deed::Limit(limits), Vec::new(alloc));
    status_of(desk.answer)
}

/// Adds bytes to the input.
pub fn feed(alloc: Global, host: &mut Host, bytes: &[u8]) -> Status
    ensures program { host.new.read ≡ host.old.read }
    ensures feeds { Answers deed.Feed bytes.now host.old.read host.old.run host.new.run result (λ _ _. ⊤) }
{
    let mut fed = Vec::new(alloc);
    if !bytes.is_empty() && fed.extend_from_slice(bytes).is_err() {
        return feed_nothing(alloc, host);
    }
    let desk = host.ask(alloc, Deed::Feed, fed);
    status_of(desk.answer)
}

// Adds no bytes, for want of memory, unless the input is closed.
fn feed_nothing(alloc: Global, host: &mut Host) -> Status
    ensures program { host.new.read ≡ host.old.read }
    ensures feeds { (bytes : List ℕ) → bytes ≢ []
        → Answers deed.Feed bytes host.old.read host.old.run host.new.run result (λ _ _. ⊤) }
{
    let desk = host.ask(alloc, Deed::Feed, Vec::new(alloc));
    unfed_status(desk.answer)
}

// The status of an answer where no bytes were fed for want of memory.
fn unfed_status(answer: Answer) -> Status
    ensures { result ≡ unfed_status answer }
{
    match answer {
        Answer::Done => status::MEMORY,
        _ => status_of(answer),
    }
}

/// Tells that no more bytes come.
pub fn close(alloc: Global, host: &mut Host) -> Status
    ensures program { host.new.read ≡ host.old.read }
    ensures closes { Answers deed.Close [] host.old.read host.old.run host.new.run result (λ _ _. ⊤) }
{
    let desk = host.ask(alloc, Deed::Close, Vec::new(alloc));
    status_of(desk.answer)
}

/// Takes as much of the output as there is room for, and tells how much.
pub fn take(alloc: Global, host: &mut Host, room: &mut [u8], count: &mut usize) -> Status
    ensures program { host.new.read ≡ host.old.read }
    ensures takes { Answers (deed.Take (length room.old)) [] host.old.read host.old.run host.new.run result
        (λ after _. take count.new room.new ≡ take (length room.old) after) }
    ensures kept { drop count.new room.new ≡ drop count.new room.old }
    ensures within { count.new ≤ length room.old }
{
    let desk = host.ask(alloc, Deed::Take(room.len()), Vec::new(alloc));
    *count = hand_out(desk.bytes.as_slice(), room);
    status_of(desk.answer)
}

// Puts as many bytes as there is room for at the head of a room, and tells how many.
fn hand_out(bytes: &[u8], room: &mut [u8]) -> usize
    ensures within { result ≤ length room.old }
    ensures handed { take result room.new ≡ take (length room.old) bytes.now }
    ensures kept { drop result room.new ≡ drop result room.old }
{
    let count = bytes.len().min(room.len());
    room[..count].copy_from_slice(&bytes[..count]);
    count
}

/// Tells the name of the function whose first string word has an address, as much of it as there is room for.
pub fn name_of(
    alloc: Global,
    host: &mut Host,
    strings: u32,
    room: &mut [u8],
    count: &mut usize,
) -> Status
    ensures program { host.new.read ≡ host.old.read }
    ensures names { (name : List ℕ) × (told : Answer)
        × ActsIfReady (deed.Name strings) [] host.old.read host.old.run host.new.run name told
        × (take count.new room.new ≡ take (length room.old) name)
        × (result ≡ name_status (length room.old) name told) }
    ensures kept { drop count.new room.new ≡ drop count.new room.old }
    ensures within { count.new ≤ length room.old }
{
    let desk = host.ask(alloc, Deed::Name(strings), Vec::new(alloc));
    let size = room.len();
    *count = hand_out(desk.bytes.as_slice(), room);
    if size < desk.bytes.len() {
        status::DEVICE
    } else {
        status_of(desk.answer)
    }
}

/// Tells what a name stands for, or an address, or a place.
pub fn tell(alloc: Global, host: &mut Host, query: Query, told: &mut Symbol) -> Status
    ensures program { host.new.read ≡ host.old.read }
    ensures tells { Answers (deed.Tell query) [] host.old.read host.old.run host.new.run result
        (λ _ answered. told.new ≡ answer_symbol answered) }
{
    let desk = host.ask(alloc, Deed::Tell(query), Vec::new(alloc));
    *told = match desk.answer {
        Answer::Tells(symbol) => symbol,
        _ => Symbol::blank(),
    };
    status_of(desk.answer)
}

/// Tells what the definition of a name is, if the text is a name.
pub fn find(alloc: Global, host: &mut Host, text: &[u8], told: &mut Symbol) -> Status
    ensures program { host.new.read ≡ host.old.read }
    ensures finds { FindsName (is_name text.now) text.now host.old host.new result told.new }
{
    match Name::from_bytes(text) {
        Some(name) => tell(alloc, host, Query::Named(name), told),
        None => {
            *told = Symbol::blank();
            status::REFUSED
        }
    }
}

/// Tells where the run stands.
pub fn look(alloc: Global, host: &mut Host, there: &mut Whereabouts) -> Status
    ensures program { host.new.read ≡ host.old.read }
    ensures looks { Answers deed.Look [] host.old.read host.old.run host.new.run result
        (λ _ told. (there.new.function ≡ answer_function told) × (there.new.place ≡ answer_place told)
        × (there.new.callers ≡ answer_callers told) × (there.new.steps ≡ answer_steps told)
        × (there.new.line ≡ answer_line told)) }
{
    let desk = host.ask(alloc, Deed::Look, Vec::new(alloc));
    *there = match desk.answer {
        Answer::Stands(standing) => Whereabouts {
            function: standing.strings,
            place: standing.place,
            callers: standing.callers,
            steps: standing.steps,
            line: standing.line,
        },
        _ => Whereabouts {
            function: 0,
            place: 0,
            callers: 0,
            steps: 0,
            line: 0,
        },
    };
    status_of(desk.answer)
}

/// Tells the column of the place where the run stands, or 0 where none is known.
pub fn column(alloc: Global, host: &mut Host, column: &mut u64) -> Status
    ensures program { host.new.read ≡ host.old.read }
    ensures looks { Answers deed.Look [] host.old.read host.old.run host.new.run result
        (λ _ told. column.new ≡ answer_column told) }
{
    let desk = host.ask(alloc, Deed::Look, Vec::new(alloc));
    *column = match desk.answer {
        Answer::Stands(standing) => standing.column,
        _ => 0,
    };
    status_of(desk.answer)
}

/// Tells the word at an address.
pub fn read(alloc: Global, host: &mut Host, address: u16, word: &mut u16) -> Status
    ensures program { host.new.read ≡ host.old.read }
    ensures reads { Answers (deed.Read address) [] host.old.read host.old.run host.new.run result
        (λ _ told. word.new ≡ answer_word told) }
{
    let desk = host.ask(alloc, Deed::Read(address), Vec::new(alloc));
    *word = match desk.answer {
        Answer::Word(word) => word,
        _ => 0,
    };
    status_of(desk.answer)
}

/// Stores a word.
pub fn store(alloc: Global, host: &mut Host, address: u16, word: u16) -> Status
    ensures program { host.new.read ≡ host.old.read }
    ensures stores { Answers (deed.Store address word) [] host.old.read host.old.run host.new.run result (λ _ _. ⊤) }
{
    let desk = host.ask(alloc, Deed::Store(address, word), Vec::new(alloc));
    status_of(desk.answer)
}

/// Keeps a copy of the run as it stands. It has the next number, from 0 on.
pub fn copy(alloc: Global, host: &mut Host) -> Status
    ensures program { host.new.read ≡ host.old.read }
    ensures copies { Answers deed.Copy [] host.old.read host.old.run host.new.run result (λ _ _. ⊤) }
{
    let desk = host.ask(alloc, Deed::Copy, Vec::new(alloc));
    status_of(desk.answer)
}

/// Goes on with the copy of a number, and keeps the run in its place.
pub fn swap(alloc: Global, host: &mut Host, number: usize) -> Status
    ensures program { host.new.read ≡ host.old.read }
    ensures swaps { Answers (deed.Swap number) [] host.old.read host.old.run host.new.run result (λ _ _. ⊤) }
{
    let desk = host.ask(alloc, Deed::Swap(number), Vec::new(alloc));
    status_of(desk.answer)
}

/// Lets go of the copy of a number. Those after it have a number less.
pub fn forget(alloc: Global, host: &mut Host, number: usize) -> Status
    ensures program { host.new.read ≡ host.old.read }
    ensures forgets { Answers (deed.Forget number) [] host.old.read host.old.run host.new.run result (λ _ _. ⊤) }
{
    let desk = host.ask(alloc, Deed::Forget(number), Vec::new(alloc));
    status_of(desk.answer)
}

/// Gives the run up, with its copies.
pub fn end(alloc: Global, host: &mut Host) -> Status
    ensures program { host.new.read ≡ host.old.read }
    ensures ends { Answers deed.End [] host.old.read host.old.run host.new.run result (λ _ _. ⊤) }
{
    let desk = host.ask(alloc, Deed::End, Vec::new(alloc));
    status_of(desk.answer)
}

/// Lets go of the program, where no run was begun.
pub fn unload(alloc: Global, host: &mut Host) -> Status
    ensures unloads { is_ready deed.Begin host.old.read host.old.run ≡ true
        → (host.new.read ≡ None) × (host.new.run ≡ None) × (result ≡ DONE) }
    ensures unready { is_ready deed.Begin host.old.read host.old.run ≡ false
        → (host.new ≡ host.old) × (result ≡ UNREADY) }
    ensures gone { result ≡ DONE → host.new.read ≡ None }
{
    if !host.is_ready(&Deed::Begin) {
        return UNREADY;
    }
    let held = mem::replace(host, Host::none());
    drop(held.into_program(alloc));
    status::DONE
}

// The status of an answer.
fn status_of(answer: Answer) -> Status
    ensures { result ≡ answer_status answer }
{
    match answer {
        Answer::Done | Answer::Stands(_) | Answer::Calls(_) | Answer::Word(_) | Answer::Tells(_) =>
            status::DONE,
        Answer::Ended(end) | Answer::Walked(StopEnd::Ended(end)) => end_status(end),
        Answer::Walked(StopEnd::Stopped) => STOPPED,
        Answer::Unbegun(Outcome::Memory) => status::MEMORY,
        Answer::Unbegun(_) => status::TRAP,
        Answer::Closed => status::WRONG_COMMAND,
        Answer::Missing => status::REFUSED,
        Answer::Unready => UNREADY,
        Answer::Refused => status::MEMORY,
    }
}

// What is told beside the status of an answer.
fn value_of(answer: Answer) -> u8
    ensures { result ≡ answer_value answer }
{
    match answer {
        Answer::Ended(end) | Answer::Walked(StopEnd::Ended(end)) => end_value(end),
        _ => 0,
    }
}

// The status of a slice.
fn end_status(end: SliceEnd) -> Status
    ensures { result ≡ end_status end }
{
    match end {
        SliceEnd::Halted(_) => status::DONE,
        SliceEnd::Trapped(_) => status::TRAP,
        SliceEnd::Limit => status::LIMIT,
        SliceEnd::WantsInput => status::DEVICE,
        SliceEnd::Holds(Held::Output) => HAS_OUTPUT,
        SliceEnd::Holds(Held::Operands | Held::Pages) => TOO_LARGE,
        SliceEnd::Memory => status::MEMORY,
    }
}

// The status of a program that has halted, the number of a trap, or that of what is too large.
fn end_value(end: SliceEnd) -> u8
    ensures { result ≡ end_value end }
{
    match end {
        SliceEnd::Halted(status) => status,
        SliceEnd::Trapped(trap) => trap_number(trap),
        SliceEnd::Holds(held) => held_number(held),
        SliceEnd::Limit | SliceEnd::WantsInput | SliceEnd::Memory => 0,
    }
}

// The number of what is too large.
fn held_number(held: Held) -> u8
    ensures { result ≡ held_number held }
{
    match held {
        Held::Output => 0,
        Held::Operands => 1,
        Held::Pages => 2,
    }
}

// The number of a trap.
fn trap_number(trap: Trap) -> u8
    ensures { result ≡ trap_number trap }
{
    match trap {
        Trap::ZeroDivisor => 1,
        Trap::NotAFunction => 2,
        Trap::NotALabel => 3,
        Trap::NoRoom => 4,
        Trap::TooDeep => 5,
        Trap::BadBase => 6,
        Trap::Stuck => 7,
    }
}
