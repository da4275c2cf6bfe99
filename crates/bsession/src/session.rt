//! A program that runs in slices.
ghost use Rattle.std.specs.Prelude.{◌≡◌, ◌<◌, ◌≤◌, ◌++◌, ◌-◌, ◌^◌, IfErr, IfOk, MatchResult, OnErr, OnOk, drop, false, length, min, true};
ghost use Rattle.bmach.specs.Stepping.{BeginsNot, Paused};
ghost use Rattle.bsession.specs.Stops.{WalksTo, made_all, stops_in, stops_shown};
ghost use Rattle.bsession.specs.Sessions.{caller_in, BeginsSession, Goes, GoesOnWithin, IsGoing, IsThere, KeepsLimits, PassesAt, SessionContinues, SliceComesTo, IsUnfed, AsksForRoom, call_in, callers_in, can_go_on, counted, end_of, is_limit, state_after, state_of, stored_in, word_in};
ghost use Rattle.bsession.specs.declared.session.SliceEnd.TheVariants as end;

use crate::feed::Feed;
use crate::pages::pages_held;
use crate::stops::{Stops, stops_before};
use crate::unstarted::without_store;
use blang::{Outcome, Trap};
use bmach::{Active, Image, MOST_STEPS, Stepper, Stop};
use bpages::PagedStore;
use bword::{ByteOut, MemOut, NoMemory};
use std::alloc::Global;
use std::marker::Model;
use std::mem;

/// Why a slice ends.
#[derive(Clone, Copy, PartialEq, Eq)]
pub enum SliceEnd {
    /// The program has halted with this status.
    Halted(u8),
    /// A trap has ended it.
    Trapped(Trap),
    /// All steps were made that were asked for.
    Limit,
    /// The next step asks for a byte that isn't there yet.
    WantsInput,
    /// After the steps that were made the session holds more than it may. It can go on.
    Holds(Held),
    /// Memory was refused. The session is lost.
    Memory,
}

/// What a session holds.
#[derive(Clone, Copy, PartialEq, Eq)]
pub enum Held {
    /// The operands of all active calls.
    Operands,
    /// The pages of its store, of 256 words each, that have another word than 0.
    Pages,
    /// The bytes of its output that weren't taken.
    Output,
}

/// How much of each a session may hold. It looks after each 65,536 steps, and at the end of a slice.
#[derive(Clone, Copy)]
pub struct Limits {
    pub operands: usize,
    pub pages: u16,
    pub output: usize,
}

impl Limits {
    /// No limit is ever passed.
    pub fn none() -> Limits
        ensures { result ≡ record { operands = 2 ^ 64 - 1; pages = 256; output = 2 ^ 64 - 1 } }
    {
        Limits {
            operands: usize::MAX,
            pages: 256,
            output: usize::MAX,
        }
    }
}

/// Why a slice with stops ends.
#[derive(Clone, Copy)]
pub enum StopEnd {
    /// The next step is one before which it stops.
    Stopped,
    /// It ends for this, and came to no stop.
    Ended(SliceEnd),
}

/// How many steps a session makes at most before it looks at what it holds.
const PART_STEPS: u64 = 65_536;

/// Why bytes were not added to an input.
#[derive(Clone, Copy, Debug, PartialEq, Eq)]
pub enum FeedFault {
    /// It was told that the input ends.
    Closed,
    /// Memory was refused.
    Memory,
}

/// Where a session stands.
#[derive(Drop)]
pub(crate) enum Stand<'a> {
    Goes(Stepper<'a, PagedStore>),
    Over(Stop, Stepper<'a, PagedStore>),
    Lost,
}

/// A program that runs in slices, between which its input is fed, its output is taken, and its words can be seen.
///
/// It makes no more steps in all than a `u64` can count.
#[derive(Drop)]
pub struct Session<'a> {
    stand: Stand<'a>,
    input: Feed,
    out: MemOut,
    // How many bytes of the output were taken.
    taken: usize,
    steps: u64,
    limits: Limits,
}

impl<'a> Model for Session<'a> {
    ghost use Rattle.std.specs.Prelude.{◌≤◌, length};
    ghost use Rattle.bsession.specs.Sessions.{SessionView, session_view};

    ghost Value = { SessionView };

    ghost view = { λ s. session_view s.stand s.input s.out.bytes s.taken s.steps s.limits };

    ghost invariant = { λ s. s.taken ≤ length s.out.bytes };
}

impl<'a> Session<'a> {
    /// A session before the first step of a program, with no input yet; or why the program has no first step.
    pub fn start(alloc: Global, image: &'a Image) -> Result<Session<'a>, Outcome>
        ensures { MatchResult result (BeginsSession image.now) (BeginsNot image.now) }
    {
        let Ok(store) = PagedStore::new(alloc) else {
            return Err(without_store(alloc, image));
        };
        match Stepper::begin(alloc, image, store) {
            Err(outcome) => Err(outcome),
            Ok(stepper) => Ok(Session {
                stand: Stand::Goes(stepper),
                input: Feed::new(alloc),
                out: MemOut::new(alloc),
                taken: 0,
                steps: 0,
                limits: Limits::none(),
            }),
        }
    }

    /// Another session that stands where this one does. Each goes on as this one would have: it has words, input and
    /// output of its own.
    ///
    /// # Errors
    ///
    /// `NoMemory` if there is no memory for it.
    pub fn copied(&self, alloc: Global) -> Result<Session<'a>, NoMemory>
        ensures { IfOk result (λ copy. copy ≡ self.now) }
    {
        let stand = copied_stand(alloc, &self.stand)?;
        let Ok(input) = self.input.copied(alloc) else {
            return Err(NoMemory);
        };
        let mut out = MemOut::new(alloc);
        if out.put(self.output()).is_err() {
            return Err(NoMemory);
        }
        Ok(Session {
            stand,
            input,
            out,
            taken: 0,
            steps: self.steps,
            limits: self.limits,
        })
    }

    /// Sets how much the session may hold.
    pub fn set_limits(&mut self, limits: Limits)
        ensures { self.new ≡ record self.old { limits = limits } }
    {
        self.limits = limits;
    }

    /// Makes so many steps, or fewer where the program is over before, the next step asks for a byte that isn't there, or
    /// the session holds more than it may, and tells why it ends. It makes none where it holds more already. A session
    /// that is over tells it again.
    pub fn continue_for(&mut self, steps: u64) -> SliceEnd
        ensures goes { SessionContinues self.old.state self.old self.new steps result }
        ensures limits { KeepsLimits self.new result }
        ensures within { GoesOnWithin self.old.state self.old self.new }
    {
        match &self.stand {
            Stand::Goes(_) => self.go_on(steps),
            Stand::Over(stop, _) => end_of(stop.outcome),
            Stand::Lost => SliceEnd::Memory,
        }
    }

    /// Makes so many steps, or fewer where `continue_for` makes fewer or the next step is one before which it stops. The
    /// first step is made wherever the session stands, so that the next slice goes on from a stop.
    pub fn continue_to(&mut self, stops: Stops<'_>, steps: u64) -> StopEnd
        ensures { WalksTo (stops_shown stops.entry) self.old self.new steps result }
    {
        let mut left = steps;
        while left > 0 {
            let why = self.continue_for(1);
            if !made_all(why) {
                return StopEnd::Ended(why);
            }
            if self.stops_here(stops) {
                return StopEnd::Stopped;
            }
            left -= 1;
        }
        StopEnd::Ended(SliceEnd::Limit)
    }

    // Whether a slice stops where the session stands.
    fn stops_here(&self, stops: Stops<'_>) -> bool
        ensures { result ≡ stops_in (stops_shown stops.entry) self.now.state }
    {
        match &self.stand {
            Stand::Goes(stepper) => stops_before(stops, stepper),
            Stand::Over(_, _) | Stand::Lost => false,
        }
    }

    // Makes so many steps in parts, or fewer.
    fn go_on(&mut self, steps: u64) -> SliceEnd
        requires { IsGoing self.old.state }
        ensures goes { (p : Paused) → self.old.state ≡ Goes p → SliceComesTo p self.old self.new steps result }
        ensures limits { KeepsLimits self.new result }
        ensures within { GoesOnWithin self.old.state self.old self.new }
    {
        if let Some(held) = self.passed() {
            return SliceEnd::Holds(held);
        }
        let mut left = steps.min(MOST_STEPS).min(u64::MAX - self.steps);
        loop {
            let part = left.min(PART_STEPS);
            let outcome = self.make_part(part);
            if !can_go_on(outcome) {
                return end_of(outcome);
            }
            if let Some(held) = self.passed() {
                return SliceEnd::Holds(held);
            }
            if !is_limit(outcome) {
                return end_of(outcome);
            }
            left -= part;
            if left == 0 {
                return SliceEnd::Limit;
            }
        }
    }

    // Makes so many steps, or fewer.
    fn make_part(&mut self, steps: u64) -> Outcome
        requires { IsGoing self.old.state }
        ensures { (p : Paused) → self.old.state ≡ Goes p → SliceComesTo p self.old self.new steps (end_of result) }
    {
        let most = steps.min(MOST_STEPS).min(u64::MAX - self.steps);
        if most == 0 {
            return Outcome::Limit;
        }
        let Stand::Goes(stepper) = &mut self.stand else {
            return Outcome::Memory;
        };
        let stop = stepper.slice(&mut self.input, &mut self.out, most);
        self.input.known();
        self.taken = taken_of(self.taken, &self.out);
        self.steps += counted(stop, most);
        end_part(&mut self.stand, stop);
        stop.outcome
    }

    // What of a session that can go on is more than it may hold.
    fn passed(&self) -> Option<Held>
        ensures { PassesAt self.now.state self.now result }
    {
        let Stand::Goes(stepper) = &self.stand else {
            return None;
        };
        if stepper.has_operands_above(self.limits.operands) {
            return Some(Held::Operands);
        }
        let store = stepper.store();
        if store.made() > self.limits.pages && pages_held(store) > self.limits.pages {
            return Some(Held::Pages);
        }
        if self.output().len() > self.limits.output {
            return Some(Held::Output);
        }
        None
    }

    /// Adds bytes to the input; none where it is closed, or memory is refused.
    pub fn feed(&mut self, bytes: &[u8]) -> Result<(), FeedFault>
        ensures fed { OnOk result ((self.old.is_closed ≡ false)
            × (self.new ≡ record self.old { unread = self.old.unread ++ bytes.now })) }
        ensures unchanged { OnErr result (self.new ≡ self.old) }
        ensures unfed { IfErr result (λ fault. IsUnfed fault self.old.is_closed bytes.now) }
    {
        if self.input.is_closed() {
            return Err(FeedFault::Closed);
        }
        if bytes.is_empty() {
            return Ok(());
        }
        match self.input.add(bytes) {
            Ok(()) => Ok(()),
            Err(_) => Err(FeedFault::Memory),
        }
    }

    /// Tells that the input ends after the bytes that were fed.
    pub fn close_input(&mut self)
        ensures { self.new ≡ record self.old { is_closed = true } }
    {
        self.input.close();
    }

    /// Whether the input was closed.
    pub fn is_closed(&self) -> bool
        ensures { result ≡ self.now.is_closed }
    {
        self.input.is_closed()
    }

    /// The bytes of the input that were fed and not read.
    pub fn unread(&self) -> &[u8]
        ensures { result.now ≡ self.now.unread }
    {
        self.input.unread()
    }

    /// The output that wasn't taken.
    pub fn output(&self) -> &[u8]
        ensures { result.now ≡ self.now.output }
    {
        &self.out.bytes()[self.taken..]
    }

    /// Takes so many bytes of the output, or all.
    pub fn take_output(&mut self, alloc: Global, count: usize)
        ensures { self.new ≡ record self.old { output = drop count self.old.output } }
    {
        let len = self.out.bytes().len();
        let left = len - self.taken;
        if count < left {
            self.taken += count;
        } else {
            self.out = MemOut::new(alloc);
            self.taken = 0;
        }
    }

    /// How many steps were made.
    pub fn steps(&self) -> u64
        ensures { result ≡ self.now.steps }
    {
        self.steps
    }

    /// The running call, or the one that ran before the step that ended the run; none if the session is lost.
    pub fn call(&self) -> Option<Active>
        ensures { result ≡ call_in self.now.state }
    {
        match &self.stand {
            Stand::Goes(stepper) => Some(stepper.top()),
            Stand::Over(stop, _) => Some(stop.call),
            Stand::Lost => None,
        }
    }

    /// How many active calls are below it.
    pub fn callers(&self) -> usize
        ensures { result ≡ callers_in self.now.state }
    {
        match &self.stand {
            Stand::Goes(stepper) | Stand::Over(_, stepper) => stepper.callers(),
            Stand::Lost => 0,
        }
    }

    /// One of the calls below, of which the nearest has number 0; none where there is no such call.
    pub fn caller(&self, number: usize) -> Option<Active>
        ensures { result ≡ caller_in self.now.state number }
    {
        match &self.stand {
            Stand::Goes(stepper) | Stand::Over(_, stepper) => stepper.caller(number),
            Stand::Lost => None,
        }
    }

    /// The word at an address; none if the session is lost.
    pub fn word(&self, address: u16) -> Option<u16>
        ensures { result ≡ word_in self.now.state address }
    {
        match &self.stand {
            Stand::Goes(stepper) | Stand::Over(_, stepper) => Some(stepper.word(address)),
            Stand::Lost => None,
        }
    }

    /// Puts a word at an address; nothing has changed where memory is refused, or if the session is lost.
    pub fn set_word(&mut self, address: u16, word: u16) -> Result<(), NoMemory>
        ensures there { OnOk result (IsThere self.old.state) }
        ensures stored { OnOk result (self.new ≡ record self.old { state = stored_in self.old.state address word }) }
        ensures unchanged { OnErr result (self.new ≡ self.old) }
        ensures refused { OnErr result (AsksForRoom self.old.state address word) }
    {
        if self.word(address) == Some(word) {
            return Ok(());
        }
        match mem::replace(&mut self.stand, Stand::Lost) {
            Stand::Goes(mut stepper) => {
                let stored = stepper.set_word(address, word);
                self.stand = Stand::Goes(stepper);
                stored
            }
            Stand::Over(stop, mut stepper) => {
                let stored = stepper.set_word(address, word);
                self.stand = Stand::Over(stop, stepper);
                stored
            }
            Stand::Lost => Err(NoMemory),
        }
    }
}

// The same place to stand for another session.
fn copied_stand<'a>(alloc: Global, stand: &Stand<'a>) -> Result<Stand<'a>, NoMemory>
    ensures { IfOk result (λ copy. copy ≡ stand.now) }
{
    match stand {
        Stand::Goes(stepper) => Ok(Stand::Goes(copied_run(alloc, stepper)?)),
        Stand::Over(stop, stepper) => Ok(Stand::Over(*stop, copied_run(alloc, stepper)?)),
        Stand::Lost => Ok(Stand::Lost),
    }
}

// The same run on words of its own.
fn copied_run<'a>(
    alloc: Global,
    stepper: &Stepper<'a, PagedStore>,
) -> Result<Stepper<'a, PagedStore>, NoMemory>
    ensures { IfOk result (λ copy. copy ≡ stepper.now) }
{
    let store = stepper.store().copied(alloc)?;
    match stepper.on_store(alloc, store) {
        Ok(copy) => Ok(copy),
        Err(_) => Err(NoMemory),
    }
}

// How many steps are counted of a part: the one in which memory was refused isn't.
fn counted(stop: Stop, most: u64) -> u64
    requires some { 0 < most }
    requires within { stop.steps ≤ most }
    ensures { result ≡ counted stop.outcome stop.steps most }
{
    match stop.outcome {
        Outcome::Memory => stop.steps.min(most - 1),
        _ => stop.steps,
    }
}

// How many bytes were taken of an output, of those that it has.
fn taken_of(taken: usize, out: &MemOut) -> usize
    ensures { result ≡ min taken (length out.now.bytes) }
{
    taken.min(out.bytes().len())
}

// Tells a session that a slice of its run came to this.
fn end_part(stand: &mut Stand<'_>, stop: Stop)
    requires { IsGoing (state_of stand.old) }
    ensures { (p : Paused) → state_of stand.old ≡ Goes p → state_of stand.new ≡ state_after stop.outcome stop p }
{
    match stop.outcome {
        Outcome::Limit | Outcome::Device => {}
        Outcome::Exit(_) | Outcome::Trap(_) => {
            if let Stand::Goes(stepper) = mem::replace(stand, Stand::Lost) {
                *stand = Stand::Over(stop, stepper);
            }
        }
        Outcome::Memory => *stand = Stand::Lost,
    }
}

// Whether a slice has made all steps that were asked for.
fn made_all(end: SliceEnd) -> bool
    ensures { result ≡ made_all end }
{
    matches!(end, SliceEnd::Limit)
}

// Whether all steps were made.
fn is_limit(outcome: Outcome) -> bool
    ensures { result ≡ is_limit outcome }
{
    matches!(outcome, Outcome::Limit)
}

// Whether a run that came to this can go on.
fn can_go_on(outcome: Outcome) -> bool
    ensures { result ≡ can_go_on outcome }
{
    matches!(outcome, Outcome::Limit | Outcome::Device)
}

// The answer where a run came to this.
fn end_of(outcome: Outcome) -> SliceEnd
    ensures { result ≡ end_of outcome }
{
    match outcome {
        Outcome::Exit(status) => SliceEnd::Halted(status),
        Outcome::Trap(trap) => SliceEnd::Trapped(trap),
        Outcome::Limit => SliceEnd::Limit,
        Outcome::Device => SliceEnd::WantsInput,
        Outcome::Memory => SliceEnd::Memory,
    }
}
