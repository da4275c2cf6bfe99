//! A stream of which it is kept what was read.
ghost use Rattle.std.specs.Prelude.{◌≡◌, ◌++◌, [], ◌∷◌, IfOk, OnErr, true};
ghost use Rattle.bword.specs.ByteEnds.{Took};
ghost use Rattle.blang.specs.Machine as machine;
ghost use Rattle.blang.specs.Reports.{RunGives};
ghost use Rattle.bmach.specs.Readings.{ReadBySteps};
ghost use Rattle.bmach.specs.Resolved.{IsLoadedFrom};
ghost use Rattle.bmach.specs.Stepping.{machine_at};
ghost use Rattle.bmach.specs.Stops.{IsOverAt};
ghost use Rattle.bwatch.specs.Sights.{Sights};
ghost use Rattle.bwatch.specs.Watches.{Leaves, WatchGives};
ghost use Rattle.bendless.specs.Recordings.{IsRecording, Records, is_whole, lender_recording, recording_new};

use bmach::{Stepper, Stop};
use btools::Program;
use bwatch::{Onlooker, Watched, watch};
use bword::{ByteIn, ByteOut, Device, Store};
use std::alloc::{AllocError, Global};
use std::marker::Model;
use std::mem;
use std::snapshot::Snapshot;

/// How many bytes are kept at most.
const MOST_BYTES: usize = 1 << 21;

/// Whether all bytes that were read are kept.
#[derive(Clone, Copy)]
pub enum Extent {
    Whole,
    /// There were more than are kept.
    TooLong,
    /// Memory was refused.
    Refused,
}

/// A stream over another one, which keeps the bytes that this gives.
#[derive(Drop)]
pub struct Recorder<I: ByteIn> {
    // What it was made of, for contracts alone: this takes no room.
    made_of: Snapshot<I>,
    input: I,
    bytes: Vec<u8>,
    extent: Extent,
    is_over: bool,
}

impl<I: ByteIn> Model for Recorder<I> {
    ghost use Rattle.bendless.specs.Recordings.{IsRecording, Recording, recording};

    ghost Value = { Recording I };

    ghost view = { λ r. recording r.made_of.value r.input r.bytes.items r.extent r.is_over };

    ghost invariant = { λ r. IsRecording I.incoming (recording r.made_of.value r.input r.bytes.items r.extent r.is_over) };
}

/// What was read of a stream.
#[derive(Drop)]
pub struct Record {
    pub bytes: Vec<u8>,
    pub extent: Extent,
    /// Whether its end was answered.
    pub is_over: bool,
}

impl<I: ByteIn> Recorder<I> {
    /// A stream that gives the bytes of this one, and has kept none.
    pub fn new(alloc: Global, input: I) -> Self
        ensures { result ≡ recording_new input }
    {
        Recorder {
            made_of: Snapshot::of(&input),
            input,
            bytes: Vec::new(alloc),
            extent: Extent::Whole,
            is_over: false,
        }
    }

    /// What was read. After it nothing more is kept.
    pub fn take_record(&mut self, alloc: Global) -> Record
        ensures input { self.new.input ≡ self.old.input }
        ensures bytes { result.bytes.items ≡ self.old.bytes }
        ensures extent { is_whole result.extent ≡ self.old.is_whole }
        ensures over { result.is_over ≡ self.old.is_over }
        ensures stands { IsRecording I.incoming self.old }
    {
        let bytes = mem::replace(&mut self.bytes, Vec::new(alloc));
        let extent = mem::replace(&mut self.extent, Extent::Refused);
        Record {
            bytes,
            extent,
            is_over: self.is_over,
        }
    }

    /// The stream, as it was left.
    pub fn into_input(self) -> I
        ensures { result ≡ self.input }
    {
        let Recorder {
            made_of: _,
            input,
            bytes: _,
            extent: _,
            is_over: _,
        } = self;
        input
    }
}

impl<I: ByteIn> ByteIn for Recorder<I> {
    ghost incoming = { λ r. I.incoming r.input };

    ghost lender = { λ r. lender_recording (I.incoming r.first) (I.lender r.input) };

    fn next(&mut self) -> Result<Option<u8>, Device> {
        let next = self.input.next()?;
        match next {
            None => self.is_over = true,
            Some(byte) => {
                if let Extent::Whole = self.extent {
                    self.extent = keep(&mut self.bytes, byte);
                }
            }
        }
        Ok(next)
    }

    ghost bounded = { λ r. I.bounded r.input };
}

// Keeps a byte more, unless there are too many.
fn keep(bytes: &mut Vec<u8>, byte: u8) -> Extent
    ensures { is_whole result ≡ true → bytes.new.items ≡ bytes.old.items ++ byte ∷ [] }
{
    if bytes.len() >= MOST_BYTES {
        return Extent::TooLong;
    }
    match bytes.push(byte) {
        Ok(()) => Extent::Whole,
        Err(_) => Extent::Refused,
    }
}

/// A run that was made, and what was read in it.
#[derive(Drop)]
pub struct RecordedRun {
    pub stop: Stop,
    pub record: Record,
}

/// Makes so many steps of a run, or fewer where it is over before, and keeps what is read.
pub fn run_recorded<S: Store + Drop, I: ByteIn, O: ByteOut>(
    alloc: Global,
    stepper: Stepper<'_, S>,
    input: &mut I,
    out: &mut O,
    steps: u64,
) -> RecordedRun
    ensures gives { RunGives (λ left n. machine.steps stepper.entry.image n (machine_at stepper.entry left [])) steps
        (I.incoming input.old) (I.incoming input.new) (O.outgoing out.old) (O.outgoing out.new) result.stop.outcome }
    ensures stops { IsOverAt (λ left n. machine.steps stepper.entry.image n (machine_at stepper.entry left [])) steps
        (I.incoming input.old) (I.incoming input.new) result.stop.outcome result.stop.call result.stop.steps }
    ensures records { Records result.record (I.incoming input.old) (I.incoming input.new) }
    ensures input_lender { I.lender input.new ≡ I.lender input.old }
    ensures out_lender { O.lender out.new ≡ O.lender out.old }
{
    let mut recorder = Recorder::new(alloc, input);
    let stop = stepper.run(&mut recorder, out, steps);
    let record = recorder.take_record(alloc);
    let _ = recorder.into_input();
    RecordedRun { stop, record }
}

/// A run on which somebody looked, and what was read in it.
#[derive(Drop)]
pub struct RecordedWatch {
    pub watched: Watched,
    pub record: Record,
}

/// Runs a program for at most so many steps, while somebody looks on, and keeps what is read; or fails where memory is
/// refused to who looks on or to the run.
pub fn watch_recorded<I: ByteIn, W: Onlooker>(
    alloc: Global,
    program: &Program,
    steps: u64,
    input: &mut I,
    onlooker: &mut W,
) -> Result<RecordedWatch, AllocError>
    requires loaded { IsLoadedFrom program.now.definitions.items program.now.image }
    requires begins { (sights : Sights) → W.has_seen onlooker.old onlooker.old sights 0 }
    ensures gives { IfOk result (λ r. WatchGives program.now.definitions.items program.now.image steps
        (I.incoming input.old) (I.incoming input.new)
        (Leaves (W.awaits onlooker.old onlooker.new) (W.has_told onlooker.old onlooker.new)) r.watched) }
    ensures records { IfOk result (λ r. Records r.record (I.incoming input.old) (I.incoming input.new)) }
    ensures read { OnErr result (ReadBySteps (machine.machine program.now.definitions.items) steps
        (I.incoming input.old) (I.incoming input.new)) }
    ensures same { I.lender input.new ≡ I.lender input.old }
{
    let mut recorder = Recorder::new(alloc, input);
    let watched = watch(alloc, program, steps, &mut recorder, onlooker);
    let record = recorder.take_record(alloc);
    let _ = recorder.into_input();
    Ok(RecordedWatch {
        watched: watched?,
        record,
    })
}
