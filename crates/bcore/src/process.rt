//! The streams of a process, kept in order: what was written is shown before more input is fetched, and before a line
//! is written beside it.
ghost use Rattle.std.specs.Prelude.{◌≡◌, ℕ, ◌<◌, ◌≤◌, IfOk, List, [], false, None, OnErr, OnOk, Option, length, map as map_each, option_map, string_bytes};
ghost use Rattle.std.specs.Io.{ReadsAtMost, WritesAtMost};
ghost use Rattle.std.specs.Io.KnownBytes.{ReadConsumes, WriteAppends};
ghost use Rattle.blang.specs.Reports.{RunEnds, run_ends};
ghost use Rattle.bcore.specs.Blocks.{WasFinished, WasShown, WasTaken};
ghost use Rattle.bcore.specs.CoreJobs.{AnswersCore};
ghost use Rattle.bcore.specs.Processes.{AnswersWords, PerformsTask, writer_end};
ghost use Rattle.bword.specs.ByteEnds.{PutGives};
ghost use Rattle.bcore.specs.Shelves.{opened};
ghost use Rattle.clap.specs.Words.{Text};

use crate::block::{Block, Buffered, Finish};
use crate::serving::{refuse_words, serve};
use crate::tools::Tools;
use blang::status::{self, Status};
use bword::{ByteIn, ByteOut, EndFault, Reading, Writing};
use std::alloc::Global;
use std::cell::{RefCell, RefMut};
use std::env;
use std::io::{self, BufReader, ErrorKind, IsTerminal, Read, Write};
use std::marker::Model;
use std::process::ExitCode;
use std::rt::Files;

/// What a process reads and writes. Its output goes through a buffer, which shows it to a writer.
#[derive(Drop)]
pub struct Streams<I: Read + Drop, B: Buffered + Drop, D: Write + Drop> {
    pub input: I,
    pub output: B,
    /// Gets the lines of faults, traps and wrong command lines.
    pub diag: D,
}

/// The status of a process, and its writers as they were left.
#[derive(Drop)]
pub struct Served<O: Write + Drop, D: Write + Drop> {
    pub status: Status,
    /// None where some of the output wasn't shown.
    pub output: Option<O>,
    pub diag: D,
}

/// Answers the words of the process that runs on this system, over its own streams. Output to a terminal is shown at
/// once.
pub fn serve_host<T: Tools>(tools: &T, rt: &HostRuntime) -> ExitCode {
    let words = match words(rt) {
        Ok(words) => Some(words),
        Err(error) if error.kind() == ErrorKind::InvalidData => None,
        Err(_) => return ExitCode::from(status::MEMORY),
    };
    let alloc = rt.alloc();
    let Ok(output) = Block::new(alloc, rt.stdout(), rt.stdout().is_terminal()) else {
        return ExitCode::from(status::MEMORY);
    };
    let streams = Streams {
        input: rt.stdin(),
        output,
        diag: rt.stderr(),
    };
    let task = Answering { tools, rt, words };
    ExitCode::from(serve_process(alloc, task, streams).status)
}

// The words of the command line, where all are UTF-8.
fn words(rt: &HostRuntime) -> io::Result<Vec<String>> {
    Ok(env::args(rt)?.collect::<Vec<String>>(rt.alloc())?)
}

/// What is done over the ends of a process. As with a buffer, that it was done can only come from a call. What it
/// writes goes to a buffer of this type, and only the caller of `serve_process` has one.
pub trait Task<B: Buffered + Drop> {
    /// What it does to the ends, with its status.
    ghost does: { Self → RunEnds → ℕ → Type 0 };

    /// Does it.
    fn perform<I: ByteIn, D: ByteOut>(
        self,
        input: &mut I,
        out: &mut OutputEnd<'_, B>,
        diag: &mut D,
    ) -> Status
        ensures does { does self (run_ends
            (I.incoming input.old) (I.incoming input.new) out.old.seen out.new.seen
            (D.outgoing diag.old) (D.outgoing diag.new)) result };
}

/// The task to do what the words of a command line ask for. Without words it refuses the command line.
#[derive(Drop)]
pub struct Answering<'a, T, R> {
    pub tools: &'a T,
    pub rt: &'a R,
    /// None where a word isn't UTF-8.
    pub words: Option<Vec<String>>,
}

impl<T: Tools, R: AllocGlobal + Files, B: Buffered + Drop> Task<B> for Answering<'_, T, R> {
    ghost does = { λ it. AnswersWords T.answers (opened R.File.remaining)
        (option_map (λ v. map_each string_bytes v.items) it.words) };

    fn perform<I: ByteIn, D: ByteOut>(
        self,
        input: &mut I,
        out: &mut OutputEnd<'_, B>,
        diag: &mut D,
    ) -> Status {
        let Answering { tools, rt, words } = self;
        match words {
            Some(words) => serve(tools, rt, words.as_slice(), input, out, diag),
            None => refuse_words(diag),
        }
    }
}

/// What is done for words that ask to compile or to run, whatever the tools are.
pub fn core_is_answered<T: Tools, R: Files>(_tools: &T, _rt: &R)
    ensures core { (words : Option (List Text)) (ends : RunEnds) (status : ℕ)
        → AnswersWords T.answers (opened R.File.remaining) words ends status
        → AnswersCore (opened R.File.remaining) words ends status }
{}

/// Performs a task over the streams of a process, and then shows what is held of the output. When it returns, all of
/// the output was shown, or the status is that of a failed write.
pub fn serve_process<T, B, I, O, D>(
    alloc: Global,
    task: T,
    streams: Streams<I, B, D>,
) -> Served<O, D>
where
    T: Task<B> + Drop,
    B: Buffered + Finish<O> + Drop,
    I: Read + Drop,
    O: Write + Drop,
    D: Write + Drop,
    ensures performs { PerformsTask (T.does task) (WasFinished B.finishes result.output) (record {
      input = I.remaining streams.input;
      line = D.contents streams.diag;
      line_after = D.contents result.diag;
    }) result.status }
{
    let Streams {
        input,
        output,
        diag,
    } = streams;
    let output = Output::new(output);
    let asking = ReadAfterOutput {
        reader: input,
        output: &output,
    };
    let Ok(reader) = BufReader::new(alloc, asking) else {
        return Served {
            status: status::MEMORY,
            output: None,
            diag,
        };
    };
    let mut lines = Writing::new(WriteAfterOutput {
        writer: diag,
        output: &output,
    });
    let told = task.perform(
        &mut Reading::new(reader),
        &mut OutputEnd::new(&output),
        &mut lines,
    );
    let WriteAfterOutput {
        writer: diag,
        output: _,
    } = lines.into_writer();
    match output.into_buffer().finish() {
        Ok(writer) => Served {
            status: told,
            output: Some(writer),
            diag,
        },
        Err(_) => Served {
            status: status::DEVICE,
            output: None,
            diag,
        },
    }
}

/// Output that streams share.
#[derive(Drop)]
pub struct Output<B: Buffered + Drop> {
    buffer: RefCell<B>,
}

impl<B: Buffered + Drop> Output<B> {
    fn new(buffer: B) -> Self {
        Output {
            buffer: RefCell::new(buffer),
        }
    }

    // Shows what was written, or fails where some of it can't be.
    fn show(&self) -> io::Result<()>
        ensures { OnOk result (WasShown B.shows) }
    {
        match self.buffer.try_borrow_mut() {
            Ok(mut buffer) => buffer.show(),
            Err(_) => Err(io::Error::from(ErrorKind::Other)),
        }
    }

    // The buffer, which no stream shares any more.
    fn into_buffer(self) -> B {
        let Output { buffer } = self;
        buffer.into_inner()
    }

    #[inline(always)]
    fn take(&self, bytes: &[u8]) -> io::Result<()>
        ensures { OnOk result (WasTaken B.takes bytes.now) }
    {
        match self.buffer.try_borrow_mut() {
            Ok(mut buffer) => buffer.take(bytes),
            Err(_) => Err(io::Error::from(ErrorKind::Other)),
        }
    }
}

/// The end that output goes to. Where it sets room aside it holds the buffer until the next `put`.
#[derive(Drop)]
pub struct OutputEnd<'a, B: Buffered + Drop> {
    output: &'a Output<B>,
    held: Option<RefMut<'a, B>>,
    failures: u64,
}

impl<'a, B: Buffered + Drop> Model for OutputEnd<'a, B> {
    ghost use Rattle.std.specs.RefCell.{ref_mut_value};
    ghost use Rattle.std.specs.Prelude.{None};
    ghost use Rattle.bcore.specs.Blocks.{HoldsRoom, Seen, spare_of};

    ghost Value = { Seen };

    ghost view = { λ e. record {
      seen = record { written = None; failures = e.failures; refusals = 0 };
      room = spare_of (λ guard. B.spare (ref_mut_value guard)) e.held;
    } };

    ghost invariant = { λ e. HoldsRoom (λ guard. B.spare (ref_mut_value guard)) e.held };
}

impl<'a, B: Buffered + Drop> OutputEnd<'a, B> {
    fn new(output: &'a Output<B>) -> Self
        ensures { result ≡ record { seen = writer_end None; room = 0 } }
    {
        OutputEnd {
            output,
            held: None,
            failures: 0,
        }
    }
}

impl<B: Buffered + Drop> ByteOut for OutputEnd<'_, B> {
    ghost outgoing = { λ e. e.seen };

    ghost lender = { λ _. [] };

    ghost refuses_whole = { false };

    ghost room = { λ e. e.room };

    fn set_aside(&mut self) -> usize {
        self.held = None;
        let Ok(buffer) = self.output.buffer.try_borrow_mut() else {
            return 0;
        };
        let spare = buffer.spare();
        if spare > 0 {
            self.held = Some(buffer);
        }
        spare
    }

    /// Writes the bytes, by which the buffer is no longer held.
    #[inline(always)]
    fn put(&mut self, bytes: &[u8]) -> Result<(), EndFault>
        ensures gives { PutGives self.old.seen bytes.now result self.new.seen }
        ensures takes { OnOk result (WasTaken B.takes bytes.now) }
        ensures fits { 0 < self.old.room → length bytes.now ≤ self.old.room → OnErr result ⊥ }
        ensures lets_go { self.new.room ≡ 0 }
    {
        let taken = match self.held.take() {
            Some(mut buffer) => buffer.take(bytes),
            None => self.output.take(bytes),
        };
        if taken.is_err() {
            self.failures = self.failures.saturating_add(1);
            return Err(EndFault::Device);
        }
        Ok(())
    }
}

// A reader before whose reads the output is shown.
#[derive(Drop)]
struct ReadAfterOutput<'a, R: Read + Drop, B: Buffered + Drop> {
    reader: R,
    output: &'a Output<B>,
}

impl<R: Read + Drop, B: Buffered + Drop> Read for ReadAfterOutput<'_, R, B> {
    ghost remaining = { λ a. R.remaining a.reader };

    fn read(&mut self, buf: &mut [u8]) -> io::Result<usize>
        ensures bound { ReadsAtMost result buf.new }
        ensures bytes { ReadConsumes (R.remaining self.old.reader) (R.remaining self.new.reader) result buf.new }
        ensures shows { OnOk result (WasShown B.shows) }
    {
        self.output.show()?;
        self.reader.read(buf)
    }
}

// A writer before whose writes the output is shown.
#[derive(Drop)]
struct WriteAfterOutput<'a, D: Write + Drop, B: Buffered + Drop> {
    writer: D,
    output: &'a Output<B>,
}

impl<D: Write + Drop, B: Buffered + Drop> Write for WriteAfterOutput<'_, D, B> {
    ghost contents = { λ b. D.contents b.writer };

    fn write(&mut self, buf: &[u8]) -> io::Result<usize>
        ensures bound { WritesAtMost result buf.now }
        ensures bytes { WriteAppends (D.contents self.old.writer) (D.contents self.new.writer) result buf.now }
        ensures shows { OnOk result (WasShown B.shows) }
    {
        self.output.show()?;
        self.writer.write(buf)
    }

    fn flush(&mut self) -> io::Result<()> {
        self.writer.flush()
    }
}
