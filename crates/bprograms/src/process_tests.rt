//! The order of what a process reads and writes, in a log of its streams.
use crate::command_tests::words_of;
use bcli::AllTools;
use bcore::{Answering, Block, Streams, serve_process};
use bparse::Status;
use std::alloc::AllocError;
use std::cell::RefCell;
use std::fs;
use std::io::{self, ErrorKind, Read, Write};
use std::process::Abort;
use std::rt::Files;
use std::test::Fail;

// What the streams did, in turn.
type Log = RefCell<Vec<u8>>;

fn note(log: &Log, bytes: &[u8]) -> io::Result<()> {
    match log.try_borrow_mut() {
        Ok(mut log) => Ok(log.extend_from_slice(bytes)?),
        Err(_) => Err(io::Error::from(ErrorKind::Other)),
    }
}

// A stream whose calls are noted with a mark before them, or which is closed.
#[derive(Drop)]
struct Noted<'a> {
    log: &'a Log,
    mark: &'a str,
    is_open: bool,
    to_come: &'a [u8],
}

impl Noted<'_> {
    fn note_call(&self, bytes: &[u8]) -> io::Result<()> {
        if !self.is_open {
            return Err(io::Error::from(ErrorKind::Other));
        }
        note(self.log, self.mark.as_bytes())?;
        note(self.log, bytes)
    }
}

// It gives up to two bytes a read.
impl Read for Noted<'_> {
    fn read(&mut self, buf: &mut [u8]) -> io::Result<usize> {
        let count = buf.len().min(self.to_come.len()).min(2);
        let (given, rest) = self.to_come.split_at(count);
        self.note_call(given)?;
        buf[..count].copy_from_slice(given);
        self.to_come = rest;
        Ok(count)
    }
}

impl Write for Noted<'_> {
    fn write(&mut self, buf: &[u8]) -> io::Result<usize> {
        self.note_call(buf)?;
        Ok(buf.len())
    }

    fn flush(&mut self) -> io::Result<()> {
        Ok(())
    }
}

fn stream<'a>(log: &'a Log, mark: &'a str, to_come: &'a str) -> Noted<'a> {
    Noted {
        log,
        mark,
        is_open: true,
        to_come: to_come.as_bytes(),
    }
}

// The streams of a process, whose output is shown at once, or in blocks.
#[derive(Drop)]
struct Ends<'a> {
    input: Noted<'a>,
    output: Noted<'a>,
    diag: Noted<'a>,
    at_once: bool,
}

// Reads are noted by <, writes by > and lines by !.
fn streams<'a>(log: &'a Log, input: &'a str) -> Ends<'a> {
    Ends {
        input: stream(log, "<", input),
        output: stream(log, ">", ""),
        diag: stream(log, "!", ""),
        at_once: false,
    }
}

// The status of a process with these words over these streams.
fn answered(
    rt: &(impl AllocGlobal + Files),
    words: Option<Vec<String>>,
    ends: Ends<'_>,
) -> Result<Status, AllocError> {
    let alloc = rt.alloc();
    let task = Answering {
        tools: &AllTools,
        rt,
        words,
    };
    let streams = Streams {
        input: ends.input,
        output: Block::new(alloc, ends.output, ends.at_once)?,
        diag: ends.diag,
    };
    Ok(serve_process(alloc, task, streams).status)
}

// Compares what the streams did, and the status, for a program in a file of its own.
fn logs(
    rt: &(impl AllocGlobal + Files + Abort),
    source: &str,
    streams: Ends<'_>,
    expected: &str,
    status: Status,
) -> Result<(), Fail> {
    fs::write(rt, "x.b", source.as_bytes())?;
    let log = streams.diag.log;
    let answer = answered(rt, Some(words_of(rt.alloc(), "b go x.b")?), streams)?;
    fs::remove_file(rt, "x.b")?;
    let is_right = match log.try_borrow() {
        Ok(log) => answer == status && log.as_slice() == expected.as_bytes(),
        Err(_) => false,
    };
    assert!(rt; is_right, "what comes of {source}");
    Ok(())
}

const ASKS: &str = "main() { putchar('?'); putchar(getchar()); }";

const ASKS_THRICE: &str = "\
main() { ask(50); ask(75); ask(62); say(\"I knew it.*n\"); }
ask(n) { say(\"Is it \"); printn(n, 10); say(\"? \"); while(getchar() != '*n') ; }
say(s) { auto i; i = 0; while(char(s, i) != '*e') putchar(char(s, i++)); }
";

const DIVIDES: &str = "main() { putchar('a'); putchar('b'); printn(1 / 0, 10); }";

#[test]
fn questions_and_lines(rt: HostRuntime) -> Result<(), Fail> {
    let log = RefCell::new(Vec::new(rt.alloc()));
    let asked = ">Is it 50? <h\n>Is it 75? <l\n>Is it 62? <y\n>I knew it.\n";
    logs(&rt, ASKS_THRICE, streams(&log, "h\nl\ny\n"), asked, 0)?;
    let log = RefCell::new(Vec::new(rt.alloc()));
    logs(&rt, DIVIDES, streams(&log, ""), ">ab!trap dz\n", 130)?;
    let log = RefCell::new(Vec::new(rt.alloc()));
    let mut at_once = streams(&log, "");
    at_once.at_once = true;
    logs(&rt, DIVIDES, at_once, ">a>b!trap dz\n", 130)
}

// A stream that is closed or full: no line tells of it.
#[test]
fn closed_streams(rt: HostRuntime) -> Result<(), Fail> {
    let log = RefCell::new(Vec::new(rt.alloc()));
    let mut no_input = streams(&log, "x");
    no_input.input.is_open = false;
    logs(&rt, ASKS, no_input, ">?", 133)?;
    let log = RefCell::new(Vec::new(rt.alloc()));
    let mut no_output = streams(&log, "x");
    no_output.output.is_open = false;
    logs(&rt, ASKS, no_output, "", 133)?;
    let log = RefCell::new(Vec::new(rt.alloc()));
    let mut no_output = streams(&log, "");
    no_output.output.is_open = false;
    logs(&rt, DIVIDES, no_output, "", 133)?;
    let log = RefCell::new(Vec::new(rt.alloc()));
    let mut no_diag = streams(&log, "");
    no_diag.diag.is_open = false;
    logs(&rt, DIVIDES, no_diag, ">ab", 133)
}

// A word that is not UTF-8 is a wrong command line.
#[test]
fn no_words(rt: HostRuntime) -> Result<(), Fail> {
    let log = RefCell::new(Vec::new(rt.alloc()));
    assert_eq!(rt; answered(&rt, None, streams(&log, ""))?, 135);
    let wrong = "!error: a word of the command line is not UTF-8\n";
    let starts = match log.try_borrow() {
        Ok(log) => log.starts_with(wrong.as_bytes()),
        Err(_) => false,
    };
    assert!(rt; starts);
    Ok(())
}
