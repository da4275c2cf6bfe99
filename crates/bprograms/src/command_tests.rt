//! Command lines: what is written, the line beside it and the status.
use bcli::{MemFile, serve, serve_with};
use bcore::NoTools;
use bparse::Status;
use bword::{ByteIn, ByteOut, MemIn, MemOut};
use std::alloc::Global;
use std::process::Abort;
use std::rt::Files;
use std::test::Fail;

/// The words of a command line.
pub(crate) fn words_of(alloc: Global, line: &str) -> Result<Vec<String>, Fail> {
    let mut words = Vec::new(alloc);
    for word in line.split(' ') {
        words.push(String::from_str(alloc, word)?)?;
    }
    Ok(words)
}

/// What the program answers to the words of a line.
pub(crate) fn answer_to<R: AllocGlobal + Files, I: ByteIn, O: ByteOut, D: ByteOut>(
    rt: &R,
    words: &str,
    input: &mut I,
    out: &mut O,
    line: &mut D,
) -> Result<Status, Fail> {
    let words = words_of(rt.alloc(), words)?;
    Ok(serve(rt, words.as_slice(), input, out, line))
}

/// What the program writes on the words of a line, where it has this status.
pub(crate) fn serves(
    rt: &(impl AllocGlobal + Files + Abort),
    words: &str,
    input: &str,
    status: Status,
) -> Result<(MemOut, MemOut), Fail> {
    let mut out = MemOut::new(rt.alloc());
    let mut diag = MemOut::new(rt.alloc());
    let answer = answer_to(
        rt,
        words,
        &mut MemIn::new(input.as_bytes()),
        &mut out,
        &mut diag,
    )?;
    assert_eq!(rt; answer, status, "the status of {words}");
    Ok((out, diag))
}

#[test]
fn a_file_that_is_not_there(rt: HostRuntime) -> Result<(), Fail> {
    let (out, line) = serves(&rt, "b run none.code", "", 133)?;
    assert!(rt; out.bytes().is_empty() && line.bytes().is_empty());
    Ok(())
}

// The core alone compiles and runs, and says so of what is asked of tools.
#[test]
fn the_core_alone(rt: HostRuntime) -> Result<(), Fail> {
    let file = MemFile {
        name: "a.b",
        text: b"main() putchar('a');",
    };
    for (line, status, written) in [
        ("b go a.b", 0, "a"),
        ("b check a.b", 136, ""),
        ("b go --where a.b", 136, ""),
    ] {
        let words = words_of(rt.alloc(), line)?;
        let mut out = MemOut::new(rt.alloc());
        let mut diag = MemOut::new(rt.alloc());
        let answer = bcore::serve_with(
            &NoTools,
            rt.alloc(),
            &file,
            words.as_slice(),
            &mut MemIn::new(&[]),
            &mut out,
            &mut diag,
        );
        assert_eq!(rt; answer, status, "the status of {line}");
        assert_eq!(rt; out.bytes(), written.as_bytes(), "the output of {line}");
        assert_eq!(rt; diag.bytes().is_empty(), status == 0, "the line of {line}");
    }
    Ok(())
}

// A file in memory is read under its own name alone.
#[test]
fn a_file_in_memory(rt: HostRuntime) -> Result<(), Fail> {
    let file = MemFile {
        name: "a.b",
        text: b"main() putchar('a');",
    };
    for (line, status, written) in [("b go a.b", 0, "a"), ("b go b.b", 133, "")] {
        let words = words_of(rt.alloc(), line)?;
        let mut out = MemOut::new(rt.alloc());
        let answer = serve_with(
            rt.alloc(),
            &file,
            words.as_slice(),
            &mut MemIn::new(&[]),
            &mut out,
            &mut MemOut::new(rt.alloc()),
        );
        assert_eq!(rt; answer, status, "the status of {line}");
        assert_eq!(rt; out.bytes(), written.as_bytes(), "the output of {line}");
    }
    Ok(())
}

// The name of the program is not in what it tells.
#[test]
fn wrong_command_lines(rt: HostRuntime) -> Result<(), Fail> {
    let rows = "\
b run~error: the following required arguments were not provided:
@
/x/program walk~error: unrecognized subcommand 'walk'

Usage: b <COMMAND>";
    for row in rows.split("\n@\n") {
        let (words, wrong) = row.split_once('~').unwrap_or((row, ""));
        let (out, diag) = serves(&rt, words, "", 135)?;
        assert!(rt; out.bytes().is_empty(), "the output of {words}");
        assert!(rt;
            diag.bytes().starts_with(wrong.as_bytes()),
            "what is wrong with {words}"
        );
        assert!(rt;
            diag.bytes().ends_with(b"try '--help'.\n"),
            "the hint of {words}"
        );
    }
    Ok(())
}

#[test]
fn help(rt: HostRuntime) -> Result<(), Fail> {
    let commands = "\
b --help
b compile --help
b run --help
b go --help
b migrate --help
b check --help
b list --help
b map --help
b trace --help";
    for words in commands.lines() {
        let (out, diag) = serves(&rt, words, "", 0)?;
        assert!(rt; diag.bytes().is_empty(), "the line of {words}");
        assert!(rt; !out.bytes().is_empty(), "the output of {words}");
        let mut width: u64 = 0;
        for byte in out.bytes() {
            width = if *byte == b'\n' {
                0
            } else {
                width.saturating_add(1)
            };
            assert!(rt; width <= 80, "the width of {words}");
        }
    }
    Ok(())
}
