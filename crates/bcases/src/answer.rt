//! The answer of a command line, beside the one that is kept.
use anyhow::{Result, bail, ensure};
use bcli::serve;
use blang::status::Status;
use bword::{ByteOut, MemIn, MemOut};
use std::rt::Files;

/// What was written, the line beside it and the status.
#[derive(Drop)]
pub(crate) struct Answer {
    out: MemOut,
    line: MemOut,
    status: Status,
}

/// The answer that a case has to have.
#[derive(Drop)]
pub(crate) enum Kept {
    Apart {
        out: Vec<u8>,
        line: String,
        status: Status,
    },
    /// What is written and the line in one, as a terminal shows them; blanks at the end don't count.
    Shown(String),
}

/// What the program answers to these words.
pub(crate) fn answer_to<R: AllocGlobal + Files>(rt: &R, words: &[String], input: &[u8]) -> Answer {
    let mut out = MemOut::new(rt.alloc());
    let mut line = MemOut::new(rt.alloc());
    let status = serve(rt, words, &mut MemIn::new(input), &mut out, &mut line);
    Answer { out, line, status }
}

impl Kept {
    /// Compares an answer, whose output begins with this text and goes on with what is kept.
    pub(crate) fn compare(&self, mut answer: Answer, begins: &str) -> Result<()> {
        match self {
            Kept::Apart { out, line, status } => {
                let Some(rest) = answer.out.bytes().strip_prefix(begins.as_bytes()) else {
                    bail!("the code text of edition 2 begins with B 2");
                };
                compare_bytes("output", rest, out.as_slice())?;
                compare_bytes("line", answer.line.bytes(), line.as_bytes())?;
                let came = answer.status;
                ensure!(came == *status, "its status is {came}, and not {status}");
                Ok(())
            }
            Kept::Shown(text) => {
                let is_kept = answer.out.put(answer.line.bytes()).is_ok();
                ensure!(is_kept, "out of memory");
                let shown = answer.out.bytes().trim_ascii_end();
                compare_bytes("output", shown, text.trim_end().as_bytes())
            }
        }
    }
}

// Compares bytes with what is kept of them. In a text three dots at the end of a line stand for any text.
fn compare_bytes(what: &str, text: &[u8], kept: &[u8]) -> Result<()> {
    let parts = match str::from_utf8(kept) {
        Ok(kept) => kept.split_once("...\n"),
        Err(_) => None,
    };
    let is_right = match parts {
        Some((before, after)) => {
            let rest = text.strip_prefix(before.as_bytes());
            rest.is_some_and(|rest| rest.ends_with(after.as_bytes()))
        }
        None => text == kept,
    };
    let same = text.iter().zip(kept).take_while(|(a, b)| a == b);
    let line = same.filter(|(byte, _)| **byte == b'\n').count();
    ensure!(
        is_right,
        "its {what} differs in line {}",
        line.saturating_add(1)
    );
    Ok(())
}
