//! One case: the words of a command line, what it reads, and the answer that is kept.
use crate::answer::{Kept, answer_to};
use crate::folder::{Folder, is_named};
use anyhow::{Result, anyhow, bail, ensure};
use std::alloc::{AllocError, Global};
use std::fs;
use std::rt::Files;

// The word that stands for each edition in turn.
const BOTH: &str = "--edition=both";

/// Serves a case of the folder in which the program is, and compares the answer.
pub(crate) fn serve_case<R: AllocGlobal + Files>(
    rt: &R,
    folder: &Folder,
    name: &str,
) -> Result<()> {
    let words = text_of(rt, folder, name, "args")?;
    ensure!(!words.contains('\0'), "a byte 0, which no word can have");
    let input = match input_of(folder, name, words.as_str())? {
        Some(ending) => fs::read(rt, file_of(rt.alloc(), name, ending)?)?,
        None => Vec::new(rt.alloc()),
    };
    let kept = kept_of(rt, folder, name)?;
    let compiles = words.starts_with("compile\n");
    if words.lines().any(|word| word == BOTH) {
        let first = words_of(rt.alloc(), words.as_str(), "--edition=1")?;
        kept.compare(answer_to(rt, first.as_slice(), input.as_slice()), "")?;
        let second = words_of(rt.alloc(), words.as_str(), "--edition=2")?;
        let begins = if compiles { "B 2\n" } else { "" };
        kept.compare(answer_to(rt, second.as_slice(), input.as_slice()), begins)
    } else {
        let words = words_of(rt.alloc(), words.as_str(), BOTH)?;
        kept.compare(answer_to(rt, words.as_slice(), input.as_slice()), "")
    }
}

fn file_of(alloc: Global, name: &str, ending: &str) -> Result<String, AllocError> {
    format!(in alloc; "{name}.{ending}")
}

// The text of a file of the case; none where the file isn't there.
fn text_of<R: AllocGlobal + Files>(
    rt: &R,
    folder: &Folder,
    name: &str,
    ending: &str,
) -> Result<String> {
    if folder.has(name, ending) {
        Ok(fs::read_to_string(rt, file_of(rt.alloc(), name, ending)?)?)
    } else {
        Ok(String::new(rt.alloc()))
    }
}

// The bytes of a file of the case; none where the file isn't there.
fn bytes_of<R: AllocGlobal + Files>(
    rt: &R,
    folder: &Folder,
    name: &str,
    ending: &str,
) -> Result<Vec<u8>> {
    if folder.has(name, ending) {
        Ok(fs::read(rt, file_of(rt.alloc(), name, ending)?)?)
    } else {
        Ok(Vec::new(rt.alloc()))
    }
}

// The words of a command line, one a line, after the program's own name.
fn words_of(alloc: Global, lines: &str, edition: &str) -> Result<Vec<String>, AllocError> {
    let mut words = Vec::new(alloc);
    words.push(String::from_str(alloc, "b")?)?;
    for line in lines.lines() {
        let word = if line == BOTH { edition } else { line };
        words.push(String::from_str(alloc, word)?)?;
    }
    Ok(words)
}

// The ending of the file on standard input: that of NAME.in, or of the source where it is read there. A source that
// nothing reads is refused, and one that is missing.
fn input_of<'a>(folder: &Folder, name: &str, words: &str) -> Result<Option<&'a str>> {
    let reads = words.starts_with("compile\n") || words.starts_with("migrate\n");
    let mut input = None;
    for ending in ["b", "bas", "code", "lines", "names", "rules", "in"] {
        let is_word = ending != "in" && words.lines().any(|word| is_named(word, name, ending));
        if is_word != folder.has(name, ending) {
            ensure!(
                !is_word,
                "its words name {name}.{ending}, which isn't there"
            );
            ensure!(
                reads || ending == "in",
                "its words don't name {name}.{ending}"
            );
            ensure!(input.is_none(), "two files for its standard input");
            input = Some(ending);
        }
    }
    ensure!(
        input.is_some() || !reads,
        "there is no {name}.b, {name}.code or {name}.in"
    );
    Ok(input)
}

fn kept_of<R: AllocGlobal + Files>(rt: &R, folder: &Folder, name: &str) -> Result<Kept> {
    let out = bytes_of(rt, folder, name, "out")?;
    let line = text_of(rt, folder, name, "line")?;
    let status = text_of(rt, folder, name, "status")?;
    if folder.has(name, "shown") {
        let is_alone = out.is_empty() && line.is_empty() && status.is_empty();
        ensure!(is_alone, "{name}.shown stands for .out, .line and .status");
        return Ok(Kept::Shown(text_of(rt, folder, name, "shown")?));
    }
    let status = match status.trim_end() {
        "" => 0,
        number => number
            .parse::<u8>()
            .map_err(|_| anyhow!("no status from 0 to 255"))?,
    };
    Ok(Kept::Apart { out, line, status })
}
