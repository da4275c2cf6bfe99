//! The words of a command line, as options have them.
ghost use Rattle.std.specs.Prelude.{◌≡◌, IfOk, map, string_bytes, true};
ghost use Rattle.bcommand.specs.CommandLine.{full_word, full_words};

use std::alloc::{AllocError, Global};

/// The words of a command line, with `--careful=stay` for `--careful`.
///
/// That option may have a value, and `clap` reads values that have to be there.
pub fn full_words<'a>(alloc: Global, words: &'a [String]) -> Result<Vec<&'a str>, AllocError>
    ensures { IfOk result (λ full. map (λ w. w.now) full.items ≡ full_words true (map string_bytes words.now)) }
{
    let mut full = Vec::new(alloc);
    let mut is_option = true;
    for word in words {
        full.push(full_word(is_option, word.as_str()))?;
        is_option = is_option && word.as_str() != "--";
    }
    Ok(full)
}

// A word before `--` or after it.
fn full_word(is_option: bool, word: &str) -> &str
    ensures { result.now ≡ full_word is_option word.entry.now }
{
    if is_option && word == "--careful" {
        "--careful=stay"
    } else {
        word
    }
}
