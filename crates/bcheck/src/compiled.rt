//! What compiling a source gives, with what the line of the compiler doesn't tell.
ghost use Rattle.std.specs.Prelude.{◌≡◌, IfOk, None};
ghost use Rattle.bcheck.specs.Findings.{IsCompiled, definitions_in};

use crate::spans::SourceText;
use blang::{Definition, Diagnostic};
use bparse::{CodeOut, Compiler, Step, Watcher};
use btools::compile_source;
use bword::ByteIn;
use std::alloc::{AllocError, Global};

/// The tokens of a definition: from one place among all tokens to another.
#[derive(Clone, Copy)]
pub(crate) struct Extent {
    pub first: usize,
    pub end: usize,
}

/// What compiling a source gives.
#[derive(Drop)]
pub(crate) struct Compiled {
    /// The definitions of its code, or its fault.
    pub code: Result<Vec<Definition>, Diagnostic>,
    /// The places after the last tokens of the definitions that were written.
    pub ends: Vec<usize>,
    /// The place of the token that was read last.
    pub end: usize,
    /// The place of the token at which a fault was seen.
    pub seen_at: usize,
}

impl Compiled {
    /// The definitions of its code; none, if there is a fault.
    pub(crate) fn definitions(&self) -> &[Definition]
        ensures { result.now ≡ definitions_in self.now }
    {
        match &self.code {
            Ok(definitions) => definitions.as_slice(),
            Err(_) => &[],
        }
    }

    /// The tokens of a definition that was written, or those that were read after all of these.
    pub(crate) fn extent(&self, definition: usize) -> Extent {
        Extent {
            first: match definition.checked_sub(1) {
                Some(before) => self.ends.get(before).copied().unwrap_or(0),
                None => 0,
            },
            end: self.ends.get(definition).copied().unwrap_or(self.end),
        }
    }
}

/// Compiles a source.
pub(crate) fn compile(alloc: Global, source: SourceText<'_>) -> Result<Compiled, AllocError>
    ensures { IfOk result (IsCompiled source.entry.edition source.entry.text.now) }
{
    let mut counter = TokenCounter::new(alloc);
    let code = compile_source(alloc, source.text, source.edition, &mut counter)?;
    if counter.is_refused {
        return Err(AllocError);
    }
    Ok(Compiled {
        code,
        ends: counter.ends,
        end: counter.end,
        seen_at: counter.seen_at,
    })
}

/// A watcher that counts the tokens that the compiler has read.
#[derive(Drop)]
struct TokenCounter {
    ends: Vec<usize>,
    end: usize,
    seen_at: usize,
    is_refused: bool,
}

impl TokenCounter {
    fn new(alloc: Global) -> Self {
        TokenCounter {
            ends: Vec::new(alloc),
            end: 0,
            seen_at: 0,
            is_refused: false,
        }
    }
}

impl Watcher for TokenCounter {
    ghost kept = { λ w. None };

    fn watch<I: ByteIn, O: CodeOut>(&mut self, compiler: &Compiler<I, O>, step: &Step) {
        self.end = place(compiler.tokens_taken());
        match step {
            Step::Written => {
                self.is_refused = self.is_refused || self.ends.push(self.end).is_err();
            }
            _ => self.seen_at = place(compiler.token_at_fault()),
        }
    }
}

// No source has more tokens than an address can count.
fn place(count: u64) -> usize {
    usize::try_from(count).unwrap_or(usize::MAX)
}
