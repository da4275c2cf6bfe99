//! The comments and tokens of a source in memory, with their places.
ghost use Rattle.std.specs.Prelude.{◌≡◌, ◌≢◌, ◌<◌, ◌≤◌, IfOk, OnErr, Some, length, not, position};
ghost use Rattle.std.specs.List.{prefix_len};
ghost use Rattle.blang.specs.Cut.{is_blank};
ghost use Rattle.blex.specs.Places.{Finds, PassesFirst, after_blanks};
ghost use Rattle.blex.specs.Sources.{SourceFails};
ghost use Rattle.blex.specs.declared.lexeme.Lexeme.TheVariants as lexeme;

use crate::lexeme::Lexeme;
use crate::pieces::{is_blank, piece};
use crate::source::{Source, line_number_after};
use arrayvec::ArrayVec;
use bword::{ByteIn, Device, Edition, MemIn};
use std::marker::Model;

/// A comment or a token of a source, and where it stands.
#[derive(Clone, Copy)]
pub struct PlacedPiece {
    /// The token; none for a comment.
    pub lexeme: Option<Lexeme>,
    /// The line of its first byte, from 1.
    pub line: u64,
    /// The place of its first byte in the source, from 0.
    pub first: usize,
    /// The place after its last byte.
    pub end: usize,
}

/// The comments and tokens of a source in memory, in turn.
#[derive(Drop)]
pub struct Scanner<'a> {
    bytes: &'a [u8],
    edition: Edition,
    at: usize,
    line: u64,
}

impl<'a> Model for Scanner<'a> {
    ghost use Rattle.std.specs.Prelude.{◌≡◌, ◌≤◌, length};
    ghost use Rattle.blex.specs.Places.{Scanner, line_at};

    ghost Value = { Scanner };

    ghost view = { λ s. record { edition = s.edition; source = s.bytes.now; at = s.at } };

    ghost invariant = { λ s. (s.at ≤ length s.bytes.now) × (s.line ≡ line_at s.bytes.now s.at) };
}

impl<'a> Scanner<'a> {
    /// From the beginning of a source on.
    pub fn new(bytes: &'a [u8], edition: Edition) -> Self
        ensures { result ≡ record { edition = edition; source = bytes.now; at = 0 } }
    {
        Scanner {
            bytes,
            edition,
            at: 0,
            line: 1,
        }
    }

    /// The next comment or token. What is wrong is one, too, and others may come after it. At the end of the source
    /// there is `End` each time, which has no bytes.
    pub fn next(&mut self) -> PlacedPiece
        ensures finds { Finds self.old result self.new }
        ensures after { self.old.at ≤ result.first }
        ensures order { result.first ≤ result.end }
        ensures within { result.end ≤ length self.old.source }
        ensures grows { result.lexeme ≢ Some lexeme.End → self.old.at < self.new.at }
    {
        self.pass_blanks();
        let (line, first) = (self.line, self.at);
        let mut source = Source::new(MemIn::new(&self.bytes[first..]), line, self.edition);
        let Ok(lexeme) = first_piece(&mut source) else {
            // Its stream is memory, of which no read fails.
            let _left = source.left();
            unreachable!()
        };
        self.at = self.bytes.len().saturating_sub(source.left());
        self.line = source.line();
        PlacedPiece {
            lexeme,
            line,
            first,
            end: self.at,
        }
    }

    fn pass_blanks(&mut self)
        ensures at { self.new.at ≡ after_blanks self.old.source self.old.at }
        ensures kept { (self.new.edition ≡ self.old.edition) × (self.new.source ≡ self.old.source) }
    {
        let rest = &self.bytes[self.at..];
        let count = blanks(rest);
        self.line = line_number_after(self.line, &rest[..count]);
        self.at += count;
    }
}

// How many blanks stand before another byte, or the end.
fn blanks(bytes: &[u8]) -> usize
    ensures { result ≡ prefix_len is_blank bytes.now }
{
    other_place(bytes).unwrap_or(bytes.len())
}

// The place of the first byte that is no blank.
fn other_place(bytes: &[u8]) -> Option<usize>
    ensures { result ≡ position (λ b. not (is_blank b)) bytes.now }
{
    bytes.iter().position(|byte| !is_blank(*byte))
}

// The comment or token that a source begins with.
fn first_piece<I: ByteIn>(source: &mut Source<I>) -> Result<Option<Lexeme>, Device>
    ensures ok { IfOk result (λ lexeme. PassesFirst source.old lexeme source.new) }
    ensures err { OnErr result (SourceFails source.old source.new) }
{
    let Some(first) = source.next()? else {
        return Ok(Some(Lexeme::End));
    };
    piece(source, first, &mut ArrayVec::new())
}
