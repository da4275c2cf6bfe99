//! Bytes of output on their way to a writer.
ghost use Rattle.std.specs.Prelude.{◌≡◌, ◌++◌, ◌-◌, ◌<◌, ◌≤◌, List, ℕ, [], if◌then◌else◌, length, nat_le};
ghost use Rattle.std.specs.Prelude.{IfOk, MatchResult, OnErr, OnOk};
ghost use Rattle.std.specs.Io.KnownBytes.{Appends};
ghost use Rattle.bcore.specs.Blocks.{HandsOn, HandsSome, PassesOn, TakesPiece, WritesOn, has_room};

use std::alloc::{AllocError, Global};
use std::io::{self, ErrorKind, Write};
use std::marker::Model;

// The bytes of output that are written at once.
const BLOCK_LEN: usize = 8192;

/// What keeps bytes back until they are shown.
///
/// No contract knows what is in a cell. So what shares a buffer through a cell is generic over it: that a buffer took
/// some bytes, or showed them, can then only come from a call of its own.
pub trait Buffered {
    /// What a call does that takes all of these bytes.
    ghost takes: { Self → List ℕ → Self → Type 0 };

    /// What a call does that shows all that was kept.
    ghost shows: { Self → Self → Type 0 };

    /// For how many bytes it has room without showing any.
    ghost spare: { Self → ℕ };

    /// For how many bytes there is room without showing any.
    fn spare(&self) -> usize
        ensures { result ≡ spare self.now };

    /// Takes bytes, and shows some where it can't keep them.
    fn take(&mut self, bytes: &[u8]) -> io::Result<()>
        ensures takes { OnOk result (takes self.old bytes.now self.new) }
        ensures fits { 0 < spare self.old → length bytes.now ≤ spare self.old → OnErr result ⊥ };

    /// Shows what is kept. What can't be shown isn't tried again.
    fn show(&mut self) -> io::Result<()>
        ensures shows { OnOk result (shows self.old self.new) };
}

/// A buffer of which its writer is left in the end.
pub trait Finish<W> {
    /// What a call does that shows all that was kept.
    ghost finishes: { Self → W → Type 0 };

    /// Shows what is kept, for the last time: no buffer is left that could take more.
    fn finish(self) -> io::Result<W>
        ensures finishes { IfOk result (finishes self) };
}

/// A buffer of 8192 bytes, or of none, which shows each piece at once.
#[derive(Drop)]
pub struct Block<W: Write + Drop> {
    writer: W,
    bytes: Vec<u8>,
    filled: usize,
}

impl<W: Write + Drop> Model for Block<W> {
    ghost use Rattle.std.specs.Prelude.{◌≤◌, length, take};
    ghost use Rattle.bcore.specs.Blocks.{Held};

    ghost Value = { Held };

    ghost view = { λ b. record {
      shown = W.contents b.writer;
      kept = take b.filled b.bytes.items;
      len = length b.bytes.items;
    } };

    ghost invariant = { λ b. b.filled ≤ length b.bytes.items };
}

impl<W: Write + Drop> Block<W> {
    /// A buffer before a writer, which keeps nothing yet, and where it shows all at once never does.
    pub fn new(alloc: Global, writer: W, at_once: bool) -> Result<Self, AllocError>
        ensures { IfOk result (λ block. block ≡ record {
          shown = W.contents writer;
          kept = [];
          len = (if at_once then 0 else BLOCK_LEN);
        }) }
    {
        let len = if at_once { 0 } else { BLOCK_LEN };
        Ok(Block {
            writer,
            bytes: vec![in alloc; 0; len]?,
            filled: 0,
        })
    }

    // Keeps a piece, if there is room for it.
    #[inline(always)]
    fn keep(&mut self, piece: &[u8]) -> bool
        ensures fits { result ≡ has_room self.old self.old.kept piece.now }
        ensures keeps { self.new
            ≡ (if result then record self.old { kept = self.old.kept ++ piece.now } else self.old) }
    {
        if piece.len() > self.bytes.len() - self.filled {
            return false;
        }
        let end = self.filled + piece.len();
        match piece {
            // The program that runs writes most pieces, of one byte.
            [byte] => self.bytes[self.filled] = *byte,
            _ => self.bytes[self.filled..end].copy_from_slice(piece),
        }
        self.filled = end;
        true
    }

    // Shows what is kept, and then keeps a piece, or shows it if it is longer than a block.
    #[cold]
    #[inline(never)]
    fn pass_on(&mut self, piece: &[u8]) -> io::Result<()>
        ensures passes { MatchResult result (λ _. PassesOn (has_room self.old [] piece.now) self.old piece.now self.new)
            (λ _. HandsSome self.old (self.old.kept ++ piece.now) self.new) }
    {
        self.show_kept()?;
        if self.keep(piece) {
            return Ok(());
        }
        self.show_piece(piece)
    }

    // Shows a piece, where nothing is kept.
    fn show_piece(&mut self, piece: &[u8]) -> io::Result<()>
        requires { self.old.kept ≡ [] }
        ensures { MatchResult result (λ _. HandsOn self.old piece.now [] self.new)
            (λ _. HandsSome self.old piece.now self.new) }
    {
        write_on(&mut self.writer, piece)
    }

    fn show_kept(&mut self) -> io::Result<()>
        ensures { MatchResult result (λ _. HandsOn self.old self.old.kept [] self.new)
            (λ _. HandsSome self.old self.old.kept self.new) }
    {
        let filled = self.filled;
        self.filled = 0;
        write_on(&mut self.writer, &self.bytes[..filled])
    }
}

impl<W: Write + Drop> Buffered for Block<W> {
    ghost takes = { λ old piece new. TakesPiece (has_room old old.kept piece) (has_room old [] piece) old piece new };

    ghost shows = { λ old new. HandsOn old old.kept [] new };

    ghost spare = { λ b. b.len - length b.kept };

    fn spare(&self) -> usize {
        self.bytes.len() - self.filled
    }

    #[inline(always)]
    fn take(&mut self, bytes: &[u8]) -> io::Result<()>
        ensures takes { OnOk result
            (TakesPiece (has_room self.old self.old.kept bytes.now) (has_room self.old [] bytes.now)
            self.old bytes.now self.new) }
        ensures fits { 0 < self.old.len - length self.old.kept → length bytes.now ≤ self.old.len - length self.old.kept
            → OnErr result ⊥ }
        ensures fails { OnErr result (HandsSome self.old (self.old.kept ++ bytes.now) self.new) }
    {
        if self.keep(bytes) {
            return Ok(());
        }
        self.pass_on(bytes)
    }

    fn show(&mut self) -> io::Result<()>
        ensures shows { OnOk result (HandsOn self.old self.old.kept [] self.new) }
        ensures fails { OnErr result (HandsSome self.old self.old.kept self.new) }
    {
        self.show_kept()
    }
}

impl<W: Write + Drop> Finish<W> for Block<W> {
    ghost finishes = { λ old writer. Appends old.shown (W.contents writer) old.kept };

    fn finish(mut self) -> io::Result<W>
        ensures finishes { IfOk result (λ writer. Appends self.shown (W.contents writer) self.kept) }
    {
        self.show_kept()?;
        let Block {
            writer,
            bytes: _,
            filled: _,
        } = self;
        Ok(writer)
    }
}

// Writes bytes, and has the writer show them.
fn write_on<W: Write>(writer: &mut W, bytes: &[u8]) -> io::Result<()>
    ensures { WritesOn (W.contents writer.old) bytes.now result (W.contents writer.new) }
{
    let mut at = 0;
    while at < bytes.len() {
        match writer.write(&bytes[at..]) {
            Ok(0) => return Err(io::Error::from(ErrorKind::WriteZero)),
            Ok(count) => at += count,
            Err(error) => return Err(error),
        }
    }
    writer.flush()
}
