//! Input that was read once, and is read again.
ghost use Rattle.std.specs.Prelude.{◌≡◌, length};
ghost use Rattle.bendless.specs.Replays.{IsReplay, bounded_replay, lender_replay, replay_in, replay_new};

use bword::{ByteIn, Device};
use std::marker::Model;

/// A stream over bytes that were read, and over the end after them, if that was read, too. Else a call after them fails.
#[derive(Drop)]
pub struct Replay<'a> {
    rest: &'a [u8],
    has_end: bool,
    is_over: bool,
    failures: u64,
}

impl<'a> Model for Replay<'a> {
    ghost use Rattle.bendless.specs.Replays.{IsReplay, Replayed, replayed};

    ghost Value = { Replayed };

    ghost view = { λ r. replayed r.rest.now r.has_end r.is_over r.failures };

    ghost invariant = { λ r. IsReplay (replayed r.rest.now r.has_end r.is_over r.failures) };
}

impl<'a> Replay<'a> {
    /// A stream that gives all of these bytes, and then the end, or fails.
    pub fn new(bytes: &'a [u8], has_end: bool) -> Self
        ensures { result ≡ replay_new bytes.now has_end }
    {
        Replay {
            rest: bytes,
            has_end,
            is_over: false,
            failures: 0,
        }
    }

    /// How many bytes are left.
    pub fn left(&self) -> usize
        ensures count { result ≡ length self.now.left }
        ensures stands { IsReplay self.now }
    {
        self.rest.len()
    }
}

impl ByteIn for Replay<'_> {
    ghost incoming = { replay_in };

    ghost lender = { lender_replay };

    fn next(&mut self) -> Result<Option<u8>, Device> {
        match self.rest.split_first() {
            Some((byte, rest)) => {
                self.rest = rest;
                Ok(Some(*byte))
            }
            None if self.has_end => {
                self.is_over = true;
                Ok(None)
            }
            None => {
                self.failures = self.failures.saturating_add(1);
                Err(Device)
            }
        }
    }

    ghost bounded = { bounded_replay };
}
