//! Ends over memory that fail at a stated place.
ghost use Rattle.std.specs.Prelude.{◌≡◌, [], false, Some};
ghost use Rattle.bword.specs.ByteEnds.{NextGives, PutGives};
ghost use Rattle.bword.specs.FailingEnds.{failing_in, failing_in_bounded, failing_out, next_answer, one_call_less, PutsWithin};

use crate::{ByteIn, ByteOut, Device, EndFault, MemIn, MemOut};
use std::alloc::Global;
use std::marker::Model;

/// A stream over a slice, one of whose calls fails. All others give its bytes in turn.
#[derive(Drop)]
pub struct FailIn<'a> {
    bytes: MemIn<'a>,
    until: Option<u64>,
}

impl<'a> Model for FailIn<'a> {
    ghost use Rattle.bword.specs.FailingEnds.{FailingIn};

    ghost Value = { FailingIn };

    ghost view = { λ m. record { left = m.bytes.left; is_over = m.bytes.is_over; until = m.until } };
}

impl<'a> FailIn<'a> {
    /// A stream that gives all of these bytes. Its `k`-th call of `next` fails, counted from 0.
    pub fn new(bytes: &'a [u8], k: u64) -> Self
        ensures { result ≡ record { left = bytes.now; is_over = false; until = Some k } }
    {
        FailIn {
            bytes: MemIn::new(bytes),
            until: Some(k),
        }
    }
}

impl ByteIn for FailIn<'_> {
    ghost incoming = { failing_in };

    ghost lender = { λ _. [] };

    /// The next byte, or `None` where none is left. The call that fails may be one after the end.
    #[tactic(auto, using(crate::proofs::FailingLemmas::unfailing_answer))]
    fn next(&mut self) -> Result<Option<u8>, Device>
        ensures gives { NextGives (failing_in self.old) result (failing_in self.new) }
        ensures answer { result ≡ next_answer self.old.until self.old.left }
        ensures until { self.new.until ≡ one_call_less self.old.until }
    {
        match self.until {
            Some(0) => {
                self.until = None;
                return Err(Device);
            }
            Some(calls) => self.until = Some(calls - 1),
            None => {}
        }
        self.bytes.next()
    }

    ghost bounded = { failing_in_bounded };
}

/// A stream that keeps its bytes in a list, and has room for so many.
///
/// The first call that is given more writes those for which there is room, and fails; each later one fails, too.
/// A call without bytes always succeeds. If there is no memory for its list, nothing of that call is kept.
#[derive(Drop)]
pub struct FailOut {
    bytes: MemOut,
    room: u64,
    failures: u64,
}

impl Model for FailOut {
    ghost use Rattle.bword.specs.FailingEnds.{FailingOut};

    ghost Value = { FailingOut };

    ghost view = { λ m. record {
      bytes = m.bytes.bytes;
      room = m.room;
      failures = m.failures;
      refusals = m.bytes.refusals;
    } };
}

impl FailOut {
    /// A stream with room for `m` bytes; it takes no memory yet.
    pub fn new(alloc: Global, m: u64) -> Self
        ensures { result ≡ record { bytes = []; room = m; failures = 0; refusals = 0 } }
    {
        FailOut {
            bytes: MemOut::new(alloc),
            room: m,
            failures: 0,
        }
    }

    /// All bytes that it has taken.
    pub fn bytes(&self) -> &[u8]
        ensures { result.now ≡ self.now.bytes }
    {
        self.bytes.bytes()
    }
}

impl ByteOut for FailOut {
    ghost outgoing = { failing_out };

    ghost lender = { λ _. [] };

    ghost refuses_whole = { false };

    fn put(&mut self, bytes: &[u8]) -> Result<(), EndFault>
        ensures gives { PutGives (failing_out self.old) bytes.now result (failing_out self.new) }
        ensures within { PutsWithin self.old bytes.now result self.new }
    {
        let count = self.room.min(bytes.len() as u64) as usize;
        if count > 0 {
            self.bytes.put(&bytes[..count])?;
            self.room -= count as u64;
        }
        if count < bytes.len() {
            self.failures = self.failures.saturating_add(1);
            return Err(EndFault::Device);
        }
        Ok(())
    }
}
