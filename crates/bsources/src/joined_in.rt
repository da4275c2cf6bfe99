//! An end over another end and bytes that follow it.
ghost use Rattle.std.specs.Prelude.{◌≡◌, IsTrue, OnErr};
ghost use Rattle.std.specs.Io.{StartsWith};
ghost use Rattle.bword.specs.ByteEnds.{GivesReady, NextGives};
ghost use Rattle.bsources.specs.JoinedEnds.{FailsIn, IsJoined, bounded_joined, joined_in, joined_new};
ghost use Rattle.bsources.specs.JoinedEnds.{lender_joined, ready_joined};

use bword::{ByteIn, Device};
use std::marker::Model;
use std::snapshot::Snapshot;

/// A stream that gives the bytes of another one, and then those of a slice.
///
/// A call fails where one of the other stream does. It gives no more bytes than a `u64` can count; a further call
/// fails. After the end no call fails.
#[derive(Drop)]
pub struct JoinedIn<'a, I: ByteIn> {
    // What it was made of, for contracts alone: these take no room.
    first_made: Snapshot<I>,
    rest_made: Snapshot<&'a [u8]>,
    first: I,
    rest: &'a [u8],
    is_past_first: bool,
    is_over: bool,
    given: u64,
    refused: u64,
}

impl<'a, I: ByteIn> Model for JoinedIn<'a, I> {
    ghost use Rattle.std.specs.Prelude.{length};
    ghost use Rattle.bword.specs.ByteEnds.{Incoming};
    ghost use Rattle.bsources.specs.JoinedEnds.{IsJoined, Joined, joined_of};

    ghost Value = { Joined };

    ghost view = { λ j. joined_of (I.incoming j.first) (I.ready j.first) (I.lender j.first) j.rest.now
        j.is_past_first j.is_over j.given j.refused
        (Incoming.bound (I.incoming j.first_made.value)) (length j.rest_made.value.now) };

    ghost invariant = { λ j. IsJoined (joined_of (I.incoming j.first) (I.ready j.first) (I.lender j.first) j.rest.now
        j.is_past_first j.is_over j.given j.refused
        (Incoming.bound (I.incoming j.first_made.value)) (length j.rest_made.value.now)) };
}

impl<'a, I: ByteIn> JoinedIn<'a, I> {
    /// A stream that gives the bytes of this one, and then these.
    pub fn new(first: I, rest: &'a [u8]) -> Self
        ensures { result ≡ joined_new (I.incoming first) (I.ready first) (I.lender first) rest.now }
    {
        JoinedIn {
            first_made: Snapshot::of(&first),
            rest_made: Snapshot::of(&rest),
            first,
            rest,
            is_past_first: false,
            is_over: false,
            given: 0,
            refused: 0,
        }
    }

    /// The other stream, as it was left.
    pub fn into_first(self) -> I
        ensures first { I.incoming result ≡ self.entry.first }
        ensures lender { I.lender result ≡ self.entry.lender }
        ensures stands { IsJoined self.entry }
    {
        let JoinedIn {
            first_made: _,
            rest_made: _,
            first,
            rest: _,
            is_past_first: _,
            is_over: _,
            given: _,
            refused: _,
        } = self;
        first
    }
}

impl<I: ByteIn> ByteIn for JoinedIn<'_, I> {
    ghost incoming = { joined_in };

    ghost lender = { lender_joined };

    ghost ready = { ready_joined };

    fn next(&mut self) -> Result<Option<u8>, Device>
        ensures gives { NextGives (joined_in self.old) result (joined_in self.new) }
        ensures same { lender_joined self.new ≡ lender_joined self.old }
        ensures ready { GivesReady (ready_joined self.old) result (ready_joined self.new) }
        ensures failed { OnErr result (FailsIn self.old self.new) }
        ensures ended { IsTrue self.old.is_over → (result ≡ Ok None) × (self.new ≡ self.old) }
    {
        if self.is_over {
            return Ok(None);
        }
        if self.given == u64::MAX {
            self.refused = self.refused.saturating_add(1);
            return Err(Device);
        }
        if !self.is_past_first {
            if let Some(byte) = self.first.next()? {
                self.given += 1;
                return Ok(Some(byte));
            }
            self.is_past_first = true;
        }
        let Some((byte, rest)) = self.rest.split_first() else {
            self.is_over = true;
            return Ok(None);
        };
        self.rest = rest;
        self.given += 1;
        Ok(Some(*byte))
    }

    fn ahead(&self) -> &[u8]
        ensures begins { StartsWith (ready_joined self.now) result.now }
        ensures all { IsTrue self.now.is_past_first → result.now ≡ ready_joined self.now }
    {
        let ahead = if self.is_past_first {
            self.rest
        } else {
            self.first.ahead()
        };
        let room = u64::MAX - self.given;
        &ahead[..room.min(ahead.len() as u64) as usize]
    }

    fn take(&mut self, count: usize) {
        if self.is_past_first {
            self.rest = &self.rest[count..];
        } else {
            self.first.take(count);
        }
        self.given += count as u64;
    }

    ghost bounded = { bounded_joined };
}
