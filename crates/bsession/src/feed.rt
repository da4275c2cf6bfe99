//! An input that is fed.
ghost use Rattle.std.specs.Prelude.{◌≡◌, ◌<◌, ◌++◌, [], false, true, IfOk, OnErr, OnOk};
ghost use Rattle.bsession.specs.Sessions.{closed_mark, fed_bounded, fed_incoming};

use bword::{ByteIn, Device};
use std::alloc::{AllocError, Global};
use std::marker::Model;

/// A stream that gives the bytes that it was fed, and fails where the next one isn't there yet. What it has failed is
/// forgotten once it is fed or closed.
#[derive(Drop)]
pub(crate) struct Feed {
    bytes: Vec<u8>,
    // How many of them were given.
    given: usize,
    is_closed: bool,
    is_over: bool,
    failures: u64,
}

impl Model for Feed {
    ghost use Rattle.std.specs.Prelude.{◌≡◌, ◌<◌, ◌≤◌, [], drop, false, length, true};
    ghost use Rattle.bsession.specs.Sessions.{Fed};

    ghost Value = { Fed };

    ghost view = { λ f. record {
      unread = drop f.given f.bytes.items;
      is_closed = f.is_closed;
      is_over = f.is_over;
      failures = f.failures;
    } };

    ghost invariant = { λ f. (f.given ≤ length f.bytes.items)
        × (f.is_over ≡ true → (drop f.given f.bytes.items ≡ []) × (f.is_closed ≡ true))
        × (0 < f.failures → (drop f.given f.bytes.items ≡ []) × (f.is_closed ≡ false)) };
}

impl Feed {
    pub(crate) fn new(alloc: Global) -> Feed
        ensures { result ≡ record { unread = []; is_closed = false; is_over = false; failures = 0 } }
    {
        Feed {
            bytes: Vec::new(alloc),
            given: 0,
            is_closed: false,
            is_over: false,
            failures: 0,
        }
    }

    /// Another stream, with the bytes that are left.
    pub(crate) fn copied(&self, alloc: Global) -> Result<Feed, AllocError>
        ensures { IfOk result (λ copy. copy ≡ self.now) }
    {
        let bytes = Vec::from_slice(alloc, self.unread())?;
        Ok(Feed {
            bytes,
            given: 0,
            is_closed: self.is_closed,
            is_over: self.is_over,
            failures: self.failures,
        })
    }

    /// Adds bytes after those that are left; none where memory is refused.
    pub(crate) fn add(&mut self, bytes: &[u8]) -> Result<(), AllocError>
        requires { self.old.is_closed ≡ false }
        ensures added { OnOk result (self.new ≡ record self.old { unread = self.old.unread ++ bytes.now; failures = 0 }) }
        ensures unchanged { OnErr result (self.new ≡ self.old) }
    {
        self.forget_given();
        self.bytes.extend_from_slice(bytes)?;
        self.failures = 0;
        Ok(())
    }

    // Lets go of the bytes once all were given.
    fn forget_given(&mut self)
        ensures { self.new ≡ self.old }
    {
        if self.given == self.bytes.len() {
            self.bytes.clear();
            self.given = 0;
        }
    }

    /// Tells that no byte comes after those that are left.
    pub(crate) fn close(&mut self)
        ensures { self.new ≡ record self.old { is_closed = true; failures = 0 } }
    {
        self.is_closed = true;
        self.failures = 0;
    }

    /// What is known of each one.
    #[inline]
    pub(crate) fn known(&self)
        ensures over { self.now.is_over ≡ true → (self.now.unread ≡ []) × (self.now.is_closed ≡ true) }
        ensures failed { 0 < self.now.failures → (self.now.unread ≡ []) × (self.now.is_closed ≡ false) }
    {
        let _ = &self.bytes;
    }

    pub(crate) fn is_closed(&self) -> bool
        ensures { result ≡ self.now.is_closed }
    {
        self.is_closed
    }

    /// The bytes that are left.
    pub(crate) fn unread(&self) -> &[u8]
        ensures { result.now ≡ self.now.unread }
    {
        &self.bytes[self.given..]
    }
}

impl ByteIn for Feed {
    ghost incoming = { fed_incoming };

    // Whether it is closed, which no call of the stream changes.
    ghost lender = { closed_mark };

    #[inline]
    fn next(&mut self) -> Result<Option<u8>, Device> {
        match self.bytes.get(self.given) {
            Some(byte) => {
                let byte = *byte;
                self.given += 1;
                Ok(Some(byte))
            }
            None if self.is_closed => {
                self.is_over = true;
                Ok(None)
            }
            None => {
                self.failures = self.failures.saturating_add(1);
                Err(Device)
            }
        }
    }

    ghost bounded = { fed_bounded };
}
