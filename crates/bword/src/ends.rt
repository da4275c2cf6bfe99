//! Ends that bytes come from and go to.
ghost use Rattle.std.specs.Prelude.{ℕ, ◌≡◌, ◌<◌, ◌≤◌, List, [], ◌∷◌, length, take, drop, Bool, IsTrue, OnErr};
ghost use Rattle.std.specs.Io.{StartsWith};
ghost use Rattle.bword.specs.ByteEnds.{most, Incoming, NextGives, GivesReady, TakesReady, Outgoing, PutGives};

/// A read failed.
#[derive(Clone, Copy, PartialEq, Eq)]
pub struct Device;

/// A stream that gives bytes, one a call.
///
/// Its bytes are a finite list. Each `Some` lowers a bound on those that can still come, so every loop to
/// the end returns.
pub trait ByteIn {
    // What can be seen of the end.
    ghost incoming: { Self → Incoming };

    // Which end it is, where `Self` is a reference to one: the names of the references, the outer one first.
    ghost lender: { Self → List ℕ };

    // The bytes that the next calls give without failing, one a call.
    ghost ready: { Self → List ℕ } = { λ _. [] };

    /// The next byte, or `None` where none is left; after a `None` no byte comes.
    ///
    /// # Errors
    ///
    /// `Device` if the stream failed. No byte was taken then, and a later call may give one.
    fn next(&mut self) -> Result<Option<u8>, Device>
        ensures gives { NextGives (incoming self.old) result (incoming self.new) }
        ensures same { lender self.new ≡ lender self.old }
        ensures ready { GivesReady (ready self.old) result (ready self.new) };

    /// A beginning of the bytes that the next calls give without failing. Nothing is read for it, and it may be empty.
    fn ahead(&self) -> &[u8]
        ensures { StartsWith (ready self.now) result.now }
    {
        &[]
    }

    /// Takes so many of the bytes ahead, as that many calls of `next` do.
    fn take(&mut self, count: usize)
        requires { count ≤ length (ready self.old) }
        ensures takes { TakesReady (incoming self.old) (take count (ready self.old)) (incoming self.new) }
        ensures same { lender self.new ≡ lender self.old }
        ensures ready { ready self.new ≡ drop count (ready self.old) }
    {
        for _ in 0..count {
            let _ = self.next();
        }
    }

    // No more bytes come than a `u64` can count.
    ghost bounded: { (end : Self) → Incoming.bound (incoming end) ≤ most };
}

impl<I: ByteIn> ByteIn for &mut I {
    ghost incoming = { λ r. I.incoming r.now };

    ghost lender = { λ r. r.ghost_name ∷ I.lender r.now };

    ghost ready = { λ r. I.ready r.now };

    #[inline]
    fn next(&mut self) -> Result<Option<u8>, Device> {
        ByteIn::next(&mut **self)
    }

    #[inline]
    fn ahead(&self) -> &[u8] {
        ByteIn::ahead(&**self)
    }

    #[inline]
    fn take(&mut self, count: usize) {
        ByteIn::take(&mut **self, count)
    }

    ghost bounded = { λ r. I.bounded r.now };
}

/// Why a stream did not take all bytes.
#[derive(Clone, Copy, Debug, PartialEq, Eq)]
pub enum EndFault {
    /// A write failed.
    Device = 1,
    /// The stream is out of memory.
    Memory = 2,
}

const _: () = prove!(EndFault::Device as u8 == 1);

const _: () = prove!(EndFault::Memory as u8 == 2);

/// A stream that takes bytes.
pub trait ByteOut {
    // What can be seen of the end.
    ghost outgoing: { Self → Outgoing };

    // Which end it is, where `Self` is a reference to one: the names of the references, the outer one first.
    ghost lender: { Self → List ℕ };

    // Whether a refused `put` writes none of its bytes.
    ghost refuses_whole: { Bool };

    // How many bytes the next `put` can't refuse, or 0 where it may refuse any and nothing is held for it.
    ghost room: { Self → ℕ } = { λ _. 0 };

    /// Sets room aside for the next `put`, and tells for how many bytes. It may be none. Where there is some, nothing
    /// may be asked of the other streams before that `put`, which may be one of no byte.
    fn set_aside(&mut self) -> usize
        ensures room { result ≤ room self.new }
        ensures none { result ≡ 0 → room self.new ≤ room self.old }
        ensures kept { outgoing self.new ≡ outgoing self.old }
        ensures same { lender self.new ≡ lender self.old }
    {
        0
    }

    /// Writes the bytes.
    ///
    /// # Errors
    ///
    /// If the stream failed or is out of memory. A beginning of the bytes, perhaps none, was written
    /// then, and a later call may succeed.
    fn put(&mut self, bytes: &[u8]) -> Result<(), EndFault>
        ensures gives { PutGives (outgoing self.old) bytes.now result (outgoing self.new) }
        ensures whole { IsTrue refuses_whole
            → OnErr result (Outgoing.written (outgoing self.new) ≡ Outgoing.written (outgoing self.old)) }
        ensures fits { 0 < room self.old → length bytes.now ≤ room self.old → OnErr result ⊥ }
        ensures lets_go { room self.new ≡ 0 }
        ensures same { lender self.new ≡ lender self.old };
}

impl<O: ByteOut> ByteOut for &mut O {
    ghost outgoing = { λ r. O.outgoing r.now };

    ghost lender = { λ r. r.ghost_name ∷ O.lender r.now };

    ghost refuses_whole = { O.refuses_whole };

    ghost room = { λ r. O.room r.now };

    #[inline]
    fn set_aside(&mut self) -> usize {
        ByteOut::set_aside(&mut **self)
    }

    #[inline]
    fn put(&mut self, bytes: &[u8]) -> Result<(), EndFault> {
        ByteOut::put(&mut **self, bytes)
    }
}
