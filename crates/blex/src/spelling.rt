//! Words while they are read.
ghost use Rattle.std.specs.Prelude.{◌≡◌, ◌+◌, ◌*◌, ◌%◌, ◌^◌, min};
ghost use Rattle.bword.specs.ByteEnds.{most};

/// The bytes of a word so far.
#[derive(Clone, Copy)]
pub(crate) struct Spelling {
    /// Of the last eight, the first of which counts most.
    pub number: u64,
    pub len: u64,
}

impl Spelling {
    /// One byte.
    #[inline(always)]
    pub fn new(first: u8) -> Self
        ensures { result ≡ record { number = first; len = 1 } }
    {
        Spelling {
            number: u64::from(first),
            len: 1,
        }
    }

    /// Puts a byte after the others.
    #[inline(always)]
    pub fn push(&mut self, byte: u8)
        ensures number { self.new.number ≡ (self.old.number * 256 + byte) % 2 ^ 64 }
        ensures len { self.new.len ≡ min (self.old.len + 1) most }
    {
        self.number = number_with(self.number, byte);
        self.len = self.len.saturating_add(1);
    }
}

/// A number with this byte after its own.
#[inline(always)]
pub(crate) fn number_with(number: u64, byte: u8) -> u64
    ensures { result ≡ (number * 256 + byte) % 2 ^ 64 }
{
    number.wrapping_mul(256).wrapping_add(u64::from(byte))
}
