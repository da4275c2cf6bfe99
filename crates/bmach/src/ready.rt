//! Bytes that can be read and written without a stream.
ghost use Rattle.std.specs.Prelude.{◌≡◌, ◌≤◌, [], ◌∷◌, ◌++◌, MatchOption, if◌then◌else◌, length, min};
ghost use Rattle.blang.specs.Layout.{character_bytes};

use std::marker::Model;

// For how many bytes there is room at most.
const ROOM: usize = 256;

/// Bytes that a stream gives without failing, and room for bytes that another one can't refuse.
#[derive(Drop)]
pub struct Ready<'a> {
    left: &'a [u8],
    bytes: [u8; ROOM],
    filled: usize,
    room: usize,
}

impl<'a> Model for Ready<'a> {
    ghost use Rattle.std.specs.Prelude.{◌≤◌, take};
    ghost use Rattle.bmach.specs.ReadyBytes.{Readied};

    ghost Value = { Readied };

    ghost view = { λ r. record { left = r.left.now; written = take r.filled r.bytes; room = r.room } };

    ghost invariant = { λ r. (r.filled ≤ r.room) × (r.room ≤ 256) };
}

impl<'a> Ready<'a> {
    /// These bytes, and room for so many, or for fewer.
    pub fn new(left: &'a [u8], room: usize) -> Self
        ensures { result ≡ record { left = left.now; written = []; room = min room ROOM } }
    {
        Ready {
            left,
            bytes: [0; ROOM],
            filled: 0,
            room: room.min(ROOM),
        }
    }

    /// How many bytes are left.
    pub fn left(&self) -> usize
        ensures { result ≡ length self.now.left }
    {
        self.left.len()
    }

    /// The bytes that were written.
    pub fn written(&self) -> &[u8]
        ensures bytes { result.now ≡ self.now.written }
        ensures within { length result.now ≤ self.now.room }
    {
        &self.bytes[..self.filled]
    }

    /// The next byte, if one is left.
    #[inline(always)]
    pub fn next(&mut self) -> Option<u8>
        ensures gives { MatchOption result (self.new ≡ self.old)
            (λ byte. (self.old.left ≡ byte ∷ self.new.left) × (self.new ≡ record self.old { left = self.new.left })) }
    {
        let (byte, left) = self.left.split_first()?;
        self.left = left;
        Some(*byte)
    }

    /// Writes the bytes of a character, if there is room for them, and tells whether there was.
    #[inline(always)]
    pub fn put(&mut self, character: u16) -> bool
        ensures { self.new ≡ (if result
            then record self.old { written = self.old.written ++ character_bytes character } else self.old) }
    {
        let at = self.filled;
        let room = self.room - at;
        if character < 256 && room > 0 {
            self.bytes[at] = character as u8;
            self.filled = at + 1;
            return true;
        }
        if character < 256 || room < 2 {
            return false;
        }
        self.bytes[at] = (character / 256) as u8;
        self.bytes[at + 1] = (character % 256) as u8;
        self.filled = at + 2;
        true
    }
}
