//! Streams over the rooms of a caller.
ghost use Rattle.std.specs.Prelude.{◌≡◌, ◌≤◌, ◌+◌, ◌++◌, ◌∷◌, take, drop, false, length};
ghost use Rattle.bembed.specs.Rooms.{room_of, overflow_of, fresh, FailsFull};

use crate::before::Before;
use bword::{ByteOut, EndFault};

/// How many bytes a call wrote at the head of each room.
#[repr(C)]
#[derive(Drop)]
pub struct Written {
    pub out: usize,
    pub line: usize,
}

/// A stream that writes at the head of a room, and counts what it wrote.
///
/// The first call that is given more than there is room for writes what fits, and fails. So does each later one with
/// any byte.
#[derive(Drop)]
pub(crate) struct Room<'a> {
    room: &'a mut [u8],
    count: &'a mut usize,
    failures: u64,
    // The first byte that had no room.
    over: Option<u8>,
    before: &'a Before,
    ghost within: { count.now ≤ length room.now },
    ghost full: { FailsFull room.now count.now (overflow_of failures over) },
    ghost kept: { drop count.now room.now ≡ drop count.now before.now.bytes },
}

impl<'a> Room<'a> {
    /// A stream that has written nothing.
    pub(crate) fn new(room: &'a mut [u8], before: &'a Before, count: &'a mut usize) -> Room<'a>
        requires { before.now.bytes ≡ room.old }
        ensures room_name { result.room.ghost_name ≡ room.entry.ghost_name }
        ensures count_name { result.count.ghost_name ≡ count.entry.ghost_name }
        ensures before { result.before.now.bytes ≡ room.entry.now }
        ensures empty { room_of result.room.now result.count.now (overflow_of result.failures result.over) ≡ fresh }
    {
        *count = 0;
        Room {
            room,
            count,
            failures: 0,
            over: None,
            before,
        }
    }
}

impl ByteOut for Room<'_> {
    ghost outgoing = { λ r. room_of r.room.now r.count.now (overflow_of r.failures r.over) };

    ghost lender = { λ r. r.room.ghost_name ∷ r.count.ghost_name ∷ r.before.now.bytes };

    ghost refuses_whole = { false };

    fn put(&mut self, bytes: &[u8]) -> Result<(), EndFault> {
        let start = *self.count;
        let fits = &bytes[..bytes.len().min(self.room.len() - start)];
        write_at(self.room, start, fits);
        *self.count = start + fits.len();
        let Some(byte) = bytes.get(fits.len()) else {
            return Ok(());
        };
        self.over = self.over.or(Some(*byte));
        self.failures = self.failures.saturating_add(1);
        Err(EndFault::Device)
    }
}

// Writes bytes at a place of a room that has room for them there.
fn write_at(room: &mut [u8], start: usize, bytes: &[u8])
    requires { start + length bytes.now ≤ length room.old }
    ensures written { take (start + length bytes.now) room.new ≡ take start room.old ++ bytes.now }
    ensures kept { drop (start + length bytes.now) room.new ≡ drop (start + length bytes.now) room.old }
{
    room[start..start + bytes.len()].copy_from_slice(bytes);
}
