//! What a room held before a call.
ghost use Rattle.std.specs.Prelude.{◌≡◌, ℕ, List};
ghost use Rattle.std.specs.Borrow.{ftrue};

use std::marker::{Model, PhantomData};

/// The bytes that a slice had, for contracts alone: it takes no memory, and no code reads it.
///
/// A `Snapshot` would name the lifetime of the slice. Then it might be the snapshot that the slice comes back from.
#[derive(Drop)]
pub(crate) struct Before {
    marker: PhantomData<u8>,
    pub ghost bytes: { List ℕ },
}

impl Model for Before {
    ghost also_owns = { λ _. ftrue };
}

impl Before {
    pub(crate) fn of(_bytes: &[u8]) -> Before
        ensures { result.bytes ≡ _bytes.now }
    {
        Before {
            marker: PhantomData,
        }
    }
}
