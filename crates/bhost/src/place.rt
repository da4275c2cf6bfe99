//! A box as the place of its block.
ghost use Rattle.std.specs.Prelude.{◌≡◌, IsSome, None, Option, Some};
ghost use Rattle.std.specs.Coded.{coded_option};
ghost use Rattle.bhost.specs.Places.{placed_owns};

use std::alloc::{Allocator, Global};
use std::marker::Model;
use std::ptr;

/// The place of a box's block, with what the box owned; or of none.
///
/// It can't be dropped, so that no block is forgotten.
pub(crate) struct Place<T, A: Allocator> {
    pub(crate) at: *mut T,
    pub(crate) alloc: A,
    pub(crate) ghost value: { Option T } by { coded_option T.code },
}

impl<T, A: Allocator> Model for Place<T, A> {
    ghost also_owns = { λ p. placed_owns (A.dealloc_token p.alloc) T.row p.at p.value };
}

impl<T, A: Allocator> Place<T, A> {
    pub(crate) fn none(alloc: A) -> Place<T, A>
        ensures { result.value ≡ None }
    {
        Place {
            at: ptr::null_mut(),
            alloc,
        }
    }

    pub(crate) fn of(held: Box<T, A>) -> Place<T, A>
    where
        T: Drop,
        ensures { result.value ≡ Some held.value }
    {
        let (at, alloc) = Box::into_raw_with_allocator(held);
        Place { at, alloc }
    }

    pub(crate) fn into_box(self) -> Box<T, A>
        requires { IsSome self.value }
        ensures { self.value ≡ Some result.value }
    {
        let Place { at, alloc } = self;
        unsafe { Box::from_raw(alloc, at) }
    }
}

impl<T> Place<T, Global> {
    // Lets go of one of none.
    pub(crate) fn forget(self)
        requires { self.value ≡ None }
    {
        let Place { at: _, alloc: _ } = self;
    }
}
