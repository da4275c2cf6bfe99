//! The library, and what comes of loading and of a run.
ghost use Rattle.std.specs.Prelude.{◌≡◌};
ghost use Rattle.blang.specs.declared.run.LoadFault.TheVariants as fault;

use bword::{Name, NoMemory};
use std::alloc::{AllocError, AllocFailed};
use thiserror::Error;

/// A function of the library; their values are 1 to 6, in this order.
#[derive(Clone, Copy)]
pub enum Library {
    /// `char(s, i)`: the byte with index i of the string at s.
    Char,
    /// `lchar(s, i, c)`: stores the low byte of c there and gives c.
    Lchar,
    /// `getchar()`: the next byte of the input, or 4 at its end.
    Getchar,
    /// `putchar(c)`: writes the high byte of c unless it is 0, then the low byte, and gives c.
    Putchar,
    /// `printn(n, b)`: writes the signed word n to the base b and gives 0.
    Printn,
    /// `exit(n)`: ends the program with status n mod 128.
    Exit,
}

/// The first reason in the order of the variants, and the first in the text of one kind.
#[derive(Debug, Drop, Error)]
pub enum LoadFault {
    /// A definition whose name an earlier one has.
    #[error("load 1")]
    Duplicate(Name),
    /// A data end above 65536, or more than 65535 labels.
    #[error("load 2")]
    TooLarge,
    /// A name in an initial value or an instruction that neither a definition nor the library has.
    #[error("load 3")]
    Undefined(Name),
    /// No function of the name `main`.
    #[error("load 4")]
    NoMain,
    /// Out of memory, at any point.
    #[error("memory")]
    Memory,
}

impl From<AllocError> for LoadFault {
    ghost from_gives = { λ _ f. f ≡ fault.Memory };

    fn from(_error: AllocError) -> LoadFault {
        LoadFault::Memory
    }
}

impl From<NoMemory> for LoadFault {
    ghost from_gives = { λ _ f. f ≡ fault.Memory };

    fn from(_error: NoMemory) -> LoadFault {
        LoadFault::Memory
    }
}

impl<T: Drop> From<AllocFailed<T>> for LoadFault {
    ghost from_gives = { λ _ f. f ≡ fault.Memory };

    fn from(_error: AllocFailed<T>) -> LoadFault {
        LoadFault::Memory
    }
}

/// Why a run can't go on.
#[derive(Clone, Copy, PartialEq, Eq)]
pub enum Trap {
    /// A division by 0.
    ZeroDivisor,
    /// A call of a value that is not a function's.
    NotAFunction,
    /// A goto to a value that is not a label of this function.
    NotALabel,
    /// A frame would pass the store.
    NoRoom,
    /// More than 4096 active calls.
    TooDeep,
    /// A base of `printn` outside 2 to 10.
    BadBase,
    /// Too few operands, or no instruction at this place.
    Stuck,
}

/// The outcome of a run.
#[derive(Clone, Copy, PartialEq, Eq)]
pub enum Outcome {
    /// `exit` was called, with its argument modulo 128, or `main` has returned, which is 0.
    Exit(u8),
    /// The run can't go on.
    Trap(Trap),
    /// So many steps were made, and none halted.
    Limit,
    /// A read or a write failed.
    Device,
    /// Out of memory.
    Memory,
}

/// Why a run didn't end by itself, as its line tells it.
#[derive(Clone, Copy)]
pub enum Report {
    /// No code text goes on with this line.
    Code(u64),
    /// The number of the reason why a code text doesn't load, from 1.
    Load(u8),
    Trap(Trap),
    /// No halt within the limit of steps.
    Limit,
}
