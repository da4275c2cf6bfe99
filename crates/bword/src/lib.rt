//! What every other crate stands on: words of 16 bits and stores of them, the ends that bytes come from and
//! go to, and names.
#![tactic(auto)]

mod edition;
mod ends;
mod failing;
mod flat_store;
mod memory;
mod name;
mod operators;
mod store;
mod streams;

pub use edition::Edition;
pub use ends::{ByteIn, ByteOut, Device, EndFault};
pub use failing::{FailIn, FailOut};
pub use flat_store::FlatStore;
pub use memory::{MemIn, MemOut};
pub use name::{NAME_LEN, Name, is_name_byte, is_name_start};
pub use operators::{BinOp, DivZero, binary, negate, not};
pub use store::{NoMemory, STORE_LEN, Store, char_at, set_char};
pub use streams::{Reading, Writing};
