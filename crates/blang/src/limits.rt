//! The limits of a source, a code text and a machine.
use bword::STORE_LEN;

/// How many values a word has.
pub const WORD_VALUES: u32 = 65536;

/// The most parameters of a function.
pub const MAX_PARAMETERS: usize = 128;

/// The most labels of a function.
pub const MAX_LABELS: usize = 128;

/// The most words of a frame or a vector.
pub const MAX_WORDS: u32 = 32767;

/// The most string words of a definition.
pub const MAX_STRING_WORDS: usize = 1024;

/// The most initial values of a definition.
pub const MAX_VALUES: usize = 1024;

/// The most instructions of a function.
pub const MAX_INSTRUCTIONS: usize = 4096;

/// No line of a code text is longer.
pub const LINE_LEN: usize = 128;

/// The greatest level of nesting.
pub const MAX_NESTING: usize = 200;

/// The most names of a function.
pub const MAX_NAMES: usize = 128;

/// The most cases of a function.
pub const MAX_CASES: usize = 256;

/// How many words the store has.
pub const STORE_WORDS: u32 = STORE_LEN as u32;

/// The most labels of a whole program.
pub const MAX_PROGRAM_LABELS: u32 = 65535;

/// The most active calls.
pub const MAX_CALLS: usize = 4096;
