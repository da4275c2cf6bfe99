//! The language: its plain types, and in specs/ the definitions that say what compiling and running are.
#![tactic(auto)]

mod code;
mod limits;
mod run;
pub mod status;
mod token;

pub use code::{
    Definition, Function, FunctionParts, Increment, Instr, Ival, Simple, SimpleParts, Sizes,
    Vector, VectorParts, View,
};
pub use limits::{
    LINE_LEN, MAX_CALLS, MAX_CASES, MAX_INSTRUCTIONS, MAX_LABELS, MAX_NAMES, MAX_NESTING,
    MAX_PARAMETERS, MAX_PROGRAM_LABELS, MAX_STRING_WORDS, MAX_VALUES, MAX_WORDS, STORE_WORDS,
    WORD_VALUES,
};
pub use run::{Library, LoadFault, Outcome, Report, Trap};
pub use token::{About, Diagnostic, Keyword, Letters, Placed, STRING_LEN, Token};
