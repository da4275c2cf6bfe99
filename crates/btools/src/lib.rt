//! What the tools for a reader of a source or of a code text share: its program, its texts, and how they are written.
#![tactic(auto)]

mod characters;
mod entries;
mod named_frames;
mod names;
mod origin;
mod place_lines;
mod program;
mod quoting;
mod refusal;
mod source_lines;
mod tables;
mod telling;
mod text;

pub use characters::{hexadecimal_digit, push_byte, push_characters, push_signed};
pub use entries::{instr_at, kind_name, name_of};
pub use names::{Frame, FrameWord, Names};
pub use origin::{CodeText, Origin};
pub use place_lines::{lines_before, lines_in};
pub use program::{Program, ProgramFault, compile_source, read_program, split_lines};
pub use quoting::{push_file, push_quoted};
pub use refusal::{
    diagnostic_line, load_line, tell_fault, tell_placed, wrong_codes_are_excluded,
    wrong_programs_are_excluded,
};
pub use source_lines::{last_line, line_at, push_mark, push_source_line, split_source};
pub use tables::{FunctionEntry, Tables};
pub use telling::{located_status, tell};
pub use text::Text;
