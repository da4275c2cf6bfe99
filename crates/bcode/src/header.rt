//! The first lines of definitions.
ghost use Rattle.std.specs.Prelude.{◌≡◌};
ghost use Rattle.bcode.specs.Headers.{function_fits, header_fits, is_end, simple_fits, vector_fits};

use blang::{
    MAX_INSTRUCTIONS, MAX_LABELS, MAX_PARAMETERS, MAX_STRING_WORDS, MAX_VALUES, MAX_WORDS, Sizes,
};
use bword::Name;

/// What the first line of a definition tells of it; or the last line of a code text.
#[derive(Clone, Copy)]
pub enum Header {
    Function {
        name: Name,
        parameters: u16,
        sizes: Sizes,
    },
    Simple {
        name: Name,
        values: u16,
        strings: u16,
    },
    Vector {
        name: Name,
        words: u16,
        values: u16,
        strings: u16,
    },
    End,
}

impl Header {
    /// Whether it is the last line of a code text.
    pub fn is_end(&self) -> bool
        ensures { result ≡ is_end self.now }
    {
        matches!(self, Header::End)
    }

    /// Whether its numbers are within the ranges of a code text.
    pub fn fits(&self) -> bool
        ensures { result ≡ header_fits self.now }
    {
        match self {
            Header::Function {
                parameters,
                sizes,
                ..
            } => function_fits(*parameters, *sizes),
            Header::Simple {
                values,
                strings,
                ..
            } => simple_fits(*values, *strings),
            Header::Vector {
                words,
                values,
                strings,
                ..
            } => vector_fits(*words, *values, *strings),
            Header::End => true,
        }
    }
}

fn function_fits(parameters: u16, sizes: Sizes) -> bool
    ensures { result ≡ function_fits parameters sizes }
{
    usize::from(parameters) <= MAX_PARAMETERS
        && parameters <= sizes.frame
        && u32::from(sizes.frame) <= MAX_WORDS
        && usize::from(sizes.labels) <= MAX_LABELS
        && usize::from(sizes.strings) <= MAX_STRING_WORDS
        && usize::from(sizes.code) <= MAX_INSTRUCTIONS
        && (sizes.labels == 0 || 1 <= sizes.code)
}

fn simple_fits(values: u16, strings: u16) -> bool
    ensures { result ≡ simple_fits values strings }
{
    usize::from(values) <= MAX_VALUES && usize::from(strings) <= MAX_STRING_WORDS
}

fn vector_fits(words: u16, values: u16, strings: u16) -> bool
    ensures { result ≡ vector_fits words values strings }
{
    1 <= words && u32::from(words) <= MAX_WORDS && values <= words && simple_fits(values, strings)
}
