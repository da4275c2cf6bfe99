//! How a definition begins.
use bword::Name;

/// The most words or parameters that are counted.
pub const MOST_COUNTED: u32 = 65535;

/// What a definition is of.
#[derive(Clone, Copy)]
pub enum HeadKind {
    Simple,
    /// A vector of this many words, or of `MOST_COUNTED` and more.
    Vector { words: u16 },
    /// A function of this many parameters, or of `MOST_COUNTED` and more.
    Function { parameters: u16 },
}

/// The name of a definition, the name's line, and what it is of.
#[derive(Clone, Copy)]
pub struct DefinitionHead {
    pub name: Name,
    pub line: u64,
    pub kind: HeadKind,
}
