//! What is looked at, and what is said of it.
use crate::warnings::Warning;
use blang::Definition;
use bmatch::TokenPlace;
use bsources::SourceFiles;
use bword::{Edition, Name};

/// A source that compiles and whose code loads.
#[derive(Clone, Copy)]
pub struct Program<'a> {
    pub text: &'a [u8],
    pub edition: Edition,
    pub files: SourceFiles<'a>,
    /// The definitions of its code.
    pub definitions: &'a [Definition],
}

/// What is said of a token.
#[derive(Clone, Copy)]
pub struct Caution {
    pub warning: Warning,
    /// The name that it is about.
    pub name: Option<Name>,
    pub place: TokenPlace,
    /// A second place, of which it speaks.
    pub related: Option<TokenPlace>,
}
