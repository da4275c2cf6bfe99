//! The editions of the language.

/// An edition of the language and of its code text.
#[derive(Clone, Copy)]
pub enum Edition {
    One,
    /// With `break` and `default`.
    Two,
}
