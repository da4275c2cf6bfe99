//! What a check is asked for.
use bsources::SourceFiles;
use bword::Edition;

/// How findings are written.
#[derive(Clone, Copy)]
pub enum FindingForm {
    /// For people: the line of compiling, or of code that doesn't load; then of each finding its place and a sentence,
    /// the line of the source with a mark, and a fix.
    Text,
    /// For editors: an object a line.
    Json,
}

/// The edition of the source, its files, and how findings are written.
#[derive(Clone, Copy)]
pub struct Request<'a> {
    pub edition: Edition,
    pub files: SourceFiles<'a>,
    pub form: FindingForm,
}
