//! What can be asked for.
use bword::Edition;

/// What the words of a command line ask for.
#[derive(Clone, Copy)]
pub enum Job<'a> {
    /// Compiles standard input, and these files after it.
    Compile(Edition, &'a [&'a str]),
    /// A run of the code text in a file, of so many steps at most.
    Run(&'a str, u64),
    /// The same, and where it went wrong.
    LocateCode(&'a str, u64),
    /// What may go wrong in any run of the code text in a file.
    Verify(&'a str),
    /// A run of a source, of so many steps at most.
    Go(SourceNames<'a>, u64),
    Migrate,
    Ask(SourceNames<'a>, Question<'a>),
    /// The faults of a source, and where the rules in a file fit; and whether an editor reads them.
    CheckBy(SourceNames<'a>, &'a str, bool),
    Find(Search<'a>),
    /// Two options that contradict each other.
    Contradiction(Clash),
}

/// Options that contradict each other.
#[derive(Clone, Copy)]
pub enum Clash {
    /// A limit of steps, and no limit.
    Limits,
    /// The steps from a number on, and the last ones.
    Rows,
    /// A code text in FILE, and one that was made of FILE.
    Origins,
    /// A code text in FILE, and a source after it.
    Libs,
    /// A code text that was made of FILE, and no lines of it.
    Made,
    /// Lines of a code text, and none that was made of FILE.
    Lines,
    /// Names of a code text, and none that was made of FILE.
    Names,
    /// A code text that is only run, by the command that compiles.
    Plain,
    /// A careful run of a code text, and no names of its words.
    Unnamed,
    /// A way of a careful run that there isn't.
    Care,
    /// A source mended, and findings for an editor.
    Fix,
    /// One that no page shows.
    ShownCare,
    /// A source mended, and rules of its reader.
    Rules,
}

/// What is asked of a source.
#[derive(Clone, Copy)]
pub enum Question<'a> {
    /// Its code, or only that of the definitions of a name, if there is one.
    List(OriginNames<'a>, Option<&'a str>),
    /// The layout of its memory.
    Map(OriginNames<'a>),
    /// A picture of memory, after so many steps if a number is given.
    Draw(OriginNames<'a>, Option<u64>),
    /// Its faults, and whether an editor reads them.
    Check(bool),
    /// The same source, mended.
    Fix,
    /// What each of its names is, and where it stands.
    Names,
    Trace(Walk<'a>),
    /// Where a run of so many steps at most is over.
    Locate(OriginNames<'a>, u64),
    /// A run of so many steps at most, which is looked at in this way.
    GoCareful(OriginNames<'a>, Care, u64),
    /// Its faults, such a run where there is none, and what to do next.
    Try(u64),
    /// The steps of each of its lines in a run of so many at most, and whether an editor reads them.
    Count(OriginNames<'a>, u64, bool),
    Show(Display<'a>),
    /// The same source in one style, or only whether it is in that.
    Format(bool),
    /// It, where it is of an old or a later form of the language, in this one.
    Port,
}

/// What a careful run does at a finding, and whether a number that wraps is one.
#[derive(Clone, Copy)]
pub enum Care {
    /// It stays at the first one.
    Stays,
    /// It goes on, and tells each place in the end.
    Warns,
    /// It stays at the first one, and a number that wraps is one, too.
    Wraps,
}

/// What a program is read from.
#[derive(Clone, Copy)]
pub enum OriginNames<'a> {
    /// The source, which is compiled.
    Source,
    /// The code text that is in FILE.
    Code,
    /// The code text that another compiler made of the source.
    Made(MadeNames<'a>),
}

/// The file of a code text, that with a line of its source for each place in it, and that with its names, if there is
/// one.
#[derive(Clone, Copy)]
pub struct MadeNames<'a> {
    pub code: &'a str,
    pub lines: &'a str,
    pub names: Option<&'a str>,
}

/// Which steps of a run are shown: those from a number on, or so many of the last ones.
#[derive(Clone, Copy)]
pub enum Rows {
    From(u64),
    Last(u64),
}

/// A run step by step, and the steps that are shown: all of them, or those of a function.
#[derive(Clone, Copy)]
pub struct Walk<'a> {
    pub origin: OriginNames<'a>,
    /// The most steps that are made.
    pub steps: u64,
    pub rows: Rows,
    pub function: Option<&'a str>,
}

/// A run on a page.
#[derive(Clone, Copy)]
pub struct Display<'a> {
    pub origin: OriginNames<'a>,
    /// How it is looked at, if it is shown up to its first finding.
    pub care: Option<Care>,
    /// The most steps that are made.
    pub steps: u64,
    pub rows: Rows,
    /// The input of the program, if it isn't standard input.
    pub input: Option<&'a str>,
}

/// What is looked for, and in which sources.
#[derive(Clone, Copy)]
pub struct Search<'a> {
    /// A pattern of B with holes.
    pub pattern: &'a str,
    /// Files, each of which is a source of its own.
    pub files: &'a [&'a str],
    pub edition: Edition,
    /// Whether an editor reads what is found.
    pub for_editor: bool,
}

/// A source in a file, and in those that come after it.
#[derive(Clone, Copy)]
pub struct SourceNames<'a> {
    pub file: &'a str,
    pub libs: &'a [&'a str],
    pub edition: Edition,
}
