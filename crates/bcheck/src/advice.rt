//! What is said of each matter, once. The table of the page on the language has the same words.
ghost use Rattle.std.specs.List.{list_all};
ghost use Rattle.std.specs.Prelude.{◌≡◌, ◌∷◌, [], IsTrue};
ghost use Rattle.bcheck.specs.Checks.{is_on_line};
ghost use Rattle.bcheck.specs.Findings.{is_sentence, matter_code};

use crate::bytes::{Byte, Constant};
use crate::limits::Limit;
use crate::syntax::Syntax;
use crate::undefined::UndefinedName;
use crate::unknown::{Lvalue, Unknown};
use crate::warnings::advice_of;
use blint::Warning;

/// What a finding is about.
#[derive(Clone, Copy)]
pub(crate) enum Matter {
    OpenComment,
    Character(Byte),
    LongName,
    Constant(Constant),
    Syntax(Syntax),
    CaseOutside,
    DefaultOutside,
    BreakOutside,
    NameAgain,
    PrototypeBefore,
    CaseAgain,
    DefaultAgain,
    NotLvalue(Lvalue),
    Unknown(Unknown),
    TooManyNames,
    TooManyCases,
    TooLarge(Limit),
    DataTooLarge,
    NoTypes,
    NotDefined(UndefinedName),
    Warning(Warning),
}

impl Matter {
    /// By which code it is known, one sentence on it, and how to fix it. `@` stands for the name, `#` for the other
    /// one, and `%` for the line of the second place.
    #[rattlefmt::skip]
    pub(crate) fn advice(self) -> (&'static str, &'static str, &'static str)
        ensures on_lines { IsTrue (list_all is_on_line (result.0.now ∷ result.1.now ∷ result.2.now ∷ [])) }
        ensures code { result.0.now ≡ matter_code self }
        ensures sentence { IsTrue (is_sentence self result.1.now) }
    {
        match self {
            Matter::OpenComment => ("*/", "this comment has no end", "write */ where it ends"),
            Matter::Character(byte) => with_code("ch", byte.advice()),
            Matter::LongName => ("nm", "a name has at most eight characters", "take a shorter one, wherever it stands"),
            Matter::Constant(constant) => with_code("ct", constant.advice()),
            Matter::Syntax(syntax) => with_code("sx", syntax.advice()),
            Matter::CaseOutside =>
                ("sx case", "this case is outside of every switch", "put it between the braces of a switch"),
            Matter::DefaultOutside =>
                ("sx default", "this default is outside of every switch", "put it between the braces of a switch"),
            Matter::BreakOutside =>
                ("sx break", "no loop and no switch is around this break", "return; leaves the function"),
            Matter::NameAgain =>
                ("rd", "@ is defined or declared already, in line %", "rename one of the two, or take it out"),
            Matter::PrototypeBefore =>
                ("rd", "line % defines @ already: there are no prototypes", "take that line out: a call needs none"),
            Matter::CaseAgain => ("rd case", "the switch has a case of this value already", "take another value"),
            Matter::DefaultAgain => ("rd default", "the switch has a default already", "take one of the two out"),
            Matter::NotLvalue(lvalue) => with_code("lv", lvalue.advice()),
            Matter::Unknown(unknown) => with_code("un", unknown.advice()),
            Matter::TooManyNames => (">s", "a function has at most 128 names", "make two functions of it"),
            Matter::TooManyCases => (">c", "a function has at most 256 cases", "make two functions of it"),
            Matter::TooLarge(limit) => with_code(">e", limit.advice()),
            Matter::DataTooLarge =>
                ("load 2", "the data or the labels of the program are too many", "make the vectors smaller"),
            Matter::NoTypes =>
                ("load 3", "there are no types: the name before @ is defined", "@; defines @"),
            Matter::NotDefined(undefined) => with_code("load 3", undefined.advice()),
            Matter::Warning(warning) => advice_of(warning),
        }
    }
}

// A code, and then a sentence and a fix.
fn with_code(
    code: &'static str,
    words: (&'static str, &'static str),
) -> (&'static str, &'static str, &'static str)
    ensures code { result.0.now ≡ code.now }
    ensures sentence { result.1.now ≡ words.entry.0.now }
    ensures fix { result.2.now ≡ words.entry.1.now }
{
    (code, words.0, words.1)
}
