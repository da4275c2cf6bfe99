//! Why a text of rules isn't one.
use std::alloc::{AllocError, AllocFailed};

/// Where a text of rules isn't one, and why.
#[derive(Clone, Copy, PartialEq, Eq)]
pub struct RuleFault {
    /// The line, from 1.
    pub line: u64,
    /// The byte of the line, from 1.
    pub column: u64,
    pub reason: FaultReason,
}

/// Why a text of rules isn't one.
#[derive(Clone, Copy, PartialEq, Eq)]
pub enum FaultReason {
    LongLine,
    NoRule,
    RuleWord,
    RuleName,
    LineWord,
    LateExact,
    NothingFound,
    HoleName,
    HoleSort,
    TooManyHoles,
    TooManyGiven,
    UnknownHole,
    ManyMarks,
    OpenClass,
    ClassWord,
    TooManyChoices,
    NoPattern,
    OpenQuote,
    StringInPattern,
    ConditionWord,
    Scope,
    Number,
    Relation,
    Token,
    TooDeep,
    ManySteps,
}

impl FaultReason {
    /// What is wrong, in a sentence.
    pub fn sentence(self) -> &'static str {
        match self {
            FaultReason::LongLine => "a line has at most 400 bytes",
            FaultReason::NoRule =>
                "a line that begins with a blank belongs to a rule, and there is none yet",
            FaultReason::RuleWord =>
                "a line that begins with no blank is a comment after -- or begins with rule NAME or let NAME",
            FaultReason::RuleName => "the name of a rule has 1 to 24 letters and nothing after it",
            FaultReason::LineWord => {
                "a line of a rule begins with find, where, exact, names, beside, found, silent, says, fix or mend"
            }
            FaultReason::LateExact =>
                "exact stands alone in its line, before the first find or where",
            FaultReason::NothingFound => "a rule has a find",
            FaultReason::HoleName => "a hole is a $ and a name of 1 to 8 letters",
            FaultReason::HoleSort => "the sort of a hole is name, num, chr, const or str",
            FaultReason::TooManyHoles => "a rule has at most 15 holes",
            FaultReason::TooManyGiven => "a condition with a name is given at most four holes",
            FaultReason::UnknownHole => "a condition speaks of a hole, as $x",
            FaultReason::ManyMarks => "a pattern has one ^ at most",
            FaultReason::OpenClass => "a class of operators has a backquote on each side",
            FaultReason::ClassWord => {
                "a class is eq, rel, cmp, bit, arith, op, asg, opasg, relasg, inc or some operators"
            }
            FaultReason::TooManyChoices =>
                "the classes of a pattern have at most 300 choices together",
            FaultReason::NoPattern => "a pattern is one expression or one statement of B",
            FaultReason::OpenQuote => "a quote isn't closed",
            FaultReason::StringInPattern => "a pattern has no string: $s:str is any",
            FaultReason::ConditionWord => "this is no condition",
            FaultReason::Scope => {
                "a pattern is sought in program, function, loop or a hole, or before, after or around what was found"
            }
            FaultReason::Number => "a number from 0 to 65535 stands here",
            FaultReason::Relation => "one of == != < <= > >= stands here",
            FaultReason::Token => "one token stands here",
            FaultReason::TooDeep => "a condition has at most 8 words not, or and but",
            FaultReason::ManySteps => "the rules have too many patterns and conditions together",
        }
    }
}

/// Why a line is read no further.
#[derive(Clone, Copy, Drop)]
pub(crate) enum Stop {
    Memory,
    /// The text is wrong where so many bytes of the line are left.
    Fault(FaultReason, usize),
    /// The rule that begins in this line finds nothing.
    Empty(u64),
}

impl From<AllocError> for Stop {
    fn from(_error: AllocError) -> Stop {
        Stop::Memory
    }
}

impl<T: Drop> From<AllocFailed<T>> for Stop {
    fn from(_failed: AllocFailed<T>) -> Stop {
        Stop::Memory
    }
}
