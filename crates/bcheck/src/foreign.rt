//! Words that other languages have, and what stands for them here.
ghost use Rattle.std.specs.List.{list_all, list_any};
ghost use Rattle.std.specs.Prelude.{◌≡◌, ◌∷◌, [], IsTrue, is_some};
ghost use Rattle.bword.specs.Words.{same_name};
ghost use Rattle.bcheck.specs.Checks.{is_on_line};
ghost use Rattle.bcheck.specs.Findings.{is_with_name};
ghost use Rattle.bcheck.specs.UndefinedNames.{heading_words};

use crate::around::Around;
use crate::kinds::{is_ended, is_operand};
use crate::spans::{Spans, lexeme_at, name_at};
use blex::Lexeme;
use bword::Name;

/// What a word is for in another language.
#[derive(Clone, Copy, PartialEq, Eq)]
pub(crate) enum Foreign {
    Declares,
    External,
    Function,
    And,
    Or,
    Not,
    Block,
    Truth,
    Nothing,
    InputEnd,
    StringEnd,
    Writes,
    Reads,
    ElseIf,
    Loop,
    Arguments,
    Count,
    Unit,
    Process,
    Clock,
}

/// Words of C, JavaScript, Pascal and Python with which a statement or a definition begins or ends.
#[rattlefmt::skip]
const HEADINGS: [(&str, Foreign); 21] = [
    ("const", Foreign::Declares), ("let", Foreign::Declares), ("var", Foreign::Declares),
    ("extern", Foreign::External), ("def", Foreign::Function), ("fn", Foreign::Function), ("func", Foreign::Function),
    ("function", Foreign::Function), ("begin", Foreign::Block), ("end", Foreign::Block), ("endif", Foreign::Block),
    ("echo", Foreign::Writes), ("print", Foreign::Writes), ("println", Foreign::Writes), ("writeln", Foreign::Writes),
    ("elif", Foreign::ElseIf), ("elseif", Foreign::ElseIf), ("elsif", Foreign::ElseIf), ("foreach", Foreign::Loop),
    ("repeat", Foreign::Loop), ("until", Foreign::Loop),
];

/// Other words of these languages, and what old programs in B call.
#[rattlefmt::skip]
const WORDS: [(&str, Foreign); 36] = [
    ("and", Foreign::And), ("or", Foreign::Or), ("not", Foreign::Not), ("True", Foreign::Truth),
    ("true", Foreign::Truth), ("TRUE", Foreign::Truth), ("False", Foreign::Truth), ("false", Foreign::Truth),
    ("FALSE", Foreign::Truth), ("None", Foreign::Nothing), ("NULL", Foreign::Nothing), ("nil", Foreign::Nothing),
    ("null", Foreign::Nothing), ("EOF", Foreign::InputEnd), ("input", Foreign::Reads), ("prompt", Foreign::Reads),
    ("argc", Foreign::Arguments), ("argv", Foreign::Arguments), ("nargs", Foreign::Count), ("close", Foreign::Unit),
    ("creat", Foreign::Unit), ("fclose", Foreign::Unit), ("fopen", Foreign::Unit), ("open", Foreign::Unit),
    ("read", Foreign::Unit), ("seek", Foreign::Unit), ("stdin", Foreign::Unit), ("stdout", Foreign::Unit),
    ("write", Foreign::Unit), ("execl", Foreign::Process), ("execv", Foreign::Process), ("fork", Foreign::Process),
    ("system", Foreign::Process), ("wait", Foreign::Process), ("ctime", Foreign::Clock), ("time", Foreign::Clock),
];

impl Foreign {
    /// One sentence on it, and how to fix it.
    #[rattlefmt::skip]
    pub(crate) fn advice(self) -> (&'static str, &'static str)
        ensures on_lines { IsTrue (list_all is_on_line (result.0.now ∷ result.1.now ∷ [])) }
        ensures name { IsTrue (is_with_name result.0.now) }
    {
        match self {
            Foreign::Declares =>
                ("there is no @: auto declares names in a function", "auto n; n = 5; and outside of functions n 5;"),
            Foreign::External =>
                ("there is no @: extrn is in a function", "extrn n; in each function that has n, and here nothing"),
            Foreign::Function => ("there is no @: a function begins with its name", "f(x) { .. }"),
            Foreign::And => ("there is no operator @", "a & b between comparisons, and else a ? b : 0"),
            Foreign::Or => ("there is no operator @", "a | b between comparisons, and else a ? 1 : b"),
            Foreign::Not => ("there is no operator @: it is !", "!(a > b)"),
            Foreign::Block => ("there is no @: braces are around statements", "{ f(); g(); }"),
            Foreign::Truth => ("there is no @: 0 is false, and all else is true", "1 is true, and 0 is false"),
            Foreign::Nothing => ("there is no @: 0 is no address", "write 0"),
            Foreign::InputEnd => ("there is no @: the input ends with '*e', 4", "write '*e'"),
            Foreign::StringEnd => ("there is no @: a string ends with '*e', 4", "write '*e'"),
            Foreign::Writes =>
                ("there is no @: printn writes a number", "printn(n, 10); and putstr(s); with b go FILE --with print"),
            Foreign::Reads =>
                ("there is no @: getchar reads a character", "getstr(s); and getnum(&n); with b go FILE --with input"),
            Foreign::ElseIf => ("there is no @: write else and then if", "else if(x > 3) .."),
            Foreign::Loop => ("there is no @: while is the one loop", "while(x < 3) { .. }"),
            Foreign::Arguments =>
                ("there is no @: a program gets no words", "getstr(s); reads a line: b go FILE --with input"),
            Foreign::Count => ("there is no @: a missing argument is 0", "end the arguments with 0"),
            Foreign::Unit =>
                ("there is no @: a program has one input and one output",
                 "getchar(), putchar(c), and b go FILE < from > to"),
            Foreign::Process =>
                ("there is no @: a program can start no other one", "let the shell call one after the other"),
            Foreign::Clock => ("there is no @: a program has no clock", "read the time from the input"),
        }
    }
}

/// What a name is for in another language.
pub(crate) fn foreign_word(name: &Name) -> Option<Foreign> {
    heading_word(name).or(meaning_in(name, &WORDS))
}

/// What a name is for with which a statement or a definition of another language begins or ends.
pub(crate) fn heading_word(name: &Name) -> Option<Foreign>
    ensures { is_some result ≡ list_any (same_name name.now) heading_words }
{
    meaning_in(name, &HEADINGS)
}

fn meaning_in(name: &Name, words: &[(&str, Foreign)]) -> Option<Foreign>
    ensures { is_some result ≡ list_any (λ row. same_name name.now row.0.now) words.now }
{
    for (word, meaning) in words {
        if name.as_str() == *word {
            return Some(*meaning);
        }
    }
    None
}

/// The token that is such a word by which no program goes on here, and what it is for.
pub(crate) fn word_at_fault(spans: &Spans, around: &Around) -> Option<(usize, Foreign)> {
    let (first, token) = (around.first, around.token);
    let before = token.wrapping_sub(1);
    if let Some(found) = operator_word(spans, first, token) {
        return Some(found);
    }
    if is_ended(&lexeme_at(spans, before)) {
        if let Some(found) = head_word(spans, token) {
            return Some(found);
        }
    }
    let next = lexeme_at(spans, token);
    let may_follow = is_operand(&next)
        || matches!(
            next,
            Lexeme::Keyword(_) | Lexeme::OpenBrace | Lexeme::CloseBrace
        );
    if may_follow {
        if let Some(found) = head_word(spans, before) {
            return Some(found);
        }
    }
    let (word, meaning) = head_word(spans, first)?;
    let is_headed = matches!(meaning, Foreign::ElseIf | Foreign::Loop)
        && lexeme_at(spans, before) == Lexeme::CloseParen;
    if is_headed || name_at(spans, first.wrapping_add(1)).is_some() {
        return Some((word, meaning));
    }
    None
}

// The first token between two that is the word of an operator.
fn operator_word(spans: &Spans, first: usize, last: usize) -> Option<(usize, Foreign)> {
    for token in first..last.saturating_add(1) {
        let Some(name) = name_at(spans, token) else {
            continue;
        };
        if let Some(word @ (Foreign::And | Foreign::Or | Foreign::Not)) = foreign_word(&name) {
            return Some((token, word));
        }
    }
    None
}

fn head_word(spans: &Spans, token: usize) -> Option<(usize, Foreign)> {
    let word = heading_word(&name_at(spans, token)?)?;
    Some((token, word))
}
