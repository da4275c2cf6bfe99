//! What is said of a diagnostic.
ghost use Rattle.std.specs.Prelude.{◌≡◌, IfOk, codes};
ghost use Rattle.bcheck.specs.Checks.{diagnostic_code};
ghost use Rattle.bcheck.specs.Findings.{matter_code};

use crate::advice::Matter;
use crate::around::{Around, look_around};
use crate::bytes::{Constant, byte_of, constant_at};
use crate::compiled::{Compiled, Extent};
use crate::finding::{Finding, Place};
use crate::foreign::{Foreign, word_at_fault};
use crate::limits::limit_of;
use crate::spans::{SourceText, SpanReader, Spans, is_next_line, lexeme_at, name_at, place_of};
use crate::syntax::{self, Marking, Syntax};
use crate::unknown::{Lvalue, Unknown, unknown_name, without_address};
use bcode::read_code;
use blang::{About, Diagnostic, Letters, MAX_NESTING};
use blex::Lexeme;
use bword::Name;
use std::alloc::{AllocError, Global};

/// How many tokens are looked at from the one at fault on, which are those of any line.
const LOOKED_AHEAD: usize = 40;

/// A fault, and the tokens of its definition as far as they were read.
#[derive(Clone, Copy)]
struct Fault {
    diagnostic: Diagnostic,
    extent: Extent,
    /// The place of the token that the definition was at when the fault was seen.
    seen_at: usize,
}

/// What is said of the fault of a source.
pub(crate) fn finding(
    alloc: Global,
    source: SourceText<'_>,
    compiled: &Compiled,
    diagnostic: Diagnostic,
) -> Result<Finding, AllocError>
    ensures { IfOk result (λ f. matter_code f.matter ≡ diagnostic_code diagnostic) }
{
    let extent = compiled.extent(compiled.ends.len());
    let looked_at = Extent {
        first: extent.first.saturating_sub(2),
        end: extent.end.saturating_add(LOOKED_AHEAD),
    };
    let spans = Spans::between(alloc, source, looked_at)?;
    let fault = Fault {
        diagnostic,
        extent,
        seen_at: compiled.seen_at,
    };
    let around = look_around(alloc, &spans, extent, token_of(&spans, &fault))?;
    Ok(match (diagnostic.letters, diagnostic.about) {
        (Letters::Redeclared, About::Name(name)) => again(source, compiled, &spans, &fault, name),
        _ => finding_of(alloc, source, &spans, &fault, &around),
    })
}

// What is said of a fault, but for a name that is there already.
fn finding_of(
    alloc: Global,
    source: SourceText<'_>,
    spans: &Spans,
    fault: &Fault,
    around: &Around,
) -> Finding
    ensures { matter_code result.matter ≡ diagnostic_code fault.now.diagnostic }
{
    let diagnostic = &fault.diagnostic;
    let token = around.token;
    let place = place_of(spans, token);
    match (diagnostic.letters, diagnostic.about) {
        (Letters::Character, _) => character(source.text, place),
        (Letters::Constant, _) => constant(source.text, place),
        (Letters::Syntax, About::Nothing | About::Name(_)) => syntax_at(
            alloc,
            source.text,
            spans,
            fault,
            around,
        ),
        (Letters::NotLvalue, _) => without_address(
            source,
            spans,
            fault.extent,
            token,
            diagnostic.line,
        ),
        (Letters::Undefined, About::Name(name)) => unknown_name(
            source,
            spans,
            fault.extent,
            token,
            name,
        ),
        _ => Finding::new(matter_of(source.text, spans, fault), place),
    }
}

fn character(source: &[u8], place: Place) -> Finding
    ensures { matter_code result.matter ≡ codes "ch" }
{
    let byte = byte_of(source.get(place.start..).unwrap_or(&[]));
    Finding::new(Matter::Character(byte), place)
}

fn constant(source: &[u8], place: Place) -> Finding
    ensures { matter_code result.matter ≡ codes "ct" }
{
    let (constant, within) = constant_at(source, &place);
    Finding::new(Matter::Constant(constant), within)
}

// What is said of a name that is there already, with its first place in the definition, or its definition.
fn again(
    source: SourceText<'_>,
    compiled: &Compiled,
    spans: &Spans,
    fault: &Fault,
    name: Name,
) -> Finding
    ensures { matter_code result.matter ≡ codes "rd" }
{
    let token = token_of(spans, fault);
    let place = place_of(spans, token);
    if token == fault.extent.first {
        let found = definition_of(source, compiled, name);
        return named_again(name, place, found.place, found.is_prototype);
    }
    let related = first_place(spans, fault.extent.first.saturating_add(1), token, name);
    named_again(name, place, related, false)
}

fn named_again(name: Name, place: Place, related: Option<Place>, is_prototype: bool) -> Finding
    ensures { matter_code result.matter ≡ codes "rd" }
{
    let matter = if is_prototype {
        Matter::PrototypeBefore
    } else {
        Matter::NameAgain
    };
    Finding {
        name: Some(name),
        related,
        ..Finding::new(matter, place)
    }
}

/// A definition of a name.
#[derive(Clone, Copy)]
struct Earlier {
    place: Option<Place>,
    /// Whether nothing but a `;` comes after its parameters.
    is_prototype: bool,
}

// The definition of this name among those that were written.
fn definition_of(source: SourceText<'_>, compiled: &Compiled, name: Name) -> Earlier {
    let mut reader = SpanReader::new(source);
    let mut token = 0;
    for end in compiled.ends.as_slice() {
        let span = reader.next();
        let others = end.saturating_sub(token).saturating_sub(1);
        if span.lexeme == Lexeme::Name(name) {
            return Earlier {
                place: Some(span.place),
                is_prototype: is_prototype(&mut reader, others),
            };
        }
        reader.pass(others);
        token = *end;
    }
    Earlier {
        place: None,
        is_prototype: false,
    }
}

// Whether the first `)` of so many tokens is the last but one of them.
fn is_prototype(reader: &mut SpanReader<'_>, count: usize) -> bool {
    for passed in 1..count {
        if reader.next().lexeme == Lexeme::CloseParen {
            return passed.saturating_add(1) == count;
        }
    }
    false
}

// The first place of a name between two tokens.
fn first_place(spans: &Spans, from: usize, end: usize, name: Name) -> Option<Place> {
    let token = (from..end).find(|token| lexeme_at(spans, *token) == Lexeme::Name(name));
    Some(place_of(spans, token?))
}

// The place of the token at fault among the tokens.
fn token_of(spans: &Spans, fault: &Fault) -> usize {
    match (fault.diagnostic.letters, fault.diagnostic.about) {
        (Letters::Syntax, About::Nothing)
        | (Letters::OpenComment | Letters::Character | Letters::LongName | Letters::Constant, _) =>
            fault.extent.end,
        (Letters::Undefined, About::Name(name)) => {
            token_named(spans, fault.extent, name, fault.diagnostic.line)
        }
        (Letters::TooLarge, _) => fault.extent.first,
        _ => fault.seen_at,
    }
}

/// The first token of this name on a line of a definition, after the definition's own name.
pub(crate) fn token_named(spans: &Spans, extent: Extent, name: Name, line: u64) -> usize {
    let found = (extent.first.saturating_add(1)..extent.end).find(|token| {
        lexeme_at(spans, *token) == Lexeme::Name(name) && place_of(spans, *token).line == line
    });
    found.unwrap_or(extent.first)
}

// What is said of the diagnostics that need no token.
fn matter_of(source: &[u8], spans: &Spans, fault: &Fault) -> Matter
    ensures { matter_code result ≡ diagnostic_code fault.now.diagnostic }
{
    match (fault.diagnostic.letters, fault.diagnostic.about) {
        (Letters::OpenComment, _) => Matter::OpenComment,
        (Letters::Character, _) => Matter::Character(byte_of(&[])),
        (Letters::LongName, _) => Matter::LongName,
        (Letters::Constant, _) => Matter::Constant(Constant::Number),
        (Letters::Syntax, About::Case) => Matter::CaseOutside,
        (Letters::Syntax, About::Break) => Matter::BreakOutside,
        (Letters::Syntax, About::Default) => Matter::DefaultOutside,
        (Letters::Syntax, _) => Matter::Syntax(Syntax::Other),
        (Letters::Redeclared, About::Case) => Matter::CaseAgain,
        (Letters::Redeclared, About::Default) => Matter::DefaultAgain,
        (Letters::Redeclared, _) => Matter::NameAgain,
        (Letters::NotLvalue, _) => Matter::NotLvalue(Lvalue::Other),
        (Letters::TooManyNames, _) => Matter::TooManyNames,
        (Letters::TooManyCases, _) => Matter::TooManyCases,
        (Letters::Undefined, _) => Matter::Unknown(Unknown::Other),
        (Letters::TooLarge, _) => Matter::TooLarge(limit_of(source, spans, fault.extent)),
    }
}

// What is said of a token with which no program goes on.
fn syntax_at(alloc: Global, source: &[u8], spans: &Spans, fault: &Fault, around: &Around) -> Finding
    ensures { matter_code result.matter ≡ codes "sx" }
{
    if fault.extent.first == 0 && read_code(alloc, source).is_ok() {
        return Finding::new(
            Matter::Syntax(Syntax::CodeText),
            place_of(spans, around.token),
        );
    }
    let token = place_of(spans, around.token);
    if syntax::is_after_comments(source, token.start) {
        return Finding::new(Matter::Syntax(Syntax::CommentEnded), token);
    }
    if let Some((word, meaning)) = word_at_fault(spans, around) {
        return foreign(spans, around, word, meaning, fault.diagnostic.line);
    }
    let (syntax, mark) = syntax::found(source, spans, around);
    Finding {
        matter: Matter::Syntax(syntax),
        name: None,
        other: None,
        place: marked(spans, around, mark, fault.diagnostic.line),
        related: related(source, spans, fault.extent, around, syntax),
    }
}

// What is said of a word of another language.
fn foreign(spans: &Spans, around: &Around, word: usize, meaning: Foreign, line: u64) -> Finding
    ensures { matter_code result.matter ≡ codes "sx" }
{
    let own = place_of(spans, word);
    Finding {
        matter: Matter::Syntax(Syntax::Foreign(meaning)),
        name: name_at(spans, word),
        other: None,
        place: on_line(spans, word, around.token, line),
        related: if own.line == line { None } else { Some(own) },
    }
}

// The place that is marked, if it is on this line, and else the token itself.
fn marked(spans: &Spans, around: &Around, mark: Marking, line: u64) -> Place {
    let token = match mark {
        Marking::Here => around.token,
        Marking::Before => around.token.wrapping_sub(1),
        Marking::First => around.first,
        Marking::Head => around.head(),
    };
    on_line(spans, token, around.token, line)
}

// The place of a token, if it is on this line, and else that of another one.
fn on_line(spans: &Spans, token: usize, other: usize, line: u64) -> Place {
    let place = place_of(spans, token);
    if place.line == line {
        place
    } else {
        place_of(spans, other)
    }
}

// The second place.
fn related(
    source: &[u8],
    spans: &Spans,
    extent: Extent,
    around: &Around,
    syntax: Syntax,
) -> Option<Place> {
    let token = match syntax {
        Syntax::BraceOpen => open_brace(source, spans, extent, around.token)?,
        Syntax::FunctionInside => open_brace(source, spans, extent, around.first)?,
        Syntax::ParenOpen | Syntax::OtherBracket | Syntax::ElseInBraces => around.opener?,
        Syntax::SemicolonMissing => around.token.wrapping_sub(1),
        _ => return None,
    };
    Some(place_of(spans, token))
}

/// A brace, and the column of the first token of its line.
#[derive(Clone, Copy)]
struct Brace {
    token: usize,
    column: usize,
}

// The brace that is open before a token: the first whose `}` is farther left than its line, or the innermost one.
fn open_brace(source: &[u8], spans: &Spans, extent: Extent, end: usize) -> Option<usize> {
    let mut braces = [Brace {
        token: 0,
        column: 0,
    }; MAX_NESTING];
    let mut depth: usize = 0;
    let mut column = 0;
    for token in extent.first..end {
        let is_first = is_next_line(spans, token.wrapping_sub(1));
        if is_first {
            column = blanks_before(source, place_of(spans, token).start);
        }
        match lexeme_at(spans, token) {
            Lexeme::OpenBrace => {
                if let Some(brace) = braces.get_mut(depth) {
                    *brace = Brace { token, column };
                }
                depth = depth.saturating_add(1);
            }
            Lexeme::CloseBrace => {
                depth = depth.saturating_sub(1);
                let brace = braces.get(depth)?;
                if is_first && column < brace.column {
                    return Some(brace.token);
                }
            }
            _ => {}
        }
    }
    Some(braces.get(depth.wrapping_sub(1))?.token)
}

// How many blanks are directly before a place.
fn blanks_before(source: &[u8], start: usize) -> usize {
    for count in 0..start {
        let byte = source.get(start.saturating_sub(count).saturating_sub(1));
        if !matches!(byte, Some(b' ' | b'\t')) {
            return count;
        }
    }
    start
}
