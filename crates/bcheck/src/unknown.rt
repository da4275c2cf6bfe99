//! What is said of names that mean nothing where they are, and of operands without an address.
ghost use Rattle.std.specs.List.{list_all};
ghost use Rattle.std.specs.Prelude.{◌≡◌, ◌∷◌, [], IsTrue, codes};
ghost use Rattle.bcheck.specs.Checks.{is_on_line};
ghost use Rattle.bcheck.specs.Findings.{matter_code};

use crate::advice::Matter;
use crate::around::opener_of;
use crate::compiled::Extent;
use crate::finding::{Finding, Place};
use crate::foreign::{Foreign, foreign_word};
use crate::kinds::{Like, is_ended, is_word};
use crate::near::{Definitions, find_definitions, library_arguments, near_library, near_token};
use crate::spans::{SourceText, SpanReader, Spans, lexeme_at, place_of};
use blang::Keyword;
use blex::Lexeme;
use bword::{BinOp, Name};

/// A name of a function that is neither declared nor a label.
#[derive(Clone, Copy)]
pub(crate) enum Unknown {
    OtherEdition,
    Continue,
    External,
    Function,
    Library,
    Foreign(Foreign),
    Elsewhere,
    Near,
    NoLabel,
    Letter,
    Other,
}

impl Unknown {
    /// One sentence on it, and how to fix it.
    #[rattlefmt::skip]
    pub(crate) fn advice(self) -> (&'static str, &'static str)
        ensures { IsTrue (list_all is_on_line (result.0.now ∷ result.1.now ∷ [])) }
    {
        match self {
            Unknown::OtherEdition =>
                ("in edition 1 @ is a name, neither declared nor a label",
                 "--edition 2 makes it a keyword; in edition 1 declare it, or put a label"),
            Unknown::Continue => ("there is no continue", "goto on; and the label on: ; as the last of the loop"),
            Unknown::External => ("@ is an external of line %, not declared here", "extrn @; before it"),
            Unknown::Function =>
                ("@ is the function of line %, not declared here",
                 "@() calls it; and after extrn @; its name hands it on"),
            Unknown::Library =>
                ("@ is a function of the library", "@() calls it; and after extrn @; its name hands it on"),
            Unknown::Foreign(word) => word.advice(),
            Unknown::Elsewhere =>
                ("@ is a word of another function, of line %",
                 "hand it over as an argument, or make it external: extrn @; in both"),
            Unknown::Near => ("no @ is declared here: did you mean #?", "write #, or declare @"),
            Unknown::NoLabel => ("this function has no label @", "put @: before a statement of this function"),
            Unknown::Letter =>
                ("@ is neither declared nor a label", "'@' is the character, and auto @; declares a word"),
            Unknown::Other =>
                ("@ is neither declared nor a label", "auto @; for a word of the function, extrn @; for an external"),
        }
    }
}

/// An operand without an address.
#[derive(Clone, Copy)]
pub(crate) enum Lvalue {
    AndAnd,
    Constant,
    Character,
    Call,
    External,
    Typed,
    Elsewhere,
    Near,
    Label,
    Other,
}

impl Lvalue {
    /// One sentence on it, and how to fix it.
    #[rattlefmt::skip]
    pub(crate) fn advice(self) -> (&'static str, &'static str)
        ensures { IsTrue (list_all is_on_line (result.0.now ∷ result.1.now ∷ [])) }
    {
        match self {
            Lvalue::AndAnd => ("there is no operator &&: this & takes an address",
                 "a & b between comparisons, and else a ? b : 0"),
            Lvalue::Constant => ("= assigns, and a constant has no address", "== compares: if(5 == x)"),
            Lvalue::Character => ("char gives a character, which has no address", "lchar(s, 0, 'x'); stores one"),
            Lvalue::Call => ("the value of a call has no address", "take a name, x[i] or *x as the operand"),
            Lvalue::External => ("@ is an external of line %, not declared here", "extrn @; before it"),
            Lvalue::Typed => ("@ isn't declared: there are no types, and line % multiplies", "auto @; in its place"),
            Lvalue::Elsewhere =>
                ("@ is a word of another function, of line %",
                 "hand it over as an argument, or make it external: extrn @; in both"),
            Lvalue::Near => ("no @ is declared here: did you mean #?", "write #, or declare @"),
            Lvalue::Label =>
                ("@ is taken for a label here, which has no address", "declare it first: auto @; or extrn @;"),
            Lvalue::Other =>
                ("this operator wants something with an address", "take a name, x[i] or *x as its operand"),
        }
    }
}

/// What is said of a name of a function that is neither declared nor a label.
pub(crate) fn unknown_name(
    source: SourceText<'_>,
    spans: &Spans,
    extent: Extent,
    token: usize,
    name: Name,
) -> Finding
    ensures { matter_code result.matter ≡ codes "un" }
{
    let defined = find_definitions(source, &name);
    let is_label = lexeme_at(spans, token.wrapping_sub(1)) == Lexeme::Keyword(Keyword::Goto);
    let own = near_token(spans, extent, &name, is_label);
    let other = if is_label {
        own
    } else {
        own.or(near_library(&name)).or(defined.near)
    };
    let word = if is_label { None } else { foreign_word(&name) };
    let elsewhere = if is_label {
        None
    } else {
        declared_elsewhere(source, extent, &name)
    };
    let what = match (name.as_str(), word) {
        ("break" | "default", _) => Unknown::OtherEdition,
        ("continue", _) => Unknown::Continue,
        _ if defined.is_function => Unknown::Function,
        _ if defined.same.is_some() => Unknown::External,
        _ if library_arguments(&name).is_some() => Unknown::Library,
        (_, Some(word)) => Unknown::Foreign(meant_by(spans, token, word)),
        _ if elsewhere.is_some() => Unknown::Elsewhere,
        _ if other.is_some() => Unknown::Near,
        _ if is_label => Unknown::NoLabel,
        _ if is_for_character(spans, token, &name) => Unknown::Letter,
        _ => Unknown::Other,
    };
    Finding {
        matter: Matter::Unknown(what),
        name: Some(name),
        other,
        place: place_of(spans, token),
        related: defined.same.or(elsewhere),
    }
}

// Whether a name of one letter is compared with a character, or put by `putchar`.
fn is_for_character(spans: &Spans, token: usize, name: &Name) -> bool {
    let (before, after) = (token.wrapping_sub(1), token.wrapping_add(1));
    let is_put = lexeme_at(spans, before) == Lexeme::OpenParen
        && is_word(&lexeme_at(spans, token.wrapping_sub(2)), "putchar")
        && lexeme_at(spans, after) == Lexeme::CloseParen;
    let is_compared = Like::Compares.fits(&lexeme_at(spans, before))
        && is_read(spans, &lexeme_at(spans, token.wrapping_sub(2)));
    name.as_bytes().len() == 1 && (is_put || is_compared)
}

// Whether a character is assigned to a name somewhere in these tokens.
fn is_read(spans: &Spans, name: &Lexeme) -> bool {
    (spans.first..spans.end()).any(|at| {
        let value = lexeme_at(spans, at.wrapping_add(2));
        lexeme_at(spans, at) == *name
            && lexeme_at(spans, at.wrapping_add(1)) == Lexeme::Assign(None)
            && (is_word(&value, "getchar") || is_word(&value, "char"))
    })
}

// What a word is for where it is compared with a character: `NULL` is the end of a string or of the input.
fn meant_by(spans: &Spans, token: usize, word: Foreign) -> Foreign {
    let closer = token.wrapping_sub(2);
    let is_compared = Like::Compares.fits(&lexeme_at(spans, token.wrapping_sub(1)));
    if word != Foreign::Nothing || !is_compared || lexeme_at(spans, closer) != Lexeme::CloseParen {
        return word;
    }
    let Some(opener) = opener_of(spans, closer) else {
        return word;
    };
    for at in opener.saturating_sub(1)..closer {
        let lexeme = lexeme_at(spans, at);
        if is_word(&lexeme, "char") {
            return Foreign::StringEnd;
        }
        if is_word(&lexeme, "getchar") {
            return Foreign::InputEnd;
        }
    }
    word
}

/// A finding on a name that a part of a source doesn't declare, by what the whole source has of it.
pub(crate) fn in_whole(source: SourceText<'_>, fault: Finding) -> Finding
    ensures place { result.place ≡ fault.place }
    ensures code { matter_code result.matter ≡ matter_code fault.matter }
{
    let Some(name) = fault.name else {
        return fault;
    };
    let defined = find_definitions(source, &name);
    let elsewhere = declared_elsewhere(source, Extent { first: 0, end: 0 }, &name);
    let (matter, related) = known(&fault, &defined, elsewhere);
    Finding {
        matter,
        related,
        ..fault
    }
}

// What is said of a name, and the second place, where this defines it or another function declares it.
fn known(
    fault: &Finding,
    defined: &Definitions,
    elsewhere: Option<Place>,
) -> (Matter, Option<Place>)
    ensures { matter_code result.0 ≡ matter_code fault.now.matter }
{
    match fault.matter {
        Matter::Unknown(Unknown::Near | Unknown::Letter | Unknown::Other) if defined.is_function =>
            (Matter::Unknown(Unknown::Function), defined.same),
        Matter::Unknown(Unknown::Near | Unknown::Letter | Unknown::Other)
            if defined.same.is_some() => (Matter::Unknown(Unknown::External), defined.same),
        Matter::Unknown(Unknown::Near | Unknown::Letter | Unknown::Other) if elsewhere.is_some() =>
            (Matter::Unknown(Unknown::Elsewhere), elsewhere),
        Matter::NotLvalue(Lvalue::Near | Lvalue::Label) if defined.same.is_some() => (
            Matter::NotLvalue(Lvalue::External),
            defined.same,
        ),
        Matter::NotLvalue(Lvalue::Near | Lvalue::Label) if elsewhere.is_some() => (
            Matter::NotLvalue(Lvalue::Elsewhere),
            elsewhere,
        ),
        matter => (matter, fault.related),
    }
}

// Where another function than that of these tokens declares a name.
fn declared_elsewhere(source: SourceText<'_>, extent: Extent, name: &Name) -> Option<Place> {
    let mut reader = SpanReader::new(source);
    let mut is_declared = false;
    for token in 0..=source.text.len() {
        let span = reader.next();
        let is_inside = extent.first <= token && token < extent.end;
        if is_declared && !is_inside && span.lexeme == Lexeme::Name(*name) {
            return Some(span.place);
        }
        match span.lexeme {
            Lexeme::Keyword(Keyword::Auto) => is_declared = true,
            Lexeme::Semicolon => is_declared = false,
            Lexeme::End => return None,
            _ => {}
        }
    }
    None
}

/// What is said of the operand that the operator at this place wants the address of, on this line.
pub(crate) fn without_address(
    source: SourceText<'_>,
    spans: &Spans,
    extent: Extent,
    operator: usize,
    line: u64,
) -> Finding
    ensures { matter_code result.matter ≡ codes "lv" }
{
    let operand = operand_of(spans, operator);
    let place = place_of(spans, operand);
    let Lexeme::Name(name) = lexeme_at(spans, operand) else {
        return at_operator(spans, operator, ended_by(spans, operand));
    };
    if lexeme_at(spans, operand.wrapping_add(1)) == Lexeme::OpenParen {
        return at_operator(spans, operator, called(spans, operand));
    }
    if place.line != line {
        return at_operator(spans, operator, Lvalue::Other);
    }
    let defined = find_definitions(source, &name);
    let typed = pointer_of(spans, operand, &name);
    let elsewhere = declared_elsewhere(source, extent, &name);
    let other = near_token(spans, extent, &name, false);
    let (what, related) = match (defined.same, typed, elsewhere) {
        (Some(_), _, _) => (Lvalue::External, defined.same),
        (None, Some(_), _) => (Lvalue::Typed, typed),
        (None, None, Some(_)) => (Lvalue::Elsewhere, elsewhere),
        (None, None, None) if other.is_some() => (Lvalue::Near, None),
        (None, None, None) => (Lvalue::Label, None),
    };
    Finding {
        matter: Matter::NotLvalue(what),
        name: Some(name),
        other,
        place,
        related,
    }
}

// What is found at an operator whose operand is no name alone. The second sign of `&&` is one.
fn at_operator(spans: &Spans, operator: usize, what: Lvalue) -> Finding
    ensures { matter_code result.matter ≡ codes "lv" }
{
    let and = Lexeme::Operator(BinOp::And);
    let is_twice = lexeme_at(spans, operator) == and
        && lexeme_at(spans, operator.wrapping_sub(1)) == and;
    let assigns = Like::Assigns.fits(&lexeme_at(spans, operator));
    let found = match what {
        _ if is_twice => Lvalue::AndAnd,
        Lvalue::Constant if !assigns => Lvalue::Other,
        what => what,
    };
    Finding::new(Matter::NotLvalue(found), place_of(spans, operator))
}

// Where a name stands before a token after a type of C and a `*`.
fn pointer_of(spans: &Spans, end: usize, name: &Name) -> Option<Place> {
    let found = (spans.first..end).find(|token| {
        Like::Type.fits(&lexeme_at(spans, *token))
            && lexeme_at(spans, token.wrapping_add(1)) == Lexeme::Operator(BinOp::Mul)
            && lexeme_at(spans, token.wrapping_add(2)) == Lexeme::Name(*name)
    });
    Some(place_of(spans, found?))
}

// The name after a prefix operator, or the last token before another one.
fn operand_of(spans: &Spans, operator: usize) -> usize {
    let before = operator.wrapping_sub(1);
    let op = lexeme_at(spans, operator);
    let is_counted = matches!(op, Lexeme::Increment | Lexeme::Decrement);
    let is_prefix = op == Lexeme::Operator(BinOp::And)
        || (is_counted && !is_ended(&lexeme_at(spans, before)));
    if is_prefix {
        operator.wrapping_add(1)
    } else {
        before
    }
}

// What an operand is whose last token is this one.
fn ended_by(spans: &Spans, last: usize) -> Lvalue {
    let lexeme = lexeme_at(spans, last);
    if Like::Constant.fits(&lexeme) {
        return Lvalue::Constant;
    }
    if lexeme != Lexeme::CloseParen {
        return Lvalue::Other;
    }
    match opener_of(spans, last) {
        Some(opener) => called(spans, opener.wrapping_sub(1)),
        None => Lvalue::Other,
    }
}

// What a call of this token is, or parentheses after it.
fn called(spans: &Spans, callee: usize) -> Lvalue {
    let callee = lexeme_at(spans, callee);
    if is_word(&callee, "char") {
        Lvalue::Character
    } else if Like::Name.fits(&callee) {
        Lvalue::Call
    } else {
        Lvalue::Other
    }
}
