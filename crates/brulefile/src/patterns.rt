//! Reading a pattern: an expression or a statement of B with holes, in each choice of its operators.
use crate::classes::{Classes, part};
use crate::cleaning::{Cleaning, cleaned};
use crate::cutting::cut;
use crate::drawing::{BEFORE, Sheet, set, steps_after};
use crate::faults::{FaultReason, Stop};
use crate::holes::Holes;
use blex::Lexeme;
use bmatch::{Branch, Kind, Step, branch_at, grown};
use btree::{Construct, Node};
use std::alloc::{AllocError, Global};

/// Adds the patterns of a text, one for each choice of its operators, after one that begins at a step. One of all has to
/// fit. Gives the step at which the last one begins.
///
/// Each begins with a `Jump` over nothing, which becomes an `Either` where another one comes after it.
pub(crate) fn read_patterns(
    alloc: Global,
    text: &[u8],
    is_loose: bool,
    holes: &mut Holes,
    steps: &mut Vec<Step>,
    before: Option<usize>,
) -> Result<Option<usize>, Stop> {
    let (text, is_definition) = without_define(text);
    let classes = Classes::of(alloc, text)?;
    let mut last = before;
    for choice in 0..classes.choices {
        let cleaning = cleaned(alloc, text, &classes, choice, holes)?;
        last = Some(begin_pattern(steps, last)?);
        draw(alloc, &cleaning, is_loose, is_definition, steps)?;
        steps.push(Step::Done)?;
    }
    Ok(last)
}

// One more pattern begins.
fn begin_pattern(steps: &mut Vec<Step>, before: Option<usize>) -> Result<usize, AllocError> {
    if let Some(before) = before {
        let count = steps_after(steps.as_slice(), before);
        set(steps, before, Step::Either(count));
    }
    let at = steps.len();
    steps.push(Step::Jump(0))?;
    Ok(at)
}

// A text without the word for a definition, and whether it has it.
fn without_define(text: &[u8]) -> (&[u8], bool) {
    match text.strip_prefix(b"define ") {
        Some(definition) => (definition, true),
        None => (text, false),
    }
}

// Adds the steps of the pattern that a cleaned text is.
fn draw(
    alloc: Global,
    cleaning: &Cleaning,
    is_loose: bool,
    is_definition: bool,
    steps: &mut Vec<Step>,
) -> Result<(), Stop> {
    let text = if is_definition {
        indented(alloc, cleaning.out.as_slice())?
    } else {
        wrapped(alloc, cleaning.out.as_slice())?
    };
    let cut = cut(alloc, text.as_slice())?;
    let rows = grown(alloc, cut.lexemes.as_slice())?;
    let sheet = Sheet {
        rows: rows.as_slice(),
        lexemes: cut.lexemes.as_slice(),
        starts: cut.starts.as_slice(),
        marks: cleaning.marks.as_slice(),
        told: told_token(cut.starts.as_slice(), cleaning.told),
        is_loose,
    };
    let span = if is_definition {
        definition_span(sheet.rows)
    } else {
        span_of(sheet.rows, is_statement(cleaning.out.as_slice()))
    };
    match span {
        _ if has_text(sheet.lexemes) => Err(Stop::Fault(
            FaultReason::StringInPattern,
            cleaning.out.len(),
        )),
        Some((begin, end)) if cut.is_whole => {
            sheet.row(begin, end, steps, end)?;
            Ok(())
        }
        _ => Err(Stop::Fault(FaultReason::NoPattern, cleaning.out.len())),
    }
}

fn has_text(lexemes: &[Lexeme]) -> bool {
    lexemes
        .iter()
        .any(|lexeme| matches!(*lexeme, Lexeme::String))
}

// A definition of a function whose body is the text.
fn wrapped(alloc: Global, text: &[u8]) -> Result<Vec<u8>, AllocError> {
    let mut out = Vec::new(alloc);
    push_all(&mut out, b"f(){")?;
    push_all(&mut out, text)?;
    if is_statement(text) {
        push_all(&mut out, b"}")?;
    } else {
        push_all(&mut out, b";}")?;
    }
    Ok(out)
}

// A definition, which begins where a statement would.
fn indented(alloc: Global, text: &[u8]) -> Result<Vec<u8>, AllocError> {
    let mut out = Vec::new(alloc);
    for _ in 0..BEFORE {
        out.push(b' ')?;
    }
    push_all(&mut out, text)?;
    Ok(out)
}

fn push_all(out: &mut Vec<u8>, bytes: &[u8]) -> Result<(), AllocError> {
    for byte in bytes {
        out.push(*byte)?;
    }
    Ok(())
}

// Whether the last byte that is no blank ends a statement.
fn is_statement(text: &[u8]) -> bool {
    matches!(text.trim_ascii_end(), [.., b';' | b'}'])
}

// The first token at a place of the pattern or after it.
fn told_token(starts: &[usize], told: Option<usize>) -> Option<usize> {
    match told {
        Some(at) => starts
            .iter()
            .position(|start| *start >= at.saturating_add(BEFORE)),
        None => None,
    }
}

// The branches of the only statement of a function, or of the expression in it.
fn span_of(rows: &[Branch], is_statement: bool) -> Option<(usize, usize)> {
    let count = rows.len();
    if count < 4 || !is_function(rows, count) {
        return None;
    }
    let statement = branch_at(rows, count - 3);
    let used = branch_at(rows, count - 4);
    let is_alone = statement.begin == 1;
    if is_statement {
        if is_alone { Some((1, count - 2)) } else { None }
    } else {
        let is_expression = matches!(statement.kind, Kind::Construct(Construct::Plain))
            && (matches!(used.kind, Kind::Node(Node::Evaluated)) && used.begin == 1);
        if is_alone && is_expression {
            Some((1, count - 4))
        } else {
            None
        }
    }
}

// Whether these branches are those of one function.
fn is_function(rows: &[Branch], count: usize) -> bool {
    let definition = branch_at(rows, count.saturating_sub(1));
    let block = branch_at(rows, count.saturating_sub(2));
    matches!(definition.kind, Kind::Construct(Construct::Definition))
        && (matches!(block.kind, Kind::Construct(Construct::Block))
            && (definition.begin == 0 && block.begin == 1))
}

// The branches of the only definition of a text.
fn definition_span(rows: &[Branch]) -> Option<(usize, usize)> {
    let count = rows.len();
    let definition = branch_at(rows, count.saturating_sub(1));
    let is_one = matches!(definition.kind, Kind::Construct(Construct::Definition));
    if is_one && definition.begin == 0 {
        Some((0, count))
    } else {
        None
    }
}
