//! A `;` that is all that lacks.
use crate::advice::Matter;
use crate::brace_mends::{is_heading, may_define};
use crate::draft::{Draft, Drafted, only_if};
use crate::edit::Proposal;
use crate::finding::Finding;
use crate::kinds::{Like, is_operand};
use crate::mending::Bench;
use crate::mends::{draft_of, is_tried};
use crate::spans::{Spans, is_joined};
use crate::syntax::Syntax;
use crate::syntax_mends::does_before;
use blex::Lexeme;
use std::alloc::{AllocError, Global};

/// The places for a `;` without which no program goes on where a fault was seen, the likelier first: at the end of a
/// line before, and right before the token.
pub(crate) fn semicolons(
    alloc: Global,
    bench: &Bench<'_>,
    tokens: &Spans,
    finding: &Finding,
) -> Result<Vec<Proposal>, AllocError> {
    let mut draft = draft_of(alloc, bench, tokens, finding);
    let drafted = of_fault(&mut draft, bench);
    draft.proposals(drafted)
}

fn of_fault(draft: &mut Draft<'_>, bench: &Bench<'_>) -> Drafted {
    let Matter::Syntax(syntax) = draft.finding.matter else {
        return Ok(());
    };
    only_if(is_tried(bench, draft.finding))?;
    let seen = bench.judgement.compiled.end;
    let last = (0..seen).rfind(|at| draft.line(*at) != draft.line(seen));
    let first = last.map_or(0, |at| at.saturating_add(1));
    only_if(!is_heading(draft, seen) && !may_define(draft, seen))?;
    draft.is_sure = true;
    // What is found before it, and what a keyword is meant to begin, lacks none.
    let is_keyword = matches!(syntax, Syntax::CallBody | Syntax::ElseCondition);
    if first > 0 && !is_keyword && draft.finding.place.start >= draft.end(first.wrapping_sub(1)) {
        draft.after(first - 1, b";")?;
    }
    if seen > first && may_lack_here(draft, syntax, seen) {
        draft.after(seen - 1, b";")?;
    }
    Ok(())
}

/// Whether what is found is an assignment to more than a name, which may begin on the line after a `;` that lacks.
pub(crate) fn is_of_assignment(finding: &Finding) -> bool {
    matches!(finding.matter, Matter::Syntax(Syntax::AssignLeft))
}

// Whether a `;` may lack right before this token. Where the token may go on with the value of a `return`, seems to be of
// one word with a number before it, or stands twice, it doesn't.
fn may_lack_here(draft: &Draft<'_>, syntax: Syntax, token: usize) -> bool {
    let before = token.wrapping_sub(1);
    let is_word = is_operand(&draft.at(token)) && is_operand(&draft.at(before));
    if is_word && is_joined(draft.spans, before) || draft.at(token) == draft.at(before) {
        return false;
    }
    match syntax {
        Syntax::SemicolonMissing
        | Syntax::SemicolonBefore
        | Syntax::NoStatement
        | Syntax::SourceEnds => true,
        Syntax::TwoOperands | Syntax::Other => {
            may_begin(draft, token) && does_before(draft, token)
        }
        Syntax::ReturnValue => matches!(
            draft.at(token),
            Lexeme::CloseBrace | Lexeme::Keyword(_) | Lexeme::End
        ),
        _ => false,
    }
}

/// Whether a statement that does something may begin with this token, or what it is in may end with it. Before a value
/// alone an operator lacks, as in `x = a b;`.
pub(crate) fn may_begin(draft: &Draft<'_>, token: usize) -> bool {
    match draft.at(token) {
        Lexeme::Name(_) => does_something(draft, token),
        lexeme => matches!(
            lexeme,
            Lexeme::Keyword(_)
                | Lexeme::OpenBrace
                | Lexeme::CloseBrace
                | Lexeme::Increment
                | Lexeme::Decrement
                | Lexeme::End
        ),
    }
}

// Whether a name is called, or something is assigned or counted from it on, in what its line has of the statement.
fn does_something(draft: &Draft<'_>, token: usize) -> bool {
    if draft.at(token.wrapping_add(1)) == Lexeme::OpenParen {
        return true;
    }
    for at in token..draft.spans.end() {
        if draft.line(at) != draft.line(token) || draft.is(at, &Like::Border) {
            return false;
        }
        if draft.is(at, &Like::Sets) {
            return true;
        }
    }
    false
}
