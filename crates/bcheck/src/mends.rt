//! Which edits may mend a finding, the likelier first. They are tried before one is told.
use crate::advice::Matter;
use crate::compiled::Extent;
use crate::draft::{Draft, Drafted, only_if};
use crate::edit::Proposal;
use crate::finding::Finding;
use crate::mending::Bench;
use crate::spans::Spans;
use crate::{byte_mends, name_mends, syntax_mends, warning_mends};
use std::alloc::{AllocError, Global};

/// Where a finding stands among the tokens.
#[derive(Clone, Copy)]
pub(crate) struct Site {
    /// The token at its place.
    pub token: usize,
    /// The first token of its definition, and of the one before that.
    pub first: usize,
    pub before: usize,
}

/// The tokens of a source, if edits of it are tried.
pub(crate) fn tokens_of(alloc: Global, bench: &Bench<'_>) -> Result<Spans, AllocError> {
    let is_tried = bench.tries() > 0 && !bench.findings.is_empty();
    let extent = Extent {
        first: 0,
        end: if is_tried { usize::MAX } else { 0 },
    };
    Spans::between(alloc, bench.source, extent)
}

/// The edits that may mend a finding of a source with these tokens.
pub(crate) fn proposals(
    alloc: Global,
    bench: &Bench<'_>,
    tokens: &Spans,
    finding: &Finding,
) -> Result<Vec<Proposal>, AllocError> {
    let mut draft = draft_of(alloc, bench, tokens, finding);
    let drafted = of_finding(&mut draft, bench);
    draft.proposals(drafted)
}

// Drafts edits of a finding.
fn of_finding(draft: &mut Draft<'_>, bench: &Bench<'_>) -> Drafted {
    only_if(is_tried(bench, draft.finding))?;
    let (token, start) = (draft.site.token, draft.finding.place.start);
    match draft.finding.matter {
        Matter::Character(byte) => byte_mends::character(draft, byte, start),
        Matter::OpenComment => byte_mends::comment(draft, start),
        Matter::Constant(constant) => byte_mends::constant(draft, constant, token),
        Matter::Syntax(syntax) => syntax_mends::of_syntax(draft, syntax),
        Matter::PrototypeBefore => name_mends::prototype(draft),
        Matter::NameAgain => warning_mends::declared_again(draft),
        Matter::NotLvalue(lvalue) => name_mends::of_lvalue(draft, lvalue),
        Matter::Unknown(unknown) => name_mends::of_unknown(draft, unknown),
        Matter::NotDefined(undefined) => name_mends::of_undefined(draft, undefined),
        Matter::Warning(warning) => warning_mends::of_warning(draft, warning),
        _ => Ok(()),
    }
}

/// Whether edits of a finding are tried.
pub(crate) fn is_tried(bench: &Bench<'_>, finding: &Finding) -> bool {
    bench.tries() > 0 && bench.files.beyond_first(finding.place.line).is_none()
}

/// No proposals yet for a finding among these tokens.
pub(crate) fn draft_of<'a>(
    alloc: Global,
    bench: &Bench<'a>,
    tokens: &'a Spans,
    finding: &'a Finding,
) -> Draft<'a> {
    let token = token_at(tokens, finding.place.start);
    let mut site = Site {
        token,
        first: 0,
        before: 0,
    };
    for end in bench.judgement.compiled.ends.as_slice() {
        if *end <= token {
            (site.before, site.first) = (site.first, *end);
        }
    }
    Draft::new(alloc, bench.source.text, tokens, finding, site)
}

/// The last token that begins at a place or before it.
pub(crate) fn token_at(tokens: &Spans, start: usize) -> usize {
    let (mut low, mut high): (usize, usize) = (0, tokens.end());
    for _ in 0..64 {
        let middle = low.saturating_add(high) / 2;
        match tokens.get(middle) {
            Some(span) if span.place.start <= start => low = middle,
            _ => high = middle,
        }
    }
    low
}
