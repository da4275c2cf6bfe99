//! Where rules fit in a source.
ghost use Rattle.std.specs.Prelude.{◌≡◌, IfOk};
ghost use Rattle.bfind.specs.Finds.{AreFound};

use crate::own::OwnRules;
use bcheck::Request;
use blint::{Program, cut};
use bmatch::{Notice, RuleTable, TokenPlace, Tree, grown, notices_of};
use std::alloc::{AllocError, Global};

/// Where rules fit, in the order of the tokens, and where each token stands.
#[derive(Drop)]
pub(crate) struct Found {
    pub notices: Vec<Notice>,
    pub places: Vec<TokenPlace>,
}

/// Where the rules fit in a source.
pub(crate) fn found_in(
    alloc: Global,
    source: &[u8],
    asked: &Request<'_>,
    own: &OwnRules,
) -> Result<Found, AllocError>
    ensures { IfOk result (AreFound asked.now.edition source.now own.now) }
{
    let program = Program {
        text: source,
        edition: asked.edition,
        files: asked.files,
        definitions: &[],
    };
    let tokens = cut(alloc, &program)?;
    let rows = grown(alloc, tokens.lexemes.as_slice())?;
    let tree = Tree {
        text: source,
        lexemes: tokens.lexemes.as_slice(),
        places: tokens.places.as_slice(),
        rows: rows.as_slice(),
    };
    let table = RuleTable {
        steps: own.steps.as_slice(),
        claims: own.claims.as_slice(),
        rules: own.rules.as_slice(),
    };
    let mut notices = notices_of(alloc, &tree, &table)?;
    notices.sort_by_key(|notice| notice.token)?;
    Ok(Found {
        notices,
        places: tokens.places,
    })
}
