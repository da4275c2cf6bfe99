//! Reading the code text that a program is read from.
ghost use Rattle.std.specs.Prelude.{◌≡◌, IfOk, IfErr, option_map};
ghost use Rattle.bcommand.specs.CommandLine.{origin_shown as asked_origin};
ghost use Rattle.btools.specs.Origins.{origin_shown};
ghost use Rattle.bcore.specs.Shelves.{Holdings};
ghost use Rattle.bcli.specs.Reading.{HasReadMade, HasReadNames, HasReadOrigin, IsNamed, MadeIsUnread};
ghost use Rattle.bcli.specs.Reading.{NamesAreUnread, OriginIsUnread, origin_read};

use bcommand::{MadeNames, OriginNames};
use bcore::{NamedFault, Shelf};
use btools::{CodeText, Origin};
use bword::Edition;
use std::alloc::Global;

/// What a program is read from, with what was read for it beside the source.
pub(crate) enum OriginTexts {
    /// The source, which is compiled.
    Source,
    /// The code text that stands in place of the source.
    Code,
    Made(MadeTexts),
}

// Not derived: a derived drop stands as a match in each function that drops a value.
impl Drop for OriginTexts {
    fn drop(self) {
        match self {
            OriginTexts::Source | OriginTexts::Code => {}
            OriginTexts::Made(made) => drop(made),
        }
    }
}

/// The code text that was made of a source, its lines, and its names, if there are any.
#[derive(Drop)]
pub(crate) struct MadeTexts {
    pub code: Vec<u8>,
    pub lines: Vec<u8>,
    pub names: Option<Vec<u8>>,
}

impl OriginTexts {
    /// The same, for a source of this text.
    pub(crate) fn origin<'a>(&'a self, edition: Edition, text: &'a [u8]) -> Origin<'a>
        ensures { origin_shown result ≡ origin_read self.now edition text.now }
    {
        match self {
            OriginTexts::Source => Origin::Source(edition),
            OriginTexts::Code => Origin::Code(CodeText {
                code: text,
                lines: None,
                source: None,
                names: None,
            }),
            OriginTexts::Made(made) => Origin::Code(CodeText {
                code: made.code.as_slice(),
                lines: Some(made.lines.as_slice()),
                source: Some(text),
                names: text_of(&made.names),
            }),
        }
    }
}

fn text_of(names: &Option<Vec<u8>>) -> Option<&[u8]>
    ensures { option_map (λ n. n.now) result ≡ option_map (λ v. v.items) names.now }
{
    match names {
        Some(names) => Some(names.as_slice()),
        None => None,
    }
}

/// Reads what a program is read from, where that isn't in the source.
pub(crate) fn read_origin<'a, S: Shelf>(
    alloc: Global,
    shelf: &S,
    names: OriginNames<'a>,
) -> Result<OriginTexts, NamedFault<'a>>
    ensures ok { IfOk result (HasReadOrigin (S.holdings shelf.now) (asked_origin names.entry)) }
    ensures err { IfErr result (OriginIsUnread (S.holdings shelf.now) (asked_origin names.entry)) }
{
    match names {
        OriginNames::Source => Ok(OriginTexts::Source),
        OriginNames::Code => Ok(OriginTexts::Code),
        OriginNames::Made(names) => match read_made(alloc, shelf, names) {
            Ok(made) => Ok(OriginTexts::Made(made)),
            Err(fault) => Err(fault),
        },
    }
}

fn read_made<'a, S: Shelf>(
    alloc: Global,
    shelf: &S,
    made: MadeNames<'a>,
) -> Result<MadeTexts, NamedFault<'a>>
    ensures ok { IfOk result (HasReadMade (S.holdings shelf.now) made.entry.code.now made.entry.lines.now
        (option_map (λ n. n.now) made.entry.names)) }
    ensures err { IfErr result (MadeIsUnread (S.holdings shelf.now) made.entry.code.now made.entry.lines.now
        (option_map (λ n. n.now) made.entry.names)) }
{
    let code = read_named(alloc, shelf, made.code)?;
    let lines = read_named(alloc, shelf, made.lines)?;
    let names = read_names(alloc, shelf, made.names)?;
    Ok(MadeTexts { code, lines, names })
}

fn read_names<'a, S: Shelf>(
    alloc: Global,
    shelf: &S,
    name: Option<&'a str>,
) -> Result<Option<Vec<u8>>, NamedFault<'a>>
    ensures ok { IfOk result (λ names. HasReadNames (S.holdings shelf.now) (option_map (λ n. n.now) name.entry)
        (option_map (λ v. v.items) names)) }
    ensures err { IfErr result (NamesAreUnread (S.holdings shelf.now) (option_map (λ n. n.now) name.entry)) }
{
    match name {
        Some(name) => match read_named(alloc, shelf, name) {
            Ok(names) => Ok(Some(names)),
            Err(fault) => Err(fault),
        },
        None => Ok(None),
    }
}

fn read_named<'a, S: Shelf>(
    alloc: Global,
    shelf: &S,
    name: &'a str,
) -> Result<Vec<u8>, NamedFault<'a>>
    ensures ok { IfOk result (λ text. Holdings.holds (S.holdings shelf.now) name.now text.items) }
    ensures err { IfErr result (IsNamed (S.holdings shelf.now) name.now) }
{
    match shelf.read(alloc, name) {
        Ok(text) => Ok(text),
        Err(fault) => Err(NamedFault { name, fault }),
    }
}
