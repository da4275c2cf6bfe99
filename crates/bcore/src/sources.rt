//! Reading the files of a source.
ghost use Rattle.std.specs.Prelude.{◌≡◌, IfOk, IfErr, map as map_each};
ghost use Rattle.bcommand.specs.CommandLine.{source_shown};
ghost use Rattle.bsources.specs.Files.{files_shown};
ghost use Rattle.bcore.specs.Reading.{HasReadLibs, HasReadSource, IsUnread, LibIsUnread};

use crate::shelf::{FileFault, Shelf};
use bcommand::SourceNames;
use bsources::{Following, SourceFile, SourceFiles};
use std::alloc::Global;

/// A source that was read.
#[derive(Drop)]
pub struct Whole<'a> {
    /// The bytes of all its files, a newline between.
    pub text: Vec<u8>,
    pub first: SourceFile<'a>,
    pub libs: Following<'a>,
}

/// A file that was not read, and why.
#[derive(Clone, Copy)]
pub struct NamedFault<'a> {
    pub name: &'a str,
    pub fault: FileFault,
}

/// Why a source was not read.
#[derive(Clone, Copy)]
pub enum Unread<'a> {
    File(FileFault),
    Lib(NamedFault<'a>),
}

/// Reads the files of a source.
pub fn read_source<'a, S: Shelf>(
    alloc: Global,
    shelf: &S,
    source: SourceNames<'a>,
) -> Result<Whole<'a>, Unread<'a>>
    ensures ok { IfOk result (HasReadSource (S.holdings shelf.now) (source_shown source.entry)) }
    ensures err { IfErr result (IsUnread (S.holdings shelf.now) (source_shown source.entry)) }
{
    let mut text = match shelf.read(alloc, source.file) {
        Ok(text) => text,
        Err(fault) => return Err(Unread::File(fault)),
    };
    let libs = match read_libs(alloc, shelf, source.libs) {
        Ok(libs) => libs,
        Err(fault) => return Err(Unread::Lib(fault)),
    };
    let first = SourceFile::new(source.file, text.as_slice());
    match text.extend_from_slice(libs.text()) {
        Ok(()) => Ok(Whole { text, first, libs }),
        Err(_) => Err(Unread::File(FileFault::Memory)),
    }
}

/// Reads the files that follow the first one of a source.
pub fn read_libs<'a, S: Shelf>(
    alloc: Global,
    shelf: &S,
    names: &'a [&'a str],
) -> Result<Following<'a>, NamedFault<'a>>
    ensures ok { IfOk result (HasReadLibs (S.holdings shelf.now) (map_each (λ n. n.now) names.now)) }
    ensures err { IfErr result (LibIsUnread (S.holdings shelf.now) (map_each (λ n. n.now) names.now)) }
{
    let mut libs = Following::new(alloc);
    for name in names {
        let text = match shelf.read(alloc, name) {
            Ok(text) => text,
            Err(fault) => return Err(NamedFault { name, fault }),
        };
        match libs.push(name, text.as_slice()) {
            Ok(()) => {}
            Err(_) => {
                return Err(NamedFault {
                    name,
                    fault: FileFault::Memory,
                });
            }
        }
    }
    Ok(libs)
}
