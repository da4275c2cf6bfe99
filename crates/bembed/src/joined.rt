//! A source in memory, with the files that follow it.
ghost use Rattle.std.specs.Prelude.{◌≡◌, IfErr, IfOk, map};
ghost use Rattle.bembed.specs.Calls.{edition_of};
ghost use Rattle.bembed.specs.WithFiles.{AreNamed, IsRead, IsUnread, IsUnnamed, text_of};
ghost use Rattle.bsources.specs.Files.{files_shown, followed};

use crate::calls::edition_of;
use blang::status::{self, Status};
use bsources::{Following, SourceFile, SourceFiles};
use bword::Edition;
use std::alloc::Global;
use std::marker::Model;

/// The name of the first file in what is told, as that of standard input.
pub(crate) const FILE: &str = "-";

/// A file that follows a source. Its name has to be UTF-8.
#[repr(C)]
#[derive(Clone, Copy)]
pub struct NamedFile<'a> {
    pub name: &'a [u8],
    pub text: &'a [u8],
}

/// A source as a whole: its bytes, a newline between those of two files, and its files.
#[derive(Drop)]
pub(crate) struct Joined<'a> {
    edition: Edition,
    bytes: Vec<u8>,
    first: SourceFile<'a>,
    rest: Following<'a>,
}

impl<'a> Model for Joined<'a> {
    ghost use Rattle.bsources.specs.FileLines.{file_shown};
    ghost use Rattle.bembed.specs.Wholes.{Whole};

    ghost Value = { Whole };

    ghost view = { λ j. record {
      edition = j.edition;
      text = j.bytes.items;
      files = record { first = file_shown j.first; rest = j.rest.files };
    } };
}

impl<'a> Joined<'a> {
    /// Puts a source and the files that follow it together, for the edition of this number.
    ///
    /// # Errors
    ///
    /// The status is 135 if there is no such edition, or if a name isn't UTF-8, and 134 if there is no memory for them.
    pub(crate) fn of(
        alloc: Global,
        source: &[u8],
        files: &'a [NamedFile<'a>],
        edition: u8,
    ) -> Result<Joined<'a>, Status>
        ensures ok { IfOk result (IsRead edition source.now (map text_of files.now)) }
        ensures err { IfErr result (IsUnread (edition_of edition) (map text_of files.now)) }
    {
        let Some(edition) = edition_of(edition) else {
            return Err(status::WRONG_COMMAND);
        };
        let rest = follow(alloc, files)?;
        let Ok(mut bytes) = Vec::from_slice(alloc, source) else {
            return Err(status::MEMORY);
        };
        let Ok(()) = bytes.extend_from_slice(rest.text()) else {
            return Err(status::MEMORY);
        };
        let first = SourceFile::new(FILE, source);
        Ok(Joined {
            edition,
            bytes,
            first,
            rest,
        })
    }

    /// Its edition.
    pub(crate) fn edition(&self) -> Edition
        ensures { result ≡ self.now.edition }
    {
        self.edition
    }

    /// Its bytes.
    pub(crate) fn text(&self) -> &[u8]
        ensures { result.now ≡ self.now.text }
    {
        self.bytes.as_slice()
    }

    /// Its files.
    pub(crate) fn files(&self) -> SourceFiles<'_>
        ensures { files_shown result ≡ self.now.files }
    {
        SourceFiles {
            first: self.first,
            rest: &self.rest,
        }
    }
}

// The files that follow a source, in one row.
fn follow<'a>(alloc: Global, files: &'a [NamedFile<'a>]) -> Result<Following<'a>, Status>
    ensures ok { IfOk result (λ rest. AreNamed (map text_of files.now) × (rest ≡ followed (map text_of files.now))) }
    ensures err { IfErr result (IsUnnamed (map text_of files.now)) }
{
    let mut rest = Following::new(alloc);
    for file in files {
        let Ok(name) = str::from_utf8(file.name) else {
            return Err(status::WRONG_COMMAND);
        };
        let Ok(()) = rest.push(name, file.text) else {
            return Err(status::MEMORY);
        };
    }
    Ok(rest)
}
