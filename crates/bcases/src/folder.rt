//! The files of one folder.
use anyhow::{Result, bail, ensure};
use std::fs;
use std::rt::Files;

// What the files of a case end in, beside its words in NAME.args.
const ENDINGS: [&str; 11] = [
    "b", "bas", "code", "lines", "names", "rules", "in", "out", "line", "status", "shown",
];

/// A folder with the names of its files.
#[derive(Drop)]
pub(crate) struct Folder {
    path: String,
    files: Vec<String>,
}

/// Whether a file has this name, a dot and this ending.
pub(crate) fn is_named(file: &str, name: &str, ending: &str) -> bool {
    let rest = file.strip_prefix(name);
    rest.and_then(|rest| rest.strip_prefix('.')) == Some(ending)
}

impl Folder {
    /// Reads the names of a folder's files, and adds the folders in it to those to come.
    pub(crate) fn read<R: AllocGlobal + Files + Clone + Drop>(
        rt: &R,
        path: String,
        to_come: &mut Vec<String>,
    ) -> Result<Folder> {
        let mut files = Vec::new(rt.alloc());
        for entry in fs::read_dir(rt, path.as_str())? {
            let entry = entry?;
            let kind = entry.file_type()?;
            if kind.is_dir() {
                to_come.push(String::from_str(rt.alloc(), entry.path().as_str())?)?;
            } else {
                ensure!(kind.is_file(), "{} is a link", entry.file_name());
                files.push(String::from_str(rt.alloc(), entry.file_name())?)?;
            }
        }
        files.sort()?;
        Ok(Folder { path, files })
    }

    pub(crate) fn path(&self) -> &str {
        self.path.as_str()
    }

    pub(crate) fn files(&self) -> &[String] {
        self.files.as_slice()
    }

    /// Whether it has the file of this name and ending.
    pub(crate) fn has(&self, name: &str, ending: &str) -> bool {
        self.files
            .iter()
            .any(|file| is_named(file.as_str(), name, ending))
    }

    /// Refuses a file that isn't words if it is no part of a case either.
    pub(crate) fn expect_case_of(&self, file: &str) -> Result<()> {
        match file.rsplit_once('.') {
            Some(("README", "md")) => Ok(()),
            Some((name, ending)) if ENDINGS.contains(&ending) => {
                ensure!(self.has(name, "args"), "there is no {name}.args beside it");
                Ok(())
            }
            _ => bail!("no file of a case is named so"),
        }
    }
}
