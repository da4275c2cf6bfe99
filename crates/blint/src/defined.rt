//! The definitions of a program by their names.
use crate::tree::Tree;
use bmatch::Kind;
use bnames::{NameTable, Probes};
use btree::Construct;
use bword::Name;
use std::alloc::{AllocError, Global};

/// The definitions of a program, and the first token of each by its name.
#[derive(Drop)]
pub(crate) struct Defined {
    pub all: Vec<usize>,
    firsts: NameTable,
}

impl Defined {
    pub(crate) fn new(alloc: Global, tree: &Tree<'_>) -> Result<Self, AllocError> {
        let mut defined = Defined {
            all: Vec::new(alloc),
            firsts: NameTable::new(alloc),
        };
        for index in 0..tree.rows.len() {
            if let Kind::Construct(Construct::Definition) = tree.at(index).kind {
                defined.all.push(index)?;
                defined.note(tree, tree.at(index).first)?;
            }
        }
        Ok(defined)
    }

    fn note(&mut self, tree: &Tree<'_>, first: usize) -> Result<(), AllocError> {
        let place = u32::try_from(first).unwrap_or(u32::MAX);
        match tree.tokens.name(first) {
            Some(name) if self.firsts.insert(name, place).is_err() => Err(AllocError),
            _ => Ok(()),
        }
    }

    /// The first token of the definition of this name.
    pub(crate) fn first_token(&self, name: &Name) -> Option<usize> {
        let place = self.firsts.find(name, &mut Probes::new())?;
        Some(place as usize)
    }
}
