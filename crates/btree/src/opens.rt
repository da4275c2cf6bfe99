//! The constructs that are open.
ghost use Rattle.std.specs.Prelude.{◌≡◌, ◌∷◌, [], IfOk, MatchOption};
ghost use Rattle.btree.specs.Machine.{top_of};

use crate::tags::Construct;
use std::alloc::{AllocError, Global};
use std::marker::Model;

/// What is open, from the inside out.
#[derive(Drop)]
pub(crate) struct Opens {
    all: Vec<Construct>,
}

impl Model for Opens {
    ghost use Rattle.std.specs.Prelude.{List, reverse};
    ghost use Rattle.btree.specs.declared.tags.Construct.{Construct};

    ghost Value = { List Construct };

    ghost view = { λ it. reverse it.all.items };
}

impl Opens {
    pub(crate) fn new(alloc: Global) -> Self
        ensures { result ≡ [] }
    {
        Opens {
            all: Vec::new(alloc),
        }
    }

    pub(crate) fn push(&mut self, construct: Construct) -> Result<(), AllocError>
        ensures { IfOk result (λ done. self.new ≡ construct ∷ self.old) }
    {
        self.all.push(construct)?;
        Ok(())
    }

    pub(crate) fn pop(&mut self) -> Option<Construct>
        ensures { MatchOption result ((self.old ≡ []) × (self.new ≡ [])) (λ c. self.old ≡ c ∷ self.new) }
    {
        self.all.pop()
    }

    /// The innermost one.
    pub(crate) fn top(&self) -> Option<Construct>
        ensures { result ≡ top_of self.now }
    {
        self.all.last().copied()
    }
}
