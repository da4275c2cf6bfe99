//! What waits for an expression or a block.
ghost use Rattle.std.specs.Prelude.{◌≡◌, ◌<◌, ◌∷◌, [], IfOk, IsTrue, MatchOption, ◌↔◌};
ghost use Rattle.btree.specs.declared.nodes.Pending.TheVariants as pending;
ghost use Rattle.btree.specs.NodeMachine.{innermost, looseness};
ghost use Rattle.btree.specs.NodeReading.{StaysBefore};

use crate::nodes::{Node, Pending};
use std::alloc::{AllocError, Global};
use std::marker::Model;

/// What waits, from the inside out.
#[derive(Drop)]
pub(crate) struct Waiting {
    all: Vec<Pending>,
}

impl Model for Waiting {
    ghost use Rattle.std.specs.Prelude.{List, reverse};
    ghost use Rattle.btree.specs.declared.nodes.Pending.{Pending};

    ghost Value = { List Pending };

    ghost view = { λ it. reverse it.all.items };
}

impl Waiting {
    pub(crate) fn new(alloc: Global) -> Self
        ensures { result ≡ [] }
    {
        Waiting {
            all: Vec::new(alloc),
        }
    }

    pub(crate) fn push(&mut self, pending: Pending) -> Result<(), AllocError>
        ensures { IfOk result (λ done. self.new ≡ pending ∷ self.old) }
    {
        self.all.push(pending)?;
        Ok(())
    }

    pub(crate) fn pop(&mut self) -> Option<Pending>
        ensures { MatchOption result ((self.old ≡ []) × (self.new ≡ [])) (λ p. self.old ≡ p ∷ self.new) }
    {
        self.all.pop()
    }

    /// The innermost operator, if it is over before a token of this bound.
    pub(crate) fn pop_over(&mut self, bound: u8) -> Option<Node>
        ensures { MatchOption result (StaysBefore bound self.old self.new) (λ n. (self.old ≡ pending.Operator n ∷ self.new) × (looseness n < bound)) }
    {
        match self.innermost() {
            Some(Pending::Operator(node)) if node.looseness() < bound => {
                let _ = self.pop();
                Some(node)
            }
            _ => None,
        }
    }

    pub(crate) fn innermost(&self) -> Option<Pending>
        ensures { result ≡ innermost self.now }
    {
        self.all.last().copied()
    }

    pub(crate) fn is_empty(&self) -> bool
        ensures { IsTrue result ↔ (self.now ≡ []) }
    {
        self.all.is_empty()
    }
}
