//! The definitions of a source in a list.
ghost use Rattle.std.specs.Prelude.{◌≡◌, ℕ, All, IfOk, IsErr, List, [], false};
ghost use Rattle.bword.specs.ByteEnds.{PutGives};
ghost use Rattle.bparse.specs.CodeLists.{IsNew, empty_list, outgoing_list};
ghost use Rattle.blang.specs.Text.{IsWithinRanges, definition_of};

use crate::code_out::CodeOut;
use blang::{Definition, Function, FunctionParts, Simple, SimpleParts, Vector, VectorParts, View};
use bword::{Edition, EndFault};
use std::alloc::{AllocError, Global};
use std::marker::Model;

/// The definitions of a code text, without the text.
///
/// Where it is out of memory for a definition, it keeps nothing of that call.
#[derive(Drop)]
pub(crate) struct CodeList {
    alloc: Global,
    edition: Edition,
    definitions: Vec<Definition>,
    is_ended: bool,
    refusals: u64,
}

impl Model for CodeList {
    ghost use Rattle.std.specs.Prelude.{All};
    ghost use Rattle.bparse.specs.CodeLists.{CodeList};
    ghost use Rattle.blang.specs.Text.{IsWithinRanges};

    ghost Value = { CodeList };

    ghost view = { λ l. record {
      edition = l.edition;
      definitions = l.definitions.items;
      is_ended = l.is_ended;
      refusals = l.refusals;
    } };

    ghost invariant = { λ l. All IsWithinRanges l.definitions.items };
}

impl CodeList {
    /// A list without definitions; it takes no memory yet.
    pub(crate) fn new(alloc: Global) -> Self
        ensures { result ≡ empty_list }
    {
        CodeList {
            alloc,
            edition: Edition::One,
            definitions: Vec::new(alloc),
            is_ended: false,
            refusals: 0,
        }
    }

    /// The definitions in order.
    pub(crate) fn into_definitions(self) -> Vec<Definition>
        ensures same { result.items ≡ self.definitions }
        ensures within { All IsWithinRanges result.items }
    {
        let CodeList {
            alloc: _,
            edition: _,
            definitions,
            is_ended: _,
            refusals: _,
        } = self;
        definitions
    }

    // Keeps nothing of a call.
    fn refuse(&mut self) -> Result<(), EndFault>
        ensures gives { (text : List ℕ) → PutGives (outgoing_list self.old) text result (outgoing_list self.new) }
        ensures err { IsErr result }
    {
        self.refusals = self.refusals.saturating_add(1);
        Err(EndFault::Memory)
    }
}

impl CodeOut for CodeList {
    ghost outgoing = { outgoing_list };

    ghost lender = { λ _. [] };

    ghost can_begin = { IsNew };

    ghost can_go_on = { λ l. l.is_ended ≡ false };

    fn begin(&mut self, edition: Edition) -> Result<(), EndFault> {
        self.edition = edition;
        Ok(())
    }

    fn put(&mut self, view: &View<'_>) -> Result<(), EndFault> {
        let Ok(definition) = owned(self.alloc, view) else {
            return self.refuse();
        };
        if self.definitions.push(definition).is_err() {
            return self.refuse();
        }
        Ok(())
    }

    fn end(&mut self) -> Result<(), EndFault> {
        self.is_ended = true;
        Ok(())
    }
}

// The definition that a view shows.
fn owned(alloc: Global, view: &View<'_>) -> Result<Definition, AllocError>
    requires { IsWithinRanges (definition_of view.now) }
    ensures same { IfOk result (λ d. d ≡ definition_of view.now) }
{
    Ok(match view {
        View::Function {
            name,
            parameters,
            frame,
            targets,
            strings,
            code,
        } => Definition::Function(Function::from_parts(FunctionParts {
            name: *name,
            parameters: *parameters,
            frame: *frame,
            targets: Vec::from_slice(alloc, targets)?,
            strings: Vec::from_slice(alloc, strings)?,
            code: Vec::from_slice(alloc, code)?,
        })),
        View::Simple {
            name,
            values,
            strings,
        } => Definition::Simple(Simple::from_parts(SimpleParts {
            name: *name,
            values: Vec::from_slice(alloc, values)?,
            strings: Vec::from_slice(alloc, strings)?,
        })),
        View::Vector {
            name,
            words,
            values,
            strings,
        } => Definition::Vector(Vector::from_parts(VectorParts {
            name: *name,
            words: *words,
            values: Vec::from_slice(alloc, values)?,
            strings: Vec::from_slice(alloc, strings)?,
        })),
    })
}
