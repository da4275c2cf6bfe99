//! Where the code of a source goes: its text to a stream, or its definitions to a list.
ghost use Rattle.std.specs.Prelude.{◌≡◌, ℕ, List, IsOk, OnOk};
ghost use Rattle.bword.specs.declared.edition.Edition.TheVariants as editions;
ghost use Rattle.bword.specs.ByteEnds.{Outgoing, PutGives};
ghost use Rattle.blang.specs.Text.{IsWithinRanges, definition_of, definition_text, end_text, opening};

use bcode::{write_begin, write_definition, write_end};
use blang::View;
use bword::{ByteOut, Edition, EndFault};

/// What takes the code of a source, part by part.
pub trait CodeOut {
    // What can be seen of it, as of a stream to which the text of the code is written.
    ghost outgoing: { Self → Outgoing };

    // Which end it is, where `Self` is a reference to one.
    ghost lender: { Self → List ℕ };

    // What a text begins with may come.
    ghost can_begin: { Self → Type 0 };

    // Definitions and the last line may come.
    ghost can_go_on: { Self → Type 0 };

    /// Takes what a code text of this edition begins with.
    ///
    /// # Errors
    ///
    /// Of each call: if it failed or is out of memory. A beginning of the text, perhaps none, was taken then.
    fn begin(&mut self, edition: Edition) -> Result<(), EndFault>
        requires { can_begin self.old }
        ensures gives { PutGives (outgoing self.old) (opening edition) result (outgoing self.new) }
        ensures nothing { edition ≡ editions.One → IsOk result × (outgoing self.new ≡ outgoing self.old) }
        ensures open { OnOk result (can_go_on self.new) }
        ensures same { lender self.new ≡ lender self.old };

    /// Takes a definition.
    fn put(&mut self, view: &View<'_>) -> Result<(), EndFault>
        requires within { IsWithinRanges (definition_of view.now) }
        requires open { can_go_on self.old }
        ensures gives { PutGives (outgoing self.old) (definition_text (definition_of view.now)) result (outgoing self.new) }
        ensures open { OnOk result (can_go_on self.new) }
        ensures same { lender self.new ≡ lender self.old };

    /// Takes the last line.
    fn end(&mut self) -> Result<(), EndFault>
        requires { can_go_on self.old }
        ensures gives { PutGives (outgoing self.old) end_text result (outgoing self.new) }
        ensures same { lender self.new ≡ lender self.old };
}

impl<O: ByteOut> CodeOut for O {
    ghost outgoing = { O.outgoing };

    ghost lender = { O.lender };

    ghost can_begin = { λ _. Unit {0} };

    ghost can_go_on = { λ _. Unit {0} };

    #[inline]
    fn begin(&mut self, edition: Edition) -> Result<(), EndFault> {
        write_begin(edition, self)
    }

    #[inline]
    fn put(&mut self, view: &View<'_>) -> Result<(), EndFault> {
        write_definition(copy_of(view), self)
    }

    #[inline]
    fn end(&mut self) -> Result<(), EndFault> {
        write_end(self)
    }
}

// The same view, by value: a view can't be copied from behind a reference.
#[inline]
pub(crate) fn copy_of<'a>(view: &View<'a>) -> View<'a>
    ensures { definition_of result ≡ definition_of view.now }
{
    match view {
        View::Function {
            name,
            parameters,
            frame,
            targets,
            strings,
            code,
        } => View::Function {
            name: *name,
            parameters: *parameters,
            frame: *frame,
            targets,
            strings,
            code,
        },
        View::Simple {
            name,
            values,
            strings,
        } => View::Simple {
            name: *name,
            values,
            strings,
        },
        View::Vector {
            name,
            words,
            values,
            strings,
        } => View::Vector {
            name: *name,
            words: *words,
            values,
            strings,
        },
    }
}
