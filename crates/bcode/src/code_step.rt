//! What calls of the reader of a code text answer.
ghost use Rattle.std.specs.Prelude.{◌≡◌};
ghost use Rattle.bcode.specs.Readers.{is_last_step, code_step};

use crate::code_stop::CodeStop;
use crate::{CodeFault, Definition};

/// What comes next of a code text.
#[derive(Drop)]
pub enum CodeStep {
    /// The next definition.
    Definition(Definition),
    /// There is none, and the text ends.
    End,
    /// No code text goes on so, or memory ran out.
    Fault(CodeFault),
    /// A read failed.
    Device,
    /// There was an answer before that wasn't `Definition`.
    Closed,
}

impl CodeStep {
    /// What is answered where the next definition was read so.
    pub(crate) fn of(next: Result<Option<Definition>, CodeStop>) -> Self
        ensures { result ≡ code_step next }
    {
        match next {
            Ok(Some(definition)) => CodeStep::Definition(definition),
            Ok(None) => CodeStep::End,
            Err(CodeStop::Fault(fault)) => CodeStep::Fault(fault),
            Err(CodeStop::Device) => CodeStep::Device,
        }
    }

    /// Whether nothing comes after it.
    pub(crate) fn is_last(&self) -> bool
        ensures { result ≡ is_last_step self.now }
    {
        !matches!(self, CodeStep::Definition(_))
    }
}
