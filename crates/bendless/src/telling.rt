//! What is told of a state that comes again.
ghost use Rattle.std.specs.Prelude.{◌≡◌, ◌++◌, OnOk};
ghost use Rattle.bendless.specs.Tellings.{repeat_text};

use crate::search::Repeat;
use btools::Text;
use std::alloc::AllocError;

/// Adds that a state comes again, and after how many steps.
pub fn push_repeat(text: &mut Text, repeat: Repeat) -> Result<(), AllocError>
    ensures { OnOk result (text.new ≡ text.old ++ repeat_text repeat) }
{
    text.push(b"it never ends: after ")?;
    text.push_number(repeat.again)?;
    text.push(b" steps all is as it was after ")?;
    text.push_number(repeat.first)
}
