//! What is found of a run that never ends.
ghost use Rattle.std.specs.Prelude.{◌≡◌, IfSome};
ghost use Rattle.bword.specs.ByteEnds.{Incoming};
ghost use Rattle.blang.specs.Layout.{load_fault};
ghost use Rattle.std.specs.Prelude.{None};
ghost use Rattle.bmach.specs.Resolved.{IsLoadedFrom};
ghost use Rattle.btools.specs.Functions.{entries_of};
ghost use Rattle.bendless.specs.Recordings.{Records};
ghost use Rattle.bendless.specs.Repeats.{IsEndless};

use crate::idle::push_idle_names;
use crate::looping::look_at_loop;
use crate::recorder::Record;
use crate::search::{Repeat, repeat_of};
use blang::Outcome;
use bmach::Active;
use btools::{Program, Tables, Text};
use std::alloc::Global;

/// A run that never ends.
#[derive(Drop)]
pub struct Endless {
    /// The state that comes again.
    pub repeat: Repeat,
    /// The call that first asks for input between its two times.
    pub asks: Option<Active>,
    /// The names of the words that the conditions of the loop read, and that nothing in it changes.
    pub names: Text,
}

/// What is found of a run that came to its limit, of which this is kept, if a state comes again. Where memory is
/// refused, the search is given up.
pub fn endless_of(
    alloc: Global,
    program: &Program,
    tables: &Tables<'_>,
    read: &Record,
    outcome: Outcome,
) -> Option<Endless>
    requires loads { load_fault program.now.definitions.items ≡ None }
    requires loaded { IsLoadedFrom program.now.definitions.items program.now.image }
    ensures { (i j : Incoming) → Records read.now i j → IfSome result (IsEndless program.now.definitions.items
        program.now.image (entries_of tables.now) program.now.names.frames.items i j) }
{
    let repeat = repeat_of(alloc, &program.image, read, outcome)?;
    let notes = look_at_loop(alloc, program, tables, read, repeat)?;
    let mut names = Text::new(alloc);
    push_idle_names(&mut names, program, tables, repeat.call, &notes).ok()?;
    Some(Endless {
        repeat,
        asks: notes.asks,
        names,
    })
}
