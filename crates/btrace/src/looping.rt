//! What is told of a run that never ends.
ghost use Rattle.std.specs.Prelude.{◌≡◌, ◌++◌, None, OnErr, OnOk};
ghost use Rattle.bwatch.specs.Trails.{trail_text};
ghost use Rattle.btrace.specs.RowTexts.{legend_of};
ghost use Rattle.btrace.specs.Loops.{again_rows, again_text, asks_text, loop_site, loop_text, names_text};

use crate::legend::Legend;
use crate::places::{push_site, push_source};
use bendless::{Endless, Repeat, push_repeat};
use bmach::Active;
use btools::Text;
use bwatch::Trail;
use std::alloc::AllocError;

/// Adds to what is kept of a run that a state comes again, and the place of the call in which it does.
pub fn push_again(
    trail: &mut Trail,
    legend: &Legend<'_, '_, '_>,
    again: Option<Repeat>,
) -> Result<(), AllocError>
    ensures told { OnOk result (trail_text trail.new ≡ trail_text trail.old ++ again_text (legend_of legend.now) again) }
    ensures some { OnErr result (again ≡ None → ⊥) }
{
    match again {
        None => Ok(()),
        Some(repeat) => push_again_rows(&mut trail.row, legend, repeat),
    }
}

fn push_again_rows(
    row: &mut Text,
    legend: &Legend<'_, '_, '_>,
    repeat: Repeat,
) -> Result<(), AllocError>
    ensures { OnOk result (row.new ≡ row.old ++ again_rows (legend_of legend.now) repeat) }
{
    row.push(b"means  ")?;
    push_repeat(row, repeat)?;
    row.push(b"\nloop   ")?;
    push_site(row, legend, repeat.call)?;
    row.push(b"\n")
}

/// Adds where the loop is, what in it asks for input, and what it reads and doesn't change.
pub fn push_loop(
    text: &mut Text,
    legend: &Legend<'_, '_, '_>,
    source: &[u8],
    again: &Option<Endless>,
) -> Result<(), AllocError>
    ensures { OnOk result (text.new ≡ text.old ++ loop_text (legend_of legend.now) source.now again.now) }
{
    match again {
        None => Ok(()),
        Some(endless) => {
            push_loop_site(text, legend, source, endless.repeat.call)?;
            push_asks(text, legend, endless.asks)?;
            push_names(text, endless.names.as_slice())
        }
    }
}

fn push_loop_site(
    text: &mut Text,
    legend: &Legend<'_, '_, '_>,
    source: &[u8],
    call: Active,
) -> Result<(), AllocError>
    ensures { OnOk result (text.new ≡ text.old ++ loop_site (legend_of legend.now) source.now call) }
{
    text.push(b"loop   ")?;
    push_site(text, legend, call)?;
    text.push(b"\n")?;
    push_source(text, legend, source, call)
}

// The call that asks for input. All that was there was read before, since as much is left when the state comes again.
fn push_asks(
    text: &mut Text,
    legend: &Legend<'_, '_, '_>,
    asks: Option<Active>,
) -> Result<(), AllocError>
    ensures { OnOk result (text.new ≡ text.old ++ asks_text (legend_of legend.now) asks) }
{
    let Some(call) = asks else {
        return Ok(());
    };
    text.push(b"asks   ")?;
    push_site(text, legend, call)?;
    text.push(b"\n  means: at the end of the input getchar gives the same for ever\n")
}

fn push_names(text: &mut Text, names: &[u8]) -> Result<(), AllocError>
    ensures { OnOk result (text.new ≡ text.old ++ names_text names.now) }
{
    if names.is_empty() {
        return Ok(());
    }
    text.push(b"  its conditions read, and nothing in it changes:")?;
    text.push(names)?;
    text.push(b"\n")
}
