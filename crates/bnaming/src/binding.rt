//! What names are bound to.
ghost use Rattle.std.specs.Prelude.{◌≡◌, ◌+◌, ◌<◌, ◌≤◌, List, IfOk, OnOk, Some, drop, length, slice_get};
ghost use Rattle.bnames.specs.NameTables.{value_in};
ghost use Rattle.bnaming.specs.declared.rows.Row.{Row};
ghost use Rattle.bnaming.specs.declared.binding.Reach.TheVariants as reach_of;
ghost use Rattle.bnaming.specs.Binding.{Enters, HasPut, IsIndex, around_at, bound, declares, ends, reached, row_at};

use crate::roles::Role;
use crate::rows::{Content, Row};
use bnames::{NameTable, Probes};
use bword::Name;
use std::alloc::{AllocError, Global};

/// Where a name is looked for.
#[derive(Clone, Copy)]
pub(crate) enum Reach {
    /// In the rest of a definition, where it is declared for that alone.
    Definition,
    /// In the whole source, where it is defined for all of it.
    Source,
}

impl Reach {
    fn declares(self, role: Role) -> bool
        ensures { result ≡ declares self role }
    {
        match self {
            Reach::Definition => role.is_local(),
            Reach::Source => role.defines(),
        }
    }

    // Whether nothing is looked for where this many constructs are open.
    fn ends(self, opens: usize) -> bool
        ensures { result ≡ ends self opens }
    {
        match self {
            Reach::Definition => opens == 0,
            Reach::Source => false,
        }
    }
}

/// For each name the first of the rows from a place on that declares it, where this many constructs are open before
/// that place.
pub(crate) fn index(
    alloc: Global,
    rows: &[Row],
    start: usize,
    opens: usize,
    reach: Reach,
) -> Result<NameTable, AllocError>
    requires start { start ≤ length rows.now }
    requires opens { opens ≤ start }
    ensures { IfOk result (IsIndex rows.now reach (reached reach opens (drop start rows.now))) }
{
    let mut table = NameTable::new(alloc);
    let mut now_open = opens;
    for place in start..rows.len() {
        if reach.ends(now_open) {
            return Ok(table);
        }
        let row = rows[place];
        now_open = row.opens_after(now_open);
        enter(&mut table, &row, place, reach)?;
    }
    Ok(table)
}

// Enters the name of a row, if it declares one that wasn't declared before.
fn enter(table: &mut NameTable, row: &Row, place: usize, reach: Reach) -> Result<(), AllocError>
    ensures { OnOk result (Enters reach row.now place table.old table.new) }
{
    let Content::Name(role, name) = row.content else {
        return Ok(());
    };
    if reach.declares(role) {
        put(table, name, place)
    } else {
        Ok(())
    }
}

// Puts the place of a name in, if it has none yet.
fn put(table: &mut NameTable, name: Name, place: usize) -> Result<(), AllocError>
    ensures { OnOk result (HasPut name place table.old table.new) }
{
    // No memory holds the rows of so large a source.
    if place > u32::MAX as usize {
        return Err(AllocError);
    }
    match table.insert(name, place as u32) {
        Ok(_) => Ok(()),
        Err(_) => Err(AllocError),
    }
}

/// The names that the outermost construct of a row declares, before which this many are open: those of before, where it
/// isn't the first of its construct.
pub(crate) fn around(
    alloc: Global,
    rows: &[Row],
    place: usize,
    opens: usize,
    own: NameTable,
) -> Result<NameTable, AllocError>
    requires place { place < length rows.now }
    requires opens { opens ≤ place }
    ensures { (before : List Row) (r : Row) → slice_get rows.now place ≡ Some r
        → IsIndex rows.now reach_of.Definition before own
        → IfOk result (IsIndex rows.now reach_of.Definition (around_at opens r before (drop (place + 1) rows.now))) }
{
    if opens == 0 {
        let after = rows[place].opens_after(opens);
        index(alloc, rows, place + 1, after, Reach::Definition)
    } else {
        Ok(own)
    }
}

/// The row that declares the name of a row, if there is one.
pub(crate) fn bound(row: &Row, rows: &[Row], own: &NameTable, all: &NameTable) -> Option<Row>
    ensures { (before whole : List Row) → IsIndex rows.now reach_of.Definition before own.now
        → IsIndex rows.now reach_of.Source whole all.now → result ≡ bound before whole row.now.content }
{
    let Content::Name(role, name) = row.content else {
        return None;
    };
    if role.looks_around() {
        if let Some(found) = row_of(rows, own, &name) {
            return Some(found);
        }
    }
    row_of(rows, all, &name)
}

fn row_of(rows: &[Row], table: &NameTable, name: &Name) -> Option<Row>
    ensures { result ≡ row_at rows.now (value_in name.now table.now) }
{
    let place = table.find(name, &mut Probes::new())?;
    rows.get(place as usize).copied()
}
