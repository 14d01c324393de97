//! What a changed catalog lacks. Tables that the change left as they are aren't placed anew.

ghost use Rattle.std.specs.Prelude.{◌≡◌, Contains, IfOk, IsTrue, None, Some};
ghost use Rattle.descriptors.specs.declared.table.Table.{Table as AnyTable};
ghost use Rattle.descriptors.specs.Contents.{database_named};
ghost use Rattle.zone_report.specs.Nodes.{Serve};
ghost use Rattle.zone_report.specs.Ranges.{ranges, ranges_of_table};
ghost use Rattle.zone_report.specs.Refusals.{first_lack};

use crate::lacks::lack_of_table;
use crate::refused::SqlRefusal;
use crate::same::{is_same_database, is_same_locality};
use descriptors::{Catalog, Database, Table};
use mr_base::{Memory, NodeInfo};
use std::alloc::Global;

/// What the first range of a catalog lacks that can't be placed, if there is one. `old` is a catalog
/// whose ranges can be placed.
pub(crate) fn first_lack(
    alloc: Global,
    nodes: &[NodeInfo],
    old: &Catalog,
    new: &Catalog,
) -> Result<Option<SqlRefusal>, Memory>
    requires nodes { Serve nodes.now new.now.regions }
    requires placed { first_lack nodes.now (ranges old.now) ≡ None }
    ensures { IfOk result (λ lack. lack ≡ first_lack nodes.now (ranges new.now)) }
{
    for (place, table) in new.tables().iter().enumerate() {
        let lack = lack_of_changed(alloc, nodes, old, new, place, table)?;
        if lack.is_some() {
            return Ok(lack);
        }
    }
    Ok(None)
}

/// What the first range of a table lacks that can't be placed, if there is one.
fn lack_of_changed(
    alloc: Global,
    nodes: &[NodeInfo],
    old: &Catalog,
    new: &Catalog,
    place: usize,
    table: &Table,
) -> Result<Option<SqlRefusal>, Memory>
    requires nodes { Serve nodes.now new.now.regions }
    requires placed { first_lack nodes.now (ranges old.now) ≡ None }
    requires table { Contains new.now.tables table.now }
    ensures { IfOk result (λ lack. lack ≡ first_lack nodes.now (ranges_of_table new.now.databases table.now)) }
{
    let Some(database) = new.database(table.database.as_slice()) else {
        return Ok(None);
    };
    if is_unchanged(old, place, table, database) {
        return Ok(None);
    }
    lack_of_table(alloc, nodes, database, table)
}

/// Whether a catalog has a table of this locality at this place, and this database as its home. Then its
/// ranges are placed as they would be placed now.
fn is_unchanged(old: &Catalog, place: usize, table: &Table, database: &Database) -> bool
    ensures { IsTrue result → (t : AnyTable) × Contains old.now.tables t × (t.locality ≡ table.now.locality) × (database_named t.database old.now.databases ≡ Some database.now) }
{
    let Some(before) = old.tables().get(place) else {
        return false;
    };
    if !is_same_locality(&before.locality, &table.locality) {
        return false;
    }
    match old.database(before.database.as_slice()) {
        Some(home) => is_same_database(home, database),
        None => false,
    }
}
