//! Which range can't be placed, and what it lacks.

ghost use Rattle.std.specs.Prelude.{◌≡◌, ◌<◌, IfOk};
ghost use Rattle.descriptors.specs.Sound.{IsSoundDatabase, IsSoundIn};
ghost use Rattle.zone_report.specs.Nodes.{Serve};
ghost use Rattle.zone_report.specs.Ranges.{partitions, range_at, ranges_in};
ghost use Rattle.zone_report.specs.Refusals.{first_lack, lack_in};

use crate::partitions::{config_at, partitions};
use crate::refused::SqlRefusal;
use descriptors::{Database, Table};
use mr_base::{Memory, NodeInfo};
use placement::{PlaceRefusal, place};
use std::alloc::Global;

/// What a range lacks, if it can't be placed.
fn lack_at(
    alloc: Global,
    nodes: &[NodeInfo],
    database: &Database,
    table: &Table,
    partition: usize,
) -> Result<Option<SqlRefusal>, Memory>
    requires database { IsSoundDatabase database.now }
    requires table { IsSoundIn database.now table.now }
    requires partition { partition < partitions database.now table.now.locality }
    requires nodes { Serve nodes.now database.now.regions }
    ensures { IfOk result (λ lack. lack ≡ lack_in nodes.now (range_at database.now table.now partition)) }
{
    let config = config_at(alloc, database, table, partition)?;
    match place(alloc, &config, nodes) {
        Ok(_) => Ok(None),
        Err(
            PlaceRefusal::Unplaceable {
                region,
                wanted,
                found,
            },
        ) => Ok(Some(SqlRefusal::Unplaceable {
            region,
            wanted,
            found,
        })),
        Err(PlaceRefusal::Memory) => Err(Memory),
    }
}

/// What the first range of a table lacks that can't be placed, if there is one.
pub(crate) fn lack_of_table(
    alloc: Global,
    nodes: &[NodeInfo],
    database: &Database,
    table: &Table,
) -> Result<Option<SqlRefusal>, Memory>
    requires database { IsSoundDatabase database.now }
    requires table { IsSoundIn database.now table.now }
    requires nodes { Serve nodes.now database.now.regions }
    ensures { IfOk result (λ lack. lack ≡ first_lack nodes.now (ranges_in database.now table.now)) }
{
    for partition in 0..partitions(database, &table.locality) {
        let lack = lack_at(alloc, nodes, database, table, partition)?;
        if lack.is_some() {
            return Ok(lack);
        }
    }
    Ok(None)
}
