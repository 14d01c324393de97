//! The ranges of a table.

ghost use Rattle.std.specs.Prelude.{◌≡◌, ◌<◌, IfOk};
ghost use Rattle.std.specs.Option.{option_copied};
ghost use Rattle.descriptors.specs.Sound.{IsSoundDatabase, IsSoundIn};
ghost use Rattle.zone_compile.specs.Configuration.{HasForm, NamesTexts};
ghost use Rattle.zone_report.specs.Ranges.{partitions, place_of, range_at};

use descriptors::{Database, Table};
use mr_base::{Bytes, Memory};
use region_sql::Locality;
use std::alloc::Global;
use zone_compile::{ZoneConfig, compile};

/// How many ranges a table has.
pub(crate) fn partitions(database: &Database, locality: &Option<Locality>) -> usize
    ensures { result ≡ partitions database.now locality.now }
{
    match locality {
        Some(Locality::ByRow) => database.regions.len(),
        _ => 1,
    }
}

/// The place of the region of a partition, if it has a region.
fn place_of(locality: &Option<Locality>, partition: usize) -> Option<usize>
    ensures { result ≡ place_of locality.now partition }
{
    match locality {
        Some(Locality::ByRow) => Some(partition),
        _ => None,
    }
}

/// The region of a partition, if it has one.
pub(crate) fn region_of<'a>(
    database: &'a Database,
    table: &Table,
    partition: usize,
) -> Option<&'a Bytes>
    ensures { option_copied result ≡ (range_at database.now table.now partition).partition }
{
    let place = place_of(&table.locality, partition)?;
    database.regions.as_slice().get(place)
}

/// The configuration of a range.
pub(crate) fn config_at(
    alloc: Global,
    database: &Database,
    table: &Table,
    partition: usize,
) -> Result<ZoneConfig, Memory>
    requires database { IsSoundDatabase database.now }
    requires table { IsSoundIn database.now table.now }
    requires partition { partition < partitions database.now table.now.locality }
    ensures configuration { IfOk result (λ c. c ≡ (range_at database.now table.now partition).config) }
    ensures form { IfOk result HasForm }
    ensures texts { IfOk result NamesTexts }
{
    let place = place_of(&table.locality, partition);
    compile(alloc, database, table, place)
}
