//! The partitions of a table, and the order in which a search goes through them.

ghost use Rattle.std.specs.Prelude.{◌≡◌, ◌+◌, ◌^◌, ◌≤◌, filter, length, not, IfOk};
ghost use Rattle.std.specs.Option.{option_copied};
ghost use Rattle.row_locality.specs.Rows.{is_by_row};
ghost use Rattle.sql_eval.specs.Lookups.{is_in_region, near_first};
ghost use Rattle.local_search.specs.Partitions.{partition_count, numbered_from, ArePartitions};

use descriptors::{Database, Table};
use mr_base::{Bytes, CloneIn, ListOf, Memory, RangeId};
use region_sql::Locality;
use std::alloc::Global;
use std::marker::Model;

/// A partition of a table: its range and, where the table is REGIONAL BY ROW, its region.
#[derive(Drop)]
pub struct Partition {
    pub(crate) range: RangeId,
    pub(crate) region: Option<Bytes>,
}

impl Model for Partition {
    ghost use Rattle.row_locality.specs.Plain.{Partition as PlainPartition};

    ghost Value = { PlainPartition };

    ghost view = { λ p. record {
      range = p.range;
      region = p.region;
    } };
}

impl Partition {
    /// The range that holds the partition.
    pub fn range(&self) -> RangeId
        ensures { result ≡ self.now.range }
    {
        self.range
    }

    /// The region of the partition's rows, where the table is REGIONAL BY ROW.
    pub fn region(&self) -> Option<&[u8]>
        ensures { option_copied result ≡ self.now.region }
    {
        match &self.region {
            None => None,
            Some(region) => Some(region.as_slice()),
        }
    }

    /// Whether this is the partition of a region.
    fn is_in(&self, region: &[u8]) -> bool
        ensures { result ≡ is_in_region region.now self.now }
    {
        match &self.region {
            None => false,
            Some(own) => region == own.as_slice(),
        }
    }
}

impl CloneIn for Partition {
    fn clone_in(&self, alloc: Global) -> Result<Partition, Memory> {
        Ok(Partition {
            range: self.range,
            region: self.region.clone_in(alloc)?,
        })
    }
}

/// Whether a table is REGIONAL BY ROW.
pub(crate) fn is_by_row(t: &Table) -> bool
    ensures { result ≡ is_by_row t.now }
{
    match &t.locality {
        Some(Locality::ByRow) => true,
        _ => false,
    }
}

/// The partitions of a table of this database in catalog order, where the first has this range and the others
/// follow it. Source: CockroachDB's documentation of table localities, in this project's profile.
pub fn partitions(
    alloc: Global,
    t: &Table,
    database: &Database,
    first: RangeId,
) -> Result<ListOf<Partition>, Memory>
    requires { first.0 + partition_count t.now database.now ≤ 2 ^ 32 }
    ensures { IfOk result (ArePartitions t.now database.now first) }
{
    if is_by_row(t) {
        return partitions_of_regions(alloc, database.regions.as_slice(), first);
    }
    let mut one = ListOf::new(alloc);
    one.push(Partition {
        range: first,
        region: None,
    })?;
    Ok(one)
}

/// A partition for each of these regions.
fn partitions_of_regions(
    alloc: Global,
    regions: &[Bytes],
    first: RangeId,
) -> Result<ListOf<Partition>, Memory>
    requires { first.0 + length regions.now ≤ 2 ^ 32 }
    ensures { IfOk result (λ ps. ps ≡ numbered_from first 0 regions.now) }
{
    let mut partitions = ListOf::new(alloc);
    for (i, region) in regions.iter().enumerate() {
        partitions.push(Partition {
            range: RangeId(first.0 + i as u32),
            region: Some(region.clone_in(alloc)?),
        })?;
    }
    Ok(partitions)
}

/// The partition of a region, where there is one.
pub(crate) fn those_in(
    alloc: Global,
    region: &[u8],
    partitions: &[Partition],
) -> Result<ListOf<Partition>, Memory>
    ensures { IfOk result (λ ps. ps ≡ filter (is_in_region region.now) partitions.now) }
{
    let mut chosen = ListOf::new(alloc);
    for partition in partitions {
        if partition.is_in(region) {
            chosen.push(partition.clone_in(alloc)?)?;
        }
    }
    Ok(chosen)
}

/// The partitions of other regions.
fn the_others(
    alloc: Global,
    region: &[u8],
    partitions: &[Partition],
) -> Result<ListOf<Partition>, Memory>
    ensures { IfOk result (λ ps. ps ≡ filter (λ p. not (is_in_region region.now p)) partitions.now) }
{
    let mut others = ListOf::new(alloc);
    for partition in partitions {
        if !partition.is_in(region) {
            others.push(partition.clone_in(alloc)?)?;
        }
    }
    Ok(others)
}

/// The partition of a region first, then the others as they stand.
pub(crate) fn near_first(
    alloc: Global,
    region: &[u8],
    partitions: &[Partition],
) -> Result<ListOf<Partition>, Memory>
    ensures { IfOk result (λ ps. ps ≡ near_first region.now partitions.now) }
{
    let mut near = those_in(alloc, region, partitions)?.into_vec();
    let mut others = the_others(alloc, region, partitions)?.into_vec();
    near.append(&mut others)?;
    Ok(ListOf::from_vec(near))
}
