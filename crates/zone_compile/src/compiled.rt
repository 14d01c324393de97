//! Configurations from databases and tables.

ghost use Rattle.std.specs.Prelude.{◌≡◌, ◌≤◌, [], ◌∷◌, length, IfOk, Some, option_map};
ghost use Rattle.descriptors.specs.Sound.{IsSoundDatabase, IsSoundIn};
ghost use Rattle.zone_compile.specs.Configuration.{HasForm, IsPartitionOf, NamesTexts, configuration, home_of, is_global, kept_at, one_in_each, spread_over, without_regions};

use crate::config::ZoneConfig;
use descriptors::{Database, Table};
use mr_base::{Bytes, CloneIn, ListOf, Memory};
use region_sql::{Goal, Locality};
use std::alloc::Global;

/// The configuration of a table's range, of the partition of the region at `partition` for a REGIONAL
/// BY ROW table.
pub fn compile(
    alloc: Global,
    database: &Database,
    table: &Table,
    partition: Option<usize>,
) -> Result<ZoneConfig, Memory>
    requires database { IsSoundDatabase database.now }
    requires table { IsSoundIn database.now table.now }
    requires partition { IsPartitionOf database.now table.now.locality partition }
    ensures configuration { IfOk result (λ c. c ≡ configuration database.now table.now.locality partition) }
    ensures form { IfOk result HasForm }
    ensures regions { IfOk result NamesTexts }
{
    configuration(alloc, database, &table.locality, partition)
}

pub(crate) fn configuration(
    alloc: Global,
    database: &Database,
    locality: &Option<Locality>,
    partition: Option<usize>,
) -> Result<ZoneConfig, Memory>
    requires { length database.now.regions ≤ 16 }
    ensures { IfOk result (λ c. c ≡ configuration database.now locality.now partition) }
{
    let global = is_global(locality);
    let Some(home) = home_of(database, locality, partition) else {
        return Ok(without_regions(alloc));
    };
    if database.restricted && !global {
        return kept_at(alloc, home);
    }
    spread_over(alloc, database, home, global)
}

fn is_global(locality: &Option<Locality>) -> bool
    ensures { result ≡ is_global locality.now }
{
    matches!(locality, Some(Locality::Global))
}

fn home_of<'a>(
    database: &'a Database,
    locality: &'a Option<Locality>,
    partition: Option<usize>,
) -> Option<&'a Bytes>
    ensures { option_map (λ home. home.now) result ≡ home_of database.now locality.now partition }
{
    let place = match locality {
        None => return None,
        Some(Locality::InRegion { region }) => return Some(region),
        Some(Locality::ByRow) => partition?,
        Some(Locality::InPrimary | Locality::Global) => database.primary?,
    };
    database.regions.as_slice().get(place)
}

fn without_regions(alloc: Global) -> ZoneConfig
    ensures { result ≡ without_regions }
{
    ZoneConfig {
        num_replicas: 1,
        num_voters: 1,
        constraints: ListOf::new(alloc),
        voter_constraints: ListOf::new(alloc),
        lease: None,
        global_reads: false,
        goal: None,
    }
}

fn kept_at(alloc: Global, home: &Bytes) -> Result<ZoneConfig, Memory>
    ensures { IfOk result (λ c. c ≡ kept_at home.now) }
{
    Ok(ZoneConfig {
        num_replicas: 3,
        num_voters: 3,
        constraints: ListOf::new(alloc),
        voter_constraints: only(alloc, home, 3)?,
        lease: Some(home.clone_in(alloc)?),
        global_reads: false,
        goal: Some(Goal::Zone),
    })
}

fn spread_over(
    alloc: Global,
    database: &Database,
    home: &Bytes,
    global: bool,
) -> Result<ZoneConfig, Memory>
    requires { length database.now.regions ≤ 16 }
    ensures { IfOk result (λ c. c ≡ spread_over database.now.goal database.now.regions home.now global) }
{
    let others = (database.regions.len() as u32).saturating_sub(1);
    let (num_replicas, num_voters, at_home) = match database.goal {
        Goal::Zone => (3 + others, 3, 3),
        Goal::Region => (5.max(2 + others), 5, 2),
    };
    Ok(ZoneConfig {
        num_replicas,
        num_voters,
        constraints: one_in_each(alloc, database.regions.as_slice())?,
        voter_constraints: only(alloc, home, at_home)?,
        lease: Some(home.clone_in(alloc)?),
        global_reads: global,
        goal: Some(database.goal),
    })
}

fn only(alloc: Global, region: &Bytes, count: u32) -> Result<ListOf<(Bytes, u32)>, Memory>
    ensures { IfOk result (λ counts. counts ≡ (region.now, count) ∷ []) }
{
    let mut counts = ListOf::new(alloc);
    counts.push((region.clone_in(alloc)?, count))?;
    Ok(counts)
}

fn one_in_each(alloc: Global, regions: &[Bytes]) -> Result<ListOf<(Bytes, u32)>, Memory>
    ensures { IfOk result (λ counts. counts ≡ one_in_each regions.now) }
{
    let mut counts = ListOf::new(alloc);
    for region in regions {
        counts.push((region.clone_in(alloc)?, 1))?;
    }
    Ok(counts)
}
