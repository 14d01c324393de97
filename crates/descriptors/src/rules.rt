//! The tests of which the refusals are made.

ghost use Rattle.std.specs.Prelude.{◌≡◌, ◌≤◌, ◌+◌, ◌&&◌, not, nat_lt, length, false, true, is_some, unwrap_or};
ghost use Rattle.std.specs.List.{list_any, list_all};
ghost use Rattle.std.specs.Option.{option_map_or};
ghost use Rattle.std.specs.Str.{bytes_eq};
ghost use Rattle.descriptors.specs.Lists.{has_name, without};
ghost use Rattle.descriptors.specs.Refusals.{first_of, fits, has_regions, lives_in, misses_locality, misses_region, primary_region, regions_made, survives_region};

use crate::database::Database;
use crate::lists::has_name;
use crate::refusals::CatalogRefusal;
use crate::table::Table;
use mr_base::Bytes;
use region_sql::{Goal, Locality};

/// The first refusal whose test holds.
pub(crate) fn first_of(rows: &[(bool, CatalogRefusal)]) -> Option<CatalogRefusal>
    ensures { result ≡ first_of rows.now }
{
    for row in rows {
        if row.0 {
            return Some(row.1);
        }
    }
    None
}

/// Whether the goal is to survive the loss of a region.
pub(crate) fn survives_region(goal: Goal) -> bool
    ensures { result ≡ survives_region goal }
{
    matches!(goal, Goal::Region)
}

/// How many of these are other names.
pub(crate) fn count_without(name: &[u8], names: &[Bytes]) -> usize
    ensures count { result ≡ length (without name.now names.now) }
    ensures few { result ≤ length names.now }
{
    let mut others = 0;
    for n in names {
        if name != n.as_slice() {
            others += 1;
        }
    }
    others
}

/// How many regions a new database gets.
pub(crate) fn count_made(primary: &Option<Bytes>, regions: &[Bytes]) -> usize
    ensures { result ≡ length (regions_made primary.now regions.now) }
{
    match primary {
        Some(primary) => 1 + count_without(primary.as_slice(), regions),
        None => 0,
    }
}

/// Whether each of the names is among these.
fn has_names(names: &[Bytes], wanted: &[Bytes]) -> bool
    ensures { result ≡ list_all (has_name names.now) wanted.now }
{
    wanted.iter().all(|n| has_name(names, n.as_slice()))
}

/// Whether the name is among these, if there is one.
fn has_optional(names: &[Bytes], wanted: &Option<Bytes>) -> bool
    ensures { result ≡ option_map_or (has_name names.now) wanted.now true }
{
    match wanted {
        Some(name) => has_name(names, name.as_slice()),
        None => true,
    }
}

/// Whether all the regions given are among these.
pub(crate) fn has_all(names: &[Bytes], primary: &Option<Bytes>, regions: &[Bytes]) -> bool
    ensures { result ≡ (option_map_or (has_name names.now) primary.now true && list_all (has_name names.now) regions.now) }
{
    has_optional(names, primary) && has_names(names, regions)
}

/// Whether so many regions are too few for the goal.
pub(crate) fn are_too_few(goal: Option<Goal>, count: usize) -> bool
    ensures { result ≡ (survives_region (unwrap_or goal Goal.Zone) && nat_lt count 3) }
{
    survives_region(goal.unwrap_or(Goal::Zone)) && count < 3
}

/// Whether a locality names no region that isn't among these.
fn fits(regions: &[Bytes], locality: &Locality) -> bool
    ensures { result ≡ fits regions.now locality.now }
{
    match locality {
        Locality::InRegion { region } => has_name(regions, region.as_slice()),
        Locality::InPrimary | Locality::ByRow | Locality::Global => true,
    }
}

/// Whether a table is REGIONAL BY TABLE IN this region.
fn lives_in(region: &[u8], locality: &Option<Locality>) -> bool
    ensures { result ≡ lives_in region.now locality.now }
{
    match locality {
        Some(Locality::InRegion { region: home }) => region == home.as_slice(),
        _ => false,
    }
}

/// Whether a table of the database is REGIONAL BY TABLE IN this region.
pub(crate) fn has_home(tables: &[Table], name: &[u8], region: &[u8]) -> bool
    ensures { result ≡ list_any (λ t. bytes_eq name.now t.database && lives_in region.now t.locality) tables.now }
{
    tables.iter().any(|t| name == t.database.as_slice() && lives_in(region, &t.locality))
}

impl Database {
    /// Whether it has regions, and then a primary region.
    pub(crate) fn has_regions(&self) -> bool
        ensures { result ≡ has_regions self.now }
    {
        self.primary.is_some()
    }

    /// Whether it has regions, and this isn't one of them.
    pub(crate) fn misses_region(&self, region: &[u8]) -> bool
        ensures { result ≡ misses_region region.now self.now }
    {
        self.has_regions() && !has_name(self.regions.as_slice(), region)
    }

    /// Whether it has regions, but not those that a locality names.
    pub(crate) fn misses_locality(&self, locality: &Locality) -> bool
        ensures { result ≡ misses_locality locality.now self.now }
    {
        self.has_regions() && !fits(self.regions.as_slice(), locality)
    }

    /// Whether it has regions, but not those that a locality names, if there is one.
    pub(crate) fn misses_some_locality(&self, locality: &Option<Locality>) -> bool
        ensures { result ≡ option_map_or (λ l. misses_locality l self.now) locality.now false }
    {
        match locality {
            Some(locality) => self.misses_locality(locality),
            None => false,
        }
    }

    /// Whether it has no regions, but a locality is given.
    pub(crate) fn needs_none(&self, locality: &Option<Locality>) -> bool
        ensures { result ≡ (not (has_regions self.now) && is_some locality.now) }
    {
        !self.has_regions() && locality.is_some()
    }

    /// Whether this is its primary region.
    pub(crate) fn is_primary(&self, region: &[u8]) -> bool
        ensures { result ≡ option_map_or (bytes_eq region.now) (primary_region self.now) false }
    {
        match self.primary_region() {
            Some(primary) => region == primary.as_slice(),
            None => false,
        }
    }
}
