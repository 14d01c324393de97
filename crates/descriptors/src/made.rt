//! New databases and tables.

ghost use Rattle.std.specs.Prelude.{◌≡◌, IfOk};
ghost use Rattle.std.specs.Option.{option_map};
ghost use Rattle.descriptors.specs.Changes.{database_made, locality_made, table_made};
ghost use Rattle.descriptors.specs.Refusals.{regions_made};

use crate::columns::{columns_of, key_names, places_of, unique_places};
use crate::database::Database;
use crate::lists::push_without;
use crate::table::Table;
use mr_base::{Bytes, CloneIn, ListOf, Memory};
use region_sql::{Goal, Item, Locality};
use std::alloc::Global;

/// The regions of a new database: the primary region, then the others as listed.
fn regions_made(
    alloc: Global,
    primary: &Option<Bytes>,
    regions: &[Bytes],
) -> Result<ListOf<Bytes>, Memory>
    ensures { IfOk result (λ made. made ≡ regions_made primary.now regions.now) }
{
    let mut made = ListOf::new(alloc);
    if let Some(primary) = primary {
        made.push(primary.clone_in(alloc)?)?;
        push_without(alloc, &mut made, primary.as_slice(), regions)?;
    }
    Ok(made)
}

/// The place of the primary region of a new database.
fn first_place(primary: &Option<Bytes>) -> Option<usize>
    ensures { result ≡ option_map (λ _. 0) primary.now }
{
    primary.as_ref().map(|_| 0)
}

/// A new database.
pub(crate) fn database_made(
    alloc: Global,
    name: &[u8],
    primary: &Option<Bytes>,
    regions: &[Bytes],
    goal: Option<Goal>,
) -> Result<Database, Memory>
    ensures { IfOk result (λ d. d ≡ database_made name.now primary.now regions.now goal) }
{
    let name = Bytes::from_slice(alloc, name)?;
    let regions = regions_made(alloc, primary, regions)?;
    Ok(Database {
        name,
        regions,
        primary: first_place(primary),
        goal: goal.unwrap_or(Goal::Zone),
        restricted: false,
    })
}

/// Where a new table lives.
fn locality_made(
    alloc: Global,
    database: &Database,
    locality: &Option<Locality>,
) -> Result<Option<Locality>, Memory>
    ensures { IfOk result (λ made. made ≡ locality_made database.now locality.now) }
{
    if !database.has_regions() {
        return Ok(None);
    }
    match locality {
        Some(locality) => Ok(Some(locality.clone_in(alloc)?)),
        None => Ok(Some(Locality::InPrimary)),
    }
}

/// A new table of a database.
pub(crate) fn table_made(
    alloc: Global,
    database: &Database,
    name: &[u8],
    items: &[Item],
    locality: &Option<Locality>,
) -> Result<Table, Memory>
    ensures { IfOk result (λ t. t ≡ table_made database.now name.now items.now locality.now) }
{
    let name = Bytes::from_slice(alloc, name)?;
    let columns = columns_of(alloc, items)?;
    let names = key_names(alloc, items)?;
    let key = places_of(alloc, columns.as_slice(), names.as_slice())?;
    let unique = unique_places(alloc, items)?;
    let locality = locality_made(alloc, database, locality)?;
    Ok(Table {
        name,
        database: database.name.clone_in(alloc)?,
        columns,
        key,
        unique,
        locality,
    })
}
