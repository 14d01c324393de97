//! Which keys of new rows are looked up, since no other row may have them: the look-ups of INSERT and UPDATE.

ghost use Rattle.std.specs.Prelude.{◌≡◌, ◌≤◌, ◌++◌, All, length, map, slice_get, IfOk, OnOk};
ghost use Rattle.std.specs.Option.{option_copied};
ghost use Rattle.descriptors.specs.Sound.{IsSoundTable};
ghost use Rattle.row_locality.specs.Rows.{Fits, region_of};
ghost use Rattle.sql_eval.specs.Lookups.{key_lookup, key_lookups, own_first, new_row_lookups, changed_row_lookups};
ghost use Rattle.local_search.specs.ChangedKeys.{new_indexes, index_values};

use crate::index_columns::{columns_of, key_span};
use crate::lookups::{Lookup, push_lookups};
use crate::row_values::{is_new_in, value_at, values_at};
use crate::table_partitions::{Partition, is_by_row, near_first};
use descriptors::Table;
use mr_base::{Datum, ListOf, Memory, Row};
use std::alloc::Global;

/// The region in which a row lives.
fn region_of<'a>(t: &Table, row: &'a [Datum]) -> Option<&'a [u8]>
    ensures { option_copied result ≡ region_of t.now row.now }
{
    if !is_by_row(t) {
        return None;
    }
    match value_at(row, t.columns.len())? {
        Datum::Text(region) => Some(region.as_slice()),
        _ => None,
    }
}

/// The partitions, that of a row first.
fn own_first(
    alloc: Global,
    t: &Table,
    row: &[Datum],
    partitions: &[Partition],
) -> Result<ListOf<Partition>, Memory>
    ensures { IfOk result (λ ps. ps ≡ own_first (region_of t.now row.now) partitions.now) }
{
    match region_of(t, row) {
        None => ListOf::copy_of(alloc, partitions),
        Some(region) => near_first(alloc, region, partitions),
    }
}

/// A row's key in an index, in each of these partitions.
fn push_key(
    alloc: Global,
    lookups: &mut ListOf<Lookup>,
    t: &Table,
    ordered: &[Partition],
    index: usize,
    row: &[Datum],
) -> Result<(), Memory>
    requires sound { IsSoundTable t.now }
    requires index { index ≤ length t.now.unique }
    requires fits { Fits t.now row.now }
    ensures { OnOk result (lookups.new ≡ lookups.old ++ map (key_lookup index (index_values t.now index row.now)) ordered.now) }
{
    let values = values_at(alloc, columns_of(t, index), row)?;
    let span = key_span(alloc, t, index, &values)?;
    push_lookups(alloc, lookups, index, &span, ordered)
}

/// The keys of a row that are new, index by index.
fn push_row(
    alloc: Global,
    lookups: &mut ListOf<Lookup>,
    t: &Table,
    partitions: &[Partition],
    old: Option<&[Datum]>,
    new: &[Datum],
) -> Result<(), Memory>
    requires sound { IsSoundTable t.now }
    requires fits { Fits t.now new.now }
    ensures { OnOk result (lookups.new ≡ lookups.old ++ key_lookups t.now partitions.now (new_indexes t.now (option_copied old.entry) new.now) new.now) }
{
    let ordered = own_first(alloc, t, new, partitions)?;
    for index in 0..t.unique.len() + 1 {
        if is_new_in(alloc, old, new, columns_of(t, index))? {
            push_key(alloc, lookups, t, ordered.as_slice(), index, new)?;
        }
    }
    Ok(())
}

/// The look-ups of an INSERT of these rows: each row in all indexes, its own partition first. Source:
/// CockroachDB's documentation of UNIQUE constraints in REGIONAL BY ROW tables, in this project's profile.
pub fn new_row_lookups(
    alloc: Global,
    t: &Table,
    partitions: &[Partition],
    rows: &[Row],
) -> Result<ListOf<Lookup>, Memory>
    requires sound { IsSoundTable t.now }
    requires fit { All (Fits t.now) rows.now }
    ensures { IfOk result (λ ls. ls ≡ new_row_lookups t.now partitions.now rows.now) }
{
    let mut lookups = ListOf::new(alloc);
    for row in rows {
        push_row(alloc, &mut lookups, t, partitions, None, row.as_slice())?;
    }
    Ok(lookups)
}

/// The row at a place.
fn row_at(rows: &[Row], place: usize) -> Option<&Row>
    ensures { option_copied result ≡ slice_get rows.now place }
{
    rows.get(place)
}

/// The look-ups of an UPDATE that makes these new rows of the old ones: each new row in the indexes in which
/// it differs from its old one, its own partition first. Source: as for INSERT.
pub fn changed_row_lookups(
    alloc: Global,
    t: &Table,
    partitions: &[Partition],
    olds: &[Row],
    news: &[Row],
) -> Result<ListOf<Lookup>, Memory>
    requires sound { IsSoundTable t.now }
    requires fit { All (Fits t.now) news.now }
    ensures { IfOk result (λ ls. ls ≡ changed_row_lookups t.now partitions.now olds.now news.now) }
{
    let mut lookups = ListOf::new(alloc);
    for (i, new) in news.iter().enumerate() {
        let Some(old) = row_at(olds, i) else {
            return Ok(lookups);
        };
        let old = Some(old.as_slice());
        push_row(alloc, &mut lookups, t, partitions, old, new.as_slice())?;
    }
    Ok(lookups)
}
