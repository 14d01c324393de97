//! The columns and keys that the items of CREATE TABLE declare.

ghost use Rattle.std.specs.Prelude.{◌≡◌, ◌++◌, IfOk, OnOk, position};
ghost use Rattle.std.specs.List.{list_all};
ghost use Rattle.std.specs.Option.{option_to_list};
ghost use Rattle.std.specs.Str.{bytes_eq};
ghost use Rattle.descriptors.specs.Columns.{columns_of, keys_declared, key_names, unique_from, has_column, has_column_twice, places_of, break_a_rule, make_no_table};

use crate::lists::has_twice;
use mr_base::{Bytes, CloneIn, ListOf, Memory};
use region_sql::{ColumnKey, ColumnType, Item};
use std::alloc::Global;

/// The columns in their order.
pub(crate) fn columns_of(
    alloc: Global,
    items: &[Item],
) -> Result<ListOf<(Bytes, ColumnType)>, Memory>
    ensures { IfOk result (λ columns. columns ≡ columns_of items.now) }
{
    let mut columns = ListOf::new(alloc);
    for item in items {
        if let Item::Column { name, ty, .. } = item {
            columns.push((name.clone_in(alloc)?, *ty))?;
        }
    }
    Ok(columns)
}

/// How many primary keys are declared.
pub(crate) fn keys_declared(items: &[Item]) -> usize
    ensures { result ≡ keys_declared items.now }
{
    let mut keys = 0;
    for item in items {
        match item {
            Item::Column {
                key: ColumnKey::Primary,
                ..
            } => keys += 1,
            Item::Column { .. } => {}
            Item::Key { .. } => keys += 1,
        }
    }
    keys
}

/// The columns that the keys name, in their order.
pub(crate) fn key_names(alloc: Global, items: &[Item]) -> Result<ListOf<Bytes>, Memory>
    ensures { IfOk result (λ names. names ≡ key_names items.now) }
{
    let mut names = ListOf::new(alloc);
    for item in items {
        match item {
            Item::Column {
                name,
                key: ColumnKey::Primary,
                ..
            } => names.push(name.clone_in(alloc)?)?,
            Item::Column { .. } => {}
            Item::Key { columns } => append(alloc, &mut names, columns.as_slice())?,
        }
    }
    Ok(names)
}

/// Copies of more names at the end.
fn append(alloc: Global, names: &mut ListOf<Bytes>, more: &[Bytes]) -> Result<(), Memory>
    ensures { OnOk result (names.new ≡ names.old ++ more.now) }
{
    for name in more {
        names.push(name.clone_in(alloc)?)?;
    }
    Ok(())
}

/// The places of the UNIQUE columns.
pub(crate) fn unique_places(alloc: Global, items: &[Item]) -> Result<ListOf<usize>, Memory>
    ensures { IfOk result (λ places. places ≡ unique_from 0 items.now) }
{
    let mut places = ListOf::new(alloc);
    let mut place = 0;
    for item in items {
        if let Item::Column { key, .. } = item {
            if let ColumnKey::Unique = key {
                places.push(place)?;
            }
            place += 1;
        }
    }
    Ok(places)
}

/// Whether a column has this name.
fn has_column(columns: &[(Bytes, ColumnType)], name: &[u8]) -> bool
    ensures { result ≡ has_column columns.now name.now }
{
    columns.iter().any(|c| name == c.0.as_slice())
}

/// The place of the column of this name.
fn place_of_column(columns: &[(Bytes, ColumnType)], name: &[u8]) -> Option<usize>
    ensures { result ≡ position (λ c. bytes_eq name.now c.0) columns.now }
{
    columns.iter().position(|c| name == c.0.as_slice())
}

/// Whether a column is named twice.
fn has_column_twice(columns: &[(Bytes, ColumnType)]) -> bool
    ensures { result ≡ has_column_twice columns.now }
{
    for (i, column) in columns.iter().enumerate() {
        if has_column(&columns[i + 1..], column.0.as_slice()) {
            return true;
        }
    }
    false
}

/// Whether each of the names is a column.
fn has_columns(columns: &[(Bytes, ColumnType)], names: &[Bytes]) -> bool
    ensures { result ≡ list_all (has_column columns.now) names.now }
{
    names.iter().all(|n| has_column(columns, n.as_slice()))
}

/// The places of these columns.
pub(crate) fn places_of(
    alloc: Global,
    columns: &[(Bytes, ColumnType)],
    names: &[Bytes],
) -> Result<ListOf<usize>, Memory>
    ensures { IfOk result (λ places. places ≡ places_of columns.now names.now) }
{
    let mut places = ListOf::new(alloc);
    for name in names {
        push_some(&mut places, place_of_column(columns, name.as_slice()))?;
    }
    Ok(places)
}

/// Adds a place, if there is one.
fn push_some(places: &mut ListOf<usize>, place: Option<usize>) -> Result<(), Memory>
    ensures { OnOk result (places.new ≡ places.old ++ option_to_list place) }
{
    if let Some(place) = place {
        places.push(place)?;
    }
    Ok(())
}

/// Whether the items make no table.
pub(crate) fn make_no_table(alloc: Global, items: &[Item]) -> Result<bool, Memory>
    ensures { IfOk result (λ none. none ≡ make_no_table items.now) }
{
    if keys_declared(items) != 1 {
        return Ok(true);
    }
    let names = key_names(alloc, items)?;
    if names.is_empty() {
        return Ok(true);
    }
    let columns = columns_of(alloc, items)?;
    Ok(break_a_rule(columns.as_slice(), names.as_slice()))
}

/// Whether these columns, with these in the key, make no table.
fn break_a_rule(columns: &[(Bytes, ColumnType)], names: &[Bytes]) -> bool
    ensures { result ≡ break_a_rule columns.now names.now }
{
    columns.len() > 16
        || has_column_twice(columns)
        || has_column(columns, b"crdb_region")
        || !has_columns(columns, names)
        || has_twice(names)
}
