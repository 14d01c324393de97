//! Which keys of new rows are looked up, and in which order.

ghost use Rattle.std.specs.Prelude.{All, IfOk};
ghost use Rattle.row_locality.specs.Rows.{Fits};

use super::{BY_ROW, partitions_in};
use crate::tests::made_tables::{catalog_with, table_in};
use descriptors::{Catalog, Table};
use local_search::{Lookup, changed_row_lookups, new_row_lookups};
use mr_base::{Bytes, Datum, ListOf, Memory, Row, is_utf8};
use region_sql::Locality;
use row_locality::{decode, encode};
use std::alloc::Global;
use std::test::Fail;

/// An id, a text and a region.
type Given = (i64, &'static str, &'static str);

fn row_of(alloc: Global, given: Given) -> Result<Row, Memory> {
    let mut row = Row::new(alloc);
    row.push(Datum::Int(given.0))?;
    row.push(Datum::Text(Bytes::from_slice(alloc, given.1.as_bytes())?))?;
    row.push(Datum::Text(Bytes::from_slice(alloc, given.2.as_bytes())?))?;
    Ok(row)
}

/// The row as it is read again, which is one that fits the table.
fn fitting(alloc: Global, t: &Table, given: Given) -> Result<Row, Fail>
    ensures { IfOk result (Fits t.now) }
{
    match &t.locality {
        Some(Locality::ByRow) => {}
        _ => return Err(Fail::from("another locality")),
    }
    let region = given.2.as_bytes();
    if !is_utf8(region) {
        return Err(Fail::from("no text"));
    }
    let Ok(pair) = encode(alloc, t, &row_of(alloc, given)?) else {
        return Err(Fail::from("no pair"));
    };
    match decode(alloc, t, &pair, Some(region)) {
        Ok(row) => Ok(row),
        Err(_) => Err(Fail::from("no row")),
    }
}

/// Two rows of the table.
fn two_rows(alloc: Global, t: &Table, given: [Given; 2]) -> Result<Vec<Row>, Fail>
    ensures { IfOk result (λ rows. All (Fits t.now) rows.items) }
{
    let mut rows = Vec::new(alloc);
    rows.push(fitting(alloc, t, given[0])?)?;
    rows.push(fitting(alloc, t, given[1])?)?;
    Ok(rows)
}

/// The range and the index of each look-up.
fn places_of(alloc: Global, lookups: &[Lookup]) -> Result<Vec<(u32, usize)>, Fail> {
    let mut places = Vec::new(alloc);
    for lookup in lookups {
        places.push((lookup.ask().range.0, lookup.index()))?;
    }
    Ok(places)
}

fn inserted(alloc: Global, catalog: &Catalog, rows: [Given; 2]) -> Result<ListOf<Lookup>, Fail> {
    let table = table_in(catalog)?;
    let partitions = partitions_in(alloc, catalog, table)?;
    let rows = two_rows(alloc, table, rows)?;
    Ok(new_row_lookups(alloc, table, partitions.as_slice(), &rows)?)
}

fn updated(
    alloc: Global,
    catalog: &Catalog,
    olds: [Given; 2],
    news: [Given; 2],
) -> Result<ListOf<Lookup>, Fail> {
    let table = table_in(catalog)?;
    let partitions = partitions_in(alloc, catalog, table)?;
    let olds = two_rows(alloc, table, olds)?;
    let news = two_rows(alloc, table, news)?;
    Ok(changed_row_lookups(alloc, table, partitions.as_slice(), &olds, &news)?)
}

/// Row by row, the primary key before the UNIQUE column, each in the row's own partition first.
#[test]
fn rows_of_an_insert(rt: HostRuntime) -> Result<(), Fail> {
    let catalog = catalog_with(rt.alloc(), 3, BY_ROW)?;
    let lookups = inserted(rt.alloc(), &catalog, [(1, "x", "b"), (2, "y", "c")])?;
    let places = places_of(rt.alloc(), lookups.as_slice())?;
    let expected = [
        (2, 0),
        (1, 0),
        (3, 0),
        (2, 1),
        (1, 1),
        (3, 1),
        (3, 0),
        (1, 0),
        (2, 0),
        (3, 1),
        (1, 1),
        (2, 1),
    ];
    assert_eq!(rt; places.as_slice(), expected.as_slice());
    Ok(())
}

const OLD: [Given; 2] = [(1, "x", "a"), (2, "y", "b")];

/// What becomes of the two old rows, and the look-ups.
type Change = (&'static str, [Given; 2], &'static [(u32, usize)]);

const CHANGES: [Change; 5] = [
    ("nothing", OLD, &[]),
    ("the regions", [(1, "x", "b"), (2, "y", "a")], &[]),
    ("a text", [(1, "z", "a"), (2, "y", "b")], &[(1, 1), (2, 1)]),
    ("an id", [(1, "x", "a"), (3, "y", "b")], &[(2, 0), (1, 0)]),
    (
        "both rows",
        [(1, "z", "b"), (3, "u", "b")],
        &[(2, 1), (1, 1), (2, 0), (1, 0), (2, 1), (1, 1)],
    ),
];

/// Whether an UPDATE of the old rows to these looks up these places.
fn looks_up(
    alloc: Global,
    catalog: &Catalog,
    news: [Given; 2],
    places: &[(u32, usize)],
) -> Result<bool, Fail> {
    let lookups = updated(alloc, catalog, OLD, news)?;
    let found = places_of(alloc, lookups.as_slice())?;
    Ok(found.as_slice() == places)
}

#[test]
fn rows_of_an_update(rt: HostRuntime) -> Result<(), Fail> {
    let catalog = catalog_with(rt.alloc(), 2, BY_ROW)?;
    for (changed, news, places) in CHANGES {
        assert!(rt; looks_up(rt.alloc(), &catalog, news, places)?, "{changed}");
    }
    Ok(())
}
