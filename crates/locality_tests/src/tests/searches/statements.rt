//! Which index and which partitions a statement looks up.

use super::{BY_ROW, ranges_of, search_of};
use crate::tests::made_tables::{catalog_with, table_in};
use descriptors::Catalog;
use local_search::{Lookup, led_to};
use mr_base::{Bytes, Pair};
use std::alloc::Global;
use std::test::Fail;

/// A statement, the index by which it finds rows, and the ranges that it looks up from the third of four
/// regions.
type Line = (&'static str, Option<usize>, &'static [u32]);

const LINES: [Line; 16] = [
    ("SELECT * FROM t WHERE id = 7", Some(0), &[3, 1, 2, 4]),
    ("DELETE FROM t WHERE s = 'x'", Some(1), &[3, 1, 2, 4]),
    (
        "UPDATE t SET s = 'y' WHERE s = 'x' AND id = 7",
        Some(0),
        &[3, 1, 2, 4],
    ),
    (
        "SELECT * FROM t WHERE id > 7 AND s = 'x'",
        Some(1),
        &[3, 1, 2, 4],
    ),
    (
        "SELECT * FROM t WHERE id = 7 AND id = 8",
        Some(0),
        &[3, 1, 2, 4],
    ),
    ("SELECT * FROM t", None, &[1, 2, 3, 4]),
    ("SELECT count(*) FROM t WHERE id >= 7", None, &[1, 2, 3, 4]),
    ("SELECT * FROM t WHERE s <> 'x'", None, &[1, 2, 3, 4]),
    (
        "SELECT * FROM t WHERE id = 7 AND crdb_region = 'b'",
        Some(0),
        &[2],
    ),
    (
        "DELETE FROM t WHERE crdb_region = 'd' AND s = 'x'",
        Some(1),
        &[4],
    ),
    ("SELECT * FROM t WHERE crdb_region = 'a'", None, &[1]),
    (
        "SELECT * FROM t WHERE crdb_region = 'b' AND crdb_region = 'c'",
        None,
        &[2],
    ),
    (
        "SELECT * FROM t WHERE crdb_region <> 'b' AND id = 7",
        Some(0),
        &[3, 1, 2, 4],
    ),
    (
        "SELECT * FROM t WHERE crdb_region <= 'b'",
        None,
        &[1, 2, 3, 4],
    ),
    (
        "SELECT * FROM t WHERE crdb_region <> 'a' AND crdb_region = 'd'",
        None,
        &[4],
    ),
    (
        "SELECT * FROM t WHERE id = 7 AND crdb_region = 'mars'",
        Some(0),
        &[],
    ),
];

/// Whether a statement from that gateway looks up these ranges in this index.
fn looks_up(
    alloc: Global,
    catalog: &Catalog,
    gateway: &[u8],
    text: &str,
    index: Option<usize>,
    ranges: &[u32],
) -> Result<bool, Fail> {
    let search = search_of(alloc, catalog, gateway, text)?;
    let found = ranges_of(alloc, search.lookups.as_slice())?;
    Ok(search.index == index && found.as_slice() == ranges)
}

#[test]
fn statements_look_up_partitions(rt: HostRuntime) -> Result<(), Fail> {
    let catalog = catalog_with(rt.alloc(), 4, BY_ROW)?;
    for (text, index, ranges) in LINES {
        assert!(rt;
            looks_up(rt.alloc(), &catalog, b"c", text, index, ranges)?,
            "{text}"
        );
    }
    Ok(())
}

const ONE_RANGE: &str = "CREATE TABLE t (id INT PRIMARY KEY, s STRING UNIQUE)";

/// Tables, and the ranges that a gateway outside the database's regions looks up.
const FAR: [(&str, &[u32]); 2] = [(BY_ROW, &[1, 2, 3]), (ONE_RANGE, &[1])];

#[test]
fn catalog_order_where_nothing_is_near(rt: HostRuntime) -> Result<(), Fail> {
    for (table, ranges) in FAR {
        let catalog = catalog_with(rt.alloc(), 3, table)?;
        let text = "SELECT * FROM t WHERE id = 7";
        assert!(rt;
            looks_up(rt.alloc(), &catalog, b"p", text, Some(0), ranges)?,
            "{table}"
        );
    }
    Ok(())
}

/// A statement, and the span that it looks up.
const SPANS: [(&str, &[u8], &[u8]); 3] = [
    (
        "SELECT * FROM t WHERE id = 1",
        b"\x00\x80\x00\x00\x00\x00\x00\x00\x01",
        b"\x00\x80\x00\x00\x00\x00\x00\x00\x01\x00",
    ),
    (
        "SELECT * FROM t WHERE s = 'a'",
        b"\x01a\x00\x01",
        b"\x01a\x00\x01\x00",
    ),
    ("SELECT * FROM t", b"\x00", b"\x01"),
];

/// Whether each look-up is of this span.
fn each_span_is(lookups: &[Lookup], lo: &[u8], hi: &[u8]) -> bool {
    for lookup in lookups {
        let span = &lookup.ask().span;
        if span.lo.as_slice() != lo || span.hi.as_slice() != hi {
            return false;
        }
    }
    true
}

#[test]
fn spans_of_look_ups(rt: HostRuntime) -> Result<(), Fail> {
    let catalog = catalog_with(rt.alloc(), 2, BY_ROW)?;
    for (text, lo, hi) in SPANS {
        let search = search_of(rt.alloc(), &catalog, b"b", text)?;
        assert!(rt; each_span_is(search.lookups.as_slice(), lo, hi), "{text}");
    }
    Ok(())
}

/// Where a pair of the index of `s` leads: the range, and the key of the row.
fn row_led_to(
    alloc: Global,
    catalog: &Catalog,
    by: &Lookup,
    pairs: &[Pair],
) -> Result<Option<Lookup>, Fail> {
    let table = table_in(catalog)?;
    if by.index() == 0 || by.index() > table.unique.len() {
        return Err(Fail::from("no UNIQUE column"));
    }
    Ok(led_to(alloc, table, by, pairs)?)
}

fn index_pair(alloc: Global, value: &[u8]) -> Result<Vec<Pair>, Fail> {
    let pair = Pair {
        key: Bytes::from_slice(alloc, b"\x01a\x00\x01")?,
        value: Bytes::from_slice(alloc, value)?,
    };
    Ok(vec![in alloc; pair]?)
}

const PRIMARY: &[u8] = b"\x00\x80\x00\x00\x00\x00\x00\x00\x01";

/// Whether these pairs, found by a look-up, lead to the point of that row in the same partition.
fn leads_to_the_row(
    alloc: Global,
    catalog: &Catalog,
    by: &Lookup,
    pairs: &[Pair],
) -> Result<bool, Fail> {
    let Some(row) = row_led_to(alloc, catalog, by, pairs)? else {
        return Ok(false);
    };
    Ok(
        row.index() == 0
            && row.region() == by.region()
            && row.ask().range == by.ask().range
            && row.ask().span.lo.as_slice() == PRIMARY,
    )
}

#[test]
fn an_index_pair_leads_to_its_row(rt: HostRuntime) -> Result<(), Fail> {
    let catalog = catalog_with(rt.alloc(), 3, BY_ROW)?;
    let search = search_of(rt.alloc(), &catalog, b"b", "SELECT * FROM t WHERE s = 'a'")?;
    let pairs = index_pair(rt.alloc(), PRIMARY)?;
    for by in search.lookups.as_slice() {
        assert!(rt; leads_to_the_row(rt.alloc(), &catalog, by, &pairs)?);
    }
    Ok(())
}

/// Whether a value that is no primary key leads nowhere, and no pair either.
fn leads_nowhere(alloc: Global, catalog: &Catalog, by: &Lookup) -> Result<bool, Fail> {
    let broken = index_pair(alloc, b"\x00\x80")?;
    if row_led_to(alloc, catalog, by, &broken)?.is_some() {
        return Ok(false);
    }
    Ok(row_led_to(alloc, catalog, by, &[])?.is_none())
}

#[test]
fn other_pairs_lead_nowhere(rt: HostRuntime) -> Result<(), Fail> {
    let catalog = catalog_with(rt.alloc(), 1, BY_ROW)?;
    let search = search_of(rt.alloc(), &catalog, b"a", "SELECT * FROM t WHERE s = 'a'")?;
    for by in search.lookups.as_slice() {
        assert!(rt; leads_nowhere(rt.alloc(), &catalog, by)?);
    }
    Ok(())
}
