//! Index pairs, the rows to which they lead, and the span of all rows.

ghost use Rattle.descriptors.specs.Sound.{IsSoundTable};

use super::Given::{Bool, Int, Text};
use super::{Given, row_of};
use crate::tests::made_tables::{catalog_with, table_in};
use descriptors::{Catalog, Table};
use mr_base::{Bytes, EvalFault, Memory, Pair, Span};
use row_locality::{DecodeFault, all_rows, index_pairs, primary_of};
use std::alloc::Global;
use std::test::Fail;

const THREE: &str = "CREATE TABLE t (id INT PRIMARY KEY, s STRING UNIQUE, b BOOL UNIQUE)";

const ROW: [Given; 3] = [Int(1), Text("a"), Bool(true)];

const PRIMARY: &[u8] = b"\x00\x80\x00\x00\x00\x00\x00\x00\x01";

/// The keys of the row in the indexes of the UNIQUE columns.
const KEYS: [&[u8]; 2] = [b"\x01a\x00\x01", b"\x02\x01"];

fn pairs_of(alloc: Global, t: &Table, values: &[Given]) -> Result<Vec<Pair>, Fail>
    requires { IsSoundTable t.now }
{
    match index_pairs(alloc, t, &row_of(alloc, values)?) {
        Ok(pairs) => Ok(pairs),
        Err(EvalFault::State(_)) => Err(Fail::from("too long")),
        Err(EvalFault::Memory) => Err(Fail::from("no memory")),
    }
}

fn pair(alloc: Global, key: &[u8], value: &[u8]) -> Result<Pair, Memory> {
    Ok(Pair {
        key: Bytes::from_slice(alloc, key)?,
        value: Bytes::from_slice(alloc, value)?,
    })
}

/// Whether a span is that of a key alone.
fn is_point(span: &Span, key: &[u8]) -> bool {
    span.lo.as_slice() == key && span.hi.as_slice().strip_prefix(key) == Some(b"\x00".as_slice())
}

/// Where the pair in the index of the column at this place leads: to the point of the row, or nowhere.
fn leads(
    alloc: Global,
    catalog: &Catalog,
    number: usize,
    key: &[u8],
    value: &[u8],
) -> Result<bool, Fail> {
    let table = table_in(catalog)?;
    let Some(column) = table.unique.as_slice().get(number) else {
        return Err(Fail::from("no such column"));
    };
    match primary_of(alloc, table, *column, &pair(alloc, key, value)?) {
        Ok(span) => Ok(is_point(&span, value)),
        Err(DecodeFault::Malformed) => Ok(false),
        Err(DecodeFault::Memory) => Err(Fail::from("no memory")),
    }
}

#[test]
fn each_unique_column_has_a_pair(rt: HostRuntime) -> Result<(), Fail> {
    let catalog = catalog_with(rt.alloc(), 0, THREE)?;
    let pairs = pairs_of(rt.alloc(), table_in(&catalog)?, &ROW)?;
    assert_eq!(rt; pairs.len(), 2);
    for (pair, key) in pairs.iter().zip(KEYS) {
        assert!(rt; pair.key.as_slice() == key && pair.value.as_slice() == PRIMARY);
    }
    Ok(())
}

/// An index, a key, a value, and whether they lead to a row.
const LEADS: [(usize, &[u8], &[u8], bool); 11] = [
    (0, b"\x01a\x00\x01", PRIMARY, true),
    (1, b"\x02\x01", PRIMARY, true),
    (1, b"\x02\x00", PRIMARY, true),
    (0, b"\x02\x01", PRIMARY, false),
    (1, b"\x01a\x00\x01", PRIMARY, false),
    (1, b"\x02\x02", PRIMARY, false),
    (0, b"\x01a\x00\x01b", PRIMARY, false),
    (0, b"\x01\xff\x00\x01", PRIMARY, false),
    (
        0,
        b"\x01a\x00\x01",
        b"\x01\x80\x00\x00\x00\x00\x00\x00\x01",
        false,
    ),
    (
        0,
        b"\x01a\x00\x01",
        b"\x00\x80\x00\x00\x00\x00\x00\x00\x01\x00",
        false,
    ),
    (
        0,
        b"\x01a\x00\x01",
        b"\x00\x80\x00\x00\x00\x00\x00\x00",
        false,
    ),
];

#[test]
fn pairs_of_indexes_lead_to_rows(rt: HostRuntime) -> Result<(), Fail> {
    let catalog = catalog_with(rt.alloc(), 0, THREE)?;
    for (number, key, value, there) in LEADS {
        assert_eq!(rt;
            leads(rt.alloc(), &catalog, number, key, value)?,
            there,
            "{key:?} {value:?}"
        );
    }
    let all = all_rows(rt.alloc())?;
    assert!(rt; all.lo.as_slice() == b"\x00".as_slice() && all.hi.as_slice() == b"\x01".as_slice());
    Ok(())
}
