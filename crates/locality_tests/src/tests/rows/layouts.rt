//! The bytes of single values.

use super::Given::{Bool, Int, Text};
use super::{Given, is_read_as, pair_of, row_of};
use crate::tests::made_tables::{catalog_with, table_in};
use descriptors::Catalog;
use std::alloc::Global;
use std::test::Fail;

/// Rows of one value: the statement that makes the table, then each value with its key and its row's value.
const INTS: &str = "CREATE TABLE t (v INT PRIMARY KEY)";

const TEXTS: &str = "CREATE TABLE t (v STRING PRIMARY KEY)";

const BOOLS: &str = "CREATE TABLE t (v BOOL PRIMARY KEY)";

type Line = (&'static str, Given, &'static [u8], &'static [u8]);

const LINES: [Line; 13] = [
    (
        INTS,
        Int(i64::MIN),
        b"\x00\x00\x00\x00\x00\x00\x00\x00\x00",
        b"\x01\x80\x00\x00\x00\x00\x00\x00\x00",
    ),
    (
        INTS,
        Int(-1),
        b"\x00\x7f\xff\xff\xff\xff\xff\xff\xff",
        b"\x01\xff\xff\xff\xff\xff\xff\xff\xff",
    ),
    (
        INTS,
        Int(0),
        b"\x00\x80\x00\x00\x00\x00\x00\x00\x00",
        b"\x01\x00\x00\x00\x00\x00\x00\x00\x00",
    ),
    (
        INTS,
        Int(258),
        b"\x00\x80\x00\x00\x00\x00\x00\x01\x02",
        b"\x01\x00\x00\x00\x00\x00\x00\x01\x02",
    ),
    (
        INTS,
        Int(i64::MAX),
        b"\x00\xff\xff\xff\xff\xff\xff\xff\xff",
        b"\x01\x7f\xff\xff\xff\xff\xff\xff\xff",
    ),
    (TEXTS, Text(""), b"\x00\x00\x01", b"\x02\x00\x00\x00\x00"),
    (TEXTS, Text("a"), b"\x00a\x00\x01", b"\x02\x00\x00\x00\x01a"),
    (
        TEXTS,
        Text("\0"),
        b"\x00\x00\xff\x00\x01",
        b"\x02\x00\x00\x00\x01\x00",
    ),
    (
        TEXTS,
        Text("a\0\0b\x01"),
        b"\x00a\x00\xff\x00\xffb\x01\x00\x01",
        b"\x02\x00\x00\x00\x05a\x00\x00b\x01",
    ),
    (
        TEXTS,
        Text("\u{ff}"),
        b"\x00\xc3\xbf\x00\x01",
        b"\x02\x00\x00\x00\x02\xc3\xbf",
    ),
    (
        TEXTS,
        Text("\0\u{ff}"),
        b"\x00\x00\xff\xc3\xbf\x00\x01",
        b"\x02\x00\x00\x00\x03\x00\xc3\xbf",
    ),
    (BOOLS, Bool(false), b"\x00\x00", b"\x03\x00"),
    (BOOLS, Bool(true), b"\x00\x01", b"\x03\x01"),
];

/// Whether a value has this key and this row's value, and is read again.
fn is_laid_out(
    alloc: Global,
    catalog: &Catalog,
    value: Given,
    bytes: (&[u8], &[u8]),
) -> Result<bool, Fail> {
    let table = table_in(catalog)?;
    let row = row_of(alloc, &[value])?;
    match pair_of(alloc, table, &row)? {
        None => Ok(false),
        Some(pair) => Ok(
            pair.key.as_slice() == bytes.0
                && pair.value.as_slice() == bytes.1
                && is_read_as(alloc, table, &pair, &row)?,
        ),
    }
}

#[test]
fn values_are_laid_out(rt: HostRuntime) -> Result<(), Fail> {
    for (statement, value, key, bytes) in LINES {
        let catalog = catalog_with(rt.alloc(), 0, statement)?;
        assert!(rt;
            is_laid_out(rt.alloc(), &catalog, value, (key, bytes))?,
            "{bytes:?}"
        );
    }
    Ok(())
}
