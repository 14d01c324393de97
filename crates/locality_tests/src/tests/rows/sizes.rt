//! Texts of every length up to 1,100 bytes, and keys of one to sixteen columns.

use super::{is_read_as, pair_of};
use crate::tests::made_tables::{catalog_with, table_in};
use descriptors::Catalog;
use mr_base::{Bytes, Datum, Memory, Row};
use std::alloc::Global;
use std::test::Fail;

/// A text of so many bytes, each third of them zero.
fn text_of(alloc: Global, len: usize) -> Result<Bytes, Memory> {
    let mut text = Vec::new(alloc);
    for place in 0..len {
        text.push(if place % 3 == 0 { 0 } else { b'x' })?;
    }
    Ok(Bytes::from_vec(text))
}

/// Whether a text of so many bytes is written, and then read again.
fn is_kept(alloc: Global, catalog: &Catalog, len: usize) -> Result<bool, Fail> {
    let table = table_in(catalog)?;
    let row = Row::from_vec(vec![in alloc; Datum::Text(text_of(alloc, len)?)]?);
    match pair_of(alloc, table, &row)? {
        None => Ok(false),
        Some(pair) => is_read_as(alloc, table, &pair, &row),
    }
}

/// A value has five bytes before its text, and 1,024 in all at most.
#[test]
fn texts_of_each_length(rt: HostRuntime) -> Result<(), Fail> {
    let catalog = catalog_with(rt.alloc(), 0, "CREATE TABLE t (v STRING PRIMARY KEY)")?;
    for len in 0..1_101 {
        assert_eq!(rt;
            is_kept(rt.alloc(), &catalog, len)?,
            len <= 1_019,
            "at {len}"
        );
    }
    Ok(())
}

const TYPES: [&str; 3] = ["INT", "STRING", "BOOL"];

/// The statement that makes a table of so many columns, all of them in the key, the last first.
fn table_of(alloc: Global, columns: u8) -> Result<String, Fail> {
    let mut text = String::new(alloc);
    text.push_str("CREATE TABLE t (")?;
    for place in 0..columns {
        let ty = TYPES.get(usize::from(place % 3)).copied().unwrap_or("INT");
        text.push_str(&format!(in alloc; "c{place} {ty}, ")?)?;
    }
    text.push_str("PRIMARY KEY (")?;
    for place in (0..columns).rev() {
        text.push_str(&format!(in alloc; "c{place}")?)?;
        text.push_str(if place == 0 { "))" } else { ", " })?;
    }
    Ok(text)
}

/// The values 0, '1', true, 3, '4', false, ..
fn value_at(alloc: Global, place: u8) -> Result<Datum, Memory> {
    match place % 3 {
        0 => Ok(Datum::Int(i64::from(place))),
        1 => Ok(Datum::Text(Bytes::from_slice(alloc, &[b'0'.saturating_add(place)])?)),
        _ => Ok(Datum::Bool(place % 2 == 0)),
    }
}

/// Each of them in a key.
fn push_part(key: &mut Vec<u8>, place: u8) -> Result<(), Fail> {
    match place % 3 {
        0 => key.extend_from_slice(&[0x80, 0, 0, 0, 0, 0, 0, place])?,
        1 => key.extend_from_slice(&[b'0'.saturating_add(place), 0, 1])?,
        _ => key.push(u8::from(place % 2 == 0))?,
    }
    Ok(())
}

fn row_of(alloc: Global, columns: u8) -> Result<Row, Fail> {
    let mut row = Row::new(alloc);
    for place in 0..columns {
        row.push(value_at(alloc, place)?)?;
    }
    Ok(row)
}

fn key_of(alloc: Global, columns: u8) -> Result<Vec<u8>, Fail> {
    let mut key = vec![in alloc; 0]?;
    for place in (0..columns).rev() {
        push_part(&mut key, place)?;
    }
    Ok(key)
}

/// Whether a row of so many columns has that key and is read again.
fn has_its_key(alloc: Global, catalog: &Catalog, columns: u8) -> Result<bool, Fail> {
    let table = table_in(catalog)?;
    let row = row_of(alloc, columns)?;
    match pair_of(alloc, table, &row)? {
        None => Ok(false),
        Some(pair) => Ok(
            pair.key.as_slice() == key_of(alloc, columns)?.as_slice()
                && is_read_as(alloc, table, &pair, &row)?,
        ),
    }
}

#[test]
fn keys_of_one_to_sixteen_columns(rt: HostRuntime) -> Result<(), Fail> {
    for columns in 1..17 {
        let catalog = catalog_with(rt.alloc(), 0, &table_of(rt.alloc(), columns)?)?;
        assert!(rt; has_its_key(rt.alloc(), &catalog, columns)?, "of {columns}");
    }
    Ok(())
}
