//! Keys of drawn rows order as the rows do.

use super::pair_of;
use crate::tests::made_tables::{catalog_with, table_in};
use descriptors::Catalog;
use mr_base::{Bytes, Datum, Memory, Row};
use std::alloc::Global;
use std::cmp::Ordering;
use std::test::Fail;

/// Numbers that look drawn.
#[derive(Clone, Copy)]
pub struct Draws(pub u64);

impl Draws {
    pub fn next(&mut self) -> u32 {
        self.0 = self
            .0
            .wrapping_mul(6364136223846793005)
            .wrapping_add(1442695040888963407);
        (self.0 >> 33) as u32
    }
}

/// A table whose key names its columns in another order.
pub const THREE: &str = "CREATE TABLE t (n INT, s STRING, b BOOL, PRIMARY KEY (s, n, b))";

/// A few integers, so that two are often equal, and the ends.
const INTS: [i64; 8] = [i64::MIN, i64::MIN + 1, -256, -1, 0, 1, 255, i64::MAX];

/// What texts are put together of.
const PIECES: [&str; 6] = ["\0", "\u{1}", "a", "b", "\u{7f}", "\u{ff}"];

fn drawn_text(alloc: Global, draws: &mut Draws) -> Result<Bytes, Memory> {
    let mut text = Vec::new(alloc);
    for _ in 0..draws.next() % 4 {
        let piece = PIECES
            .get((draws.next() % 6) as usize)
            .copied()
            .unwrap_or("");
        text.extend_from_slice(piece.as_bytes())?;
    }
    Ok(Bytes::from_vec(text))
}

fn drawn_int(draws: &mut Draws) -> i64 {
    let place = (draws.next() % 9) as usize;
    INTS.get(place).copied().unwrap_or(i64::from(draws.next()))
}

/// A row of that table.
pub fn drawn_row(alloc: Global, draws: &mut Draws) -> Result<Row, Memory> {
    let mut row = Row::new(alloc);
    row.push(Datum::Int(drawn_int(draws)))?;
    row.push(Datum::Text(drawn_text(alloc, draws)?))?;
    row.push(Datum::Bool(draws.next() % 2 == 0))?;
    Ok(row)
}

/// The order of two rows by the text, then by the number, then by the last column.
fn order(x: &Row, y: &Row) -> Option<Ordering> {
    match (x.as_slice(), y.as_slice()) {
        (
            [Datum::Int(n), Datum::Text(s), Datum::Bool(b)],
            [Datum::Int(m), Datum::Text(r), Datum::Bool(c)],
        ) => Some(s.as_slice().cmp(r.as_slice()).then(n.cmp(m)).then(b.cmp(c))),
        _ => None,
    }
}

/// The order of the keys of two rows.
fn key_order(alloc: Global, catalog: &Catalog, x: &Row, y: &Row) -> Result<Option<Ordering>, Fail> {
    let table = table_in(catalog)?;
    match (pair_of(alloc, table, x)?, pair_of(alloc, table, y)?) {
        (Some(x), Some(y)) => Ok(Some(x.key.as_slice().cmp(y.key.as_slice()))),
        _ => Ok(None),
    }
}

#[test]
fn keys_order_as_rows_do(rt: HostRuntime) -> Result<(), Fail> {
    let catalog = catalog_with(rt.alloc(), 0, THREE)?;
    let mut draws = Draws(1);
    for drawn in 0..2_000 {
        let x = drawn_row(rt.alloc(), &mut draws)?;
        let y = drawn_row(rt.alloc(), &mut draws)?;
        let keys = key_order(rt.alloc(), &catalog, &x, &y)?;
        assert!(rt; keys.is_some() && keys == order(&x, &y), "pair {drawn}");
    }
    Ok(())
}
