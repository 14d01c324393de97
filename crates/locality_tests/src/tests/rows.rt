//! Rows as keys and values, and read again.

mod drawn;
mod grammar;
mod indexes;
mod layouts;
mod sizes;

use descriptors::Table;
use mr_base::{Bytes, Datum, EvalFault, Memory, Pair, Row, SqlState};
use row_locality::{DecodeFault, decode, encode};
use std::alloc::Global;
use std::test::Fail;

/// A value to write down in a table of tests.
#[derive(Clone, Copy)]
enum Given {
    Int(i64),
    Text(&'static str),
    Bool(bool),
}

impl Given {
    fn datum(self, alloc: Global) -> Result<Datum, Memory> {
        match self {
            Given::Int(n) => Ok(Datum::Int(n)),
            Given::Text(text) => Ok(Datum::Text(Bytes::from_slice(alloc, text.as_bytes())?)),
            Given::Bool(b) => Ok(Datum::Bool(b)),
        }
    }
}

fn row_of(alloc: Global, values: &[Given]) -> Result<Row, Memory> {
    let mut row = Vec::new(alloc);
    for value in values {
        row.push(value.datum(alloc)?)?;
    }
    Ok(Row::from_vec(row))
}

/// The pair of a row, or none where its value is too long.
fn pair_of(alloc: Global, t: &Table, row: &Row) -> Result<Option<Pair>, Fail> {
    match encode(alloc, t, row) {
        Ok(pair) => Ok(Some(pair)),
        Err(EvalFault::State(SqlState::S54000)) => Ok(None),
        Err(_) => Err(Fail::from("no memory")),
    }
}

/// The row of a pair of a table of a database without regions, or none where it is malformed.
fn read(alloc: Global, t: &Table, pair: &Pair) -> Result<Option<Row>, Fail> {
    match &t.locality {
        None => {}
        Some(_) => return Err(Fail::from("a locality")),
    }
    match decode(alloc, t, pair, None) {
        Ok(row) => Ok(Some(row)),
        Err(DecodeFault::Malformed) => Ok(None),
        Err(DecodeFault::Memory) => Err(Fail::from("no memory")),
    }
}

/// Whether a pair is read as this row.
fn is_read_as(alloc: Global, t: &Table, pair: &Pair, row: &Row) -> Result<bool, Fail> {
    match read(alloc, t, pair)? {
        None => Ok(false),
        Some(read) => Ok(read.as_slice() == row.as_slice()),
    }
}
