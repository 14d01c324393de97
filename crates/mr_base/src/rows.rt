//! Values of columns, rows and lists of rows.

ghost use Rattle.std.specs.Prelude.{◌≡◌, IfOk};

use crate::byte_string::Bytes;
use crate::list::ListOf;
use crate::memory::{CloneIn, Memory};
use crate::states::SqlState;
use std::alloc::Global;

/// A value of a column. Integers order by value, texts by bytes, and false stands before true.
#[derive(PartialEq, Eq, PartialOrd, Ord, Drop)]
pub enum Datum {
    Int(i64),
    Text(Bytes),
    Bool(bool),
}

/// A row: one value per column.
pub type Row = ListOf<Datum>;

/// Rows in the order of their primary keys.
pub type RowList = ListOf<Row>;

/// Why an evaluation stopped: a fault of SQL, or want of memory.
#[derive(Clone, Copy)]
pub enum EvalFault {
    State(SqlState),
    Memory,
}

impl CloneIn for Datum {
    fn clone_in(&self, alloc: Global) -> Result<Datum, Memory> {
        match self {
            Datum::Int(n) => Ok(Datum::Int(*n)),
            Datum::Text(text) => Ok(Datum::Text(text.clone_in(alloc)?)),
            Datum::Bool(b) => Ok(Datum::Bool(*b)),
        }
    }
}
