//! Statements on rows. Source: PostgreSQL's forms of the same names, in this project's profile.

use mr_base::{Bytes, ListOf};

/// A value as written. An integer of up to 30 digits is kept as it stands, so that one that is no i64
/// is a fault of its own and no fault of syntax.
#[derive(Drop)]
pub enum Literal {
    Int(i128),
    Text(Bytes),
    Bool(bool),
}

/// The literals of one row of VALUES.
pub type Literals = ListOf<Literal>;

/// How a term compares.
#[derive(Clone, Copy)]
pub enum Comparison {
    /// =
    Eq,
    /// <
    Lt,
    /// <=
    Le,
    /// >
    Gt,
    /// >=
    Ge,
    /// <>
    Ne,
}

/// A condition of WHERE.
#[derive(Drop)]
pub struct Term {
    pub column: Bytes,
    pub op: Comparison,
    pub literal: Literal,
}

/// What UPDATE sets a column to.
#[derive(Drop)]
pub enum Value {
    Literal(Literal),
    Column(Bytes),
    /// column + by
    Plus { column: Bytes, by: i128 },
    /// column - by
    Minus { column: Bytes, by: i128 },
}

/// A column that UPDATE sets.
#[derive(Drop)]
pub struct Target {
    pub column: Bytes,
    pub value: Value,
}

/// What SELECT answers.
#[derive(Drop)]
pub enum Wanted {
    /// *
    All,
    Columns(ListOf<Bytes>),
    /// count(*)
    Count,
}

/// A statement on the rows of one table.
#[derive(Drop)]
pub enum RowStatement {
    Insert {
        table: Bytes,
        columns: ListOf<Bytes>,
        rows: ListOf<Literals>,
    },
    Select {
        table: Bytes,
        wanted: Wanted,
        terms: ListOf<Term>,
    },
    Update {
        table: Bytes,
        targets: ListOf<Target>,
        terms: ListOf<Term>,
    },
    Delete {
        table: Bytes,
        terms: ListOf<Term>,
    },
}
