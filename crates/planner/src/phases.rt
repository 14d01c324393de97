//! The phases of a statement.

ghost use Rattle.std.specs.Prelude.{◌≡◌, drop};

use crate::keyed_rows::KeyedRows;
use crate::row_writes::StatementOutcome;
use local_search::Lookup;
use mr_base::{ListOf, SqlState};

/// A search by an index through the partitions of a table, to the first that holds a pair of the key. The
/// first so many look-ups were answered, and met none.
#[derive(Drop)]
pub(crate) struct IndexSearch {
    pub(crate) index: usize,
    pub(crate) lookups: ListOf<Lookup>,
    pub(crate) passed: usize,
}

/// Rows that are read, span by span, to the end. Those of the first so many look-ups are among the rows.
#[derive(Drop)]
pub(crate) struct RowScan {
    /// Whether this is the statement's first search.
    pub(crate) is_first: bool,
    pub(crate) lookups: ListOf<Lookup>,
    pub(crate) passed: usize,
    pub(crate) rows: KeyedRows,
}

/// The look-ups of a statement's new rows, to the first that meets a row which the statement doesn't replace.
/// The first so many were answered, and met none.
#[derive(Drop)]
pub(crate) struct UniqueCheck {
    pub(crate) lookups: ListOf<Lookup>,
    pub(crate) passed: usize,
    pub(crate) replaced: KeyedRows,
    /// Whether two of the new rows have an equal primary key or UNIQUE value.
    pub(crate) has_twins: bool,
    /// What the statement comes to where its new rows meet no other one.
    pub(crate) outcome: StatementOutcome,
}

/// Where a statement stands.
#[derive(Drop)]
pub(crate) enum Phase {
    /// Nothing of it was done.
    Ready,
    Searching(IndexSearch),
    Scanning(RowScan),
    Checking(UniqueCheck),
}

/// How a statement begins.
#[derive(Drop)]
pub(crate) enum Begun {
    Goes(Phase),
    Faulty(SqlState),
}

/// How a statement goes on when it has found its rows.
#[derive(Drop)]
pub(crate) enum Found {
    Goes(UniqueCheck),
    Faulty(SqlState),
}

/// The look-ups behind so many.
pub(crate) fn rest_of(lookups: &[Lookup], passed: usize) -> &[Lookup]
    ensures { result.now ≡ drop passed lookups.now }
{
    if passed < lookups.len() {
        return &lookups[passed..];
    }
    &[]
}
