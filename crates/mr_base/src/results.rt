//! The answers of statements.

use crate::list::ListOf;
use crate::memory::{CloneIn, Memory};
use crate::rows::RowList;
use std::alloc::Global;

/// The verb of a row statement.
#[derive(Clone, Copy, PartialEq, Eq)]
pub enum Verb {
    Insert,
    Update,
    Delete,
    Select,
}

/// The answer of one statement.
#[derive(Drop)]
pub struct StatementResult {
    pub verb: Verb,
    /// How many rows it added, changed, deleted or read.
    pub count: u64,
    /// The rows of a SELECT; of another statement none.
    pub rows: RowList,
}

impl CloneIn for StatementResult {
    fn clone_in(&self, alloc: Global) -> Result<StatementResult, Memory> {
        Ok(StatementResult {
            verb: self.verb,
            count: self.count,
            rows: self.rows.clone_in(alloc)?,
        })
    }
}
