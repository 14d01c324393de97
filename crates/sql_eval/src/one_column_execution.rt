//! What a statement does on a plain table, as slowly and plainly as can be.

ghost use Rattle.std.specs.Prelude.{◌≡◌, IfOk};
ghost use Rattle.sql_eval.specs.OneColumnExecution.{exec};

use crate::one_column_tables::{has_id, with_id};
use mr_base::{ListOf, Memory, Row, RowList, SqlState};
use region_sql::OneColumnStatement;
use std::alloc::Global;
use std::marker::Model;

/// The answer of a statement, which is how many rows it added or read and the rows that it read, and the
/// table after it.
#[derive(Drop)]
pub struct OneColumnExecution {
    pub count: usize,
    pub rows: RowList,
    pub after: RowList,
}

impl Model for OneColumnExecution {
    ghost use Rattle.sql_eval.specs.OneColumnExecution.{Executed};

    ghost Value = { Executed };

    ghost view = { λ e. record { answer = record { count = e.count; rows = e.rows }; after = e.after } };
}

/// What a statement gives on the table of these rows, which stay as they are: the `Err` within is the
/// statement's fault, and the one without is want of memory.
pub fn execute_one_column(
    alloc: Global,
    statement: OneColumnStatement,
    rows: &[Row],
) -> Result<Result<OneColumnExecution, SqlState>, Memory>
    ensures as_defined { IfOk result (λ given. given ≡ exec statement rows.now) }
{
    match statement {
        OneColumnStatement::Insert(n) => {
            if has_id(n, rows) {
                return Ok(Err(SqlState::S23505));
            }
            let after = with_id(alloc, n, rows)?;
            Ok(Ok(OneColumnExecution {
                count: 1,
                rows: ListOf::new(alloc),
                after,
            }))
        }
        OneColumnStatement::SelectAll => Ok(Ok(OneColumnExecution {
            count: rows.len(),
            rows: ListOf::copy_of(alloc, rows)?,
            after: ListOf::copy_of(alloc, rows)?,
        })),
    }
}
