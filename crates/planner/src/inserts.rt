//! INSERT: its rows and their look-ups.

ghost use Rattle.std.specs.Prelude.{◌≡◌, [], All, IfOk, None, Some};
ghost use Rattle.region_sql.specs.TextLiterals.{TextsAreUtf8};
ghost use Rattle.row_locality.specs.Plain.{IsRowOf};
ghost use Rattle.sql_eval.specs.Evaluation.{additions, partitions_of};
ghost use Rattle.sql_eval.specs.Execution.{named_table};
ghost use Rattle.sql_eval.specs.Faults.{check_fault};
ghost use Rattle.sql_eval.specs.Laws.{IsSoundSetting};
ghost use Rattle.sql_eval.specs.Lookups.{new_row_lookups};
ghost use Rattle.sql_eval.specs.RowWords.{has_twins};
ghost use Rattle.sql_eval.specs.Tables.{named};
ghost use Rattle.planner.specs.Turns.{IsBegun};

use crate::keyed_rows::KeyedRows;
use crate::phases::{Begun, Phase, UniqueCheck};
use crate::row_writes::{StatementOutcome, replacements};
use crate::setting::{PlanSetting, partitions_of};
use local_search::new_row_lookups;
use mr_base::{Bytes, EvalFault, Memory, Row, StatementResult};
use region_sql::{Literals, RowStatement};
use sql_eval::{NamedTable, RowChanges, default_region, has_twins, insert};
use std::alloc::Global;

/// The check of the rows that an INSERT without a fault of its own makes, or the fault 54000.
pub(crate) fn begin_insert(
    alloc: Global,
    setting: &PlanSetting,
    n: &NamedTable,
    table: &[u8],
    columns: &[Bytes],
    rows: &[Literals],
) -> Result<Begun, Memory>
    requires sound { IsSoundSetting setting.now }
    requires table { named_table setting.now.layout.catalog table.now ≡ Some (named n.now) }
    requires texts { TextsAreUtf8 (RowStatement.Insert table.now columns.now rows.now) }
    requires checked { check_fault n.now.table.now n.now.database.now
        (RowStatement.Insert table.now columns.now rows.now) ≡ None }
    ensures { IfOk result (IsBegun setting.now.layout setting.now.region (named n.now)
        (RowStatement.Insert table.now columns.now rows.now)) }
{
    let region = default_region(n.database, setting.region());
    let RowChanges { answer, new, .. } = match insert(alloc, n.table, region, columns, rows) {
        Ok(changes) => changes,
        Err(EvalFault::Memory) => return Err(Memory),
        Err(EvalFault::State(code)) => return Ok(Begun::Faulty(code)),
    };
    let check = check_of_made(alloc, setting, n, table, new.as_slice(), answer)?;
    Ok(Begun::Goes(Phase::Checking(check)))
}

/// The check of the rows that an INSERT with this answer makes.
fn check_of_made(
    alloc: Global,
    setting: &PlanSetting,
    n: &NamedTable,
    table: &[u8],
    made: &[Row],
    answer: StatementResult,
) -> Result<UniqueCheck, Memory>
    requires sound { IsSoundSetting setting.now }
    requires table { named_table setting.now.layout.catalog table.now ≡ Some (named n.now) }
    requires made { All (IsRowOf setting.now.layout.catalog n.now.table.now) made.now }
    ensures { IfOk result (λ check. check ≡ record {
      lookups = new_row_lookups n.now.table.now (partitions_of setting.now.layout (named n.now)) made.now;
      passed = 0;
      replaced = [];
      has_twins = has_twins n.now.table.now made.now;
      outcome = record {
        answer = answer;
        writes = additions setting.now.layout (named n.now) made.now;
      };
    }) }
{
    let partitions = partitions_of(alloc, setting, n, table)?;
    let lookups = new_row_lookups(alloc, n.table, partitions.as_slice(), made)?;
    let writes = replacements(alloc, setting, n, table, &[], made)?;
    Ok(UniqueCheck {
        lookups,
        passed: 0,
        replaced: KeyedRows::new(alloc),
        has_twins: has_twins(n.table, made),
        outcome: StatementOutcome { answer, writes },
    })
}
